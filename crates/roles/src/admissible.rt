// Whether statements are admissible: all role facts are marked, and then each statement's condition is tested.
ghost use Rattle.std.specs.Prelude.{◌≡◌, ℕ, ◌<◌, false, Decides, MatchOption, MatchResult};
ghost use Rattle.rules.specs.Fits.{WellFormed};
ghost use Rattle.rules.specs.Refusals.{refusal};
ghost use Rattle.rules.specs.declared.refusals.Reason.TheVariants.{NotAdmissible};
ghost use Rattle.roles.specs.Roles.{RoleTree, IsSimple, IsRange, IsCovered, Keeps, RangesWithin, Admissible, FirstBreaking};
ghost use Rattle.roles.specs.RoleNumbers.{numbers, Inside, Judged};

use crate::facts::RoleFact;
use crate::role_rules::RoleRules;
use marks::mark::mark;
use marks::rules::RuleSet;
use marks::store::MarkStore;
use rules::base::RuleBase;
use rules::refusals::{Reason, Refusal};
use rules::statements::Statement;
use wordtable::WordTable;

/// The place of the first statement that breaks its condition; `None` where the statements are admissible.
pub fn first_breaking(base: &RuleBase<'_>) -> Option<usize>
    ensures { MatchOption result (Admissible base.now.statements.now) (λ p. FirstBreaking base.now.statements.now p) }
{
    let rules = RoleRules { base: *base };
    // A bit for each of 8,224 role facts, the most that there can be: the engine uses no heap.
    let mut words = [0u64; 129];
    let mut table = WordTable::over(&mut words);
    // This cannot fail: 129 words have a bit for each role fact.
    let _ = table.set_up(rules.bound());
    first_broken_by(&rules, &mut table)
}

/// A refusal with the place of the first statement that breaks its condition, if the statements are not admissible.
pub fn check_admissible(base: &RuleBase<'_>) -> Result<(), Refusal>
    ensures { MatchResult result (λ _. Admissible base.now.statements.now) (λ e. FirstBreaking base.now.statements.now e.place × (e ≡ refusal NotAdmissible e.place 0)) }
{
    first_breaking(base).map_or(Ok(()), |place| Err(Reason::NotAdmissible.at(place, 0)))
}

// The same as `first_breaking`, by marking in an empty store with a limit for all role facts.
fn first_broken_by<S: MarkStore>(rules: &RoleRules<'_>, store: &mut S) -> Option<usize>
    requires limit { S.MarkStore.limit store.old ≡ numbers rules.now.base.counts.classes rules.now.base.counts.roles }
    requires capacity { S.MarkStore.capacity store.old ≡ numbers rules.now.base.counts.classes rules.now.base.counts.roles }
    requires empty { (x : ℕ) → S.MarkStore.held store.old x ≡ false }
    ensures { MatchOption result (Admissible rules.now.base.statements.now) (λ p. FirstBreaking rules.now.base.statements.now p) }
{
    // This cannot fail: the store's limit is the number of all role facts, and so the rules' bound.
    let _ = mark(rules, store, u64::MAX);
    let judgement = Judgement {
        base: rules.base,
        marks: store,
    };
    judgement.first_broken()
}

// A base with marks that judge its roles.
#[derive(Drop)]
struct Judgement<'a, S: MarkStore> {
    base: RuleBase<'a>,
    marks: &'a S,
    ghost judged: { ∥ Judged base.counts.classes base.counts.roles base.statements.now (S.MarkStore.held marks.now) ∥₁ },
}

impl<'a, S: MarkStore> Judgement<'a, S> {
    // The place of the first statement that breaks its condition.
    fn first_broken(&self) -> Option<usize>
        ensures { MatchOption result (Admissible self.now.base.statements.now) (λ p. FirstBreaking self.now.base.statements.now p) }
    {
        self.base
            .statements
            .iter()
            .position(|statement| !self.keeps(*statement))
    }

    // Whether a statement keeps its condition.
    fn keeps(&self, statement: Statement) -> bool
        requires { WellFormed self.now.base.counts.individuals self.now.base.counts.classes self.now.base.counts.roles statement }
        ensures { Decides result (Keeps self.now.base.statements.now statement) }
    {
        match statement {
            Statement::SelfWithin { role, .. } | Statement::SelfPaired { role, .. } =>
                self.is_simple(role),
            Statement::Chain { second, role, .. } => self.ranges_within(role, second, second),
            Statement::RoleBoth { left, right, role } => {
                self.is_simple(left)
                    && self.is_simple(right)
                    && self.ranges_within(role, left, right)
            }
            _ => true,
        }
    }

    // Whether each range of the role is a range of `left` or of `right`.
    fn ranges_within(&self, role: u16, left: u16, right: u16) -> bool
        requires { (role < self.now.base.counts.roles) × (left < self.now.base.counts.roles) × (right < self.now.base.counts.roles) }
        ensures { Decides result (RangesWithin self.now.base.statements.now role left right) }
    {
        (0..self.base.counts.classes).all(|class| self.is_covered(class, role, left, right))
    }

    // Whether the class is a range of `left` or of `right`, if it is one of the role.
    fn is_covered(&self, class: u16, role: u16, left: u16, right: u16) -> bool
        requires classes { class < self.now.base.counts.classes }
        requires roles { (role < self.now.base.counts.roles) × (left < self.now.base.counts.roles) × (right < self.now.base.counts.roles) }
        ensures { Decides result (IsCovered self.now.base.statements.now role left right class) }
    {
        !self.has_range(role, class) || self.has_range(left, class) || self.has_range(right, class)
    }

    // Whether a role is simple.
    fn is_simple(&self, role: u16) -> bool
        requires { role < self.now.base.counts.roles }
        ensures { Decides result (IsSimple self.now.base.statements.now role) }
    {
        !self.holds(RoleFact::NonSimple(role))
    }

    // Whether a class is a range of a role.
    fn has_range(&self, role: u16, class: u16) -> bool
        requires { (role < self.now.base.counts.roles) × (class < self.now.base.counts.classes) }
        ensures { Decides result (IsRange self.now.base.statements.now role class) }
    {
        self.holds(RoleFact::Range(role, class))
    }

    // Whether a role fact has a proof tree.
    fn holds(&self, fact: RoleFact) -> bool
        requires { Inside self.now.base.counts.classes self.now.base.counts.roles fact }
        ensures { Decides result (RoleTree self.now.base.statements.now fact) }
    {
        self.marks.has(fact.number(self.base.counts))
    }
}
