// Whether a ground gives a fact.
ghost use Rattle.std.specs.Prelude.{◌≡◌};
ghost use Rattle.calculus.specs.Tests.{Decides};
ghost use Rattle.calculus.specs.Numbers.{Inside};
ghost use Rattle.linetable.specs.Table.{ground_at};
ghost use Rattle.grounds.specs.Given.{GivesHeld, IsGiven, LineGives, SaidGives};
ghost use Rattle.grounds.specs.Rules.{Placed};

use crate::given::Question;
use calculus::numbers::number_of;
use calculus::terms::{Fact, Ground};
use linetable::shapes::{Key, Line, Lines};
use linetable::table::{does_suit, does_touch, filled, finish_of, key_of, lines_of};
use marks::store::MarkStore;
use rules::base::RuleBase;
use rules::statements::Statement;

impl<'a, S: MarkStore> Question<'a, S> {
    // Whether the ground is that of a line at a place and a given. The number u is compared before it is known to fit a ground.
    fn is_ground_at(&self, line: Line, p: u16, g: Fact) -> bool
        ensures { Decides result (ground_at self.now.counts.individuals p line g ≡ self.now.ground) }
    {
        self.ground.rule == line.rule
            && self.is_at(p)
            && u64::from(self.ground.u) == self.told_number(line.told, g)
            && self.ground.w == 0
    }

    // Whether a fact is a given of a line with that key.
    fn is_given(&self, on: Key, line: Line, g: Fact) -> bool
        ensures { Decides result (IsGiven self.now.counts.individuals self.now.counts.classes self.now.counts.roles (S.MarkStore.held self.now.store.now) on line g) }
    {
        does_touch(on, g) && does_suit(line.pair, g) && self.is_held(g)
    }

    // Whether a fact is the one in question, and inside the book.
    fn is_fact(&self, f: Fact) -> bool
        ensures { Decides result ((f ≡ self.now.fact) × Inside self.now.counts.individuals self.now.counts.classes self.now.counts.roles self.now.fact) }
    {
        f == self.fact && number_of(self.counts, f).is_some()
    }

    // Whether a line gives the fact by the ground.
    fn line_gives(&self, on: Key, p: u16, line: Line) -> bool
        ensures { Decides result (LineGives self.now.counts.individuals self.now.counts.classes self.now.counts.roles (S.MarkStore.held self.now.store.now) self.now.fact self.now.ground on p line) }
    {
        let g = self.given_of(on, line);
        let z = finish_of(self.fact);
        self.is_given(on, line, g)
            && self.is_held(filled(g, z, line.second))
            && self.is_fact(filled(g, z, line.conclusion))
            && self.is_ground_at(line, p, g)
    }

    // Whether some line that a statement says does. A loop and no `any`: a closure's contract did not reach the proof here.
    fn said_gives(&self, on: Key, p: u16, said: Lines) -> bool
        ensures { Decides result (SaidGives self.now.counts.individuals self.now.counts.classes self.now.counts.roles (S.MarkStore.held self.now.store.now) self.now.fact self.now.ground on p said) }
    {
        // Not `flatten`: with it the loop goes by an iterator without places, and `returns-then-line_gives` stayed open in a first try.
        for line in said {
            let Some(line) = line else {
                continue;
            };
            if self.line_gives(on, p, line) {
                return true;
            }
        }
        false
    }

    // Whether the statement at a place gives the fact by the ground.
    fn placed_gives(&self, p: u16, statement: Statement) -> bool
        ensures { Decides result (Placed self.now.counts.individuals self.now.counts.classes self.now.counts.roles p statement (S.MarkStore.held self.now.store.now) self.now.fact self.now.ground) }
    {
        match statement {
            Statement::Empty { class } => self.by_rule_4(p, class),
            _ => self.said_gives(key_of(statement), p, lines_of(p, statement)),
        }
    }
}

/// Whether a ground, whatever its numbers, gives a fact from the facts that a store holds: exactly if the book rules have a
/// step with that ground, with premises that are all held, to the fact.
pub fn gives<S: MarkStore>(base: RuleBase, store: &S, fact: Fact, ground: Ground) -> bool
    ensures { Decides result (GivesHeld base.entry.counts.individuals base.entry.counts.classes base.entry.counts.roles base.entry.statements.now (S.MarkStore.held store.now) ground fact) }
{
    let question = Question {
        counts: base.counts,
        store,
        fact,
        ground,
    };
    let Some(p) = ground.place.checked_sub(1) else {
        return question.unplaced_gives();
    };
    let Some(statement) = base.statements.get(usize::from(p)) else {
        return false;
    };
    question.placed_gives(p, *statement)
}
