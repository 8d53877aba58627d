// The check of counts and statements.
ghost use Rattle.std.specs.Prelude.{◌≡◌, length, Some, None, MatchResult};
ghost use Rattle.rules.specs.Fits.{wrong_in, statements_refusal, base_refusal, if_passed, pass};

use crate::base::RuleBase;
use crate::counts::Counts;
use crate::fields::wrong_field;
use crate::forms::field_kinds;
use crate::refusals::{Reason, Refusal};
use crate::statements::Statement;

impl<'a> RuleBase<'a> {
    /// The base with these counts and statements, or a refusal: of a count that leaves its limits, or else of the first
    /// wrong field.
    #[tactic(auto, using(crate::specs::Formed::unrefused_fit), unfolding(crate::specs::Fits::base_refusal))]
    pub fn check(
        individuals: usize,
        classes: usize,
        roles: usize,
        statements: &'a [Statement],
    ) -> Result<RuleBase<'a>, Refusal>
        ensures { MatchResult result (λ b. (base_refusal individuals classes roles statements.now ≡ None) × (b.counts.individuals ≡ individuals) × (b.counts.classes ≡ classes) × (b.counts.roles ≡ roles) × (b.statements.now ≡ statements.now)) (λ e. base_refusal individuals classes roles statements.now ≡ Some e) }
    {
        let counts = Counts::new(individuals, classes, roles, statements.len())?;
        check_fields(counts, statements)?;
        Ok(RuleBase { counts, statements })
    }

    /// The base with these counts and statements, where they fit together; with no statements where they do not.
    #[tactic(auto, unfolding(crate::specs::Fits::pass))]
    pub fn new(counts: Counts, statements: &'a [Statement]) -> RuleBase<'a>
        ensures individuals { result.counts.individuals ≡ counts.individuals }
        ensures classes { result.counts.classes ≡ counts.classes }
        ensures roles { result.counts.roles ≡ counts.roles }
        ensures statements { result.statements.now ≡ if_passed (pass counts.individuals counts.classes counts.roles counts.statements statements.now) statements.now }
    {
        if !passes(counts, statements) {
            let mut without = counts;
            without.statements = 0;
            return RuleBase {
                counts: without,
                statements: &[],
            };
        }
        RuleBase { counts, statements }
    }
}

// Whether the statements are as many as the counts say, and all well formed.
#[tactic(auto, using(crate::specs::Formed::unrefused_fit, crate::specs::Formed::fit_unrefused), unfolding(crate::specs::Fits::pass))]
fn passes(counts: Counts, statements: &[Statement]) -> bool
    ensures { result ≡ pass counts.individuals counts.classes counts.roles counts.statements statements.now }
{
    usize::from(counts.statements) == statements.len() && check_fields(counts, statements).is_ok()
}

// Refuses the first statement with a wrong field.
fn check_fields(counts: Counts, statements: &[Statement]) -> Result<(), Refusal>
    ensures { MatchResult result (λ _. statements_refusal counts.individuals counts.classes counts.roles 0 statements.now ≡ None) (λ e. statements_refusal counts.individuals counts.classes counts.roles 0 statements.now ≡ Some e) }
{
    for (place, statement) in statements.iter().enumerate() {
        if let Some(item) = wrong_in(counts, *statement) {
            return Err(Reason::WrongField.at(place, item));
        }
    }
    Ok(())
}

#[tactic(auto, unfolding(crate::specs::Fits::wrong_in))]
fn wrong_in(counts: Counts, statement: Statement) -> Option<usize>
    ensures { result ≡ wrong_in counts.individuals counts.classes counts.roles statement }
{
    match field_kinds(statement.letter()) {
        Some(kinds) => wrong_field(counts, kinds, statement.fields()),
        // Every statement has the letter of a form; the definition covers the other letters with the field 0.
        None => Some(0),
    }
}
