// Statements with their counts, which fit together.
ghost use Rattle.std.specs.Prelude.{◌≡◌, true, length};
ghost use Rattle.rules.specs.Fits.{all_fit};

use crate::counts::Counts;
use crate::statements::Statement;

/// Counts and statements. No value of this type has a count outside the limits or a statement that is not well formed.
#[derive(Clone, Copy)]
pub struct RuleBase<'a> {
    pub counts: Counts,
    pub statements: &'a [Statement],
    ghost counted: { counts.statements ≡ length statements.now },
    ghost formed: { all_fit counts.individuals counts.classes counts.roles statements.now ≡ true },
}
