// How many individuals, classes, roles and statements a book has. The limits are part of the type.
ghost use Rattle.std.specs.Prelude.{◌≡◌, ℕ, ◌≤◌, Bool, true, false, MatchResult, Some};
ghost use Rattle.rules.specs.Limits.{within_limits, counts_text};
ghost use Rattle.rules.specs.Refusals.{refusal};
ghost use Rattle.rules.specs.declared.refusals.Reason.TheVariants.{CountOutOfLimits};

use crate::refusals::{Reason, Refusal};
use std::fmt;

/// The counts of a book. No value of this type is outside the limits.
#[derive(Clone, Copy, PartialEq, Eq)]
pub struct Counts {
    pub individuals: u16,
    pub classes: u16,
    pub roles: u16,
    pub statements: u16,
    ghost some_individuals: { 1 ≤ individuals },
    ghost few_individuals: { individuals ≤ 128 },
    ghost some_classes: { 1 ≤ classes },
    ghost few_classes: { classes ≤ 256 },
    ghost few_roles: { roles ≤ 32 },
    ghost few_statements: { statements ≤ 384 },
}

impl Counts {
    /// These counts, or a refusal where one leaves its limits.
    pub fn new(
        individuals: usize,
        classes: usize,
        roles: usize,
        statements: usize,
    ) -> Result<Counts, Refusal>
        ensures { MatchResult result (λ c. (within_limits individuals classes roles statements ≡ true) × (c.individuals ≡ individuals) × (c.classes ≡ classes) × (c.roles ≡ roles) × (c.statements ≡ statements)) (λ e. (within_limits individuals classes roles statements ≡ false) × (e ≡ refusal CountOutOfLimits 0 0)) }
    {
        if individuals < 1
            || individuals > 128
            || classes < 1
            || classes > 256
            || roles > 32
            || statements > 384
        {
            return Err(Reason::CountOutOfLimits.into());
        }
        Ok(Counts {
            individuals: individuals as u16,
            classes: classes as u16,
            roles: roles as u16,
            statements: statements as u16,
        })
    }
}

impl fmt::Display for Counts {
    ghost output = { λ c. Some (counts_text c.individuals c.classes c.roles c.statements) };

    fn fmt<W: fmt::Write>(&self, f: &mut fmt::Formatter<W>) -> fmt::Result {
        let Counts {
            individuals,
            classes,
            roles,
            statements,
        } = *self;
        write!(
            f,
            "{individuals} individuals {classes} classes {roles} roles {statements} statements"
        )
    }
}
