// Why a trial marked nothing.
ghost use Rattle.std.specs.Prelude.{◌≡◌, Some};
ghost use Rattle.markdemo.specs.Refusals.{refused_text};
ghost use Rattle.markdemo.specs.declared.refused.Refused.TheVariants.{LimitTooLow};

use marks::mark;
use std::fmt;

#[derive(Clone, Copy)]
pub enum Refused {
    // The words have fewer bits than the limit asks for.
    TooFewWords,
    // The store's limit is below the rule set's bound.
    LimitTooLow,
}

impl From<mark::LimitTooLow> for Refused {
    ghost from_gives = { λ _ refused. refused ≡ LimitTooLow };

    fn from(_refused: mark::LimitTooLow) -> Refused {
        Self::LimitTooLow
    }
}

impl fmt::Display for Refused {
    ghost output = { λ refused. Some (refused_text refused) };

    fn fmt<W: fmt::Write>(&self, f: &mut fmt::Formatter<W>) -> fmt::Result {
        match self {
            Refused::TooFewWords => write!(f, "too few words"),
            Refused::LimitTooLow => write!(f, "limit too low"),
        }
    }
}
