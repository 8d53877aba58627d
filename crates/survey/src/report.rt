// From the bytes of an input to the line that is printed.
ghost use Rattle.std.specs.Prelude.{◌≡◌, Some};
ghost use Rattle.ruletext.specs.Reading.{contents};
ghost use Rattle.survey.specs.Surveys.{Surveyed, survey_text, no_survey_text};
ghost use Rattle.survey.specs.declared.report.NoSurvey.TheVariants.{Refused};

use crate::count::count_facts;
use rules::base::RuleBase;
use rules::counts::Counts;
use rules::refusals::Refusal;
use ruletext::text_rules::Rules;
use ruletext::verdict::judge;
use std::fmt;

/// What is told of an input that can be read: its counts, and how many facts follow.
#[derive(Clone, Copy, PartialEq, Eq)]
pub struct Survey {
    pub counts: Counts,
    pub facts: u64,
}

/// Why there is no survey of an input: more facts follow than there are slots, or the fault of the input.
#[derive(Clone, Copy, PartialEq, Eq)]
pub enum NoSurvey {
    Full,
    Refused(Refusal),
}

impl From<Refusal> for NoSurvey {
    ghost from_gives = { λ refusal no. no ≡ Refused refusal };

    /// A refused input has a fault.
    fn from(refusal: Refusal) -> NoSurvey {
        NoSurvey::Refused(refusal)
    }
}

/// Tells of an input of at most 16,384 bytes, with the memory of `rules` and of the slots: its counts and how many facts
/// follow; or that the slots are too few for them, or the fault of its rule text.
pub fn tell<'a>(
    rules: &mut Rules<'a>,
    slots: &mut [Option<u64>],
    input: &'a [u8],
) -> Result<Survey, NoSurvey>
    ensures { Surveyed input.now slots.old slots.new (contents rules.new) result }
{
    let counts = judge(rules, input)?;
    let base = RuleBase::new(counts, rules.statements.as_slice());
    let facts = count_facts(&base, slots).ok_or(NoSurvey::Full)?;
    Ok(Survey { counts, facts })
}

impl fmt::Display for Survey {
    ghost output = { λ s. Some (survey_text s) };

    fn fmt<W: fmt::Write>(&self, f: &mut fmt::Formatter<W>) -> fmt::Result {
        let Survey { counts, facts } = self;
        write!(f, "{counts} {facts} facts")
    }
}

impl fmt::Display for NoSurvey {
    ghost output = { λ no. Some (no_survey_text no) };

    fn fmt<W: fmt::Write>(&self, f: &mut fmt::Formatter<W>) -> fmt::Result {
        match *self {
            NoSurvey::Full => write!(f, "full"),
            // each program tells a refusal in words of its own, so a refusal has no Display
            NoSurvey::Refused(fault) => {
                let number = u8::from(fault.reason);
                let line = fault.place;
                let word = fault.item;
                write!(f, "fault {number} line {line} word {word}")
            }
        }
    }
}
