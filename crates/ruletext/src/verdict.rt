// What the program says of its input: the counts of a text that can be read, or the fault.
ghost use Rattle.ruletext.specs.Reading.{contents};
ghost use Rattle.ruletext.specs.Verdicts.{Told};

use crate::text_rules::Rules;
use rules::counts::Counts;
use rules::refusals::{Reason, Refusal};

/// Judges an input of at most 16,384 bytes as a rule text, with the memory of `rules`.
pub fn judge<'a>(rules: &mut Rules<'a>, input: &'a [u8]) -> Result<Counts, Refusal>
    ensures { Told input.now result (contents rules.new) }
{
    if input.len() > 16384 {
        rules.clear();
        return Err(Reason::CountOutOfLimits.into());
    }
    rules.read(input)
}
