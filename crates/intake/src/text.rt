// A rule text as a header.
ghost use Rattle.std.specs.Prelude.{◌≡◌, MatchResult};
ghost use Rattle.ruletext.specs.Means.{OneOutcome};
ghost use Rattle.ruletext.specs.Reading.{contents};
ghost use Rattle.intake.specs.Texts.{Turned, NotTurned, TextAccepted};

use headers::encode::write_header;
use rules::refusals::Refusal;
use ruletext::text_rules::Rules;

/// Turns a rule text without questions into its header, and answers the header's length; the output past it stays. What was
/// read goes into `rules`, in place of what was read before. A refusal has the line and word, and leaves the output as it was.
pub fn text_to_header<'a>(
    rules: &mut Rules<'a>,
    text: &'a [u8],
    out: &mut [u8],
) -> Result<usize, Refusal>
    ensures exact { MatchResult result (λ n. Turned text.now out.old out.new n (contents rules.new)) (λ e. NotTurned text.now out.old out.new e (contents rules.new)) }
    ensures one { OneOutcome text.now }
    ensures accepted { TextAccepted }
{
    rules.read(text)?;
    write_header(
        rules.individuals.as_slice(),
        rules.classes.as_slice(),
        rules.roles.as_slice(),
        rules.statements.as_slice(),
        out,
    )
}
