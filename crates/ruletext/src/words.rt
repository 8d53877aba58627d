// The words of one line, counted and judged on a copy of it.
ghost use Rattle.std.specs.Prelude.{◌≡◌, ◌+◌, length};
ghost use Rattle.reader.specs.Text.{words};
ghost use Rattle.ruletext.specs.Outcome.{all_names};

use reader::letters::is_name;
use reader::reader::Line;
use rules::refusals::{Reason, Refusal};

// The number of the last word of the line.
pub(crate) fn last_word(line: Line<'_>) -> usize
    ensures { result ≡ line.entry.word + length (words line.entry.here.now) }
{
    line.word + line.count()
}

// Refuses the first of the words that are left which is no name.
pub(crate) fn check_names(line: Line<'_>) -> Result<(), Refusal>
    ensures { result ≡ all_names line.entry.line (line.entry.word + 1) (words line.entry.here.now) }
{
    for word in line {
        if !is_name(word.bytes) {
            return Err(Reason::NotAName.at(word.line, word.word));
        }
    }
    Ok(())
}
