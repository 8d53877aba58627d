// What is told of a file.
ghost use Rattle.std.specs.Prelude.{◌≡◌, Some};
ghost use Rattle.caselines.specs.Answers.{answer_text, RecoveryTold};

use headers::header::Tally;
use recovery::read::read_recovery;
use rules::refusals::Refusal;
use std::fmt;

/// What is told of a file.
#[derive(Clone, Copy)]
pub enum Answer {
    /// A header, with its counts, and whether writing it again gives the same bytes.
    Header { tally: Tally, same: bool },
    /// A recovery file, with the lengths of its two parts.
    Recovery { header: usize, entries: usize },
    /// Its refusal. No Result with the refusal as its error: a refusal is one of the lines that are told, and no failure of the trial.
    Refused(Refusal),
}

impl Answer {
    /// What is told of the bytes of a recovery file.
    pub fn recovery(bytes: &[u8]) -> Answer
        ensures { RecoveryTold bytes.now result }
    {
        match read_recovery(bytes) {
            Ok(file) => Answer::Recovery {
                header: file.header.len(),
                entries: file.entries.len(),
            },
            Err(refusal) => Answer::Refused(refusal),
        }
    }
}

impl fmt::Display for Answer {
    ghost output = { λ v. Some (answer_text v) };

    fn fmt<W: fmt::Write>(&self, f: &mut fmt::Formatter<W>) -> fmt::Result {
        match *self {
            Answer::Header { tally, same } => {
                let n = tally.individuals;
                let k = tally.classes;
                let r = tally.roles;
                let m = tally.statements;
                write!(f, "header {n} {k} {r} {m} same {same}")
            }
            Answer::Recovery { header, entries } => write!(f, "recovery {header} {entries}"),
            // each program tells a refusal in words of its own, so a refusal has no Display
            Answer::Refused(refusal) => {
                let reason = u8::from(refusal.reason);
                let place = refusal.place;
                let field = refusal.item;
                write!(f, "refused {reason} place {place} field {field}")
            }
        }
    }
}
