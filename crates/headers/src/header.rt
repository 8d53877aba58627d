// A header in bytes: opened, which is judging its directory and its contents, and read, which is judging all of it.
ghost use Rattle.std.specs.Prelude.{◌≡◌, ℕ, ◌+◌, ◌-◌, ◌*◌, ◌<◌, ◌≤◌, true, false, [], length, Some, None, Ok, Err, MatchOption, MatchResult, slice_index_or};
ghost use Rattle.headers.specs.Names.{lines};
ghost use Rattle.headers.specs.Header.{directory_refusal, statements_in, contents, decode};
ghost use Rattle.headers.specs.Theorems.{OnlyOne};
ghost use Rattle.headers.specs.Views.{Cut, Held, Opened, Reads, Copied, Tallied, part_of, content_refusal_of, judgement_of};

use crate::directory::part_end;
use crate::names::{count_names, name_at};
use crate::statements::{are_records, check_fields, copy_statements};
use rules::counts::Counts;
use rules::forms::Kind;
use rules::refusals::{Reason, Refusal};
use rules::statements::Statement;

/// One thing for each of the four parts of a header: the names of each kind, and the statements.
#[derive(Clone, Copy)]
pub struct ByPart<T> {
    pub individuals: T,
    pub classes: T,
    pub roles: T,
    pub statements: T,
}

/// The four parts of a header.
pub type Parts<'a> = ByPart<&'a [u8]>;

/// How many names of each kind and statements a header holds.
pub type Tally = ByPart<usize>;

/// A header in lent bytes.
#[derive(Clone, Copy)]
pub struct Header<'a> {
    pub parts: Parts<'a>,
    pub tally: Tally,
}

// Cuts a file into its four parts, as its directory says.
fn cut_parts(bytes: &[u8]) -> Result<Parts<'_>, Refusal>
    ensures { MatchResult result (λ p. Cut bytes.now p) (λ e. directory_refusal bytes.now ≡ Some e) }
{
    let one = part_end(bytes, 0, 32).ok_or(Reason::WrongDirectory.at(1, 0))?;
    let two = part_end(bytes, 8, one).ok_or(Reason::WrongDirectory.at(2, 0))?;
    let three = part_end(bytes, 16, two).ok_or(Reason::WrongDirectory.at(3, 0))?;
    let four = part_end(bytes, 24, three).ok_or(Reason::WrongDirectory.at(4, 0))?;
    if four != bytes.len() {
        return Err(Reason::WrongDirectory.at(4, 0));
    }
    Ok(Parts {
        individuals: &bytes[32..one],
        classes: &bytes[one..two],
        roles: &bytes[two..three],
        statements: &bytes[three..four],
    })
}

// How many names and statements the parts hold, if their contents are right.
fn count_parts(parts: &Parts<'_>) -> Result<Tally, Refusal>
    ensures { MatchResult result (λ t. Held parts.now t) (λ e. content_refusal_of parts.now ≡ Some e) }
{
    let individuals = count_names(parts.individuals).ok_or(Reason::WrongContent.at(1, 0))?;
    let classes = count_names(parts.classes).ok_or(Reason::WrongContent.at(2, 0))?;
    let roles = count_names(parts.roles).ok_or(Reason::WrongContent.at(3, 0))?;
    if !are_records(parts.statements) {
        return Err(Reason::WrongContent.at(4, 0));
    }
    Ok(Tally {
        individuals,
        classes,
        roles,
        statements: parts.statements.len() / 8,
    })
}

/// The header in a file whose directory and contents are right; its counts and fields are not judged.
pub fn open_header(bytes: &[u8]) -> Result<Header<'_>, Refusal>
    ensures { MatchResult result (λ h. Opened bytes.now h) (λ e. contents bytes.now ≡ Err e) }
{
    let parts = cut_parts(bytes)?;
    let tally = count_parts(&parts)?;
    Ok(Header { parts, tally })
}

impl<'a> Header<'a> {
    /// The name of a kind with this number, as a part of the lent bytes; the numbers of a kind count from 0.
    pub fn name(&self, kind: Kind, number: usize) -> Option<&'a [u8]>
        ensures { MatchOption result (length (lines (part_of kind self.now.parts)) ≤ number) (λ x. (number < length (lines (part_of kind self.now.parts))) × (x.now ≡ slice_index_or (lines (part_of kind self.now.parts)) number [])) }
    {
        let part = match kind {
            Kind::Individual => self.parts.individuals,
            Kind::Class => self.parts.classes,
            Kind::Role => self.parts.roles,
        };
        name_at(part, number)
    }

    /// Copies the statements into the lent memory as far as they fit, and answers how many it copied.
    pub fn copy_statements(&self, memory: &mut [Statement]) -> usize
        ensures { Copied memory.old memory.new (statements_in self.now.parts.statements.now) result }
    {
        copy_statements(self.parts.statements, memory)
    }

    /// The counts of an opened header, if they are within their limits and all fields fit.
    pub fn judge(&self) -> Result<Counts, Refusal>
        ensures { MatchResult result (λ c. (judgement_of self.now ≡ None) × Tallied self.now.tally c) (λ e. judgement_of self.now ≡ Some e) }
    {
        let tally = self.tally;
        let counts = Counts::new(
            tally.individuals,
            tally.classes,
            tally.roles,
            tally.statements,
        )?;
        check_fields(counts, self.parts.statements)?;
        Ok(counts)
    }
}

/// The header in a file, or its one refusal; whether its statements are admissible is not asked, since roles are not known here.
pub fn read_header(bytes: &[u8]) -> Result<Header<'_>, Refusal>
    ensures exact { MatchResult result (λ h. Reads bytes.now h) (λ e. decode bytes.now ≡ Err e) }
    ensures only { OnlyOne }
{
    let header = open_header(bytes)?;
    let _counts = header.judge()?;
    Ok(header)
}
