// Writing a header.
ghost use Rattle.std.specs.Prelude.{◌≡◌, ℕ, ◌+◌, ◌-◌, ◌*◌, ◌<◌, ◌≤◌, true, false, ◌&&◌, List, [], ◌∷◌, ◌++◌, length, MatchResult, nat_le, nat_lt};
ghost use Rattle.headers.specs.Bytes.{joined, four};
ghost use Rattle.headers.specs.Records.{record_bytes};
ghost use Rattle.headers.specs.Header.{pair, directory, encode, renamed, Named};
ghost use Rattle.headers.specs.Output.{laid, fits, too_short, Wrote, Kept};
ghost use Rattle.headers.specs.Theorems.{ReadBack};
ghost use Rattle.headers.specs.Views.{rewritten};

use crate::directory::pair_bytes;
use crate::header::{Header, Parts};
use rules::refusals::{Reason, Refusal};
use rules::statements::Statement;

/// Writes the bytes at a place where they fit, and nothing where they do not; all other bytes stay.
pub fn lay(out: &mut [u8], at: usize, bytes: &[u8])
    ensures written { at + length bytes.now ≤ length out.old → out.new ≡ laid out.old at bytes.now }
    ensures unwritten { length out.old < at + length bytes.now → out.new ≡ out.old }
{
    if at <= out.len() && bytes.len() <= out.len() - at {
        let part = &mut out[at..at + bytes.len()];
        part.copy_from_slice(bytes);
    }
}

/// Whether so many bytes are few enough for a memory that has this room, and for 32 bits.
pub fn fits(room: usize, size: u128) -> bool
    ensures { result ≡ (nat_le size room && nat_lt size 4294967296) }
{
    size <= room as u128 && size < 4294967296
}

// A statement's record.
fn record_bytes(statement: Statement) -> [u8; 8]
    ensures { result ≡ record_bytes statement }
{
    let letter = statement.letter() as u8;
    let fields = statement.fields();
    let [a1, a0] = fields.first.to_be_bytes();
    let [b1, b0] = fields.second.to_be_bytes();
    let [c1, c0] = fields.third.to_be_bytes();
    [letter, 0, a1, a0, b1, b0, c1, c0]
}

pub(crate) fn put_records(out: &mut [u8], at: usize, statements: &[Statement])
    requires { at + 8 * length statements.now ≤ length out.old }
    ensures { out.new ≡ laid out.old at (joined record_bytes statements.now) }
{
    for (i, statement) in statements.iter().enumerate() {
        lay(out, at + 8 * i, &record_bytes(*statement));
    }
}

// The directory of a header whose parts have these lengths.
pub(crate) fn put_directory(out: &mut [u8], x: usize, c: usize, v: usize, s: usize)
    requires { (32 ≤ length out.old) × (32 + x + c + v + s < 4294967296) }
    ensures { out.new ≡ laid out.old 0 (directory x c v s) }
{
    let second = 32 + x as u32;
    let third = second + c as u32;
    let fourth = third + v as u32;
    lay(out, 0, &pair_bytes(32, x as u32));
    lay(out, 8, &pair_bytes(second, c as u32));
    lay(out, 16, &pair_bytes(third, v as u32));
    lay(out, 24, &pair_bytes(fourth, s as u32));
}

// Writes the directory of a header whose parts have these lengths, and answers how long the header is, if the output and 32
// bits have room for it.
pub(crate) fn put_front(
    out: &mut [u8],
    x: usize,
    c: usize,
    v: usize,
    statements: usize,
) -> Result<usize, Refusal>
    ensures { MatchResult result (λ n. (n ≡ 32 + x + c + v + 8 * statements) × (fits out.old n ≡ true) × (out.new ≡ laid out.old 0 (directory x c v (8 * statements)))) (λ e. (fits out.old (32 + x + c + v + 8 * statements) ≡ false) × (e ≡ too_short) × (out.new ≡ out.old)) }
{
    let size = 32 + x as u128 + c as u128 + v as u128 + 8 * (statements as u128);
    if !fits(out.len(), size) {
        return Err(Reason::OutputTooShort.into());
    }
    put_directory(out, x, c, v, 8 * statements);
    Ok(size as usize)
}

// Everything after the directory.
fn put_parts(out: &mut [u8], parts: &Parts<'_>, statements: &[Statement])
    requires { 32 + length parts.now.individuals.now + length parts.now.classes.now + length parts.now.roles.now + 8 * length statements.now ≤ length out.old }
    ensures { out.new ≡ laid out.old 32 (parts.now.individuals.now ++ (parts.now.classes.now ++ (parts.now.roles.now ++ joined record_bytes statements.now))) }
{
    let second = 32 + parts.individuals.len();
    let third = second + parts.classes.len();
    let fourth = third + parts.roles.len();
    lay(out, 32, parts.individuals);
    lay(out, second, parts.classes);
    lay(out, third, parts.roles);
    put_records(out, fourth, statements);
}

// Writes the parts of names and the given statements as a header, and answers its length.
fn write_parts(
    parts: &Parts<'_>,
    statements: &[Statement],
    out: &mut [u8],
) -> Result<usize, Refusal>
    ensures { MatchResult result (λ n. Wrote out.old out.new (rewritten parts.now statements.now) n) (λ e. Kept out.old out.new (rewritten parts.now statements.now) e) }
{
    let x = parts.individuals.len();
    let c = parts.classes.len();
    let v = parts.roles.len();
    let n = put_front(out, x, c, v, statements.len())?;
    put_parts(out, parts, statements);
    Ok(n)
}

impl<'a> Header<'a> {
    /// Writes the header with the names of this one and the given statements, and answers its length. The names are
    /// copied as they stand; where this header was opened, what is written is the encoding.
    pub fn rewrite(&self, statements: &[Statement], out: &mut [u8]) -> Result<usize, Refusal>
        ensures bytes { MatchResult result (λ n. Wrote out.old out.new (rewritten self.now.parts statements.now) n) (λ e. Kept out.old out.new (rewritten self.now.parts statements.now) e) }
        ensures encoding { Named self.now.parts.individuals.now self.now.parts.classes.now self.now.parts.roles.now → MatchResult result (λ n. Wrote out.old out.new (encode (renamed self.now.parts.individuals.now self.now.parts.classes.now self.now.parts.roles.now statements.now)) n) (λ e. Kept out.old out.new (encode (renamed self.now.parts.individuals.now self.now.parts.classes.now self.now.parts.roles.now statements.now)) e) }
        ensures back { ReadBack }
    {
        write_parts(&self.parts, statements, out)
    }
}
