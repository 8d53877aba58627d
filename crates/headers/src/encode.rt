// Writing a header from names and statements.
ghost use Rattle.std.specs.Prelude.{◌≡◌, ℕ, ◌+◌, ◌-◌, ◌*◌, ◌<◌, ◌≤◌, List, [], ◌∷◌, ◌++◌, map, length, MatchOption, MatchResult};
ghost use Rattle.headers.specs.Bytes.{joined};
ghost use Rattle.headers.specs.Names.{line};
ghost use Rattle.headers.specs.Header.{listing, encode};
ghost use Rattle.headers.specs.Output.{laid, Wrote, Kept};
ghost use Rattle.headers.specs.Theorems.{ReadBack};

use crate::output::{lay, put_front, put_records};
use rules::refusals::{Reason, Refusal};
use rules::statements::Statement;
use std::convert::AsSlice;

// A name and its end.
fn put_line(out: &mut [u8], at: usize, name: &[u8])
    requires { at + (length name.now + 1) ≤ length out.old }
    ensures { out.new ≡ laid out.old at (line name.now) }
{
    lay(out, at, name);
    lay(out, at + name.len(), b"\n");
}

// How long names are with their ends, if 32 bits can say it. A loop, since it ends where 32 bits are full.
fn names_size<N: AsSlice<u8>>(names: &[N]) -> Option<usize>
    ensures { MatchOption result (4294967296 ≤ length (joined line (map N.items names.now))) (λ n. (n ≡ length (joined line (map N.items names.now))) × (n < 4294967296)) }
{
    let mut size: usize = 0;
    for name in names {
        let more = name.as_slice().len();
        if more >= 4294967295 - size {
            return None;
        }
        size += more + 1;
    }
    Some(size)
}

// The names of a part; answers where they end. `to` is a place in the bytes, and no index of a name.
fn put_names<N: AsSlice<u8>>(out: &mut [u8], at: usize, names: &[N]) -> usize
    requires { at + length (joined line (map N.items names.now)) ≤ length out.old }
    ensures bytes { out.new ≡ laid out.old at (joined line (map N.items names.now)) }
    ensures end { result ≡ at + length (joined line (map N.items names.now)) }
{
    let mut to = at;
    for name in names {
        let bytes = name.as_slice();
        put_line(out, to, bytes);
        to += bytes.len() + 1;
    }
    to
}

// Writes names and statements as a header, and answers its length. It is apart from `write_header`, whose theorem would else be
// due again at each of the returns.
fn write_lists<N: AsSlice<u8>>(
    individuals: &[N],
    classes: &[N],
    roles: &[N],
    statements: &[Statement],
    out: &mut [u8],
) -> Result<usize, Refusal>
    ensures { MatchResult result (λ n. Wrote out.old out.new (encode (listing (map N.items individuals.now) (map N.items classes.now) (map N.items roles.now) statements.now)) n) (λ e. Kept out.old out.new (encode (listing (map N.items individuals.now) (map N.items classes.now) (map N.items roles.now) statements.now)) e) }
{
    let x = names_size(individuals).ok_or(Reason::OutputTooShort)?;
    let c = names_size(classes).ok_or(Reason::OutputTooShort)?;
    let v = names_size(roles).ok_or(Reason::OutputTooShort)?;
    let n = put_front(out, x, c, v, statements.len())?;
    let second = put_names(out, 32, individuals);
    let third = put_names(out, second, classes);
    let fourth = put_names(out, third, roles);
    put_records(out, fourth, statements);
    Ok(n)
}

/// Writes the header of the given names and statements, and answers its length. Neither is judged; where they are in order,
/// the header reads back as them.
pub fn write_header<N: AsSlice<u8>>(
    individuals: &[N],
    classes: &[N],
    roles: &[N],
    statements: &[Statement],
    out: &mut [u8],
) -> Result<usize, Refusal>
    ensures bytes { MatchResult result (λ n. Wrote out.old out.new (encode (listing (map N.items individuals.now) (map N.items classes.now) (map N.items roles.now) statements.now)) n) (λ e. Kept out.old out.new (encode (listing (map N.items individuals.now) (map N.items classes.now) (map N.items roles.now) statements.now)) e) }
    ensures back { ReadBack }
{
    write_lists(individuals, classes, roles, statements, out)
}
