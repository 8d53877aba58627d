// Writing a recovery file piece by piece.
ghost use Rattle.std.specs.Prelude.{◌≡◌, ℕ, ◌+◌, ◌-◌, ◌*◌, ◌<◌, ◌≤◌, Bool, true, false, cond, ◌&&◌, List, [], ◌∷◌, ◌++◌, length, replicate, MatchResult, nat_le, nat_lt};
ghost use Rattle.headers.specs.Header.{pair};
ghost use Rattle.headers.specs.Output.{laid, fits, too_short};
ghost use Rattle.recovery.specs.Begun.{entry_bytes, two_pairs, begun_bytes, no_room, stands, begun_at, begun_output, closed_output, closed_length, Added, Unadded};

use crate::entry::Entry;
use headers::directory::pair_bytes;
use headers::output::{fits, lay};
use rules::refusals::{Reason, Refusal};

/// A begun recovery file on a lent output: where its next entry goes, and how long its header is.
// The place is past 32 bits where there was no room: no Option is plainer, as each call has to look for room anyway.
pub struct Begun<'a> {
    out: &'a mut [u8],
    at: usize,
    header: usize,
}

/// Whether a recovery file of this header can be begun in the output: if 16 bytes and the header are too long for it, or
/// past 32 bits, that is refused.
pub fn room(out: &[u8], header: &[u8]) -> Result<(), Refusal>
    ensures { MatchResult result (λ _. fits out.now (length header.now + 16) ≡ true) (λ e. (fits out.now (length header.now + 16) ≡ false) × (e ≡ too_short)) }
{
    if fits(out.len(), header.len() as u128 + 16) {
        Ok(())
    } else {
        Err(Reason::OutputTooShort.into())
    }
}

// Sixteen zero bytes and the header.
fn put_zeros_and_header(out: &mut [u8], header: &[u8])
    requires { 16 + length header.now ≤ length out.old }
    ensures { out.new ≡ laid out.old 0 (begun_bytes header.now) }
{
    lay(out, 0, &[0u8; 16]);
    lay(out, 16, header);
}

/// Begins a recovery file: writes sixteen zero bytes and the header. Where `room` refuses, nothing is written, and the file
/// takes no entry and closes with the length 0.
pub fn begin<'a>(out: &'a mut [u8], header: &[u8]) -> Begun<'a>
    ensures lent { result.out.ghost_name ≡ out.entry.ghost_name }
    ensures bytes { result.out.now ≡ begun_output (fits out.old (length header.now + 16)) out.old header.now }
    ensures at { result.at ≡ begun_at (fits out.old (length header.now + 16)) (length header.now) }
    ensures header { result.header ≡ length header.now }
{
    let size = header.len();
    let at = if fits(out.len(), size as u128 + 16) {
        put_zeros_and_header(out, header);
        16 + size
    } else {
        4294967296
    };
    Begun {
        out,
        at,
        header: size,
    }
}

impl<'a> Begun<'a> {
    /// Adds an entry after what stands.
    pub fn put(&mut self, entry: Entry) -> Result<(), Refusal>
        ensures lent { self.new.out.ghost_name ≡ self.old.out.ghost_name }
        ensures header { self.new.header ≡ self.old.header }
        ensures cases { MatchResult result (λ _. Added self.old.out.now self.new.out.now self.old.at self.new.at entry) (λ e. Unadded self.old.out.now self.old.at e × (self.new ≡ self.old)) }
    {
        let at = self.at;
        if !fits(self.out.len(), at as u128 + 14) {
            return Err(Reason::OutputTooShort.into());
        }
        lay(self.out, at, &entry_bytes(entry));
        self.at = at + 14;
        Ok(())
    }

    /// Ends the file: writes its directory, and answers its length.
    pub fn close(self) -> usize
        ensures size { result ≡ closed_length (stands self.entry.out.now self.entry.at self.entry.header) self.entry.at }
        ensures bytes { self.exit.0.now ≡ closed_output (stands self.entry.out.now self.entry.at self.entry.header) self.entry.out.now self.entry.at self.entry.header }
    {
        let Begun { out, at, header } = self;
        if !is_standing(out, at, header) {
            return 0;
        }
        put_two_pairs(out, header, at - (16 + header));
        at
    }
}

// The fourteen bytes of an entry.
pub(crate) fn entry_bytes(entry: Entry) -> [u8; 14]
    ensures { result ≡ entry_bytes entry }
{
    let [a1, a0] = entry.first.to_be_bytes();
    let [b1, b0] = entry.role.to_be_bytes();
    let [c1, c0] = entry.second.to_be_bytes();
    let [d1, d0] = entry.place.to_be_bytes();
    let [u1, u0] = entry.u.to_be_bytes();
    let [w1, w0] = entry.w.to_be_bytes();
    [
        entry.letter,
        entry.rule,
        a1,
        a0,
        b1,
        b0,
        c1,
        c0,
        d1,
        d0,
        u1,
        u0,
        w1,
        w0,
    ]
}

// Whether the file was begun with room.
fn is_standing(out: &[u8], at: usize, header: usize) -> bool
    ensures { result ≡ stands out.now at header }
{
    at <= out.len() && at < 4294967296 && header <= at && at - header >= 16
}

// The directory of a file with a header and entries of these lengths.
fn put_two_pairs(out: &mut [u8], header: usize, entries: usize)
    requires { (16 ≤ length out.old) × (16 + header + entries < 4294967296) }
    ensures { out.new ≡ laid out.old 0 (two_pairs header entries) }
{
    let size = header as u32;
    lay(out, 0, &pair_bytes(16, size));
    lay(out, 8, &pair_bytes(16 + size, entries as u32));
}
