// Writing a recovery file whole.
ghost use Rattle.std.specs.Prelude.{◌≡◌, ℕ, ◌+◌, ◌*◌, ◌<◌, ◌≤◌, true, length, MatchResult};
ghost use Rattle.headers.specs.Output.{laid, fits, too_short, Wrote, Kept};
ghost use Rattle.recovery.specs.Begun.{recovery_bytes};

use crate::begun::begin;
use crate::entry::Entry;
use headers::output::fits;
use rules::refusals::{Reason, Refusal};

/// Writes the recovery file of a header and entries, and answers its length. Neither is judged.
pub fn write_recovery(header: &[u8], entries: &[Entry], out: &mut [u8]) -> Result<usize, Refusal>
    ensures { MatchResult result (λ n. Wrote out.old out.new (recovery_bytes header.now entries.now) n) (λ e. Kept out.old out.new (recovery_bytes header.now entries.now) e) }
{
    let size = 16 + header.len() as u128 + 14 * (entries.len() as u128);
    if !fits(out.len(), size) {
        return Err(Reason::OutputTooShort.into());
    }
    Ok(fill(out, header, entries))
}

fn fill(out: &mut [u8], header: &[u8], entries: &[Entry]) -> usize
    requires { fits out.old (16 + length header.now + 14 * length entries.now) ≡ true }
    ensures size { result ≡ 16 + length header.now + 14 * length entries.now }
    ensures bytes { out.new ≡ laid out.old 0 (recovery_bytes header.now entries.now) }
{
    let mut file = begin(out, header);
    for entry in entries {
        // this cannot fail: the requirement says that the whole file fits, so each entry finds room
        let _ = file.put(*entry);
    }
    file.close()
}
