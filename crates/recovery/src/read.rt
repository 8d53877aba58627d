// The two parts of a recovery file.
ghost use Rattle.std.specs.Prelude.{◌≡◌, ℕ, ◌+◌, ◌-◌, ◌*◌, ◌<◌, ◌≤◌, true, false, length, Some, None, MatchResult};
ghost use Rattle.recovery.specs.Recovery.{recovery_refusal, CutRecovery};

use headers::directory::part_end;
use rules::refusals::{Reason, Refusal};

/// The parts of a recovery file: the header, which is not judged, and the entries, fourteen bytes each.
#[derive(Clone, Copy)]
pub struct Recovery<'a> {
    pub header: &'a [u8],
    pub entries: &'a [u8],
}

/// Cuts a recovery file into its two parts.
pub fn read_recovery(bytes: &[u8]) -> Result<Recovery<'_>, Refusal>
    ensures { MatchResult result (λ v. CutRecovery bytes.now v.header.now v.entries.now) (λ e. recovery_refusal bytes.now ≡ Some e) }
{
    let one = part_end(bytes, 0, 16).ok_or(Reason::WrongDirectory.at(1, 0))?;
    let two = part_end(bytes, 8, one).ok_or(Reason::WrongDirectory.at(2, 0))?;
    if two != bytes.len() {
        return Err(Reason::WrongDirectory.at(2, 0));
    }
    let header = &bytes[16..one];
    let entries = &bytes[one..two];
    if entries.len() % 14 != 0 {
        return Err(Reason::WrongContent.at(2, 0));
    }
    Ok(Recovery { header, entries })
}
