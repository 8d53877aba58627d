// An entry of a recovery file, and entries taken off bytes.
ghost use Rattle.std.specs.Prelude.{◌≡◌, ◌+◌, ◌*◌, ◌<◌, length, MatchOption};
ghost use Rattle.recovery.specs.Begun.{entry_bytes};
ghost use Rattle.recovery.specs.EntryCuts.{EntryCut, EntryFits};

/// A fact and its ground: the fact's letter, the number of the rule, the first term, the role, the second term or target,
/// the place of the statement plus 1, and the witnesses u and w; 0 for what is unused. It is written as it is,
/// and a file may hold any of these numbers, so letter and rule are no enums: what they tell is judged by who reads the entry.
#[derive(Clone, Copy)]
pub struct Entry {
    pub letter: u8,
    pub rule: u8,
    pub first: u16,
    pub role: u16,
    pub second: u16,
    pub place: u16,
    pub u: u16,
    pub w: u16,
}

/// An entry, and the bytes after it.
#[derive(Clone, Copy)]
pub struct CutEntry<'a> {
    pub entry: Entry,
    pub rest: &'a [u8],
}

/// Takes the first entry off some bytes; `None` if they are fewer than fourteen.
pub fn cut_entry(bytes: &[u8]) -> Option<CutEntry<'_>>
    ensures { MatchOption result (length bytes.now < 14) (λ c. EntryCut bytes.now c.entry c.rest.now) }
{
    let (first, rest) = bytes.split_first_chunk::<14>()?;
    Some(CutEntry {
        entry: entry_in(*first),
        rest,
    })
}

// The entry that fourteen bytes give.
pub(crate) fn entry_in(bytes: [u8; 14]) -> Entry
    ensures is { entry_bytes result ≡ bytes }
    ensures fits { EntryFits result }
{
    let [letter, rule, a1, a0, b1, b0, c1, c0, p1, p0, u1, u0, w1, w0] = bytes;
    Entry {
        letter,
        rule,
        first: u16::from_be_bytes([a1, a0]),
        role: u16::from_be_bytes([b1, b0]),
        second: u16::from_be_bytes([c1, c0]),
        place: u16::from_be_bytes([p1, p0]),
        u: u16::from_be_bytes([u1, u0]),
        w: u16::from_be_bytes([w1, w0]),
    }
}
