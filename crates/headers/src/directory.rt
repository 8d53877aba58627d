// The directory of a file: pairs of an offset and a length, 32 bits each.
ghost use Rattle.std.specs.Prelude.{◌≡◌, ℕ, ◌+◌, ◌<◌, ◌≤◌, true, false, length, MatchOption};
ghost use Rattle.headers.specs.Bytes.{long};
ghost use Rattle.headers.specs.Header.{starts_at, end_at, pair};

// The 32-bit numbers of a pair that starts at a place, if it lies in the file.
fn pair_at(bytes: &[u8], place: usize) -> Option<(u32, u32)>
    ensures { MatchOption result (length bytes.now < place + 8) (λ p. (place + 8 ≤ length bytes.now) × (p.0 ≡ long bytes.now place) × (p.1 ≡ long bytes.now (place + 4))) }
{
    let [a, b, c, d, e, f, g, h, ..] = bytes.get(place..)? else {
        return None;
    };
    Some((
        u32::from_be_bytes([*a, *b, *c, *d]),
        u32::from_be_bytes([*e, *f, *g, *h]),
    ))
}

/// Where a part ends, if its pair, which starts at `place`, lies in the file and says that the part starts where it should.
pub fn part_end(bytes: &[u8], place: usize, should: usize) -> Option<usize>
    ensures { MatchOption result (starts_at bytes.now place should ≡ false) (λ e. (starts_at bytes.now place should ≡ true) × (e ≡ end_at bytes.now place) × (should ≤ e) × (e < should + 4294967296)) }
{
    let (from, size) = pair_at(bytes, place)?;
    if from as usize != should {
        return None;
    }
    Some(should + size as usize)
}

/// The bytes of a pair: where a part starts, and how long it is.
pub fn pair_bytes(from: u32, size: u32) -> [u8; 8]
    ensures { result ≡ pair from size }
{
    let [a, b, c, d] = from.to_be_bytes();
    let [e, f, g, h] = size.to_be_bytes();
    [a, b, c, d, e, f, g, h]
}
