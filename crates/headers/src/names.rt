// Names in a part of a header: each is ended by a line end.
ghost use Rattle.std.specs.Prelude.{◌≡◌, ℕ, ◌+◌, ◌-◌, ◌*◌, ◌<◌, ◌≤◌, true, false, not, ◌&&◌, List, [], ◌∷◌, ◌++◌, length, Some, None, MatchOption, slice_index_or, ◌==◌};
ghost use Rattle.std.specs.Iterator.{YieldsFirstRef, item_count};
ghost use Rattle.std.specs.List.{position};
ghost use Rattle.headers.specs.Names.{lines, ended, is_in, distinct, are_names, line};

use reader::letters::is_name;

// Where the first line ends.
fn line_end(part: &[u8]) -> Option<usize>
    ensures { result ≡ position (λ b. b == 10) part.now }
{
    part.iter().position(|b| *b == b'\n')
}

// The first line, without its end, and what stands after it.
fn first_line(part: &[u8]) -> Option<(&[u8], &[u8])>
    ensures { MatchOption result (lines part.now ≡ []) (λ p. (part.now ≡ p.0.now ++ (10 ∷ p.1.now)) × (lines part.now ≡ p.0.now ∷ lines p.1.now)) }
{
    let end = line_end(part)?;
    Some((&part[..end], &part[end + 1..]))
}

// The lines of a part that are still to come.
#[derive(Drop)]
struct Lines<'a> {
    rest: &'a [u8],
}

impl<'a> Iterator for Lines<'a> {
    type Item = &'a [u8];

    ghost next_gives = { YieldsFirstRef (λ s. lines s.rest.now) };

    ghost remaining = { item_count (λ s. lines s.rest.now) };

    fn next(&mut self) -> Option<&'a [u8]> {
        let (line, after) = first_line(self.rest)?;
        self.rest = after;
        Some(line)
    }
}

// Whether a name is a line of the part.
fn is_in(name: &[u8], part: &[u8]) -> bool
    ensures { result ≡ is_in name.now (lines part.now) }
{
    Lines { rest: part }.any(|line| name == line)
}

// How many names a part has, if it is right: names, each ended, none twice.
pub(crate) fn count_names(part: &[u8]) -> Option<usize>
    ensures { MatchOption result (are_names part.now ≡ false) (λ n. (are_names part.now ≡ true) × (n ≡ length (lines part.now))) }
{
    // No `for` over `Lines`: it would not show what stands after a name, in which the name is looked for.
    let mut rest = part;
    let mut n = 0;
    while let Some((one, after)) = first_line(rest) {
        if !is_name(one) || is_in(one, after) {
            return None;
        }
        rest = after;
        n += 1;
    }
    if rest.len() == 0 { Some(n) } else { None }
}

// The name at a place of a part, from 0.
pub(crate) fn name_at(part: &[u8], place: usize) -> Option<&[u8]>
    ensures { MatchOption result (length (lines part.now) ≤ place) (λ x. (place < length (lines part.now)) × (x.now ≡ slice_index_or (lines part.now) place [])) }
{
    Lines { rest: part }.nth(place)
}
