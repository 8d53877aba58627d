// Whether fields fit the kinds of a form.
ghost use Rattle.std.specs.Prelude.{◌≡◌};
ghost use Rattle.rules.specs.Fits.{count, field_fits, wrong_field};

use crate::counts::Counts;
use crate::forms::Kind;
use crate::three::Three;

/// The first of the three fields that does not fit its kind, counted from 1.
// Three tests in order: an array would be made only to be gone over, and its places counted from 0.
pub fn wrong_field(counts: Counts, kinds: Three<Option<Kind>>, fields: Three<u16>) -> Option<usize>
    ensures { result ≡ wrong_field counts.individuals counts.classes counts.roles kinds fields }
{
    if !field_fits(counts, kinds.first, fields.first) {
        return Some(1);
    }
    if !field_fits(counts, kinds.second, fields.second) {
        return Some(2);
    }
    if !field_fits(counts, kinds.third, fields.third) {
        return Some(3);
    }
    None
}

fn field_fits(counts: Counts, kind: Option<Kind>, field: u16) -> bool
    ensures { result ≡ field_fits counts.individuals counts.classes counts.roles kind field }
{
    match kind {
        None => field == 0,
        Some(kind) => field < count_of(counts, kind),
    }
}

// How many names of the kind there are.
fn count_of(counts: Counts, kind: Kind) -> u16
    ensures { result ≡ count counts.individuals counts.classes counts.roles kind }
{
    match kind {
        Kind::Individual => counts.individuals,
        Kind::Class => counts.classes,
        Kind::Role => counts.roles,
    }
}
