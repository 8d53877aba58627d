// Going over the entries of a recovery file, by a judge of entries.
ghost use Rattle.std.specs.Prelude.{◌≡◌, ℕ, ◌+◌, ◌<◌, ◌≤◌, Bool, true, false, List, [], ◌∷◌, ◌++◌, length};
ghost use Rattle.headers.specs.Bytes.{cut};
ghost use Rattle.recovery.specs.declared.entry.Entry.{Entry};
ghost use Rattle.recovery.specs.Entries.{Judges, Gone};
ghost use Rattle.recovery.specs.Begun.{entry_bytes};
ghost use Rattle.recovery.specs.Tested.{judged, kept_with, verdict, kept_of, SameTests, TestsTell};

use crate::begun::entry_bytes;
use crate::entry::{Entry, entry_in};
use rules::refusals::{Reason, Refusal};

/// What going over the entries answers: yes, or no with a place.
// An enum of its own: as an Option it would say None for yes and Some for no.
#[derive(Clone, Copy)]
pub enum Verdict {
    Yes,
    No(usize),
}

/// What a judge says of an entry: good and kept, bad, or good with no room to keep it.
#[derive(Clone, Copy)]
pub enum Judged {
    Good,
    Bad,
    Full,
}

/// Judges entries one after the other by tests of those that it has seen, and keeps the good ones.
pub trait Judge {
    // the entries that are kept so far
    ghost seen: { Self → List (List ℕ) };
    // whether an entry is good after others
    ghost good: { Self → List (List ℕ) → List ℕ → Bool };
    // whether there is no room for another entry after these
    ghost full: { Self → List (List ℕ) → Bool };
    // whether no fact is missing from these
    ghost whole: { Self → List (List ℕ) → Bool };

    fn judge(&mut self, entry: &[u8]) -> Judged
        ensures answer { result ≡ judged (good self.old (seen self.old) entry.now) (full self.old (seen self.old)) }
        ensures seen { seen self.new ≡ kept_with result (seen self.old) entry.now }
        ensures good { good self.new ≡ good self.old }
        ensures full { full self.new ≡ full self.old }
        ensures whole { whole self.new ≡ whole self.old };

    fn is_whole(&self) -> bool
        ensures { result ≡ whole self.now (seen self.now) };
}

/// Judges entries one after the other by how it stands, which need be no test of what it has seen, and keeps the good ones.
pub trait Keeper {
    // whether an entry is good, where a keeper stands so
    ghost good: { Self → Entry → Type 0 };
    // whether there is no room to keep another
    ghost full: { Self → Type 0 };
    // whether no fact is missing from what is kept
    ghost whole: { Self → Type 0 };
    // whether a fact is missing from what is kept
    ghost lacks: { Self → Type 0 };
    // a keeper, an entry, and the keeper once it has kept it
    ghost keeps: { Self → Entry → Self → Type 0 };
    // a keeper, and one that stands as it does
    ghost alike: { Self → Self → Type 0 };

    fn judge(&mut self, entry: Entry) -> Judged
        ensures { Judges (good self.old entry) (full self.old) (keeps self.old entry self.new) (alike self.old self.new) result };

    fn is_whole(&self) -> bool
        ensures whole { result ≡ true → whole self.now }
        ensures lacks { result ≡ false → lacks self.now };
}

/// Goes over the entries of a part: no at the first bad one, a refusal where a good one finds no room, and after the last
/// one yes, or no at the next place if a fact is missing. The judge's tests fix the answer, and what is kept.
pub fn judge_entries<J: Judge>(judge: &mut J, part: &[u8]) -> Result<Verdict, Refusal>
    ensures answer { result ≡ verdict (J.Judge.good judge.old) (J.Judge.full judge.old) (J.Judge.whole judge.old) (J.Judge.seen judge.old) 1 (cut 14 part.now) }
    ensures kept { J.Judge.seen judge.new ≡ kept_of (J.Judge.good judge.old) (J.Judge.full judge.old) (J.Judge.seen judge.old) (cut 14 part.now) }
{
    let mut keeper = ByTests { judge };
    keep_entries(&mut keeper, part)
}

/// The same with a keeper. Where it goes by tests of what it has seen, these fix the answer.
pub fn keep_entries<K: Keeper>(keeper: &mut K, part: &[u8]) -> Result<Verdict, Refusal>
    ensures gone { Gone K.Keeper.good K.Keeper.full K.Keeper.whole K.Keeper.lacks K.Keeper.keeps K.Keeper.alike (cut 14 part.now) 1 keeper.old keeper.new result }
    ensures tested { TestsTell K }
{
    go_over(keeper, part)
}

// A judge as a keeper: it stands by its tests and what it has seen.
#[derive(Drop)]
struct ByTests<'a, J: Judge> {
    judge: &'a mut J,
}

impl<'a, J: Judge> Keeper for ByTests<'a, J> {
    ghost good = { λ t e. J.Judge.good t.judge.now (J.Judge.seen t.judge.now) (entry_bytes e) ≡ true };

    ghost full = { λ t. J.Judge.full t.judge.now (J.Judge.seen t.judge.now) ≡ true };

    ghost whole = { λ t. J.Judge.whole t.judge.now (J.Judge.seen t.judge.now) ≡ true };

    ghost lacks = { λ t. J.Judge.whole t.judge.now (J.Judge.seen t.judge.now) ≡ false };

    ghost keeps = { λ t e u. (J.Judge.seen u.judge.now ≡ J.Judge.seen t.judge.now ++ (entry_bytes e ∷ [])) × SameTests J.Judge.good J.Judge.full J.Judge.whole t.judge.now u.judge.now × (u.judge.ghost_name ≡ t.judge.ghost_name) };

    ghost alike = { λ t u. (J.Judge.seen u.judge.now ≡ J.Judge.seen t.judge.now) × SameTests J.Judge.good J.Judge.full J.Judge.whole t.judge.now u.judge.now × (u.judge.ghost_name ≡ t.judge.ghost_name) };

    fn judge(&mut self, entry: Entry) -> Judged {
        self.judge.judge(&entry_bytes(entry))
    }

    fn is_whole(&self) -> bool {
        self.judge.is_whole()
    }
}

// The same without the theorem on tests, which would be due again at each return.
fn go_over<K: Keeper>(keeper: &mut K, part: &[u8]) -> Result<Verdict, Refusal>
    ensures { Gone K.Keeper.good K.Keeper.full K.Keeper.whole K.Keeper.lacks K.Keeper.keeps K.Keeper.alike (cut 14 part.now) 1 keeper.old keeper.new result }
{
    let (records, _) = part.as_chunks::<14>();
    for (i, bytes) in records.iter().enumerate() {
        match keeper.judge(entry_in(*bytes)) {
            Judged::Good => {}
            Judged::Bad => return Ok(Verdict::No(i + 1)),
            Judged::Full => return Err(Reason::StoreTooSmall.into()),
        }
    }
    if keeper.is_whole() {
        Ok(Verdict::Yes)
    } else {
        Ok(Verdict::No(records.len() + 1))
    }
}
