// What an entry of a recovery file says: a fact and its ground.
ghost use Rattle.std.specs.Prelude.{◌≡◌, ◌+◌, ◌<◌, ◌≤◌, MatchOption};
ghost use Rattle.calculus.specs.Terms.{first_number, second_number, ground_of};
ghost use Rattle.calculus.specs.Numbers.{first_terms, FirstInside, SecondInside};
ghost use Rattle.calculus.specs.declared.terms.Fact.{Fact};
ghost use Rattle.calculus.specs.declared.terms.Ground.{Ground};
ghost use Rattle.recovery.specs.EntryCuts.{EntryFits};
ghost use Rattle.matching.specs.Complete.{entry_of};
ghost use Rattle.matching.specs.Entries.{Tells, TellsNone, ToldOnce, GivenFits, ground_in, made};

use calculus::term::Term;
use calculus::terms::{Fact, First, Ground, Second};
use recovery::entry::Entry;
use rules::counts::Counts;

/// A fact, and why it stands.
#[derive(Clone, Copy)]
pub struct GroundedFact {
    pub fact: Fact,
    pub ground: Ground,
}

// The fact of an entry, by its letter.
fn fact_in(counts: Counts, entry: Entry) -> Option<Fact>
    ensures { MatchOption result (TellsNone counts.individuals counts.classes counts.roles entry) (λ f. Tells counts.individuals counts.classes counts.roles entry f (ground_in entry)) }
{
    let Entry {
        letter,
        first,
        role,
        second,
        ..
    } = entry;
    match letter {
        b'I' if role == 0 => {
            let x = First::with_number(counts, first)?;
            let y = Second::with_number(counts, second)?;
            Some(Fact::Instance(x, y))
        }
        b'S' if role < counts.roles && second == 0 => {
            let x = First::with_number(counts, first)?;
            Some(Fact::SelfPair(x, role))
        }
        b'T' if role < counts.roles => {
            let x = First::with_number(counts, first)?;
            let y = First::with_number(counts, second)?;
            Some(Fact::Pair(x, role, y))
        }
        _ => None,
    }
}

/// The fact that an entry tells, with its ground; `None` if it tells no fact of the book. No entry tells two.
pub fn read_entry(counts: Counts, entry: Entry) -> Option<GroundedFact>
    ensures told { MatchOption result (TellsNone counts.individuals counts.classes counts.roles entry) (λ g. Tells counts.individuals counts.classes counts.roles entry g.fact g.ground) }
    ensures once { ToldOnce }
{
    let fact = fact_in(counts, entry)?;
    let ground = Ground {
        rule: u16::from(entry.rule),
        place: entry.place,
        u: entry.u,
        w: entry.w,
    };
    Some(GroundedFact { fact, ground })
}

// An entry with these numbers, `None` if they do not fit it.
fn entry_with(letter: u8, first: u64, role: u16, second: u64, ground: Ground) -> Option<Entry>
    ensures { MatchOption result (¬ EntryFits (made letter first role second ground)) (λ e. e ≡ made letter first role second ground) }
{
    Some(Entry {
        letter,
        rule: u8::try_from(ground.rule).ok()?,
        first: u16::try_from(first).ok()?,
        role,
        second: u16::try_from(second).ok()?,
        place: ground.place,
        u: ground.u,
        w: ground.w,
    })
}

/// The entry of a fact and its ground; `None` if a number does not fit its field. Whatever a ground gives from facts of a
/// book has an entry.
// The two come apart, as `gives` of grounds takes them: a GroundedFact, which is what an entry tells, is made by reading.
pub fn entry_of(counts: Counts, fact: Fact, ground: Ground) -> Option<Entry>
    ensures told { MatchOption result (¬ EntryFits (entry_of counts.individuals fact ground)) (λ e. e ≡ entry_of counts.individuals fact ground) }
    ensures given { GivenFits }
{
    match fact {
        Fact::Instance(x, y) => entry_with(b'I', x.number(counts), 0, y.number(counts), ground),
        Fact::SelfPair(x, v) => entry_with(b'S', x.number(counts), v, 0, ground),
        Fact::Pair(x, v, y) => entry_with(b'T', x.number(counts), v, y.number(counts), ground),
    }
}
