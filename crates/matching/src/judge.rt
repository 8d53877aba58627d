// Judging the entries of a recovery file, with the facts of the good ones put into a store.
ghost use Rattle.std.specs.Prelude.{◌≡◌, ℕ, ◌+◌, ◌<◌, ◌≤◌, false, MatchOption};
ghost use Rattle.marks.specs.Sets.{Member, tally};
ghost use Rattle.marks.specs.Trees.{Closed};
ghost use Rattle.calculus.specs.Numbers.{fact_limit};
ghost use Rattle.headers.specs.Bytes.{cut};
ghost use Rattle.reasoner.specs.Theorems.{NumberSteps};
ghost use Rattle.matching.specs.Going.{GivenNumber, NoneGiven, GoodHere, KeptHere, Lacking, Stays};
ghost use Rattle.matching.specs.Matched.{WentOver};

use crate::entry::read_entry;
use calculus::numbers::number_of;
use grounds::check::gives;
use marks::rules::RuleSet;
use marks::store::{MarkStore, Put};
use reasoner::book::BookRules;
use recovery::entries::{Judged, Keeper, Verdict, keep_entries};
use recovery::entry::Entry;
use rules::base::RuleBase;
use rules::refusals::Refusal;

// The number of the fact that an entry tells, if its ground gives that fact from held ones.
fn given_number<S: MarkStore>(base: RuleBase<'_>, store: &S, entry: Entry) -> Option<u64>
    ensures { MatchOption result (NoneGiven base.entry.counts.individuals base.entry.counts.classes base.entry.counts.roles base.entry.statements.now (S.MarkStore.held store.now) entry) (λ m. GivenNumber base.entry.counts.individuals base.entry.counts.classes base.entry.counts.roles base.entry.statements.now (S.MarkStore.held store.now) entry m) }
{
    let told = read_entry(base.counts, entry)?;
    let number = number_of(base.counts, told.fact)?;
    gives(base, store, told.fact, told.ground).then_some(number)
}

// A keeper of entries by a rule base: it stands by the facts of the good ones, which it keeps in a store.
#[derive(Drop)]
struct BookJudge<'b, 's, S: MarkStore> {
    base: RuleBase<'b>,
    store: &'s mut S,
}

impl<'b, 's, S: MarkStore> Keeper for BookJudge<'b, 's, S> {
    ghost good = { λ j e. GoodHere j.base (S.MarkStore.held j.store.now) (S.MarkStore.limit j.store.now) e };

    ghost full = { λ j. S.MarkStore.capacity j.store.now ≤ tally (S.MarkStore.held j.store.now) (S.MarkStore.limit j.store.now) };

    ghost whole = { λ j. Closed (NumberSteps j.base.counts.individuals j.base.counts.classes j.base.counts.roles j.base.statements.now) (Member (S.MarkStore.held j.store.now)) };

    ghost lacks = { λ j. Lacking (NumberSteps j.base.counts.individuals j.base.counts.classes j.base.counts.roles j.base.statements.now) (S.MarkStore.held j.store.now) };

    ghost keeps = { λ j e i. KeptHere j.base (S.MarkStore.held j.store.now) e (S.MarkStore.held i.store.now) × Stays j.base i.base (S.MarkStore.limit j.store.now) (S.MarkStore.limit i.store.now) (S.MarkStore.capacity j.store.now) (S.MarkStore.capacity i.store.now) (S.MarkStore.lent j.store.now) (S.MarkStore.lent i.store.now) j.store.ghost_name i.store.ghost_name };

    ghost alike = { λ j i. ((x : ℕ) → S.MarkStore.held i.store.now x ≡ S.MarkStore.held j.store.now x) × Stays j.base i.base (S.MarkStore.limit j.store.now) (S.MarkStore.limit i.store.now) (S.MarkStore.capacity j.store.now) (S.MarkStore.capacity i.store.now) (S.MarkStore.lent j.store.now) (S.MarkStore.lent i.store.now) j.store.ghost_name i.store.ghost_name };

    fn judge(&mut self, entry: Entry) -> Judged {
        let Some(number) = given_number(self.base, self.store, entry) else {
            return Judged::Bad;
        };
        match self.store.put(number) {
            Put::Added => Judged::Good,
            Put::Full => Judged::Full,
            Put::Held => Judged::Bad,
            Put::Outside => Judged::Bad,
        }
    }

    fn is_whole(&self) -> bool {
        BookRules::over(self.base).missing(self.store, 0).is_none()
    }
}

// Goes over the entries of a part, whose good ones put their facts into the empty store.
// The last three clauses are those of the trait MarkStore, for the store is changed only by its methods.
pub(crate) fn judge_part<S: MarkStore>(
    base: RuleBase<'_>,
    part: &[u8],
    store: &mut S,
) -> Result<Verdict, Refusal>
    requires empty { (x : ℕ) → S.MarkStore.held store.old x ≡ false }
    requires wide { fact_limit base.counts.individuals base.counts.classes base.counts.roles ≤ S.MarkStore.limit store.old }
    ensures went { WentOver base.entry.counts.individuals base.entry.counts.classes base.entry.counts.roles base.entry.statements.now (cut 14 part.now) (S.MarkStore.capacity store.old) (S.MarkStore.held store.new) result }
    ensures limit_kept { S.MarkStore.limit store.new ≡ S.MarkStore.limit store.old }
    ensures capacity_kept { S.MarkStore.capacity store.new ≡ S.MarkStore.capacity store.old }
    ensures lent_kept { S.MarkStore.lent store.new ≡ S.MarkStore.lent store.old }
{
    let mut judge = BookJudge { base, store };
    keep_entries(&mut judge, part)
}
