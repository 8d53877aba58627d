// A recovery file held against a header.
ghost use Rattle.std.specs.Prelude.{◌≡◌, length};
ghost use Rattle.matching.specs.Matched.{Compared, Matched, OneAnswer, Promise};

use crate::judge::judge_part;
use calculus::numbers::fact_limit;
use intake::header::take_header;
use marks::store::MarkStore;
use recovery::entries::Verdict;
use recovery::read::read_recovery;
use rules::base::RuleBase;
use rules::refusals::{Reason, Refusal};
use rules::statements::Statement;

// The file with an accepted header: a refusal of the file or the store, or no at 0, or what the entries say. Of the store the
// three clauses of the trait MarkStore stand here as there: as one they would be longer, with six numbers.
fn compare<S: MarkStore>(
    base: RuleBase<'_>,
    header: &[u8],
    file: &[u8],
    store: &mut S,
) -> Result<Verdict, Refusal>
    ensures compared { Compared header.now base.entry.counts.individuals base.entry.counts.classes base.entry.counts.roles base.entry.statements.now file.now (S.MarkStore.limit store.old) (S.MarkStore.capacity store.old) (store.new ≡ store.old) (S.MarkStore.held store.new) result }
    ensures limit_kept { S.MarkStore.limit store.new ≡ S.MarkStore.limit store.old }
    ensures capacity_kept { S.MarkStore.capacity store.new ≡ S.MarkStore.capacity store.old }
    ensures lent_kept { S.MarkStore.lent store.new ≡ S.MarkStore.lent store.old }
{
    let parts = read_recovery(file)?;
    if store.limit() < fact_limit(base.counts) {
        return Err(Reason::StoreTooSmall.into());
    }
    store.clear();
    if parts.header == header {
        judge_part(base, parts.entries, store)
    } else {
        // 0 is no place of an entry: it says that the file is of another header
        Ok(Verdict::No(0))
    }
}

/// Holds the bytes of a recovery file against the bytes of a header, with a mark store of any kind. The answer is yes exactly
/// if the file is complete for the header, else no with a place. The header's refusals come first, then the file's, then
/// those of the store; the store is cleared once none of them has come, and then takes the facts of the good entries.
pub fn match_file<S: MarkStore>(
    header: &[u8],
    file: &[u8],
    store: &mut S,
) -> Result<Verdict, Refusal>
    ensures matched { Matched header.now file.now (S.MarkStore.limit store.old) (S.MarkStore.capacity store.old) (store.new ≡ store.old) (S.MarkStore.held store.new) result }
    ensures promise { Promise header.now file.now (S.MarkStore.limit store.old) (S.MarkStore.capacity store.old) result }
    ensures one { OneAnswer header.now file.now (S.MarkStore.limit store.old) (S.MarkStore.capacity store.old) }
    ensures limit_kept { S.MarkStore.limit store.new ≡ S.MarkStore.limit store.old }
    ensures capacity_kept { S.MarkStore.capacity store.new ≡ S.MarkStore.capacity store.old }
    ensures lent_kept { S.MarkStore.lent store.new ≡ S.MarkStore.lent store.old }
{
    // fixed memory, since the engine takes no heap; the counts say how much of it is in use
    let mut memory = [Statement::Empty { class: 0 }; 384];
    let counts = take_header(header, &mut memory)?;
    let base = RuleBase::new(counts, &memory[0..usize::from(counts.statements)]);
    compare(base, header, file, store)
}
