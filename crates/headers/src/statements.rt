// The statements in the last part of a header.
ghost use Rattle.std.specs.Prelude.{◌≡◌, ℕ, ◌+◌, length, Some, None, MatchResult};
ghost use Rattle.headers.specs.Header.{are_records, records_in, statements_in};
ghost use Rattle.headers.specs.Records.{records_refusal};
ghost use Rattle.headers.specs.Views.{Copied};

use crate::record::{is_record, record_in};
use rules::counts::Counts;
use rules::refusals::{Reason, Refusal};
use rules::statements::Statement;

// Whether a part is made of records: eight bytes each, a known letter, a zero.
pub(crate) fn are_records(part: &[u8]) -> bool
    ensures { result ≡ are_records part.now }
{
    let (records, rest) = part.as_chunks::<8>();
    for bytes in records {
        if !is_record(*bytes) {
            return false;
        }
    }
    rest.is_empty()
}

// The first record with a wrong field is refused.
pub(crate) fn check_fields(counts: Counts, part: &[u8]) -> Result<(), Refusal>
    ensures { MatchResult result (λ _. records_refusal counts.individuals counts.classes counts.roles 0 (records_in part.now) ≡ None) (λ e. records_refusal counts.individuals counts.classes counts.roles 0 (records_in part.now) ≡ Some e) }
{
    let (records, _) = part.as_chunks::<8>();
    for (place, bytes) in records.iter().enumerate() {
        if let Some(item) = record_in(*bytes).wrong(counts) {
            return Err(Reason::WrongField.at(place, item));
        }
    }
    Ok(())
}

// Copies the statements of a part as far as the memory goes. The count goes up where a record gives a statement, so it is no place in the records.
pub(crate) fn copy_statements(part: &[u8], memory: &mut [Statement]) -> usize
    ensures { Copied memory.old memory.new (statements_in part.now) result }
{
    let (records, _) = part.as_chunks::<8>();
    let mut count = 0;
    for bytes in records {
        if let Some(statement) = record_in(*bytes).statement() {
            if count == memory.len() {
                return count;
            }
            memory[count] = statement;
            count += 1;
        }
    }
    count
}
