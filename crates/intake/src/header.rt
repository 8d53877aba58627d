// A header judged whole: its format, its counts and fields, and last whether its statements are admissible.
ghost use Rattle.std.specs.Prelude.{◌≡◌, Ok, Err, MatchResult};
ghost use Rattle.headers.specs.Header.{decode};
ghost use Rattle.intake.specs.Outcomes.{HeaderMeans, OneHeaderOutcome, AcceptedBack, OnlyOneAccepted};
ghost use Rattle.intake.specs.Taken.{Taken, Viewed, FormedFrom, Admitted};

use headers::header::{Header, open_header};
use roles::admissible::check_admissible;
use rules::base::RuleBase;
use rules::counts::Counts;
use rules::refusals::Refusal;
use rules::statements::Statement;

// A header that is in order by its format, and its counts.
#[derive(Clone, Copy)]
struct Formed<'a> {
    header: Header<'a>,
    counts: Counts,
}

// The header in a file, if its format, its counts and its fields are right.
fn form(bytes: &[u8]) -> Result<Formed<'_>, Refusal>
    ensures { MatchResult result (λ f. FormedFrom bytes.now f.header f.counts) (λ e. decode bytes.now ≡ Err e) }
{
    let header = open_header(bytes)?;
    let counts = header.judge()?;
    Ok(Formed { header, counts })
}

// The same, if its statements are admissible too.
fn admit(bytes: &[u8]) -> Result<Formed<'_>, Refusal>
    ensures { MatchResult result (λ f. Admitted bytes.now f.header f.counts) (λ e. HeaderMeans bytes.now (Err e)) }
{
    let formed = form(bytes)?;
    // fixed memory, since the engine takes no heap
    let mut statements = [Statement::Empty { class: 0 }; 384];
    let count = formed.header.copy_statements(&mut statements);
    let base = RuleBase::new(formed.counts, &statements[0..count]);
    check_admissible(&base)?;
    Ok(formed)
}

/// The header in a file as a view of its bytes, or its one refusal. A view's name is a part of the bytes.
pub fn read_header(bytes: &[u8]) -> Result<Header<'_>, Refusal>
    ensures exact { MatchResult result (λ h. Viewed bytes.now h) (λ e. HeaderMeans bytes.now (Err e)) }
    ensures one { OneHeaderOutcome bytes.now }
    ensures back { AcceptedBack }
    ensures only { OnlyOneAccepted }
{
    let read = admit(bytes)?;
    Ok(read.header)
}

/// The counts of the header in a file, and its statements at the front of the memory; or its one refusal, and the memory is
/// as it was.
// A whole array of fixed size, since the engine takes no heap: 384 is the most statements that a header has.
pub fn take_header(bytes: &[u8], memory: &mut [Statement; 384]) -> Result<Counts, Refusal>
    ensures taken { MatchResult result (λ c. Taken bytes.now c.individuals c.classes c.roles c.statements memory.old memory.new) (λ e. HeaderMeans bytes.now (Err e) × (memory.new ≡ memory.old)) }
    ensures one { OneHeaderOutcome bytes.now }
{
    let taken = admit(bytes)?;
    let _ = taken.header.copy_statements(memory);
    Ok(taken.counts)
}
