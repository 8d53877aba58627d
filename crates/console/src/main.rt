// The console: reads an office's rule text from standard input and says whether it can be read, and how many facts follow.
#![tactic(auto)]

ghost use Rattle.std.specs.Prelude.{◌≤◌, length, IfOk};

use ruletext::text_rules::Rules;
use std::io;
use std::io::Read;
use survey::report::tell;

// Reads into a buffer until the input ends or the buffer is full. No `read_to_end` into a Vec: it could run out of memory as it
// reads, which a fixed buffer cannot.
fn fill<R: Read>(input: &mut R, buffer: &mut [u8]) -> io::Result<usize>
    ensures { IfOk result (λ n. n ≤ length buffer.old) }
{
    let size = buffer.len();
    let mut at = 0;
    for _ in 0..size {
        let got = input.read(&mut buffer[at..size])?;
        if got == 0 {
            break;
        }
        at += got;
    }
    Ok(at)
}

fn main(rt: HostRuntime) -> io::Result<()> {
    // one byte more than the longest input, so that a longer one is seen
    let mut buffer = [0u8; 16385];
    let mut input = rt.stdin();
    let len = fill(&mut input, &mut buffer)?;
    let mut rules = Rules::new(rt.alloc())?;
    let mut slots = [None::<u64>; 4096];
    match tell(&mut rules, &mut slots, &buffer[0..len]) {
        Ok(survey) => println!(rt; "{survey}"),
        Err(no_survey) => println!(rt; "{no_survey}"),
    }
}
