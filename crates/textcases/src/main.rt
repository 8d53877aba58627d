// Many rule texts in one input, parted by the byte 1E: prints what the program tells of each, a line a text.
#![tactic(auto)]

use ruletext::text_rules::Rules;
use std::io;
use std::io::Read;
use survey::report::tell;

// Tells of the first 999 texts, a line each.
fn tell_each(rt: &HostRuntime, slots: &mut [Option<u64>], input: &[u8]) -> io::Result<()> {
    let mut rules = Rules::new(rt.alloc())?;
    for (number, text) in (1..1000).zip(input.split(|b| *b == 0x1e)) {
        match tell(&mut rules, slots, text) {
            Ok(survey) => println!(rt; "{number} {survey}")?,
            Err(no_survey) => println!(rt; "{number} {no_survey}")?,
        }
    }
    Ok(())
}

fn main(rt: HostRuntime) -> io::Result<()> {
    let mut input = Vec::new(rt.alloc());
    rt.stdin().read_to_end(&mut input)?;
    let mut slots = [None::<u64>; 4096];
    tell_each(&rt, &mut slots, &input)
}
