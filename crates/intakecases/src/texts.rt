// Rule texts turned into headers.
use crate::{header_answer, print_answer};
use intake::text::text_to_header;
use rules::refusals::Refusal;
use ruletext::text_rules::Rules;
use std::io;

// What stands in an output before anything is written.
const BLANK: u8 = 0xaa;

// The text that a line gives: its line ends are written as `;`.
pub(crate) fn text_of(rt: &HostRuntime, line: &[u8]) -> io::Result<Vec<u8>> {
    Ok(
        line.iter()
            .map(|b| if *b == b';' { b'\n' } else { *b })
            .collect(rt.alloc())?,
    )
}

fn is_blank(bytes: &[u8]) -> bool {
    bytes.iter().all(|b| *b == BLANK)
}

// Each program tells a refusal in words of its own, so a refusal has no Display.
fn print_refusal(
    rt: &HostRuntime,
    number: usize,
    refusal: Refusal,
    output: &[u8],
) -> io::Result<()> {
    let reason = u8::from(refusal.reason);
    let line = refusal.place;
    let word = refusal.item;
    let kept = is_blank(output);
    println!(rt; "{number} refused {reason} line {line} word {word} kept {kept}")
}

// The header in hexadecimal, and whether the output past it has stayed.
fn print_header(rt: &HostRuntime, number: usize, header: &[u8], past: &[u8]) -> io::Result<()> {
    let size = header.len();
    let kept = is_blank(past);
    print!(rt; "{number} text {size} kept {kept} ")?;
    for b in header {
        print!(rt; "{b:02x}")?;
    }
    println!(rt; "")
}

// Prints what turning the text into its header answers, what that header reads as, and what an output that is one byte
// too short answers.
pub(crate) fn judge_text(rt: &HostRuntime, number: usize, text: &[u8]) -> io::Result<()> {
    let mut rules = Rules::new(rt.alloc())?;
    let mut output = [BLANK; 13504];
    match text_to_header(&mut rules, text, &mut output) {
        Ok(size) => {
            let (header, past) = output.split_at(size);
            print_header(rt, number, header, past)?;
            print_answer(rt, number, header_answer(header))?;
            judge_short(rt, number, text, size)
        }
        Err(refusal) => print_refusal(rt, number, refusal, &output),
    }
}

fn judge_short(rt: &HostRuntime, number: usize, text: &[u8], size: usize) -> io::Result<()> {
    let mut rules = Rules::new(rt.alloc())?;
    let mut output = [BLANK; 13504];
    if size < 1 || size > output.len() {
        return Ok(());
    }
    let short = &mut output[0..size - 1];
    match text_to_header(&mut rules, text, short) {
        Ok(_) => println!(rt; "{number} is not too short"),
        Err(refusal) => print_refusal(rt, number, refusal, short),
    }
}
