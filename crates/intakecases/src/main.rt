// Files and rule texts, a line each: after `h` a header in hexadecimal, after `r` a recovery file, after `t` a rule text with
// `;` for its line ends. Prints what reading each answers: the counts of a header, and that writing it again gives the same
// bytes; the lengths of a recovery file's parts; the header of a text; or the refusal.
#![tactic(auto)]

mod texts;

use crate::texts::{judge_text, text_of};
use caselines::answer::Answer;
use caselines::hex::bytes_of;
use headers::header::Header;
use intake::header::{read_header, take_header};
use rules::statements::Statement;
use std::io;
use std::io::Read;

// Whether writing the header again with these statements gives the same bytes. The trial of files copies the statements itself,
// and has a function alike: the few lines are no plainer as one of caselines, which would owe them a contract. The arrays are as
// long as a header can be, so nothing here can run out of memory.
fn is_same(header: &Header<'_>, statements: &[Statement], bytes: &[u8]) -> bool {
    let mut output = [0u8; 13504];
    match header.rewrite(statements, &mut output) {
        Ok(size) => &output[0..size] == bytes,
        Err(_) => false,
    }
}

// The same with the statements that are taken from the bytes.
fn is_same_taken(header: &Header<'_>, bytes: &[u8]) -> bool {
    let mut memory = [Statement::Empty { class: 0 }; 384];
    match take_header(bytes, &mut memory) {
        Ok(counts) => is_same(header, &memory[0..counts.statements as usize], bytes),
        Err(_) => false,
    }
}

pub(crate) fn header_answer(bytes: &[u8]) -> Answer {
    match read_header(bytes) {
        Ok(header) => Answer::Header {
            tally: header.tally,
            same: is_same_taken(&header, bytes),
        },
        Err(refusal) => Answer::Refused(refusal),
    }
}

pub(crate) fn print_answer(rt: &HostRuntime, number: usize, answer: Answer) -> io::Result<()> {
    println!(rt; "{number} {answer}")
}

fn judge_each(rt: &HostRuntime, input: &[u8]) -> io::Result<()> {
    for (number, line) in (1..1000).zip(input.split(|b| *b == b'\n')) {
        if let [letter, written @ ..] = line {
            match *letter {
                b'h' => print_answer(rt, number, header_answer(&bytes_of(rt.alloc(), written)?))?,
                b'r' => print_answer(
                    rt,
                    number,
                    Answer::recovery(&bytes_of(rt.alloc(), written)?),
                )?,
                _ => judge_text(rt, number, &text_of(rt, written)?)?,
            }
        }
    }
    Ok(())
}

fn main(rt: HostRuntime) -> io::Result<()> {
    let mut input = Vec::new(rt.alloc());
    rt.stdin().read_to_end(&mut input)?;
    judge_each(&rt, &input)
}
