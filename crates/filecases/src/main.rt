// Files in hexadecimal, a line each: after `h` a header, after `r` a recovery file. Prints what reading each answers: the
// counts of a header, and that writing it again gives the same bytes; the lengths of a recovery file's parts; or the
// refusal by its number, place and field.
#![tactic(auto)]

use caselines::answer::Answer;
use caselines::hex::bytes_of;
use headers::header::{Header, read_header};
use rules::statements::Statement;
use std::io;
use std::io::Read;

// Whether writing the header again gives the same bytes.
fn is_same(header: &Header<'_>, bytes: &[u8]) -> bool {
    let mut memory = [Statement::Empty { class: 0 }; 384];
    let mut output = [0u8; 13504];
    let count = header.copy_statements(&mut memory);
    let written = header.rewrite(&memory[0..count], &mut output);
    written.is_ok_and(|size| &output[0..size] == bytes)
}

fn header_answer(bytes: &[u8]) -> Answer {
    match read_header(bytes) {
        Ok(header) => Answer::Header {
            tally: header.tally,
            same: is_same(&header, bytes),
        },
        Err(refusal) => Answer::Refused(refusal),
    }
}

fn answer_each(rt: &HostRuntime, input: &[u8]) -> io::Result<()> {
    for (number, line) in (1..1000).zip(input.split(|b| *b == b'\n')) {
        if let [letter, hex @ ..] = line {
            let bytes = bytes_of(rt.alloc(), hex)?;
            let answer = match *letter {
                b'h' => header_answer(&bytes),
                _ => Answer::recovery(&bytes),
            };
            println!(rt; "{number} {answer}")?;
        }
    }
    Ok(())
}

fn main(rt: HostRuntime) -> io::Result<()> {
    let mut input = Vec::new(rt.alloc());
    rt.stdin().read_to_end(&mut input)?;
    answer_each(&rt, &input)
}
