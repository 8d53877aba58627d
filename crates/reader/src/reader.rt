// The reader, the lines and the words that it hands out: all borrow the text, and no byte is copied.
ghost use Rattle.std.specs.Prelude.{◌+◌, ◌^◌, ◌<◌, ◌≤◌, length, MatchOption};
ghost use Rattle.std.proofs.Props.{props};

use std::convert::AsSlice;

/// A word of a line: a part of the text, with its line and its place in that line, which count from 1.
#[derive(Clone, Copy)]
pub struct Word<'a> {
    pub bytes: &'a [u8],
    pub line: usize,
    pub word: usize,
}

impl AsSlice<u8> for Word<'_> {
    ghost items = { λ w. w.bytes.now };

    fn as_slice(&self) -> &[u8] {
        self.bytes
    }
}

/// What is left of a line after so many words; lines count from 1.
#[derive(Clone, Copy)]
pub struct Line<'a> {
    pub here: &'a [u8],
    pub line: usize,
    pub word: usize,
    ghost words: { word + length here.now < 2 ^ 64 },
}

/// Walks a text line by line: `rest` is the text after so many lines, if there is another.
#[derive(Clone, Copy)]
pub struct Reader<'a> {
    pub rest: Option<&'a [u8]>,
    pub line: usize,
    ghost lines: { MatchOption rest (line ≤ 2 ^ 63) (λ text. line + length text.now < 2 ^ 63) } by { Prim.hlevel props },
}
