// From line to line and from word to word.
ghost use Rattle.std.specs.Prelude.{◌≡◌, ◌<◌, ◌==◌, ◌∷◌, not, length, position, IfSome, MatchOption};
ghost use Rattle.std.specs.Iterator.{at_most};
ghost use Rattle.reader.specs.Text.{lines};
ghost use Rattle.reader.specs.Reading.{lines_of, lines_left, words_left, AtStart, NextLine, NoLine, NextWord, NoWord};

use crate::reader::{Line, Reader, Word};

impl<'a> Reader<'a> {
    /// A reader before the first line of a text.
    pub fn new(text: &'a [u8]) -> Reader<'a>
        ensures { AtStart text.now result }
    {
        Reader {
            rest: Some(text),
            line: 0,
        }
    }

    /// The next line, if there is one.
    pub fn next_line(&mut self) -> Option<Line<'a>>
        ensures { MatchOption result (NoLine self.old self.new) (λ l. NextLine self.old l self.new) }
    {
        let text = self.rest?;
        let (here, rest) = cut_line(text);
        let line = self.line + 1;
        *self = Reader { rest, line };
        Some(Line {
            here,
            line,
            word: 0,
        })
    }
}

impl<'a> Line<'a> {
    /// The next word of the line, if there is one.
    pub fn next_word(&mut self) -> Option<Word<'a>>
        ensures { MatchOption result (NoWord self.old self.new) (λ w. NextWord self.old w self.new) }
    {
        let from = first_but(self.here, b' ')?;
        let (_, text) = self.here.split_at(from);
        let end = first(text, b' ').unwrap_or(text.len());
        let (bytes, rest) = text.split_at(end);
        self.here = rest;
        self.word += 1;
        Some(Word {
            bytes,
            line: self.line,
            word: self.word,
        })
    }
}

/// A line is gone through word by word, from where it stands.
impl<'a> Iterator for Line<'a> {
    type Item = Word<'a>;

    ghost next_gives = { λ before w after. MatchOption w (NoWord before after) (λ w. NextWord before w after) };

    ghost remaining = { λ l. at_most (length (words_left l)) };

    fn next(&mut self) -> Option<Word<'a>> {
        self.next_word()
    }
}

/// A reader is gone through line by line, from where it stands.
impl<'a> Iterator for Reader<'a> {
    type Item = Line<'a>;

    ghost next_gives = { λ before l after. MatchOption l (NoLine before after) (λ l. NextLine before l after) };

    ghost remaining = { λ r. at_most (length (lines_left r)) };

    fn next(&mut self) -> Option<Line<'a>> {
        self.next_line()
    }
}

// The first line of a text, and the text after it if there is another line.
fn cut_line(text: &[u8]) -> (&[u8], Option<&[u8]>)
    ensures lines { lines text.now ≡ result.0.now ∷ lines_of result.1 }
    ensures shorter { IfSome result.1 (λ rest. length rest.now < length text.now) }
{
    match first(text, b'\n') {
        Some(end) => (&text[..end], Some(&text[end + 1..])),
        None => (text, None),
    }
}

// Where the first byte `cut` stands.
fn first(text: &[u8], cut: u8) -> Option<usize>
    ensures { result ≡ position (λ b. b == cut) text.now }
{
    text.iter().position(|b| *b == cut)
}

// Where the first byte other than `cut` stands. One function over a test would ask for a contract longer than both.
fn first_but(text: &[u8], cut: u8) -> Option<usize>
    ensures { result ≡ position (λ b. not (b == cut)) text.now }
{
    text.iter().position(|b| *b != cut)
}
