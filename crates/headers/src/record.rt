// The record of a statement: eight bytes.
ghost use Rattle.std.specs.Prelude.{◌≡◌};
ghost use Rattle.headers.specs.Records.{known_letter, is_record, record_in, stated, wrong_in_record};

use rules::counts::Counts;
use rules::fields::wrong_field;
use rules::forms::field_kinds;
use rules::statements::Statement;
use rules::three::Three;

/// A letter and three fields. A header may hold any byte as the letter, so it is a byte until `statement` judges it.
#[derive(Clone, Copy)]
pub struct Record {
    pub letter: u8,
    pub fields: Three<u16>,
}

// The letter and the fields that eight bytes give.
pub(crate) fn record_in(bytes: [u8; 8]) -> Record
    ensures { result ≡ record_in bytes }
{
    let [letter, _, a1, a0, b1, b0, c1, c0] = bytes;
    let first = u16::from_be_bytes([a1, a0]);
    let second = u16::from_be_bytes([b1, b0]);
    let third = u16::from_be_bytes([c1, c0]);
    Record {
        letter,
        fields: Three::new(first, second, third),
    }
}

// Whether eight bytes are a record: a form's letter and a zero byte.
pub(crate) fn is_record(bytes: [u8; 8]) -> bool
    ensures { result ≡ is_record bytes }
{
    let letter = bytes[0];
    let zero = bytes[1];
    is_known(letter) && zero == 0
}

fn is_known(letter: u8) -> bool
    ensures { result ≡ known_letter letter }
{
    field_kinds(char::from(letter)).is_some()
}

impl Record {
    // The first field that does not fit, from 1.
    pub(crate) fn wrong(self, counts: Counts) -> Option<usize>
        ensures { result ≡ wrong_in_record counts.individuals counts.classes counts.roles self }
    {
        match field_kinds(char::from(self.letter)) {
            Some(kinds) => wrong_field(counts, kinds, self.fields),
            // No form has the letter: it is the letter itself that is wrong.
            None => Some(0),
        }
    }

    /// The statement that it gives, if a form has its letter.
    pub fn statement(self) -> Option<Statement>
        ensures { result ≡ stated self }
    {
        let Three {
            first,
            second,
            third,
        } = self.fields;
        Statement::new(char::from(self.letter), first, second, third)
    }
}
