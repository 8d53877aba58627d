// What the first word of a line says, and how many words come after it.
ghost use Rattle.std.specs.Prelude.{◌≡◌, ◌+◌, [], ◌∷◌};
ghost use Rattle.rules.specs.Forms.{used as usedOf};
ghost use Rattle.ruletext.specs.Outcome.{declared_kind, only_letter};

use reader::reader::Line;
use rules::forms::Kind;
use rules::three::Three;

// A line that begins with a letter, and what is left of it after that word.
#[derive(Clone, Copy)]
pub(crate) struct Lettered<'a> {
    pub(crate) letter: char,
    pub(crate) rest: Line<'a>,
    ghost second: { rest.word ≡ 1 },
}

// The letter of a word that is one letter.
pub(crate) fn letter_of(word: &[u8]) -> Option<char>
    ensures { result ≡ only_letter word.now }
{
    let [letter] = word else {
        return None;
    };
    Some(char::from(*letter))
}

// The kind of name that a letter declares.
pub(crate) fn kind_of(letter: char) -> Option<Kind>
    ensures { result ≡ declared_kind letter }
{
    match letter {
        'X' => Some(Kind::Individual),
        'C' => Some(Kind::Class),
        'R' => Some(Kind::Role),
        _ => None,
    }
}

// How many fields a form has.
pub(crate) fn used(kinds: Three<Option<Kind>>) -> usize
    ensures { result ≡ usedOf (kinds.first ∷ kinds.second ∷ kinds.third ∷ []) }
{
    usize::from(kinds.first.is_some())
        + usize::from(kinds.second.is_some())
        + usize::from(kinds.third.is_some())
}
