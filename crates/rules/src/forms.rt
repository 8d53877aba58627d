// Kinds of names, and the forms of statement by their letters.
ghost use Rattle.std.specs.Prelude.{◌≡◌};
ghost use Rattle.rules.specs.Forms.{fields_of_form};
ghost use Rattle.rules.specs.Limits.{most};

use crate::three::Three;

/// What a name is declared as.
#[derive(Clone, Copy, PartialEq, Eq)]
pub enum Kind {
    Individual,
    Class,
    Role,
}

impl Kind {
    /// How many names of this kind a book may have.
    pub fn limit(self) -> usize
        ensures { result ≡ most self }
    {
        match self {
            Kind::Individual => 128,
            Kind::Class => 256,
            Kind::Role => 32,
        }
    }
}

/// The kinds of the fields of the form with this letter, `None` for a field not in use; no form has another letter.
pub fn field_kinds(letter: char) -> Option<Three<Option<Kind>>>
    ensures { result ≡ fields_of_form letter }
{
    match letter {
        'a' | 'f' => Some(Three::new(Some(Kind::Individual), Some(Kind::Class), None)),
        'b' => Some(Three::new(
            Some(Kind::Individual),
            Some(Kind::Role),
            Some(Kind::Individual),
        )),
        'c' | 'd' => Some(Three::new(Some(Kind::Class), None, None)),
        'e' => Some(Three::new(Some(Kind::Class), Some(Kind::Individual), None)),
        'g' => Some(Three::new(Some(Kind::Class), Some(Kind::Class), None)),
        'h' => Some(Three::new(Some(Kind::Class), Some(Kind::Class), Some(Kind::Class))),
        'i' | 'q' => Some(Three::new(Some(Kind::Role), Some(Kind::Class), Some(Kind::Class))),
        'j' => Some(Three::new(Some(Kind::Class), Some(Kind::Role), Some(Kind::Class))),
        'k' => Some(Three::new(Some(Kind::Role), Some(Kind::Class), None)),
        'l' => Some(Three::new(Some(Kind::Class), Some(Kind::Role), None)),
        'm' => Some(Three::new(Some(Kind::Role), Some(Kind::Role), None)),
        'n' | 'o' => Some(Three::new(Some(Kind::Role), Some(Kind::Role), Some(Kind::Role))),
        'p' => Some(Three::new(Some(Kind::Class), Some(Kind::Class), Some(Kind::Role))),
        _ => None,
    }
}
