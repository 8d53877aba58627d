// What a refused call answers.
ghost use Rattle.std.specs.Prelude.{◌≡◌};
ghost use Rattle.rules.specs.Refusals.{number_of, layer_of, refusal};

/// Where a refusal arises.
#[derive(Clone, Copy, PartialEq, Eq)]
pub enum Layer {
    Line,
    Statement,
    Book,
    File,
    Store,
    Output,
}

/// Why a call is refused, with the number that people are told.
#[derive(Clone, Copy, PartialEq, Eq)]
pub enum Reason {
    /// A byte that no line may have, or a line of over 120 bytes.
    ImproperLine = 1,
    /// A letter that no line or form has.
    UnknownLetter = 2,
    /// More or fewer words than the letter asks for.
    WrongWordCount = 3,
    /// A word after the letter that is no name.
    NotAName = 4,
    /// A name that is declared already in its kind.
    DeclaredBefore = 5,
    /// A name that is not declared above.
    NotDeclared = 6,
    /// A field not below its count, or not in use and not 0.
    WrongField = 7,
    /// A count that leaves its limits.
    CountOutOfLimits = 8,
    /// Statements that would not be admissible.
    NotAdmissible = 9,
    /// No statement stands at the place.
    NoSuchPlace = 10,
    /// The book is not finished, or has no header.
    NotReady = 11,
    /// An individual or a class not below its count.
    NoSuchNumber = 12,
    /// A directory that does not describe its file.
    WrongDirectory = 13,
    /// Names, statements or entries that are not as their format asks.
    WrongContent = 14,
    /// A mark store that is too small, or full.
    StoreTooSmall = 15,
    /// An output that is too short, or a length past 32 bits.
    OutputTooShort = 16,
    /// A header with other counts or statements than the book.
    OtherDeclarations = 17,
}

/// A refusal: why, the line, part or place it is about, and the word or field there, which count from 1; 0 where there is none.
/// The 0 is told to people as it is; an `Option` would be made a 0 again wherever a refusal is told.
#[derive(Clone, Copy, PartialEq, Eq)]
pub struct Refusal {
    pub reason: Reason,
    pub place: usize,
    pub item: usize,
}

impl Reason {
    /// Where it arises.
    pub fn layer(self) -> Layer
        ensures { result ≡ layer_of self }
    {
        match self {
            Reason::ImproperLine
            | Reason::UnknownLetter
            | Reason::WrongWordCount
            | Reason::NotAName
            | Reason::DeclaredBefore
            | Reason::NotDeclared => Layer::Line,
            Reason::WrongField => Layer::Statement,
            Reason::CountOutOfLimits
            | Reason::NotAdmissible
            | Reason::NoSuchPlace
            | Reason::NotReady
            | Reason::NoSuchNumber => Layer::Book,
            Reason::WrongDirectory | Reason::WrongContent | Reason::OtherDeclarations =>
                Layer::File,
            Reason::StoreTooSmall => Layer::Store,
            Reason::OutputTooShort => Layer::Output,
        }
    }

    /// The refusal for this reason, about a word or field at a place.
    pub fn at(self, place: usize, item: usize) -> Refusal
        ensures { result ≡ refusal self place item }
    {
        Refusal {
            reason: self,
            place,
            item,
        }
    }
}

impl From<Reason> for Refusal {
    ghost from_gives = { λ r e. e ≡ refusal r 0 0 };

    /// The refusal for a reason that is about no place.
    fn from(reason: Reason) -> Refusal {
        reason.at(0, 0)
    }
}

impl From<Reason> for u8 {
    ghost from_gives = { λ r n. n ≡ number_of r };

    /// The number that people are told.
    fn from(reason: Reason) -> u8 {
        reason as u8
    }
}
