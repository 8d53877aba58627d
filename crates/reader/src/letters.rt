// What the bytes of lines and names may be.
ghost use Rattle.std.specs.Prelude.{◌≡◌};
ghost use Rattle.reader.specs.Text.{all, name_byte, line_byte, proper, is_name};

fn is_name_byte(b: u8) -> bool
    ensures { result ≡ name_byte b }
{
    matches!(b, b'a'..=b'z' | b'0'..=b'9' | b'-')
}

fn is_line_byte(b: u8) -> bool
    ensures { result ≡ line_byte b }
{
    is_name_byte(b) || matches!(b, b'A'..=b'Z' | b' ')
}

// This and the next stand alone, since a chain behind `&&` gets no proof; one function over a test would ask for a contract longer than both.
#[tactic(auto, unfolding(crate::specs::Text::all))]
fn all_line_bytes(line: &[u8]) -> bool
    ensures { result ≡ all line_byte line.now }
{
    line.iter().all(|b| is_line_byte(*b))
}

#[tactic(auto, unfolding(crate::specs::Text::all))]
fn all_name_bytes(word: &[u8]) -> bool
    ensures { result ≡ all name_byte word.now }
{
    word.iter().all(|b| is_name_byte(*b))
}

/// Whether a line has no other bytes than it may have, and not too many.
pub fn is_proper(line: &[u8]) -> bool
    ensures { result ≡ proper line.now }
{
    line.len() <= 120 && all_line_bytes(line)
}

/// Whether a word is a name.
pub fn is_name(word: &[u8]) -> bool
    ensures { result ≡ is_name word.now }
{
    word.len() >= 1 && word.len() <= 24 && all_name_bytes(word)
}
