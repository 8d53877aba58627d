// What a text gives, in memory that is set aside beforehand.
ghost use Rattle.std.specs.Prelude.{◌≡◌, ◌≤◌, vec_len, vec_capacity};

use reader::reader::Word;
use rules::statements::Statement;

/// The names of each kind, the statements and the lines that they stand in, in the order of the text; a name is a part of
/// the text.
/// The lines stand beside the statements, since a rule base takes one slice of statements.
/// There is room for as many as a book may have, so reading a text needs no more memory.
#[derive(Drop)]
pub struct Rules<'a> {
    pub individuals: Vec<Word<'a>>,
    pub classes: Vec<Word<'a>>,
    pub roles: Vec<Word<'a>>,
    pub statements: Vec<Statement>,
    pub lines: Vec<usize>,
    ghost few_individuals: { vec_len individuals ≤ 128 },
    ghost few_classes: { vec_len classes ≤ 256 },
    ghost few_roles: { vec_len roles ≤ 32 },
    ghost few_statements: { vec_len statements ≤ 384 },
    ghost each_line: { vec_len lines ≡ vec_len statements },
    ghost room_individuals: { 128 ≤ vec_capacity individuals },
    ghost room_classes: { 256 ≤ vec_capacity classes },
    ghost room_roles: { 32 ≤ vec_capacity roles },
    ghost room_statements: { 384 ≤ vec_capacity statements },
    ghost room_lines: { 384 ≤ vec_capacity lines },
}
