// A reader over a lent text: lines, the words of a line, and what their bytes may be. It hands out parts of the text and
// copies no byte. What a line says is not known here.
#![tactic(auto)]

pub mod letters;
pub mod lines;
pub mod reader;
