// How rules come in: from the bytes of a header, or from a rule text. What comes in is judged whole, whether its statements are
// admissible last of all.
#![tactic(auto)]

pub mod header;
pub mod text;
