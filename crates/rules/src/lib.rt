// The vocabulary of a rule book: kinds of names, the seventeen forms of statement, the counts with their limits,
// the refusals, and statements that fit their counts. Nothing here knows of bytes, text or stores; every other crate
// speaks in these words.
#![tactic(auto)]

pub mod base;
mod check;
pub mod counts;
pub mod fields;
pub mod forms;
pub mod refusals;
pub mod statements;
pub mod three;
