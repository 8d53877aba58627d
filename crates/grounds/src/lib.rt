// The check of one ground: whether a rule, a statement and witnesses, all told by arbitrary numbers, give a fact from the
// facts that a store holds. It reads the same table of lines as the search.
#![tactic(auto)]

pub mod check;
mod given;
mod unplaced;
