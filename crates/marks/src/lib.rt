// Marking, for any rule set and any store of marks.
//
// A fact is a number here. A store holds the marks, a set of numbers below a limit; a rule set says which numbers follow from which; and `mark` adds
// to a store what follows from the marks that stand in it. Stores and rule sets are written elsewhere, against the traits of this crate.
#![tactic(auto)]

pub mod mark;
pub mod rules;
pub mod store;
