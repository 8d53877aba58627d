// What the program tells of an input: the counts of its rule text, and how many facts follow from its statements.
// `count` marks all facts of a rule base in lent slots; `report` goes from the bytes of an input to the line that is printed.
#![tactic(auto)]

pub mod count;
pub mod report;
