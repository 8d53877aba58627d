// The role rules, and whether statements are admissible.
//
// By the role rules a role is non-simple, and a class is a range of a role. They are a rule set for marking; with all their
// facts marked, each statement's condition on its roles is read off the marks.
#![tactic(auto)]

pub mod admissible;
pub mod facts;
pub mod role_rules;
