// What the trials of files have in common: the bytes that a line of hexadecimal digits gives, and what is told of a file.
#![tactic(auto)]

pub mod answer;
pub mod hex;
