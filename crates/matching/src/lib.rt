// Recovery files held against a header.
//
// `entry` goes from an entry to its fact and ground and back; `judge` goes over the entries of a file and keeps the facts of
// the good ones in a mark store; and `file` is the call on a header's bytes and a file's bytes, apart from any book.
#![tactic(auto)]

pub mod entry;
pub mod file;
mod judge;
