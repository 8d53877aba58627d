// The recovery file: a directory, a header whole, and entries of fourteen bytes. `room` tells whether a file can be begun in
// an output, `begin` begins it, `put` adds entries and `close` ends it; `write_recovery` does all of that at once.
// `read_recovery` cuts any bytes into the two parts, `judge_entries` goes over the entries by a judge that tests them,
// `keep_entries` by a keeper, which stands somehow, and `cut_entry` takes the entries off one by one.
#![tactic(auto)]

pub mod begun;
pub mod entries;
pub mod entry;
pub mod read;
pub mod write;
