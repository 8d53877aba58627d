// The vault header: a directory, three parts of names and a part of statements. `open_header` and `read_header` judge any
// bytes and hand out names as parts of them, without copying; `write_header` and `rewrite` write the only bytes that hold
// given names and statements.
#![tactic(auto)]

pub mod directory;
pub mod encode;
pub mod header;
pub mod names;
pub mod output;
pub mod record;
pub mod statements;
