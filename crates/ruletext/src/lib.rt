// Rule text: an office's declarations and statements as lines of words.
// `letters` and `words` judge a line; `text_rules` holds what was read; `read` turns a whole text into names and statements, or into
// its one refusal; `verdict` is what the program prints of it.
#![tactic(auto)]

mod letters;
pub mod read;
pub mod text_rules;
pub mod verdict;
mod words;
