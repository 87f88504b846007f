//! floor, base: text as lines of words.
//!
//! Scripts, tables, topologies and journals are such texts. `line` splits a text into its lines, and a line into its
//! words; `word` reads the words that are numbers; `spelling` appends lines of words, and numbers; `stop` says at which
//! line a text is rejected, and why.
//!
//! It depends on `common_values`. Its contract: the definitions of what a chain of lines says, and which of its lines
//! is the first with an error (`specs/Chains`, `specs/Grammar`), are the same for every kind of text.
#![tactic(auto)]

pub mod line;
pub mod spelling;
pub mod stop;
pub mod word;
