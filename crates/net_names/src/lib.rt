//! autonet, files: names and identifiers of switches in a text, and lists of names.
//!
//! It depends on `common_lines`, and on `indexmap` to look up names. Its contract: `word` says which words are names
//! and which are identifiers, and reads identifiers; `spelling` writes them; `names` keeps names, each at its index.
#![tactic(auto)]

pub mod names;
pub mod spelling;
pub mod word;
