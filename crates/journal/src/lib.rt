//! autonet, files: reader and printer of journals (event logs).
//!
//! The text of a journal has one line for each event of a run, and a journal has only one text.
//!
//! It depends on `net_script`, `script_text` and `journal_cause`. Its contract: `printer::print` returns the text of a
//! journal; `reader::read` returns a journal only if the bytes begin with its text, and otherwise the first line with
//! an error and its error; each can run out of memory instead.
#![tactic(auto)]

mod kind;
pub mod law;
mod line;
pub mod printer;
pub mod reader;
mod words;
