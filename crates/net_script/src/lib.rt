//! autonet, files: reader of scripts.
//!
//! A script is the text that describes the switches, links and hosts of a network, the limits of its run, and timed
//! commands.
//!
//! It depends on `net_graph`, `net_names` and `common_lines`. Its contract: `reader::read` returns a script only if
//! the bytes are its text, and otherwise the first line with an error and its first error; it can run out of memory
//! instead. No bytes are the text of two scripts.
#![tactic(auto)]

pub mod cause;
pub mod command;
pub mod draft;
pub mod field;
pub mod form;
pub mod law;
pub mod reader;
pub mod script;
pub mod setting;
