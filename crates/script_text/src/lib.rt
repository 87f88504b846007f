//! autonet, files: printer of scripts.
//!
//! It depends on `net_script`. Its contract: `printer::print` returns the canonical text of a script, which
//! `net_script::reader::read` parses as that script.
#![tactic(auto)]

pub mod printer;
