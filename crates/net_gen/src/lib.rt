//! autonet, reports: random networks from a seed.
//! It depends on `net_script` for the script, and on `fabric_book` for its run. Its contract: `script::script_of`
//! makes the script that the definition draws from a seed, and `summary::summary` reports in one line how the run
//! of a script on one thread ends. A script has one such line.
#![tactic(auto)]

pub mod draw;
pub mod law;
pub mod script;
pub mod summary;
