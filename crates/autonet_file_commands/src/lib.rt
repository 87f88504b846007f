//! autonet, commands: `expect`, `check`, `flood` and `flow B`.
//! These commands need only a network file, or a network file with its tables.
//!
//! It depends on `autonet_call`, and on the crates that print the text of each command. Its contract is that of
//! each call: what its status means, what the source then has left, and what each sink gained. No call waits.
#![tactic(auto)]

pub mod check;
pub mod file;
pub mod flood;
pub mod flow;
pub mod law;
pub mod room;
mod words;
