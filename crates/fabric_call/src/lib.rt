//! fabric, commands: what all commands that judge tables share: how a call ends, reading the topology and the tables,
//! and writing the output.
//!
//! The crate depends on the readers of topologies and tables. Its one contract: the call of a command reads a topology
//! and tables from two sources to their ends, writes the text that the command gives for them to standard output,
//! reports how it ended, and returns the exit status; and each ending says what happened. It never waits.
#![tactic(auto)]

pub mod command;
pub mod input;
pub mod status;
