//! autonet, tables: first-come first-considered crossbar scheduler.
//!
//! Waiting packets request ports. The oldest packet that could use a free port is granted the lowest such port.
//!
//! It depends on `an_base`. Its contract: over every list of calls, each packet that is granted a port is the oldest
//! that could use a port that was free at that call, and no packet is granted more often than it asked.
#![tactic(auto)]

pub mod law;
pub mod router;
pub mod tree;
