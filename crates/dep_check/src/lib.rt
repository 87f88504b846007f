//! autonet, tables: the checker of routing tables.
//!
//! It checks that packets that follow the rows of the tables cannot deadlock, reach their targets, and never go up
//! after they came down.
//!
//! It depends on `common_graph` and `topo_graph`, and for a theorem on `table_build`. Its contract: `check` reports the
//! least cycle of channels; otherwise the least pair that the rows do not join; otherwise the least illegal exit;
//! otherwise it returns the rank of each channel. It never rejects the tables of all members.
#![tactic(auto)]

pub mod channel;
pub mod check;
mod cycle;
mod deep;
mod exits;
mod gap;
mod illegal;
pub mod law;
mod level;
pub mod ports;
pub mod refusal;
pub mod spot;
mod steps;
mod targets;
mod tier;
mod walk;
pub mod wires;
