//! fabric, routing engine: a local search that changes an order of the channels so that more and more turns rise in it,
//! and a limit on its effort.
//!
//! The crate depends on `fabric_engine_channels`, and has no contract either: we prove only that each call returns,
//! that no number overflows, and that no index is out of range.
#![tactic(auto)]

pub mod effort;
pub mod sorting;
