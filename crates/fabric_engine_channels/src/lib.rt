//! fabric, routing engine: the channels and turns of a fabric as the engine sees them: total orders of channels, the
//! LIDs to which routes lead, and the paths of all switches to one.
//!
//! The crate depends on `fabric_model`. It has no contract, because tables that the engine makes are judged like tables
//! that are read. We prove only that each call returns, that no number overflows, and that no index is out of range.
#![tactic(auto)]

pub mod amount;
pub mod channels;
pub mod demand;
pub mod order;
pub mod table;
pub mod ways;
