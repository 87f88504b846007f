//! fabric, routing engine: balanced routes that follow one order of the channels: the paths of all switches to one,
//! longer where no shortest path rises, the exits between which routes can choose, rows of exits, and the loads of the
//! channels.
//!
//! The crate depends on `fabric_engine_channels` and on the traffic of `fabric_model`. It has no contract, because
//! tables that the engine makes are judged like tables that are read. We prove only that each call returns, that no
//! number overflows, and that no index is out of range.
#![tactic(auto)]

pub mod closure;
pub mod fans;
pub mod loads;
pub mod plan;
mod raising;
pub mod rows;
