//! fabric, routing engine: candidate total orders of the channels, along which routes can be laid: by levels of
//! switches, by first ports, and by spanning trees, sifted so that few routes need a detour.
//!
//! The crate depends on `fabric_engine_channels`, and has no contract either: we prove only that each call returns,
//! that no number overflows, and that no index is out of range.
#![tactic(auto)]

mod first_ports;
pub mod levels;
pub mod materials;
pub mod recipe;
mod sift;
pub mod spanning;
mod weights;
