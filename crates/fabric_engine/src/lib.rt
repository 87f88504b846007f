//! fabric, routing engine: forwarding tables for a fabric: routes laid along candidate orders of its channels, spread
//! over the channels, measured, and the best of them written as tables.
//!
//! The crate depends on `fabric_model`, `fabric_tables`, `fabric_engine_channels`, `fabric_engine_orders` and
//! `fabric_engine_rising`. Its contract: `choice` returns tables that have all switches and all owned LIDs of the
//! fabric. The same fabric gets the same tables each time. We do not prove that these tables are good: whoever uses
//! them must judge them.
#![tactic(auto)]

pub mod choice;
mod laying;
pub mod measures;
mod polish;
pub mod writing;
