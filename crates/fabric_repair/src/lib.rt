//! fabric, routing engine: given tables, repaired: few rows changed, so that the routes of a traffic arrive and rise
//! along one order of the channels.
//!
//! The crate depends on `fabric_model`, `fabric_tables` and `fabric_engine`, and on the crates of the engine below it.
//! Its contract: `repair` returns tables with as many cells as the given ones, and removes no port; each row for a LID
//! that nobody owns is unchanged. `keep` returns the given tables. We do not prove that the repaired tables are good,
//! or that few rows change: whoever uses them must judge them.
#![tactic(auto)]

mod changes;
mod mending;
pub mod repair;
mod roots;
mod routes;
mod task;
mod weights;
mod wishes;
mod writing;
