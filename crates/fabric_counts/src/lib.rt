//! fabric, judge: counts of the routes of a traffic: how many there are, how many arrive, and how many are lost, by
//! reason.
//!
//! The crate depends on `fabric_model`, `fabric_tables` and `fabric_routes`. Its one contract: `count::count_routes`
//! returns the counts of `specs/Counts`, the highest number of switches on a route that arrives, and for each reason
//! the least route that is lost for it, and where. Its theorem: each route of a traffic ends in one way.
#![tactic(auto)]

pub mod count;
pub mod counts;
mod height;
pub mod law;
pub mod lost;
mod more;
mod room;
pub mod source;
