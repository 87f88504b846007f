//! fabric, lanes: counts of the routes with a service level: how many there are, how many arrive on their lanes, and
//! how many are lost, by reason.
//!
//! The crate depends on `fabric_counts` and `fabric_lane_routes`. Its one contract: `count::count_lane_routes` returns
//! the counts of `specs/LaneCounts`, the highest number of switches on a route that arrives, how many of those routes
//! go to LIDs that nobody owns, for each reason the least route that is lost for it, and where, and how many pairs of
//! an end port and a LID have no level.
#![tactic(auto)]

mod alike;
pub mod count;
pub mod counts;
mod ends;
mod gone;
mod keep;
mod lost;
mod more;
mod room;
mod route;
mod source;
pub mod sums;
