//! fabric, lanes: routes on virtual lanes: what switches do with packets that have service levels, and which channel
//! depends on which if a channel is a link on a lane.
//!
//! The crate depends on `fabric_model`, `fabric_tables`, `fabric_routes` and `fabric_lane_tables`. Its contract, for
//! all that determines routes (`LaneRouting`): `find_lane_hop` returns what a switch does with a packet
//! (`specs/LaneRoutes`), `find_way` the link by which it sends packets for a LID, and `begin_at` where the routes of an
//! end port begin.
#![tactic(auto)]

pub mod hop;
pub mod routing;
pub mod start;
pub mod way;
