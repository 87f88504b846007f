//! fabric, lanes: the route by which a channel depends on another one, if a channel is a link on a lane.
//!
//! The crate depends on `fabric_routes`, `fabric_lane_tables` and `fabric_lane_routes`. Its contract:
//! `find_lane_witness` finds the least route that takes one channel and then, directly, another one: by LID, then by
//! the GUID of its source, then by service level.
#![tactic(auto)]

mod walk;
pub mod witness;
