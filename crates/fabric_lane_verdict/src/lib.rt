//! fabric, lanes: the verdict on the tables of a fabric, if a channel is a link on a lane.
//!
//! The crate depends on `fabric_verdict`, `fabric_lane_waves` and `fabric_lane_witness`. Its contract: `judge` returns
//! the ranks of the channels if and only if there is no credit loop, else the least credit loop with the least route
//! that makes each of its dependencies; whether a route stops, or its packets are mapped to VL 15 and dropped; and the
//! numbers of channels and of dependencies. If neither happens and there is no credit loop, every route arrives. `law`
//! says what lanes and service levels mean compared with one lane.
#![tactic(auto)]

pub mod judge;
pub mod law;
pub mod verdict;
