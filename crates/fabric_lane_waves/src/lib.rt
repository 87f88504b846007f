//! fabric, lanes: the dependencies that routes on lanes make, found for 64 LIDs at a time.
//!
//! The crate depends on `common_graph`, `fabric_routes`, `fabric_lane_tables` and `fabric_lane_routes`. Its contract:
//! `find` puts into a graph of the channels, each a link on a lane, the dependencies that the routes of a traffic make
//! with their service levels, all of them and no other, and reports whether a route stops, or its packets are mapped to
//! VL 15 and dropped.
//!
//! A packet that leaves a switch on a lane with a level departs there (`departure`), and the tables lead it from
//! departure to departure (`wave`). End ports of a switch whose packets all leave on the same lanes share a gate
//! (`gate`), so that their first hops are taken once for all of them (`start`).
#![tactic(auto)]

mod block;
pub mod departure;
pub mod find;
pub mod gate;
mod mark;
mod room;
mod start;
mod wave;
