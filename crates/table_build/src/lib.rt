//! autonet, tables: computes the routing table of each switch.
//!
//! A table has, for each ingress port of a switch and each other member, the ports by which packets may leave.
//!
//! It depends on `topo_graph` and `updown`. Its contract: a row has the ports that begin a shortest legal route (if any
//! routes are allowed, a legal route of any length); packets that arrived over a downward link leave only downward.
#![tactic(auto)]

mod best;
pub mod exit;
pub mod law;
pub mod link;
pub mod routing;
pub mod table;
pub mod way;
