//! autonet, tables: up*/down* routes, legal and shortest ones.
//!
//! The up end of a link is the end of lower level; at equal level, the end of lower life. A route is legal if no
//! upward link follows a downward one.
//!
//! It depends on `topo_graph`. Its contract: the distances to a life are the lowest lengths of legal routes, and of
//! routes with only downward links.
#![tactic(auto)]

pub mod distance;
pub mod length;
pub mod order;
pub mod reach;
pub mod route;
