//! autonet, tables: the graph of a topology as switches report it.
//!
//! Its nodes are the entries of the topology, and its links are those that the entries at both ends name.
//!
//! It depends on `an_base`. Its contract: contracts see a `Graph` as the entries that it was made from; its links are
//! those that both ends name and that join two lives; and `tree_ok` reports whether the positions of the entries are
//! the tree of shortest walks to the lowest life.
#![tactic(auto)]

pub mod graph;
pub mod law;
