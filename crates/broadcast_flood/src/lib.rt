//! autonet, tables: broadcast over the spanning tree.
//!
//! A broadcast goes up to the root by parent links, and from there by every tree link downward.
//!
//! It depends on `topo_graph`, and for a theorem on `table_build`. Its contract: the hops of a broadcast from a member
//! go up to the root, and then by every tree link downward, each link once and no hop before its sender has a copy. So
//! every member gets exactly one copy, including the sender; and no channel leads back to itself, whether packets
//! follow routing tables or are broadcast.
#![tactic(auto)]

mod children;
pub mod flood;
pub mod hop;
pub mod law;
