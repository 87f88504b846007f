//! autonet, laws: theorems about one epoch of agreement, as a game.
//! Lives join an epoch with their links, accept what their neighbours sent there, and load what they finished with.
//! The crate exists for the prover alone: it has definitions and theorems, which hold in every state of the game.
//!
//! It depends on `epoch_core`, which defines what a life is and has sent after what it accepted, and on
//! `topo_graph`, which defines when a topology is a tree.
//!
//! Its contract: once a life is stable with itself as root of an epoch, each life that links lead to keeps its
//! place in the spanning tree for ever, the root's report says exactly that, and every topology that comes to one
//! of them is that report, and a tree.
#![tactic(auto)]

pub mod law;
