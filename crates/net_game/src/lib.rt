//! autonet, laws: theorems that the simulated network plays the game of all epochs.
//! They say what holds of a network at each point in time. The crate exists for the prover alone: it has
//! definitions and theorems.
//!
//! It depends on `net_world`, which defines what happens in a network, and on `switch_game`, whose theorems hold of
//! switches whatever happens to the frames between them.
//!
//! Its contract: the moves of each history are a run of the game. At each point in time, lives that finished one
//! epoch under one root hold one topology, which is a tree of exactly the lives that its links join; a table in use
//! is the one of such a topology, and none of its members uses an older one; each hop of a packet is by the table
//! in use, hops under one topology form a legal route, and what is delivered is at its host. If a history ends
//! settled, each component has finished with exactly its members. We do not prove that a history comes to an end.
#![tactic(auto)]

pub mod law;
