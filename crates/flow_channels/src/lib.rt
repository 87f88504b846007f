//! autonet, tables: simulation of packets in channels with finite buffers.
//!
//! Each channel is a queue of a few packets. The router of each switch lets the packet leave that asked first, of those
//! that could use a channel with free space.
//!
//! It depends on `dep_check`, whose ranks its theorems use, and on `fcfc_router`. Its contract: each turn makes the
//! next possible move; and over rows that pass `dep_check` there is one while a packet is left.
#![tactic(auto)]

mod board;
pub mod exits;
pub mod flow;
pub mod law;
mod marks;
mod queue;
mod tables;
mod watch;
pub mod went;
