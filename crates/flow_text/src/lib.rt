//! autonet, table texts: output of `flow`.
//!
//! It prints what happens to the packets that a script sends, in channels that hold a few packets each.
//!
//! It depends on the simulation of packets in finite channels, over the tables of a component. Its contract: the
//! text has the moves of the packets, by component, until every packet that entered has arrived; no channel ever
//! holds more packets than its size; and a script has only one such text for each size.
#![tactic(auto)]

pub mod flow;
pub mod law;
mod sent;
