//! autonet, network: state of the simulated network outside the switches.
//!
//! A `Fabric` has the clock, the links and wires with the frames on them and held by switches, the visible state of
//! each switch (its station), the packets in flight, and the number of script commands that are done. It does not
//! have the switches themselves: callers give it what a switch made of a clock event or a frame, and the table that
//! it loads.
//!
//! It depends on `net_script` for the script, `wire_set` for links and frames, `host_traffic` for packets, and
//! `switch_core` for what passes between it and a switch. Its contract: each call changes the fabric as the
//! definition of the event says, and returns the line that reports the event; and each question is answered by its
//! definition: which events are lawful next, how the history ends, and what a switch or the driver does next.
//! Only creating the fabric allocates. By design, but not proved, no call visits all switches, frames or packets,
//! except to find the ending: in a quiet network it visits the links, and if a switch is spent it searches for the
//! first one.
#![tactic(auto)]

pub mod ending;
pub mod fabric;
pub mod hand;
pub mod host;
pub mod line;
mod past;
mod plan;
mod ports;
mod seen;
pub mod station;
mod stations;
mod telling;
pub mod work;
