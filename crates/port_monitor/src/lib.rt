//! autonet, switch: state machine of the twelve ports.
//!
//! Each clock event samples the ports, and probes the switches at their far ends. A port that fails often is held
//! down, and so is a switch that does not answer.
//!
//! It depends on `skeptic` and `connectivity`. Its contract: the state of each port, its peer and its probes are a
//! function of its samples and of the replies that came; and a port becomes good only after one end, its peer, has
//! answered as many probes in a row as the skeptic requires.
#![tactic(auto)]

pub mod law;
pub mod monitor;
pub mod port;
