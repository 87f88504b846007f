//! autonet, laws: theorems about how soon the two ends of a link agree.
//! They say how soon the ports at the two ends know what is there, and each other, and how soon the bodies that are
//! sent on the link are acknowledged. The crate exists for the prover alone: it has definitions and theorems.
//!
//! It depends on `port_monitor`, which defines what a port is after a history of samples and replies, and on
//! `ordered_link` and `switch_core`, which define what a switch does in the session at each port. Its contract is
//! about histories of a port and of a session.
//!
//! A port knows after at most 129 clocks without a failure whether a host or a switch is there, and after at most
//! 129 answers in a row by one end that this is the other end. So after 258 ticks without a loss on a link that is
//! up, its ends know each other's lives and ports, at each point in time and in whatever order the events of a tick
//! come. We do not prove that such ticks come.
//!
//! Suppose that from some tick on no frame of the link is lost, or comes to a port that does not take it. Three
//! ticks later, two ends that have each sent a body in their epochs are in one epoch at the end of a tick, and each
//! body that was sent is acknowledged. Whatever happens to a switch is, in each of its sessions, a list of
//! permitted steps.
#![tactic(auto)]

pub mod port_laws;
pub mod session_laws;
