//! autonet, network: model of the whole simulated network.
//!
//! The world of a network has its fabric, which all can see, and what only each switch knows. This crate defines
//! which events are lawful, their effects on the world, the lines that report them, the endings, and what is claimed
//! at each point in time. It has definitions, theorems and the types of requests, but no code that runs.
//!
//! It depends on `net_state` for the fabric and on `switch_core`, whose definitions say what a switch does with a
//! clock event, a frame and a load. `specs/World` has the world and its step; `specs/Lawful` and `specs/Effects` of
//! `net_state` have one line for each event.
//!
//! Its contract is its theorems. After any events the world keeps its invariant, and each switch is sound. If the
//! history has not ended, some event is lawful next. The events that a turn of a worker or of the driver appends are
//! lawful, and events of others do not change a switch. The fabric counts lawful events. One thread makes only one
//! history, which is legal.
#![tactic(auto)]

pub mod ask;
pub mod changed;
pub mod law;
