//! autonet, laws: theorems that separate processes, a switch each, form one history of all lives.
//! The crate exists for the prover alone: it has definitions and theorems.
//!
//! It depends on `switch_core`, which defines what a switch does with a clock, a frame or a load, and on
//! `switch_game`, whose theorems hold of every list of steps of all switches.
//!
//! Its contract: if each process made its calls in its own order, and each frame that came in had gone out before,
//! by whatever path and after whatever time, then all calls have one order that is such a list. So those theorems
//! hold of processes behind real links, at each consistent cut. They require that at most 126 lives join an epoch;
//! at most 126 switches meet this, if each resumes where it was when it is started again.
#![tactic(auto)]

pub mod law;
