//! fabric, commands: `judge`, `ranks`, `verify` and `dot`, over a topology and tables.
//!
//! The crate depends on `fabric_call`, which reads and writes, on `fabric_verdict` and `fabric_counts`, and on
//! `fabric_print`. Its one contract: what each command gives for the text of a topology, its fabric and its tables.
//! `specs/Judged` says each part of the output of `judge`: exit status 0 means that there is no credit loop and every
//! route of the traffic arrives, 7 that there is no credit loop but a route is stopped, and 8 that there is a credit
//! loop.
#![tactic(auto)]

pub mod answer;
pub mod commands;
pub mod dot;
pub mod law;
mod losses;
pub mod names;
mod ranks;
pub mod steps;
pub mod verify;
pub mod words;
