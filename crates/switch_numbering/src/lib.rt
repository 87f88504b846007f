//! autonet, tables: assigns numbers to the switches of a topology.
//!
//! Packets are addressed to these numbers.
//!
//! It depends on `an_base`. Its contract: of the switches that propose a number, the one with the lowest life gets it.
//! The others get, in ascending order of life, the lowest numbers that nobody proposed. So all numbers are different,
//! and a switch whose number nobody else proposes keeps it.
#![tactic(auto)]

pub mod law;
pub mod numbering;
