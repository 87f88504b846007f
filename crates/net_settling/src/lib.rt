//! autonet, laws: theorems about how soon the simulated network settles after its last disturbance.
//! The crate exists for the prover alone: it has definitions and theorems.
//!
//! It depends on `net_world`, which defines what happens in a network, on the theorems about one link in
//! `link_settling`, and on `net_game` for what holds at each point in time.
//!
//! Its contract: without a pace, a network agrees 259 ticks after it was last disturbed. Three ticks later, if
//! nothing is left to do, all bodies are acknowledged. So no lawful history that had the time to settle ends
//! unsettled. All that is claimed of a lawful history (`HoldsAndSettles`) holds of every one.
#![tactic(auto)]

pub mod law;
