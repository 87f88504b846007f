//! autonet, laws: theorems that switches play the game of all epochs.
//! The switches of all lives are in a network of which nothing is known. The crate exists for the prover alone: it
//! has definitions and theorems.
//!
//! It depends on `switch_core`, which defines what one switch does with a clock, a frame or a load, and on
//! `epoch_game`, whose theorems hold in every state of the game.
//!
//! Its contract: whatever frames are lost, repeated, held back, reordered or brought to another port, what the
//! switches do are moves of the game, and their epochs, links and lists are those of the game. If all bodies on a
//! link are acknowledged, its far end has accepted all that was sent.
#![tactic(auto)]

pub mod law;
