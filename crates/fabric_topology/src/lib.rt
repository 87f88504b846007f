//! fabric, readers: lines of topology files: output of `ibnetdiscover`, OpenSM's `opensm-subnet.lst`, and a plain
//! format.
//!
//! The crate depends on `common_lines` and `fabric_words`. Its contract: `reader::says` returns what a line says at its
//! part of the text, at most three facts, as `specs/Discovered`, `specs/Dumped` and `specs/Plain` define it for each
//! format. `names` finds the names of nodes. `specs/Unset` defines how many end ports of a text have the base LID
//! 65535, which means none.
#![tactic(auto)]

pub mod cause;
pub mod discovered;
pub mod dumped;
pub mod fact;
mod front;
pub mod names;
mod plain;
pub mod reader;
