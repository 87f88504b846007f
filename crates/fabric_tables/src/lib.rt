//! fabric, model: forwarding tables in memory, with one byte for each switch and LID.
//!
//! The crate depends on no other crate of `fabric`. Its contract: `cells` keeps the port given for a switch and LID,
//! and rejects a second port that differs. Contracts see the tables as a function from switch and LID to a port, or to
//! none (`TablesOf`).
#![tactic(auto)]

pub mod cells;
