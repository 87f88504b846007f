//! fabric, readers: reader of forwarding tables, as the everyday tools print them.
//!
//! The crate depends on `outside`, `common_lines`, `fabric_model` and `fabric_tables`. Its one contract: `reader`
//! returns the tables of which the bytes that a source gave are the text, or which line is the first with an error, and
//! its reason. It reads a piece at a time, and keeps only the cells.
#![tactic(auto)]

pub mod cause;
mod first;
pub mod law;
mod line;
pub mod reader;
mod reading;
