//! fabric, readers: reader of a long text about a fabric, line by line.
//!
//! The readers of forwarding tables, of lanes and of service levels share it. It depends on `outside`, `common_lines`,
//! `fabric_words` and `fabric_model`. Its one contract: `reader` passes each line that a source gave to a value that
//! takes lines, and reports to which state they lead, or which line is the first that is invalid, and for which reason.
//! It reads a piece at a time, and keeps no bytes.
#![tactic(auto)]

pub mod reader;
pub mod takes;
