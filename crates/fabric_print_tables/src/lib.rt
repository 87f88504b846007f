//! fabric, printers: forwarding tables as text, as OpenSM dumps and loads them.
//!
//! The crate depends on `common_lines`, `fabric_model`, `fabric_tables`, `fabric_routes` and `fabric_read_tables`. Its
//! one contract: the output of `printer` is the text of the tables as `fabric_read_tables` defines it, so whoever reads
//! it gets these tables again.
#![tactic(auto)]

pub mod printer;
