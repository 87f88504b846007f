//! fabric, commands: `repair` and `repaired`: `repair` prints which rows to change, `repaired` prints the tables with
//! these rows.
//!
//! The crate depends on `fabric_repair`, which finds the rows, on the verdict, and on the text of tables. Its one
//! contract: what each command gives for the text of a topology, its fabric and its tables. With exit status 0 it
//! prints rows, or the given tables with such rows changed, and these tables pass: there is no credit loop, and every
//! route of the traffic arrives. We do not prove that few rows change, or that two calls find the same rows.
#![tactic(auto)]

pub mod commands;
pub mod law;
pub mod repaired;
pub mod report;
pub mod rows;
