//! fabric, printers: the answers of `fabric` as text.
//!
//! The crate depends on `common_lines`. Its one contract: `printer::print` returns the lines of an answer, which
//! `specs/Answers` defines: rows of words, with each number in decimal and each GUID as `0x` and sixteen digits, so
//! that other programs can read all of it. `ranks` does so for ranks and for whether they fall, and `picture` for the
//! picture of a credit loop.
#![tactic(auto)]

pub mod answer;
mod label;
pub mod picture;
pub mod printer;
pub mod ranks;
pub mod row;
