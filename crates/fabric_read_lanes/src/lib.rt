//! fabric, readers: readers of SL2VL tables and of path service levels. SL2VL tables come from `opensm-sl2vl.dump`, or
//! from the output of `smpquery sl2vl` for the switches; levels from a text that gives them path by path.
//!
//! The crate depends on `fabric_read_lines` and `fabric_lane_tables`. Its contract: `lane_reader` and `level_reader`
//! return the lanes or levels of a fabric of which the bytes that a source gave are the text, or which line is the
//! first with an error, and its reason. No bytes are the text of two lanes or two assignments of levels, or have two
//! first errors, or are a text and have an error (`lane_law`, `level_law`).
#![tactic(auto)]

pub mod lane_law;
mod lane_line;
pub mod lane_reader;
mod lane_reading;
pub mod level_law;
mod level_line;
pub mod level_reader;
mod level_reading;
