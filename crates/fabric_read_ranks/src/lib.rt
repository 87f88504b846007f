//! fabric, readers: reader of ranks for the channels of a fabric, from whatever program they come.
//!
//! The crate depends on `common_lines`, `fabric_words`, `fabric_model` and `fabric_routes`. Its one contract:
//! `read_ranks` returns the ranks of which the bytes are the text (`specs/Ranks`), or the first line with an error and
//! its first reason; or it runs out of memory, whatever the bytes are. Its theorem: bytes are the text of one list of
//! ranks, or have one first error, and not both.
#![tactic(auto)]

pub mod law;
pub mod line;
pub mod read;
mod reading;
