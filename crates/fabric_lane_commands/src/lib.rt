//! fabric, commands: `lanes` and `dot` over tables whose packets use virtual lanes, by service level: the verdict, and
//! the credit loop as a picture.
//!
//! The crate depends on the readers of lanes and levels, on the verdict and the counts with lanes, on `fabric_call`,
//! which reads the topology and reports how a call ended, on `fabric_judge_commands`, from which it takes what `judge`
//! also prints, and on `fabric_print_lanes`. Its one contract is that of `command::answer`, by the exit status of a
//! call:
//!
//! - 0, 6, 7 and 8: the bytes that the sources gave are the text of a fabric, of its tables, its lanes and, if the call
//!   names a file of them, its levels. The command wrote exactly what it gives for them: `specs/LaneJudged` defines
//!   each part of it for `lanes::lanes`, `specs/LaneDrawn` for `picture::draw_lanes`.
//! - 3: the command wrote nothing to standard output. Standard error has the first line with an error of the first
//!   invalid file, and its first reason.
#![tactic(auto)]

pub mod answer;
pub mod asked;
pub mod command;
pub mod input;
pub mod judged;
pub mod lanes;
mod losses;
mod mute;
mod names;
pub mod picture;
mod steps;
