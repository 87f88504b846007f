//! fabric, printers: the answers of `fabric` for tables with lanes, as text.
//!
//! The crate depends on `fabric_print`, from which it takes the lines that are the same. Its one contract:
//! `printer::print` returns the lines of an answer, which `specs/LaneAnswers` defines, and `picture::print_picture` the
//! lines of a picture of a credit loop (`specs/LanePictures`).
#![tactic(auto)]

pub mod answer;
pub mod picture;
pub mod printer;
