//! floor, base: what calls of programs have in common.
//!
//! These are their arguments, input files that are read whole, and how a program ends.
//!
//! It depends on `outside` and `common_lines`. Its contract: an input is everything that its source gave, or there is
//! one reason why it was not read; and a call's last line is complete on standard error, or the call ends with the
//! exit status of a write error.
#![tactic(auto)]

pub mod end;
pub mod input;
pub mod words;
