//! floor, base: what all crates need in addition to std.
//!
//! It has the error of a failed allocation, byte strings, vectors whose capacity contracts do not see, and decimal
//! numbers; and lemmas on lists, ranges, orders and pigeonholes.
//!
//! It depends only on std. Its contract: contracts see a text as the list of its bytes.
//!
//! Add no lemma here for a single user: put it into the lowest crate that needs it, for autonet into `an_base`. After
//! a change here every other crate is proved again.
#![tactic(auto)]

pub mod items;
pub mod memory;
pub mod text;
