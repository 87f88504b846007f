//! floor, base: where bytes come from and where they go.
//!
//! Bytes come from a source and go to a sink. Each counts its failed calls.
//!
//! It depends on `common_values`. Its contract: if the bytes of a source or a sink are known, lists of bytes
//! say what it gave or took; and a call fails only if the count of failures rose. Everything about the source
//! and the sink in memory is known, and nothing about the bytes of std's readers and writers.
#![tactic(auto)]

pub mod all;
pub mod memory;
pub mod sink;
pub mod source;
pub mod standard;
