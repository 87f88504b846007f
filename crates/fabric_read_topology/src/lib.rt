//! fabric, readers: reader of topology files.
//!
//! The crate depends on `fabric_topology`, for the meaning of lines, on `fabric_model`, which takes nodes and links,
//! and on `indexmap`. Its contract: `read::read_fabric` returns a fabric only if the bytes are its text, with the
//! number of its end ports that have the base LID 65535, which means none. Otherwise it returns the first line with an
//! error, and its first reason; or it runs out of memory, whatever the bytes are.
//!
//! A text is read twice, for forms and nodes and then for links, and an error of the first pass comes before one of the
//! second. No bytes are the text of two fabrics, or have two first errors, or are the text of a fabric and have an
//! error. In the fabric of a text, each link has two ends (`law`).
#![tactic(auto)]

mod base;
pub mod cause;
pub mod law;
mod lines;
mod links;
mod nodes;
pub mod read;
