//! autonet, switch: control frames as bytes.
//!
//! Each frame has exactly one encoding (called its spelling in contracts). This crate writes and reads it.
//!
//! It depends on `frame_region` for the buffer of a frame. Its contract: the encoder writes the encoding of the
//! frame; the decoder returns the frame that the bytes encode, and rejects bytes only if they encode none.
#![tactic(auto)]

pub mod law;
mod order;
mod reader;
pub mod reading;
pub mod writing;
