//! autonet, switch: block allocator for frames.
//!
//! A region has blocks of 64 bytes, allocated once, and stores byte strings in chains of blocks. A frame buffer has
//! room for one frame outside a region.
//!
//! It depends on nothing of autonet. Its contract: a region is a map from slips to byte strings, and a number of free
//! blocks; what was put is read back, and no block is in two chains. Only creating a region or a buffer allocates.
#![tactic(auto)]

pub mod buffer;
pub mod law;
pub mod region;
