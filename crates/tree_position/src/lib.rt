//! autonet, switch: the parent that a switch takes in the spanning tree.
//!
//! It computes the position of a life (root, level, parent and port) from what its neighbours offer.
//!
//! It depends on `an_base` for the order of positions. Its contract: the position is the least of the life's own
//! position as a root and of those that the last offers on its links give.
#![tactic(auto)]

pub mod law;
pub mod offers;
