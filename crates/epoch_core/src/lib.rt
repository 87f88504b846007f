//! autonet, switch: one reconfiguration (epoch) at one switch.
//!
//! From the bodies that a life accepts on its links, it computes the position in the spanning tree, whether the
//! life's part of the tree is stable, what the life sends, and the topology that it finishes with.
//!
//! It depends on `tree_position`, `topo_report` and `switch_numbering`. Its contract: a `Core` that represents the
//! list of the accepted bodies represents, after one more body, the list with that body; and it sends what the
//! definition adds for it, in that order.
#![tactic(auto)]

mod card;
pub mod epoch;
pub mod law;
mod ports;
pub mod sends;
