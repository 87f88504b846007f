//! autonet, base: autonet's vocabulary.
//!
//! It has the types that all layers share, with their ranges and orders: lives, ends of links, positions in a spanning
//! tree, entries of a topology, the bodies that switches exchange and the frames that carry them, the states of ports,
//! rows of routing tables, and the events of a network.
//!
//! It depends on `common_values`, and exports its modules `items`, `memory` and `text` again. Its contract: contracts
//! see each type as a number, a record or a list; the types keep the ranges; the orders are total; and a node has only
//! one place in a spanning tree.
#![tactic(auto)]

pub mod body;
pub mod entry;
pub mod event;
pub mod frame;
pub mod law;
pub mod life;
pub mod limits;
pub mod links;
pub mod numbers;
pub mod place;
pub mod port;
pub mod port_set;
pub mod position;
pub mod row;

pub use common_values::{items, memory, text};
