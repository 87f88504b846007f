//! autonet, files: the wiring of a network, and the spanning trees of its components.
//!
//! A wiring has switches, links between their ports, and hosts on ports; it finds what is at the far side of a port.
//!
//! It depends on `an_base`. Its contract: in a `Wiring` all identifiers are different and no port is used twice;
//! `forest::trees` returns the components of the links in ascending order of root, each with its tree of shortest
//! walks, and there is only one such list.
#![tactic(auto)]

pub mod forest;
pub mod law;
mod level;
mod next;
mod tree;
pub mod wiring;
