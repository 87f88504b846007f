//! fabric, model: switches, end ports, links, and which end port owns which LID.
//!
//! A topology file describes one such fabric. `nodes` takes its switches and end ports one by one, and `fabric` puts
//! them in ascending order of GUID and takes the links one by one. `traffic` names the sets of routes that can be
//! judged.
//!
//! The crate depends on `common_lines` for the stop of a line, and on `indexmap`. Its contract: a node that differs
//! from what was given before, or whose LIDs another node owns, is rejected; a link or cable that contradicts an
//! earlier one is rejected; and each question about the fabric is answered as `FabricOf` (`specs/Fabric`) defines it.
//! All crates that judge a fabric speak of `FabricOf`.
#![tactic(auto)]

pub mod fabric;
pub mod node;
pub mod nodes;
mod side;
pub mod traffic;
