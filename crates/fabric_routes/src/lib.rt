//! fabric, judge: the routes of forwarding tables, and the dependencies between channels that these routes make.
//!
//! Dependencies are found for 64 LIDs at a time (`find`, `wave`), and for each dependency the least route that makes it
//! (`witness`). Who sends to a LID (`audience`), where routes begin (`start`, `sender`) and how they end (`trace`)
//! serve the crates that count or repair routes.
//!
//! The crate depends on `common_graph`, `fabric_model` and `fabric_tables`. Its contract: `find` puts into a graph the
//! dependencies that the routes of a traffic make (`specs/Routes`), all of them and no other, and reports whether a
//! route stops; `witness` finds the least route that takes one channel and then, directly, another one.
#![tactic(auto)]

pub mod audience;
pub mod find;
pub mod hop;
pub mod link;
pub mod sender;
pub mod start;
pub mod trace;
mod wave;
pub mod witness;
pub mod word;
