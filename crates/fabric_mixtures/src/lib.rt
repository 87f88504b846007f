//! fabric, judge: old and new tables of a fabric, mixed while rows change one by one.
//!
//! The crate depends on `common_graph`, `fabric_model`, `fabric_tables`, `fabric_routes` and `fabric_verdict`. Its one
//! contract: `judge::judge` returns ranks if and only if no channels that can follow one another form a cycle
//! (`specs/Mixtures`), else the least such cycle, and which of the two tables have a cycle on their own. A LID counts
//! if a row names a port for it, whoever owns it.
//!
//! The theorems say what that means: if there is no cycle, no mixture of the rows has a credit loop, for any traffic,
//! and packets that are under way while rows change do not wait for one another in a ring.
#![tactic(auto)]

pub mod changed;
mod follow;
pub mod judge;
pub mod law;
mod look;
pub mod looped;
pub mod turn;
