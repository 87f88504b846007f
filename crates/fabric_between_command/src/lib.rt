//! fabric, commands: `between`: whether packets can wait for one another in a ring while the rows of one table are
//! replaced with those of another.
//!
//! The crate depends on `fabric_mixtures`, which judges both tables together, on the rows of `fabric_print`, and on
//! `fabric_call`, which reads the topology and reports how the call ended. Its one contract is that of
//! `between::between`. With exit status 0 no channels that can follow one another form a cycle, so no mixture of the
//! rows has a credit loop. With 8 some do, and standard output has the least such cycle, and which of the tables have
//! one on their own. `between` does not check whether the routes of either table arrive.
#![tactic(auto)]

pub mod answer;
pub mod between;
pub mod lines;
