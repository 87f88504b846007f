//! fabric, lanes: SL2VL tables and service levels in little memory: equal rows are kept once.
//!
//! The crate depends on `fabric_model` and `indexmap`. Its contract: `lanes` keeps the row of lanes given for a switch,
//! an ingress port and an egress port, and rejects another row for them; `levels` keeps the levels given for an end
//! port and a LID; `in_use` gives pairs without a level that of silent pairs, and adds the levels of replies. Contracts
//! see all of them as functions.
#![tactic(auto)]

pub mod in_use;
pub mod lanes;
pub mod levels;
