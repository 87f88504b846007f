//! autonet, table texts: output of `check`.
//!
//! It judges the routing tables that follow a script: whether those of each component pass.
//!
//! It depends on the reader of tables, on the check of a component's tables and, for its theorems, on the output of
//! `expect`. Its contract: if the tables of each component pass, the text has the ranks of all channels, and
//! otherwise the line of why those of the first rejected component are rejected. Tables have only one judgement;
//! tables that pass are those of a topology; and those that `expect` prints are never rejected.
#![tactic(auto)]

pub mod check;
pub mod law;
mod runs;
