//! autonet, switch: merging of topology reports on their way to the root.
//!
//! The report of a life has the least entry of each life that it has heard of, in ascending order of life.
//!
//! It depends on `an_base` for entries and their order. Its contract: a report has the least entry of each life
//! among all that was merged, in any order; of more than 126 lives it keeps the life itself and the 125 least
//! others.
#![tactic(auto)]

pub mod law;
pub mod report;
