//! autonet, reports: the address cache of a host.
//! A host remembers the addresses of the last 16 senders, for 64 ticks.
//!
//! Its contract: after any list of arrivals a `Cache` has the last arrivals of the 16 senders that were heard last,
//! the newest first. A host sends to an address that it knows from there, for less than 64 ticks, and otherwise to
//! all hosts.
#![tactic(auto)]

pub mod cache;
pub mod choice;
pub mod law;
