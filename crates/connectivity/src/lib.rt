//! autonet, switch: probe and reply, to learn who is at the far end of a link.
//!
//! Each probe has a number. The end that replied to enough probes in a row is the peer, until another end replies
//! or two probes in a row remain unanswered.
//!
//! It depends on `skeptic` for the number of replies that are required. Its contract: what is known after each call
//! is what the definition gives.
#![tactic(auto)]

pub mod conn;
pub mod far;
