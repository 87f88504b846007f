//! Of autonet, in spite of its name: autonet, runs: a ticket lock around one value and its history.
//! Any number of callers take turns at the value, in the order of their tickets. Each caller knows what it has seen
//! of the value's history and what it has added.
//!
//! It depends on `atomic_table` for the two words and the slot that callers share. Its contract: there is one
//! history. It contains the entries of each caller, each once, in the order of that caller's calls; the reply to a
//! call is the reply of the value as it was at the call's point in the history; and the caller that closes the lock
//! gets the value with the whole history. We do not prove when a turn comes, or that it comes.
#![tactic(auto)]

mod order;
mod seat;
mod staged;
mod turnstile;
mod view;

pub use seat::Seat;
pub use staged::Staged;
pub use turnstile::Turnstile;
pub use view::{Ended, Stage, View};
