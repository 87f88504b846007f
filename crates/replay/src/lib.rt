//! autonet, reports: replays a journal over the network of a script.
//! It depends on `fabric_book`, whose `Net` makes the events, and on the theorems of `net_settling` about lawful
//! histories.
//!
//! Its contract: `world::replay` succeeds only if the journal is lawful and comes to an end, and returns the end.
//! Otherwise it reports the line of the first event that is not lawful, or the last line; in either case it can
//! instead run out of memory. All that is claimed of a lawful history holds of each journal that it accepts.
//! `division::divide` divides an input into the text of a script and the text of a journal; each input has one such
//! division.
#![tactic(auto)]

pub mod division;
pub mod law;
pub mod refusal;
pub mod world;
