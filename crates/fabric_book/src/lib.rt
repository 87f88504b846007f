//! Of autonet, in spite of its name: autonet, runs: the event log and state of the simulated network.
//! A book keeps the whole history for the callers that take turns at it. A `Net` is a network on one thread: a book
//! together with its switches.
//!
//! It depends on `net_state`, whose calls make the changes, on `net_world`, which defines what a history makes of a
//! network, and on `fabric_turn` for what a book is to its callers. Its contract: a `Book` is a script and a
//! history; each call appends at most one event, which is lawful, and returns what the world after the history has.
//! A `Net` makes each lawful event, whoever chooses it, and reports its lines. After its creation no call of a book
//! allocates.
#![tactic(auto)]

pub mod account;
pub mod book;
pub mod handling;
pub mod lines;
pub mod net;
pub mod power;
pub mod solo;
pub mod telling;
