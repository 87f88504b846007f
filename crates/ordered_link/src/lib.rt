//! autonet, switch: sliding-window protocol that delivers messages in order over a lossy link.
//!
//! It has the two ends of one direction of a session, over wires that lose, repeat and reorder frames. The window
//! has eight bodies.
//!
//! It depends on `an_base` for bodies. Its contract: a `Sender` and a `Receiver` that represent a session represent,
//! after each call, the session after it, and return what its definition gives; and whatever the wires do, the
//! accepted bodies are a prefix of those pushed, and no body counts as acknowledged before it is accepted.
#![tactic(auto)]

pub mod law;
pub mod receiver;
pub mod sender;
