//! autonet, table texts: output of `flood`.
//!
//! It prints the path of the broadcast from each switch of a script's network.
//!
//! It depends on the broadcasts of a component. Its contract: the text has the hops of the broadcast from each
//! member, in which each member gets one copy; and a script has only one such text.
#![tactic(auto)]

pub mod flood;
pub mod law;
