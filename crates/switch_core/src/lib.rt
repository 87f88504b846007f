//! autonet, switch: the control program of one switch.
//!
//! It joins the ports, the sessions and the epoch of a switch, and processes clock events, frames and loads.
//!
//! It depends on the ports, the sessions, one epoch, the encoding of frames, and routing tables. Its contract: a
//! switch that represents a history represents, after a clock event, a frame or a load, that history with one more
//! event. The frames that go out, in their order, what the switch shows of itself, and its table are as
//! the definition says.
#![tactic(auto)]

mod control;
pub mod law;
pub mod out;
mod session;
pub mod switch;
