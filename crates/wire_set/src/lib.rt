//! autonet, network: simulated cables.
//!
//! Each link of two switch ports has two wires, one for each direction: a queue of frames, with counts of the losses,
//! copies and exchanges still to come. Each switch holds at most one frame that it took. All frames are in one
//! region of blocks.
//!
//! It depends on `net_graph` for the wiring, and on `frame_region`. Its contract: a `WireSet` is a state of the
//! wires, and each call changes it as the definition says; a frame that is put on a wire is lost only for one of three
//! reasons, of which the first that holds is given. Only creating the wires allocates.
#![tactic(auto)]

mod frames;
pub mod law;
mod queue;
pub mod side;
pub mod wires;
