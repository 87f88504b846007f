//! One port and the wire into it, and the result of putting a frame on a wire or taking one from it.

ghost use Rattle.std.specs.Prelude.{◌≡◌};
ghost use Rattle.wire_set.specs.WireState.{is_link};

use net_graph::wiring::Far;

/// A port of a switch, with the wire into it.
#[derive(Clone, Copy)]
pub struct Side {
    /// What is at its far side.
    pub far: Option<Far>,
    /// Whether its link is up.
    pub is_up: bool,
    /// The number of frames put on the wire that are still to be lost.
    pub lose: u32,
    /// The number of frames taken from the wire that are still to be copied.
    pub again: u32,
    /// The number of times that the second frame is still to be taken instead of the first.
    pub swap: u32,
}

/// The reason why a frame is lost.
#[derive(Clone, Copy, PartialEq, Eq)]
pub enum Loss {
    /// The link is down.
    Down,
    /// The script asked for a loss; one less is still to come.
    Told,
    /// Too few blocks are free.
    NoRoom {
        /// The number of blocks that the frame needs, 1 to 353.
        need: u32,
        /// The number of free blocks.
        free: u32,
    },
}

/// The result of putting a frame on a wire.
#[derive(Clone, Copy, PartialEq, Eq)]
pub enum Put {
    /// It is the last one on the wire.
    Kept,
    /// It is lost.
    Lost {
        /// The first reason that holds.
        cause: Loss,
    },
}

/// The result of taking a frame from a wire.
#[derive(Clone, Copy, PartialEq, Eq)]
pub struct Taken {
    /// Whether it was the second frame of the wire.
    pub second: bool,
    /// The result for its copy; `None` if and only if no copy was asked for.
    pub copied: Option<Put>,
}

/// Reports whether there is a link of two switch ports.
pub fn is_link(far: Option<Far>) -> bool
    ensures { result ≡ is_link far }
{
    matches!(far, Some(Far::Switch { s: _, port: _ }))
}
