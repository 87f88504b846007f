//! The hops that form a broadcast.

use an_base::life::Life;

/// One hop of a broadcast: a member sends the packet out of one of its ports.
#[derive(Clone, Copy, Debug, PartialEq, Eq)]
pub struct FloodHop {
    /// Whether it goes up by the sender's parent link; otherwise it goes down by a tree link.
    pub up: bool,
    /// The member that sends.
    pub at: Life,
    /// The port that it sends by, 1 to 12.
    pub port: u8,
}
