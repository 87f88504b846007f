//! Channels, named by number as rows do. Cycles are compared by the order of channels: by number, then by port.

use common_values::items::Items;

/// A switch, by its number, and one of its ports. As a channel it represents the link that leaves there.
#[derive(Clone, Copy, PartialEq, Eq, PartialOrd, Ord)]
pub struct Channel {
    /// The number of the switch.
    pub at: u8,
    /// The port.
    pub port: u8,
}

/// Channels, each of which leads to the next.
pub type Channels = Items<Channel>;
