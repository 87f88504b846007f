//! The limits that several layers share.

/// The number of external ports of a switch.
pub const PORTS: usize = 12;

/// The last external port. External ports are numbered from 1; port 0 is the switch itself.
pub const LAST_PORT: u8 = 12;

/// The maximum number of switches of a network, and of lives of one topology.
pub const MOST_SWITCHES: usize = 126;

/// The highest number of a switch in a topology. Numbers start at 1.
pub const MOST_NUMBER: u8 = 126;

/// The highest level of a position: the maximum number of links between a switch and its root.
pub const MOST_LEVEL: u8 = 125;
