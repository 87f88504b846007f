//! The lines that report events.

use an_base::life::{End, Life};
use an_base::place::Place;
use an_base::port::{Port, PortState};
use host_traffic::hop::DropCause;
use wire_set::side::Loss;

/// A line that reports part of an event.
#[derive(Clone, Copy)]
pub enum Line {
    /// A port changed its state.
    Port {
        /// The switch.
        s: Place,
        /// The port, 1 to 12.
        port: Port,
        /// The state.
        state: PortState,
        /// The other end, if it is known.
        peer: Option<End>,
    },
    /// The bytes that came in are no frame.
    NoFrame {
        /// The switch.
        s: Place,
        /// The port that they came in on, 1 to 12.
        port: Port,
    },
    /// A switch joined an epoch.
    Join {
        /// The switch.
        s: Place,
        /// The epoch.
        epoch: u64,
    },
    /// The epochs of a switch are spent.
    Spent {
        /// The switch.
        s: Place,
    },
    /// A switch finished its epoch.
    Finish {
        /// The switch.
        s: Place,
        /// The epoch.
        epoch: u64,
        /// The root of the topology.
        root: Life,
        /// The number of its members, 1 to 126.
        members: u8,
    },
    /// A frame that was put on the wire out of a port was lost.
    Lost {
        /// The switch that sent it.
        s: Place,
        /// Its port, 1 to 12.
        port: Port,
        /// The reason.
        cause: Loss,
    },
    /// A switch loaded a table.
    Load {
        /// The switch.
        s: Place,
        /// The epoch of its topology.
        epoch: u64,
        /// The number of the switch there, 1 to 126.
        number: u8,
    },
    /// A link went down.
    Cut {
        /// A switch at it.
        s: Place,
        /// Its port, 1 to 12.
        port: Port,
        /// The number of frames that were dropped.
        dropped: u32,
    },
    /// A link came up.
    Mended {
        /// A switch at it.
        s: Place,
        /// Its port, 1 to 12.
        port: Port,
    },
    /// A switch started its next life.
    Restarted {
        /// The switch.
        s: Place,
    },
    /// A packet was sent, and is in flight.
    Packet {
        /// The number of the packet, from 1.
        packet: u32,
        /// The index of the host that sends it, from 0.
        host: u16,
        /// The index of the host that it goes to.
        to: u16,
        /// The address: 16 times the number of a switch, and the port of the host there.
        address: u16,
    },
    /// A packet was dropped before its first hop.
    Unsent {
        /// The number of the packet, from 1.
        packet: u32,
        /// The index of the host that sends it, from 0.
        host: u16,
        /// The index of the host that it was to go to.
        to: u16,
        /// The reason.
        cause: DropCause,
    },
    /// A packet made a hop.
    Moved {
        /// The number of the packet, from 1.
        packet: u32,
        /// The switch that it was at.
        s: Place,
        /// The epoch of the table in use there.
        epoch: u64,
        /// The port that it came in on, 1 to 12.
        entry: Port,
        /// The port that it went out on, 1 to 12.
        exit: Port,
        /// The index of the host that it was delivered to, if it was.
        host: Option<u16>,
    },
    /// A packet was dropped.
    Fell {
        /// The number of the packet, from 1.
        packet: u32,
        /// The switch that it was at.
        s: Place,
        /// The reason.
        cause: DropCause,
    },
}

/// A line that reports part of an event, with the position of the event in the history, from 1.
#[derive(Clone, Copy)]
pub struct PlacedLine {
    /// The position of the event.
    pub event: u32,
    /// The line.
    pub line: Line,
}
