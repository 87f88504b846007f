//! The events of a network. A script commands some of them, and a journal records all of them.

use crate::place::Place;
use crate::port::Port;
use common_values::items::Items;

/// One event of a network. A host is its index in the script, from 0; a port is a switch's, 1 to 12.
#[derive(Clone, Copy, PartialEq, Eq)]
pub enum Event {
    /// The clock of the network advances by one tick.
    Tick,
    /// A switch takes its next clock event, with the samples of its ports, but does not handle it yet.
    Clock {
        /// The switch.
        s: Place,
    },
    /// A switch takes a frame from the incoming wire of a port, but does not handle it yet.
    Take {
        /// The switch.
        s: Place,
        /// Its port.
        port: Port,
    },
    /// A switch handles what it has taken.
    Handle {
        /// The switch.
        s: Place,
    },
    /// A switch loads the routing table of the topology that it finished with.
    Load {
        /// The switch.
        s: Place,
    },
    /// The link at a port goes down.
    Fail {
        /// The switch.
        s: Place,
        /// Its port.
        port: Port,
    },
    /// The link at a port comes up.
    Repair {
        /// The switch.
        s: Place,
        /// Its port.
        port: Port,
    },
    /// The next frames that are put on the outgoing wire of a port will be lost.
    Lose {
        /// The switch.
        s: Place,
        /// Its port.
        port: Port,
        /// The number of frames.
        n: u32,
    },
    /// The next takes from the outgoing wire of a port will leave a copy at its end.
    Again {
        /// The switch.
        s: Place,
        /// Its port.
        port: Port,
        /// The number of takes.
        n: u32,
    },
    /// The next takes from the outgoing wire of a port that find two frames will take the second.
    Swap {
        /// The switch.
        s: Place,
        /// Its port.
        port: Port,
        /// The number of takes.
        n: u32,
    },
    /// Bytes that do not form a frame are put on the outgoing wire of a port.
    Noise {
        /// The switch.
        s: Place,
        /// Its port.
        port: Port,
        /// The number of bytes.
        n: u32,
    },
    /// A host sends a packet to a host.
    Send {
        /// The host that sends.
        host: u16,
        /// The host that it sends to.
        to: u16,
    },
    /// A packet makes one hop.
    Move {
        /// The packet's number, from 1.
        packet: u32,
    },
    /// A switch restarts, and begins its next life.
    Restart {
        /// The switch.
        s: Place,
    },
}

/// The events of a run, in order.
pub type Journal = Items<Event>;
