//! The result of a packet's hop at one switch.

use an_base::port::Port;

/// The reason why a packet is dropped.
#[derive(Clone, Copy, PartialEq, Eq)]
pub enum DropCause {
    /// The link of the host that sends is down, or its port does not show a host.
    NoPort,
    /// The switch has no table in use.
    NoTable,
    /// No host is at the port of the address.
    NoHost,
    /// Another host is at the port of the address.
    WrongHost,
    /// The row has no exit.
    NoExit,
    /// The link of the lowest exit is down.
    LinkDown,
}

/// The result of a packet's hop at one switch.
#[derive(Clone, Copy, PartialEq, Eq)]
pub enum Hop {
    /// It goes on through an exit (egress port).
    Went {
        /// The exit, 1 to 12.
        exit: Port,
    },
    /// It is delivered.
    Delivered {
        /// The port of the host, 1 to 12.
        exit: Port,
        /// The index of the host in the script, from 0.
        host: u16,
    },
    /// It is dropped.
    Dropped {
        /// The reason.
        cause: DropCause,
    },
}
