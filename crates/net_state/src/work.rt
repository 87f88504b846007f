//! What a switch, and the driver of a network, does next.

use crate::ending::Ending;
use an_base::event::Event;
use an_base::life::Life;
use an_base::port::{Port, Sample};

/// The reason why there is nothing to do at a switch.
#[derive(Clone, Copy, PartialEq, Eq)]
pub enum Why {
    /// A switch is spent.
    Spent,
    /// There is no room for an event and its consequences.
    Full,
    /// No clock event is due, and no frame has come.
    Idle,
}

/// What a switch does next.
#[derive(Clone, Copy)]
pub enum Work {
    /// It starts its next life.
    Restart {
        /// That life.
        life: Life,
    },
    /// It handles a clock event.
    Clock {
        /// The tick at which it was taken, 0 to 1,000,000.
        now: u32,
        /// The samples of the ports at that time, in ascending order of port.
        samples: [Sample; 12],
    },
    /// It handles a frame.
    Frame {
        /// The port that it came in on, 1 to 12.
        port: Port,
    },
    /// Nothing.
    Nothing {
        /// The reason.
        why: Why,
    },
}

/// What the driver does next, or did.
#[derive(Clone, Copy)]
pub enum Drive {
    /// This event.
    Did(Event),
    /// Nothing, until a switch does something.
    Waits,
    /// Nothing, because the history has ended.
    Ended(Ending),
}
