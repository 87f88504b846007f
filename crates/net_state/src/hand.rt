//! What a switch holds.

use an_base::port::Sample;

/// What a switch has taken and not yet handled. The bytes of a frame are those that the wires hold for
/// the switch.
#[derive(Clone, Copy)]
pub enum Hand {
    /// Nothing.
    Empty,
    /// A clock event.
    Clock {
        /// The tick at which it was taken, 0 to 1,000,000.
        now: u32,
        /// The samples of the ports at that time, in ascending order of port.
        samples: [Sample; 12],
    },
    /// A frame.
    Frame {
        /// The port that it came in on, 1 to 12, as the switch is given it.
        port: u8,
    },
}
