//! The reasons for rejecting rows: in each case the least evidence.

ghost use Rattle.std.specs.Prelude.{◌≡◌};
ghost use Rattle.dep_check.specs.declared.refusal.CheckRefusal.TheVariants.{OutOfMemory};

use crate::channel::Channels;
use common_values::memory::OutOfMemory;

/// The reason why rows are rejected.
#[derive(Drop)]
pub enum CheckRefusal {
    /// The rows allow a deadlock: each channel leads to the next, and the last to the first.
    ///
    /// The first is the least channel on any cycle, by number, then by port; the list is one of the
    /// shortest cycles from there, and the least of these.
    Cycle {
        /// The channels of the cycle, from its least channel on.
        channels: Channels,
    },
    /// The rows do not bring every packet from one switch to another.
    ///
    /// These are the least such pair of numbers, and the least place where its packets can arrive but
    /// have no exit, or have an exit without a link.
    NotJoined {
        /// The number of the switch where the packet starts.
        from: u8,
        /// The number of the switch that it goes to.
        to: u8,
        /// The number of the switch where it gets stuck.
        at: u8,
        /// The port where it arrived there.
        entry: u8,
    },
    /// A row has an exit without a link, or one that goes upward although the packets came down: the
    /// least such row and exit.
    IllegalExit {
        /// The number of the row's switch.
        at: u8,
        /// The row's ingress port.
        entry: u8,
        /// The number that the row's packets go to.
        to: u8,
        /// The exit.
        exit: u8,
    },
    /// An allocation failed. It says nothing about the rows.
    OutOfMemory,
}

impl From<OutOfMemory> for CheckRefusal {
    ghost from_gives = { λ _ refusal. refusal ≡ OutOfMemory };

    fn from(_error: OutOfMemory) -> CheckRefusal {
        CheckRefusal::OutOfMemory
    }
}
