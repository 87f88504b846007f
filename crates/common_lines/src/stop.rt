//! The reasons why reading a text stops, and why a text is rejected.

ghost use Rattle.std.specs.Prelude.{◌≡◌};
ghost use Rattle.common_lines.specs.declared.stop.Stop.TheVariants as stop;
ghost use Rattle.common_lines.specs.declared.stop.Refusal.TheVariants as refusal;
ghost use Rattle.common_lines.specs.Stops.{refusal_at};

use common_values::memory::OutOfMemory;

/// The reason why a line adds nothing.
#[derive(Clone, Copy, Debug, PartialEq, Eq)]
pub enum Stop<Cause> {
    /// The line has this error.
    Fault(Cause),
    /// An allocation failed. It says nothing about the line.
    OutOfMemory,
}

/// The reason why bytes were not read.
#[derive(Clone, Copy, Debug, PartialEq, Eq)]
pub enum Refusal<Cause> {
    /// The bytes are not a text of the expected kind.
    Fault {
        /// The number, from 1, of the first line with an error.
        line: u32,
        /// The first error in that line.
        cause: Cause,
    },
    /// An allocation failed. It says nothing about the bytes.
    OutOfMemory,
}

impl<Cause> From<OutOfMemory> for Stop<Cause> {
    ghost from_gives = { λ _ s. s ≡ stop.OutOfMemory };

    fn from(_error: OutOfMemory) -> Stop<Cause> {
        Stop::OutOfMemory
    }
}

impl<Cause> From<OutOfMemory> for Refusal<Cause> {
    ghost from_gives = { λ _ r. r ≡ refusal.OutOfMemory };

    fn from(_error: OutOfMemory) -> Refusal<Cause> {
        Refusal::OutOfMemory
    }
}

impl<Cause> Stop<Cause> {
    /// Returns the reason for rejecting a text that stopped at `line`.
    pub fn at(self, line: u32) -> Refusal<Cause>
        ensures { result ≡ refusal_at line self }
    {
        match self {
            Stop::Fault(cause) => Refusal::Fault { line, cause },
            Stop::OutOfMemory => Refusal::OutOfMemory,
        }
    }
}
