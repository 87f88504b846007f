//! Why a line is invalid.

use common_values::memory::OutOfMemory;
use std::alloc::AllocError;

/// Why a line is invalid.
#[derive(Clone, Copy, Debug)]
pub enum Fault {
    /// The line has none of the four forms.
    Line,
    /// A number is missing, or out of its range.
    Number,
    /// No switch was started.
    NoSwitch,
    /// The switch takes no more clocks and frames.
    Stopped,
    /// No table is due.
    NotDue,
    /// An allocation failed.
    OutOfMemory,
}

impl Fault {
    /// Returns the reason in words.
    pub fn text(self) -> &'static str {
        match self {
            Fault::Line => "no such line",
            Fault::Number => "bad number",
            Fault::NoSwitch => "no switch was started",
            Fault::Stopped => "the switch takes no more",
            Fault::NotDue => "no load is due",
            Fault::OutOfMemory => "out of memory",
        }
    }
}

impl From<AllocError> for Fault {
    fn from(_error: AllocError) -> Self {
        Fault::OutOfMemory
    }
}

impl From<OutOfMemory> for Fault {
    fn from(_error: OutOfMemory) -> Self {
        Fault::OutOfMemory
    }
}
