//! Why a journal was not replayed.

ghost use Rattle.std.specs.Prelude.{◌≡◌};
ghost use Rattle.replay.specs.Replays.{as_replayed};
ghost use Rattle.replay.specs.declared.refusal.ReplayRefusal.TheVariants as refusal;

use common_values::memory::OutOfMemory;
use journal::reader::JournalRefusal;
use journal_cause::cause::JournalCause;

/// Why a journal was not replayed.
#[derive(Clone, Copy, Debug, PartialEq, Eq)]
pub enum ReplayRefusal {
    /// It is not a lawful journal with an end.
    Illegal {
        /// The line of its text: of the first event that is not lawful, or the last line. If the text is not a
        /// journal, its first faulty line.
        line: u32,
        /// What is wrong: `NotLawful` or `Unfinished`. If the text is not a journal, its error.
        cause: JournalCause,
    },
    /// An allocation failed.
    OutOfMemory,
}

impl From<OutOfMemory> for ReplayRefusal {
    ghost from_gives = { λ _ result. result ≡ refusal.OutOfMemory };

    fn from(_value: OutOfMemory) -> Self {
        ReplayRefusal::OutOfMemory
    }
}

impl From<JournalRefusal> for ReplayRefusal {
    ghost from_gives = { λ refused result. result ≡ as_replayed refused };

    fn from(refused: JournalRefusal) -> Self {
        match refused {
            JournalRefusal::Fault { line, cause } => ReplayRefusal::Illegal { line, cause },
            JournalRefusal::OutOfMemory => ReplayRefusal::OutOfMemory,
        }
    }
}
