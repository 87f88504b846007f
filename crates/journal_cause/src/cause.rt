//! The reasons why a text is not a journal, or not a legal one.

ghost use Rattle.std.specs.Prelude.{◌≡◌};
ghost use Rattle.common_lines.specs.declared.stop.Stop.TheVariants.{Fault};
ghost use Rattle.journal_cause.specs.Causes.{cause_text};

use common_lines::stop::Stop;

/// An error in a line of a journal.
#[derive(Clone, Copy, Debug, PartialEq, Eq)]
pub enum JournalCause {
    /// The first line is not `journal 1`.
    BadHeader,
    /// The line is not that of an event, and not the last line.
    UnknownWord,
    /// A word is not a number in its range.
    BadNumber,
    /// No switch (or host, where the line names a host) has the name.
    NoSuchName,
    /// The event is not legal in the state after the events before it.
    NotLawful,
    /// The line `end` is missing.
    NoEnd,
    /// The state after all events is not the end of a run.
    Unfinished,
}

impl JournalCause {
    /// Returns the words for the error in messages.
    pub fn text(self) -> &'static str
        ensures { result.now ≡ cause_text self }
    {
        match self {
            JournalCause::BadHeader => "bad header",
            JournalCause::UnknownWord => "unknown word",
            JournalCause::BadNumber => "bad number",
            JournalCause::NoSuchName => "no such name",
            JournalCause::NotLawful => "not lawful",
            JournalCause::NoEnd => "no end",
            JournalCause::Unfinished => "unfinished",
        }
    }
}

impl From<JournalCause> for Stop<JournalCause> {
    ghost from_gives = { λ cause stop. stop ≡ Fault cause };

    fn from(cause: JournalCause) -> Stop<JournalCause> {
        Stop::Fault(cause)
    }
}
