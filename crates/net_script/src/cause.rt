//! The reasons why a text is not a script.

ghost use Rattle.std.specs.Prelude.{◌≡◌};
ghost use Rattle.net_script.specs.Causes.{cause_text};

/// An error in a line of a script.
#[derive(Clone, Copy, Debug, PartialEq, Eq)]
pub enum ScriptCause {
    /// A byte is not allowed in a line.
    NotAscii,
    /// The first words are not `autonet 1`.
    BadHeader,
    /// The words match no form.
    UnknownWord,
    /// A word is not a number, or not an identifier, or it is a number out of range that is not a port.
    BadNumber,
    /// A word is not a name.
    BadName,
    /// The name is taken, or the setting is repeated.
    NameTwice,
    /// The identifier is taken.
    UidTwice,
    /// No earlier switch (or host, where the line names a host) has the name.
    NoSuchName,
    /// A port is not 1 to 12, or the ingress port of a row is not 0 to 12.
    PortRange,
    /// The port already has a link or a host, or both ends of a link are the same port.
    PortUsed,
    /// There are too many switches and restarts, hosts, commands, or bytes of input.
    TooMany,
    /// A time is below the time of the previous command.
    TimesFall,
    /// The line `end` is missing.
    NoEnd,
    /// There are words after `end`.
    AfterEnd,
    /// A line has too many bytes.
    LineTooLong,
    /// A command names a port without a link (or without link and host, if the command also accepts a host's port).
    NoLink,
    /// The tables end without a number for some switch.
    TablesShort,
}

impl ScriptCause {
    /// Returns the words for the error in messages.
    pub fn text(self) -> &'static str
        ensures { result.now ≡ cause_text self }
    {
        match self {
            ScriptCause::NotAscii => "not ascii",
            ScriptCause::BadHeader => "bad header",
            ScriptCause::UnknownWord => "unknown word",
            ScriptCause::BadNumber => "bad number",
            ScriptCause::BadName => "bad name",
            ScriptCause::NameTwice => "name twice",
            ScriptCause::UidTwice => "uid twice",
            ScriptCause::NoSuchName => "no such name",
            ScriptCause::PortRange => "port range",
            ScriptCause::PortUsed => "port used",
            ScriptCause::TooMany => "too many",
            ScriptCause::TimesFall => "times fall",
            ScriptCause::NoEnd => "no end",
            ScriptCause::AfterEnd => "after end",
            ScriptCause::LineTooLong => "line too long",
            ScriptCause::NoLink => "no link",
            ScriptCause::TablesShort => "tables short",
        }
    }
}
