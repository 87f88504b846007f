//! How a call ends, and the line that reports it.

ghost use Rattle.std.specs.Fmt.{decimal};
ghost use Rattle.std.specs.Prelude.{◌++◌, ◌≡◌, codes};
ghost use Rattle.std.specs.List.{flat_map};
ghost use Rattle.autonet_call.specs.declared.status.Status.TheVariants as ended;
ghost use Rattle.autonet_call.specs.Status.{code_of, line_of};
ghost use Rattle.autonet_call.specs.Answer.{IsTold};

use common_call::end::tell;
use common_values::memory::OutOfMemory;
use common_values::text::Word;
use itoa::Buffer;
use journal_cause::cause::JournalCause;
use net_script::cause::ScriptCause;
use outside::sink::Sink;

/// How a call ended.
#[derive(Drop)]
pub enum Status {
    /// The command succeeded.
    Ok,
    /// The arguments are not a command.
    Usage,
    /// The input is not a script (for `check` not a script with tables), or has more bytes than the limit.
    ScriptRefused {
        /// The first faulty line, from 1.
        line: u32,
        /// The reason for the first error in that line.
        cause: ScriptCause,
    },
    /// The source failed.
    ReadFault,
    /// A sink failed.
    WriteFault,
    /// The tables of some component are rejected.
    TablesRefused,
    /// The journal ends unsettled.
    Unsettled {
        /// The tick at its end.
        tick: u32,
    },
    /// The journal ends with a switch that has no epoch left.
    EpochsSpent {
        /// The name of its life.
        name: Word,
    },
    /// The text is not a journal, or the journal is not legal.
    JournalRefused {
        /// The line, from 1.
        line: u32,
        /// What is wrong with it.
        cause: JournalCause,
    },
    /// The journal ends because it is full.
    JournalFull,
    /// An allocation failed.
    OutOfMemory,
}

impl From<OutOfMemory> for Status {
    ghost from_gives = { λ _ result. result ≡ ended.OutOfMemory };

    fn from(_value: OutOfMemory) -> Self {
        Status::OutOfMemory
    }
}

impl Status {
    /// Returns the exit status of the program.
    pub fn code(&self) -> u8
        ensures { result ≡ code_of self.now }
    {
        match self {
            Status::Ok => 0,
            Status::Usage => 2,
            Status::ScriptRefused { line: _, cause: _ } => 3,
            Status::ReadFault => 4,
            Status::WriteFault => 5,
            Status::TablesRefused => 8,
            Status::Unsettled { tick: _ } => 1,
            Status::EpochsSpent { name: _ } => 6,
            Status::JournalRefused { line: _, cause: _ } => 7,
            Status::JournalFull => 10,
            Status::OutOfMemory => 9,
        }
    }
}

// Writes the line of a status, of which these are the parts.
fn tell_line<E: Sink>(err: &mut E, status: &Status, parts: &[&[u8]]) -> u8
    requires { flat_map (λ part. part.now) parts.now ≡ line_of status.now }
    ensures { IsTold (E.seen err.old) (E.seen err.new) status.now result }
{
    tell(err, status.code(), parts)
}

// Reports an error in a line of a text, counted from 1: the words before the line's number, that number and the
// reason.
fn tell_fault<E: Sink>(err: &mut E, status: &Status, head: &[u8], line: u32, cause: &str) -> u8
    requires { head.now ++ decimal line ++ codes ": " ++ cause.now ++ codes "\n" ≡ line_of status.now }
    ensures { IsTold (E.seen err.old) (E.seen err.new) status.now result }
{
    let mut digits = Buffer::new();
    let line = digits.format(line).as_bytes();
    tell_line(err, status, &[head, line, b": ", cause.as_bytes(), b"\n"])
}

/// Writes the line of `status` to `err`, and returns the number of the status. If `err` did not take the whole
/// line, it failed and a prefix of the line was written; the result is then the number of `WriteFault`.
pub fn finish<E: Sink>(err: &mut E, status: Status) -> u8
    ensures { IsTold (E.seen err.old) (E.seen err.new) status result }
{
    match &status {
        Status::Ok => tell_line(err, &status, &[]),
        Status::Usage => tell_line(
            err,
            &status,
            &[b"usage: autonet expect, run, replay, check, flow B, flood, names or gen SEED N\n"],
        ),
        Status::ScriptRefused { line, cause } => {
            tell_fault(err, &status, b"autonet: script line ", *line, cause.text())
        }
        Status::ReadFault => tell_line(err, &status, &[b"autonet: read fault\n"]),
        Status::WriteFault => tell_line(err, &status, &[b"autonet: write fault\n"]),
        Status::TablesRefused => tell_line(err, &status, &[b"autonet: tables refused\n"]),
        Status::Unsettled { tick } => {
            let mut digits = Buffer::new();
            let tick = digits.format(*tick).as_bytes();
            tell_line(err, &status, &[b"autonet: unsettled at tick ", tick, b"\n"])
        }
        Status::EpochsSpent { name } => tell_line(
            err,
            &status,
            &[b"autonet: epochs spent at ", name.as_bytes(), b"\n"],
        ),
        Status::JournalRefused { line, cause } => {
            tell_fault(err, &status, b"autonet: journal line ", *line, cause.text())
        }
        Status::JournalFull => tell_line(err, &status, &[b"autonet: journal full\n"]),
        Status::OutOfMemory => tell_line(err, &status, &[b"autonet: out of memory\n"]),
    }
}
