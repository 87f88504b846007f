//! What all commands that read an input share: the input is read, the command gives a text for it, the text is
//! written, and the status is reported.

ghost use Rattle.std.specs.Prelude.{◌≡◌, ◌⊎◌, ◌≤◌, length, IfOk, IfErr};
ghost use Rattle.common_call.specs.Inputs.{IsInput};
ghost use Rattle.autonet_call.specs.declared.status.Status.TheVariants.{OutOfMemory};
ghost use Rattle.autonet_call.specs.Answer.{streams, Gives, Refuses, IsAnswer, IsCause, IsEnding, IsStop, input_limit};

use crate::input::INPUT_LIMIT;
use crate::status::{Status, finish};
use common_call::input::read_input;
use outside::all::write_all;
use outside::sink::Sink;
use outside::source::Source;
use std::alloc::Global;

/// What a command gives for an input.
#[derive(Drop)]
pub struct Given {
    /// The status with which the call ends once the text is written.
    pub status: Status,
    /// The text for `out`.
    pub text: Vec<u8>,
}

/// A command that reads an input.
pub trait Command {
    /// The status and the text that the command gives for the bytes of an input.
    ghost gives: { Self → Gives };

    /// The status with which the command rejects the bytes of an input.
    ghost refuses: { Self → Refuses };

    /// Returns what the command gives for an input of at most 2^28 bytes.
    ///
    /// # Errors
    /// The status with which the command rejects the input, or `OutOfMemory`.
    fn given(&self, alloc: Global, bytes: &[u8]) -> Result<Given, Status>
        requires { length bytes.now ≤ input_limit }
        ensures given { IfOk result (λ given. gives self.now bytes.now given.status given.text.items) }
        ensures ends { IfOk result (λ given. IsEnding given.status) }
        ensures stopped { IfErr result (λ status.
            refuses self.now bytes.now status ⊎ (status ≡ OutOfMemory)) };
}

// Returns what the command gives for the input in the source, or why there is nothing.
fn found<C: Command, S: Source>(command: &C, alloc: Global, source: &mut S) -> Result<Given, Status>
    ensures given { IfOk result (λ given. IsInput input_limit
        (λ bytes. C.gives command.now bytes given.status given.text.items)
        (S.seen source.old) (S.seen source.new)) }
    ensures ends { IfOk result (λ given. IsEnding given.status) }
    ensures stopped { IfErr result (IsStop input_limit (C.refuses command.now)
        (S.seen source.old) (S.seen source.new)) }
{
    let bytes = read_input(alloc, source, INPUT_LIMIT)?;
    command.given(alloc, &bytes)
}

// Writes the text to `out`, and returns the status, or why there is no text.
fn status_of<C: Command, S: Source, O: Sink>(
    command: &C,
    alloc: Global,
    source: &mut S,
    out: &mut O,
) -> Status
    ensures { IsCause input_limit (C.gives command.now) (C.refuses command.now)
        (S.seen source.old) (S.seen source.new) (O.seen out.old) (O.seen out.new) result }
{
    let given = match found(command, alloc, source) {
        Ok(given) => given,
        Err(status) => return status,
    };
    match write_all(out, &given.text) {
        Ok(()) => given.status,
        Err(_fault) => Status::WriteFault,
    }
}

/// Runs a command: reads the input from `source`, writes the text that the command gives for it to `out`, and
/// writes the line of a status to `err`. Returns the number of that status.
///
/// If `source` fails or has more bytes than the limit, if the command rejects the input, or if memory runs out,
/// `out` is unchanged, and `err` gains the line of that status. If `out` fails, a prefix of the text was written,
/// and the status is `WriteFault`. If `err` fails, a prefix of the line was written, and the result is 5, the
/// number of `WriteFault`. If the bytes of a stream are not known, nothing is said of them.
pub fn answer<C: Command, S: Source, O: Sink, E: Sink>(
    command: &C,
    alloc: Global,
    source: &mut S,
    out: &mut O,
    err: &mut E,
) -> u8
    ensures { IsAnswer input_limit (C.gives command.now) (C.refuses command.now)
        (streams (S.seen source.old) (O.seen out.old) (E.seen err.old))
        (streams (S.seen source.new) (O.seen out.new) (E.seen err.new)) result }
{
    let status = status_of(command, alloc, source, out);
    finish(err, status)
}
