//! The command `replay`: the report of a journal.

ghost use Rattle.std.specs.Prelude.{◌≡◌, ◌⊎◌, ◌≤◌, length, IfErr, IfOk};
ghost use Rattle.autonet_call.specs.declared.status.Status.TheVariants as ended;
ghost use Rattle.replay.specs.Replays.{IfIllegal, IsNoReplay};
ghost use Rattle.autonet_call.specs.Answer.{IsEnding, input_limit, streams};
ghost use Rattle.commands.specs.Replay.{IsScriptWith, gives_replayed, refuses_journal, replay_refused_as};
ghost use Rattle.commands.specs.Words.{IsReplayAnswer};
ghost use Rattle.commands.specs.Reported.{IsReportedText};

use crate::reported::told_text;
use autonet_call::command::{Command, Given, answer};
use autonet_call::status::Status;
use net_script::reader::read;
use net_script::script::Script;
use outside::sink::Sink;
use outside::source::Source;
use replay::division::divide;
use replay::refusal::ReplayRefusal;
use std::alloc::Global;

// The command `replay`: for a script with a journal after it, the report of the journal.
#[derive(Clone, Copy)]
struct Replay;

// Returns the status of a text that is not a journal, or whose journal is not legal.
pub(crate) fn refused(refusal: ReplayRefusal) -> Status
    ensures { result ≡ replay_refused_as refusal }
{
    match refusal {
        ReplayRefusal::Illegal { line, cause } => Status::JournalRefused { line, cause },
        ReplayRefusal::OutOfMemory => Status::OutOfMemory,
    }
}

// A script, and the bytes after it.
#[derive(Drop)]
pub(crate) struct Journaled<'a> {
    // The script.
    pub(crate) script: Script,
    // The bytes, which must begin with the text of a journal.
    pub(crate) after: &'a [u8],
}

// Returns the script with which an input begins, and the bytes after it.
pub(crate) fn read_first(alloc: Global, bytes: &[u8]) -> Result<Journaled, Status>
    requires few { length bytes.now ≤ input_limit }
    ensures read { IfOk result (λ input. IsScriptWith bytes.now input.script input.after.now) }
    ensures few { IfOk result (λ input. length input.after.now ≤ input_limit) }
    ensures stopped { IfErr result (λ status.
        refuses_journal bytes.now status ⊎ (status ≡ ended.OutOfMemory)) }
{
    let (first, after) = divide(alloc, bytes)?;
    let script = read(alloc, first)?;
    Ok(Journaled { script, after })
}

// Returns the report of the journal that follows a script, with the status of its end.
fn replayed(alloc: Global, input: Journaled) -> Result<Given, ReplayRefusal>
    requires few { length input.after.now ≤ input_limit }
    ensures reported { IfOk result (λ given.
        IsReportedText input.entry.script input.entry.after.now given.status given.text.items) }
    ensures ends { IfOk result (λ given. IsEnding given.status) }
    ensures refused { IfErr result (λ why. IfIllegal why
        (IsNoReplay input.entry.script input.entry.after.now)) }
{
    told_text(alloc, &input.script, input.after)
}

impl Command for Replay {
    ghost gives = { λ _. gives_replayed };

    ghost refuses = { λ _. refuses_journal };

    fn given(&self, alloc: Global, bytes: &[u8]) -> Result<Given, Status> {
        let input = read_first(alloc, bytes)?;
        match replayed(alloc, input) {
            Ok(given) => Ok(given),
            Err(refusal) => Err(refused(refusal)),
        }
    }
}

/// Runs `replay`: reads a script with a journal after it from `source`, and writes the report of the journal to
/// `out`. Returns the number of a status, whose line goes to `err`. If `source` fails or has more bytes than the
/// limit, if script or journal is rejected, or if memory runs out, `out` is unchanged.
pub fn autonet_replay<S: Source, O: Sink, E: Sink>(
    alloc: Global,
    source: &mut S,
    out: &mut O,
    err: &mut E,
) -> u8
    ensures { IsReplayAnswer
        (streams (S.seen source.old) (O.seen out.old) (E.seen err.old))
        (streams (S.seen source.new) (O.seen out.new) (E.seen err.new)) result }
{
    answer(&Replay, alloc, source, out, err)
}
