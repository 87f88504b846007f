//! The command `names`: what the hosts believe after a journal.

ghost use Rattle.std.specs.Prelude.{◌≤◌, length, IfErr, IfOk};
ghost use Rattle.replay.specs.Replays.{IfIllegal, IsNoReplay};
ghost use Rattle.report.specs.Beliefs.{AreNamesIn};
ghost use Rattle.autonet_call.specs.Answer.{input_limit, streams};
ghost use Rattle.commands.specs.Names.{gives_names};
ghost use Rattle.commands.specs.Words.{IsNamesAnswer};
ghost use Rattle.commands.specs.Replay.{refuses_journal};

use crate::replaying::{Journaled, read_first, refused};
use autonet_call::command::{Command, Given, answer};
use autonet_call::status::Status;
use outside::sink::Sink;
use outside::source::Source;
use replay::refusal::ReplayRefusal;
use report::naming;
use std::alloc::Global;

// The command `names`: for a script with a journal after it, what hosts believe about where others are.
#[derive(Clone, Copy)]
struct Names;

// Returns what hosts believe in the journal that follows a script.
fn named(alloc: Global, input: Journaled) -> Result<Vec<u8>, ReplayRefusal>
    requires few { length input.after.now ≤ input_limit }
    ensures names { IfOk result (λ text. AreNamesIn input.entry.script input.entry.after.now text.items) }
    ensures refused { IfErr result (λ why. IfIllegal why
        (IsNoReplay input.entry.script input.entry.after.now)) }
{
    naming::names(alloc, &input.script, input.after)
}

impl Command for Names {
    ghost gives = { λ _. gives_names };

    ghost refuses = { λ _. refuses_journal };

    fn given(&self, alloc: Global, bytes: &[u8]) -> Result<Given, Status> {
        let input = read_first(alloc, bytes)?;
        match named(alloc, input) {
            Ok(text) => Ok(Given {
                status: Status::Ok,
                text,
            }),
            Err(refusal) => Err(refused(refusal)),
        }
    }
}

/// Runs `names`: reads a script with a journal after it from `source`, and writes what hosts believe in it to
/// `out`. Returns the number of a status, whose line goes to `err`. If `source` fails or has more bytes than the
/// limit, if script or journal is rejected, or if memory runs out, `out` is unchanged.
pub fn autonet_names<S: Source, O: Sink, E: Sink>(
    alloc: Global,
    source: &mut S,
    out: &mut O,
    err: &mut E,
) -> u8
    ensures { IsNamesAnswer
        (streams (S.seen source.old) (O.seen out.old) (E.seen err.old))
        (streams (S.seen source.new) (O.seen out.new) (E.seen err.new)) result }
{
    answer(&Names, alloc, source, out, err)
}
