//! Which of these commands the arguments name, and its call.

ghost use Rattle.std.specs.Prelude.{MatchOption};
ghost use Rattle.autonet_call.specs.Answer.{streams};
ghost use Rattle.autonet_file_commands.specs.Answers.{AreOthers, AreWordsOf, IsFileAnswer};

use crate::check::autonet_check;
use crate::flood::autonet_flood;
use crate::flow::autonet_flow;
use crate::room::Room;
use crate::words::room_of;
use autonet_call::expect::autonet_expect;
use autonet_call::words::is_word;
use common_values::text::Word;
use outside::sink::Sink;
use outside::source::Source;
use std::alloc::Global;

/// A command that needs only a network file, or a network file with its tables.
#[derive(Clone, Copy, Drop)]
pub enum FileCommand {
    /// `expect`.
    Expect,
    /// `check`.
    Check,
    /// `flood`.
    Flood,
    /// `flow B`.
    Flow(Room),
}

/// Returns the command that the arguments name, if it is one of these.
pub fn command_of(words: &[Word]) -> Option<FileCommand>
    ensures { MatchOption result (AreOthers words.now) (λ command. AreWordsOf command words.now) }
{
    if is_word(words, b"expect") {
        return Some(FileCommand::Expect);
    }
    if is_word(words, b"check") {
        return Some(FileCommand::Check);
    }
    if is_word(words, b"flood") {
        return Some(FileCommand::Flood);
    }
    let room = room_of(words)?;
    Some(FileCommand::Flow(room))
}

/// Runs one of these commands. Returns the number of a status, whose line goes to `err`. If there is no text to
/// write, `out` is unchanged.
pub fn answer_file<S: Source, O: Sink, E: Sink>(
    command: FileCommand,
    alloc: Global,
    source: &mut S,
    out: &mut O,
    err: &mut E,
) -> u8
    ensures { IsFileAnswer command
        (streams (S.seen source.old) (O.seen out.old) (E.seen err.old))
        (streams (S.seen source.new) (O.seen out.new) (E.seen err.new)) result }
{
    match command {
        FileCommand::Expect => autonet_expect(alloc, source, out, err),
        FileCommand::Check => autonet_check(alloc, source, out, err),
        FileCommand::Flood => autonet_flood(alloc, source, out, err),
        FileCommand::Flow(room) => autonet_flow(alloc, room, source, out, err),
    }
}
