//! The call that runs the command that the arguments name.

ghost use Rattle.autonet_call.specs.Answer.{streams};
ghost use Rattle.commands.specs.Words.{IsAnswerTo};

use crate::generate::{autonet_gen, gen_words};
use crate::names::autonet_names;
use crate::replaying::autonet_replay;
use crate::run::autonet_run;
use autonet_call::status::{Status, finish};
use autonet_call::words::is_word;
use autonet_file_commands::file::{answer_file, command_of};
use common_values::text::Word;
use outside::sink::Sink;
use outside::source::Source;
use std::alloc::Global;
use std::sync::Wait;
use std::thread::Threads;
use switch_threads::Gate;

/// Runs the command that `words`, the arguments after the program's name, give. Returns the number of a status,
/// whose line goes to `err`. If the arguments are not a command, `source` is unread and `out` unchanged. Only `run`
/// starts threads, and only `run` calls the gate.
#[tactic(auto, using(crate::proofs::TopLemmas::answers_gen, crate::proofs::TopLemmas::answers_usage))]
pub fn autonet<R: Threads + Wait + Sync, S: Source, O: Sink, E: Sink, G: Gate>(
    rt: &R,
    alloc: Global,
    words: &[Word],
    gate: &G,
    source: &mut S,
    out: &mut O,
    err: &mut E,
) -> u8
    ensures { IsAnswerTo words.now
        (streams (S.seen source.old) (O.seen out.old) (E.seen err.old))
        (streams (S.seen source.new) (O.seen out.new) (E.seen err.new)) result }
{
    if let Some(command) = command_of(words) {
        return answer_file(command, alloc, source, out, err);
    }
    if is_word(words, b"run") {
        return autonet_run(rt, gate, alloc, source, out, err);
    }
    if is_word(words, b"replay") {
        return autonet_replay(alloc, source, out, err);
    }
    if is_word(words, b"names") {
        return autonet_names(alloc, source, out, err);
    }
    if let Some((seed, count)) = gen_words(words) {
        return autonet_gen(alloc, seed, count, out, err);
    }
    finish(err, Status::Usage)
}
