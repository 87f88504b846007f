//! fabric, commands: the small program with only `judge`, `ranks`, `verify` and `dot`, which is proved and built long
//! before the program with all commands.
//!
//! It has no contract of its own: its output and its exit status are those of the call.
#![tactic(auto)]

use common_call::words::words_of_call;
use common_values::memory::OutOfMemory;
use common_values::text::Word;
use fabric_call::status::{Status, finish};
use fabric_judge_call::input::Input;
use fabric_judge_call::question::answer_question;
use fabric_judge_call::words::{Call, Task, call_of, file_of};
use outside::standard::{StdSink, StdSource};
use std::process::ExitCode;

// Answers the words over the files that they name.
fn answer(rt: &HostRuntime, words: &[Word]) -> u8 {
    let call = call_of(words);
    let mut topology = StdSource::new(Input::named(rt, rt.stdin(), file_of(words, call, 0)));
    let mut tables = StdSource::new(Input::named(rt, rt.stdin(), file_of(words, call, 1)));
    let mut ranks = StdSource::new(Input::named(rt, rt.stdin(), file_of(words, call, 2)));
    let mut out = StdSink::new(rt.stdout());
    let mut err = StdSink::new(rt.stderr());
    let Some(
        Call {
            task: Task::Answer(question),
            traffic,
            ..
        },
    ) = call
    else {
        return finish(&mut err, Status::Usage);
    };
    answer_question(
        rt.alloc(),
        &mut topology,
        &mut tables,
        &mut ranks,
        &mut out,
        &mut err,
        question,
        traffic,
    )
}

fn main(rt: HostRuntime) -> ExitCode {
    let code = match words_of_call(&rt) {
        Ok(words) => answer(&rt, &words),
        Err(OutOfMemory) => finish(&mut StdSink::new(rt.stderr()), Status::OutOfMemory),
    };
    ExitCode::from(code)
}
