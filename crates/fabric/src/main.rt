//! fabric, commands: the program `fabric`. It reads its arguments and makes the one call of `fabric_commands`, with the
//! files that they name and the standard streams.
//!
//! It has no contract of its own: its output and its exit status are those of the call.
#![tactic(auto)]

use common_call::words::words_of_call;
use common_values::memory::OutOfMemory;
use common_values::text::Word;
use fabric_call::status::{Status, finish};
use fabric_commands::fabric::fabric;
use fabric_judge_call::input::Input;
use fabric_judge_call::words::{call_of, file_of};
use outside::standard::{StdSink, StdSource};
use std::process::ExitCode;

// Answers the words over the files that they name.
fn answer(rt: &HostRuntime, words: &[Word]) -> u8 {
    let call = call_of(words);
    let mut topology = StdSource::new(Input::named(rt, rt.stdin(), file_of(words, call, 0)));
    let mut tables = StdSource::new(Input::named(rt, rt.stdin(), file_of(words, call, 1)));
    let mut third = StdSource::new(Input::named(rt, rt.stdin(), file_of(words, call, 2)));
    let mut fourth = StdSource::new(Input::named(rt, rt.stdin(), file_of(words, call, 3)));
    let mut out = StdSink::new(rt.stdout());
    let mut err = StdSink::new(rt.stderr());
    fabric(
        rt.alloc(),
        &mut topology,
        &mut tables,
        &mut third,
        &mut fourth,
        &mut out,
        &mut err,
        words,
    )
}

fn main(rt: HostRuntime) -> ExitCode {
    let code = match words_of_call(&rt) {
        Ok(words) => answer(&rt, &words),
        Err(OutOfMemory) => finish(&mut StdSink::new(rt.stderr()), Status::OutOfMemory),
    };
    ExitCode::from(code)
}
