//! autonet, commands: a small program that runs `expect`, `check`, `flood` and `flow`.
//! It is proved and built long before the program with all commands. Its output and exit status are those of the
//! call in `autonet_file_commands`; it has no contract of its own.
#![tactic(auto)]

use autonet_call::status::{Status, finish};
use autonet_file_commands::file::{answer_file, command_of};
use common_call::words::words_of_call;
use common_values::memory::OutOfMemory;
use outside::standard::{StdSink, StdSource};
use std::process::ExitCode;

fn main(rt: HostRuntime) -> ExitCode {
    let mut source = StdSource::new(rt.stdin());
    let mut out = StdSink::new(rt.stdout());
    let mut err = StdSink::new(rt.stderr());
    let code = match words_of_call(&rt) {
        Ok(words) => match command_of(&words) {
            Some(command) => answer_file(command, rt.alloc(), &mut source, &mut out, &mut err),
            None => finish(&mut err, Status::Usage),
        },
        Err(OutOfMemory) => finish(&mut err, Status::OutOfMemory),
    };
    ExitCode::from(code)
}
