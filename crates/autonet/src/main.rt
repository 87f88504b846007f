//! autonet, commands: the program `autonet`.
//! It reads its arguments and makes the one call of `commands` over the standard streams. Its
//! output and exit status are those of this call; it has no contract of its own.
#![tactic(auto)]

use autonet_call::status::{Status, finish};
use commands::top::autonet;
use common_call::words::words_of_call;
use common_values::memory::OutOfMemory;
use outside::standard::{StdSink, StdSource};
use std::process::ExitCode;
use switch_threads::Open;

fn main(rt: HostRuntime) -> ExitCode {
    let mut source = StdSource::new(rt.stdin());
    let mut out = StdSink::new(rt.stdout());
    let mut err = StdSink::new(rt.stderr());
    let code = match words_of_call(&rt) {
        Ok(words) => autonet(
            &rt,
            rt.alloc(),
            &words,
            &Open,
            &mut source,
            &mut out,
            &mut err,
        ),
        Err(OutOfMemory) => finish(&mut err, Status::OutOfMemory),
    };
    ExitCode::from(code)
}
