//! autonet, commands: a small program that runs only `expect`.
//! It is proved and built long before the program with all commands. Its output and exit status are
//! those of the call in `autonet_call`; it has no contract of its own.
#![tactic(auto)]

use autonet_call::expect::autonet_expect;
use autonet_call::status::{Status, finish};
use autonet_call::words::is_word;
use common_call::words::words_of_call;
use common_values::memory::OutOfMemory;
use outside::standard::{StdSink, StdSource};
use std::process::ExitCode;

fn main(rt: HostRuntime) -> ExitCode {
    let mut source = StdSource::new(rt.stdin());
    let mut out = StdSink::new(rt.stdout());
    let mut err = StdSink::new(rt.stderr());
    let code = match words_of_call(&rt) {
        Ok(words) if is_word(&words, b"expect") => {
            autonet_expect(rt.alloc(), &mut source, &mut out, &mut err)
        }
        Ok(_others) => finish(&mut err, Status::Usage),
        Err(OutOfMemory) => finish(&mut err, Status::OutOfMemory),
    };
    ExitCode::from(code)
}
