//! The command `expect`.

ghost use Rattle.autonet_call.specs.Answer.{streams};
ghost use Rattle.autonet_call.specs.Expect.{IsExpectAnswer, gives_expected};
ghost use Rattle.autonet_call.specs.Scripted.{refuses_script};

use crate::command::{Command, Given, answer};
use crate::status::Status;
use expect_text::expect::expect;
use net_script::reader::read;
use outside::sink::Sink;
use outside::source::Source;
use std::alloc::Global;

// The command `expect`: the trees, numbers and routing tables of the network of a script.
#[derive(Clone, Copy)]
struct Expect;

impl Command for Expect {
    ghost gives = { λ _. gives_expected };

    ghost refuses = { λ _. refuses_script };

    fn given(&self, alloc: Global, bytes: &[u8]) -> Result<Given, Status> {
        let script = read(alloc, bytes)?;
        let text = expect(alloc, &script)?;
        Ok(Given {
            status: Status::Ok,
            text,
        })
    }
}

/// Runs `expect`: reads a script from `source`, and writes what is expected of its network to `out`. Returns the
/// number of a status, whose line goes to `err`. If `source` fails or has more bytes than the limit, if it has no
/// script, or if memory runs out, `out` is unchanged.
pub fn autonet_expect<S: Source, O: Sink, E: Sink>(
    alloc: Global,
    source: &mut S,
    out: &mut O,
    err: &mut E,
) -> u8
    ensures { IsExpectAnswer
        (streams (S.seen source.old) (O.seen out.old) (E.seen err.old))
        (streams (S.seen source.new) (O.seen out.new) (E.seen err.new)) result }
{
    answer(&Expect, alloc, source, out, err)
}
