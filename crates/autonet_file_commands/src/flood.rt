//! The command `flood`.

ghost use Rattle.autonet_call.specs.Answer.{streams};
ghost use Rattle.autonet_call.specs.Scripted.{refuses_script};
ghost use Rattle.autonet_file_commands.specs.Answers.{IsFloodAnswer};
ghost use Rattle.autonet_file_commands.specs.Flood.{gives_flooded};

use autonet_call::command::{Command, Given, answer};
use autonet_call::status::Status;
use flood_text::flood::flood;
use net_script::reader::read;
use outside::sink::Sink;
use outside::source::Source;
use std::alloc::Global;

// The command `flood`: how a broadcast from each switch of a script's network spreads.
#[derive(Clone, Copy)]
struct Flood;

impl Command for Flood {
    ghost gives = { λ _. gives_flooded };

    ghost refuses = { λ _. refuses_script };

    fn given(&self, alloc: Global, bytes: &[u8]) -> Result<Given, Status> {
        let script = read(alloc, bytes)?;
        let text = flood(alloc, &script)?;
        Ok(Given {
            status: Status::Ok,
            text,
        })
    }
}

/// Runs `flood`: reads a script from `source`, and writes how broadcasts spread in its network to `out`. Returns
/// the number of a status, whose line goes to `err`. If `source` fails or has more bytes than the limit, if it has
/// no script, or if memory runs out, `out` is unchanged.
pub fn autonet_flood<S: Source, O: Sink, E: Sink>(
    alloc: Global,
    source: &mut S,
    out: &mut O,
    err: &mut E,
) -> u8
    ensures { IsFloodAnswer
        (streams (S.seen source.old) (O.seen out.old) (E.seen err.old))
        (streams (S.seen source.new) (O.seen out.new) (E.seen err.new)) result }
{
    answer(&Flood, alloc, source, out, err)
}
