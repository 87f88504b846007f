//! The command `flow B`.

ghost use Rattle.autonet_call.specs.Answer.{streams};
ghost use Rattle.autonet_call.specs.Scripted.{refuses_script};
ghost use Rattle.autonet_file_commands.specs.Answers.{IsFlowAnswer};
ghost use Rattle.autonet_file_commands.specs.Flow.{gives_flow};

use crate::room::Room;
use autonet_call::command::{Command, Given, answer};
use autonet_call::status::Status;
use flow_text::flow::flow;
use net_script::reader::read;
use outside::sink::Sink;
use outside::source::Source;
use std::alloc::Global;

// The command `flow B`: what happens to the packets that a script sends if each channel holds B packets.
#[derive(Clone, Copy)]
struct Flow {
    // B.
    room: Room,
}

impl Command for Flow {
    ghost gives = { λ command. gives_flow command.room.packets };

    ghost refuses = { λ _. refuses_script };

    fn given(&self, alloc: Global, bytes: &[u8]) -> Result<Given, Status> {
        let script = read(alloc, bytes)?;
        let text = flow(alloc, &script, self.room.packets)?;
        Ok(Given {
            status: Status::Ok,
            text,
        })
    }
}

/// Runs `flow B`: reads a script from `source`, and writes to `out` what happens to the packets that it sends if
/// each channel holds `room.packets` packets. Returns the number of a status, whose line goes to `err`. If `source`
/// fails or has more bytes than the limit, if it has no script, or if memory runs out, `out` is unchanged.
pub fn autonet_flow<S: Source, O: Sink, E: Sink>(
    alloc: Global,
    room: Room,
    source: &mut S,
    out: &mut O,
    err: &mut E,
) -> u8
    ensures { IsFlowAnswer room.packets
        (streams (S.seen source.old) (O.seen out.old) (E.seen err.old))
        (streams (S.seen source.new) (O.seen out.new) (E.seen err.new)) result }
{
    answer(&Flow { room }, alloc, source, out, err)
}
