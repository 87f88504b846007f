//! The command `lanes`: the verdict on the routes of a traffic, on lanes.

ghost use Rattle.fabric_lane_commands.specs.Asked.{HasLowLevels};
ghost use Rattle.fabric_lane_commands.specs.Inputs.{lane_sources};
ghost use Rattle.fabric_lane_commands.specs.LaneCall.{IsLanesAnswer};
ghost use Rattle.fabric_lane_commands.specs.LaneJudged.{IsLaneJudged};

use crate::answer::answer_for;
use crate::command::{LaneCommand, answer};
use crate::input::Input;
use crate::judged::{judged_for, status_of};
use common_values::memory::OutOfMemory;
use fabric_call::command::Given;
use fabric_model::traffic::Traffic;
use fabric_print_lanes::answer::Asked;
use fabric_print_lanes::printer::print;
use outside::sink::Sink;
use outside::source::Source;
use std::alloc::Global;

// The command, for a traffic.
#[derive(Clone, Copy)]
struct JudgeLanes {
    traffic: Traffic,
}

impl LaneCommand for JudgeLanes {
    ghost gives = { λ judge. IsLaneJudged judge.traffic };

    fn given(&self, alloc: Global, input: &Input, asked: Asked) -> Result<Given, OutOfMemory> {
        let judged = judged_for(alloc, input, self.traffic)?;
        let answer = answer_for(alloc, input, self.traffic, asked, &judged)?;
        Ok(Given {
            status: status_of(&judged, answer.mute),
            text: print(alloc, &answer)?,
        })
    }
}

/// Answers `lanes`: reads a topology, tables, lanes and, if they are asked for, service levels from the sources, in this
/// order, writes the verdict on the routes of a traffic to out, and tells the status. The answer is the number of the
/// status, whose line goes to err. If a source is wrong, those after it are left alone, and so is out.
pub fn lanes<T: Source, S: Source, L: Source, P: Source, O: Sink, E: Sink>(
    alloc: Global,
    topology: &mut T,
    tables: &mut S,
    lanes: &mut L,
    levels: &mut P,
    asked: Asked,
    out: &mut O,
    err: &mut E,
    traffic: Traffic,
) -> u8
    requires { HasLowLevels asked }
    ensures { IsLanesAnswer traffic asked
        (lane_sources (T.seen topology.old) (S.seen tables.old) (L.seen lanes.old) (P.seen levels.old))
        (lane_sources (T.seen topology.new) (S.seen tables.new) (L.seen lanes.new) (P.seen levels.new))
        (O.seen out.old) (O.seen out.new) (E.seen err.old) (E.seen err.new) result }
{
    let command = JudgeLanes { traffic };
    answer(
        &command, alloc, topology, tables, lanes, levels, asked, out, err,
    )
}
