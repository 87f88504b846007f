//! The judgement of what was read.

ghost use Rattle.std.specs.Prelude.{ℕ, IfOk};
ghost use Rattle.fabric_tables.specs.Cells.{TablesOf, tables_of};
ghost use Rattle.fabric_model.specs.Fabric.{FabricOf};
ghost use Rattle.fabric_model.specs.declared.traffic.Traffic.{Traffic};
ghost use Rattle.fabric_lane_tables.specs.Lanes.{LanesOf, lanes_of};
ghost use Rattle.fabric_lane_tables.specs.InUse.{levels_in_use};
ghost use Rattle.fabric_lane_tables.specs.PathLevels.{LevelsOf};
ghost use Rattle.fabric_lane_verdict.specs.LaneJudgements.{IsLaneJudgement};
ghost use Rattle.fabric_lane_commands.specs.Inputs.{HasPlaces};
ghost use Rattle.fabric_lane_commands.specs.LaneJudged.{IsLaneEndOf, IsLaneLoop};
ghost use Rattle.fabric_lane_commands.specs.Silence.{IsMute};

use crate::input::Input;
use common_values::memory::OutOfMemory;
use fabric_call::status::Status;
use fabric_lane_routes::routing::LaneRouting;
use fabric_lane_verdict::judge::{LaneJudgement, judge};
use fabric_lane_verdict::verdict::{LaneLoopChannel, LaneVerdict};
use fabric_model::traffic::Traffic;
use fabric_print_lanes::answer::Mute;
use std::alloc::Global;

/// The judgement of what was read.
pub fn judged_for(
    alloc: Global,
    input: &Input,
    traffic: Traffic,
) -> Result<LaneJudgement, OutOfMemory>
    requires { HasPlaces input.now }
    ensures { IfOk result (IsLaneJudgement input.now.topology.fabric (tables_of input.now.tables.cells)
        (lanes_of input.now.lanes) traffic (levels_in_use input.now.levels) input.now.lanes.count) }
{
    let routing = LaneRouting {
        fabric: &input.topology.fabric,
        cells: &input.tables.cells,
        lanes: &input.lanes,
        levels: input.levels.levels(),
        traffic,
    };
    judge(alloc, &routing)
}

/// How a call ends for which something was written, by the first pair that is given no service level, if there is one.
pub fn status_of(judged: &LaneJudgement, mute: Option<Mute>) -> Status
    ensures { (fabric : FabricOf) (tables : TablesOf) (lanes : LanesOf) (traffic : Traffic) (levels given : LevelsOf)
        (count : ℕ) → IsLaneJudgement fabric tables lanes traffic levels count judged.now
        → IsMute fabric tables traffic given mute
        → IsLaneEndOf fabric tables lanes traffic levels given count result }
{
    match &judged.verdict {
        LaneVerdict::Cycle { channels: _ } => Status::Cycle,
        LaneVerdict::Ranks { ranks: _ } => {
            if judged.stops {
                return Status::RoutesLost;
            }
            match mute {
                Some(_) => Status::Undecided,
                None => Status::Ok,
            }
        }
    }
}

/// The channels of the credit loop, none if there is no loop.
pub fn cycle_of(judged: &LaneJudgement) -> &[LaneLoopChannel]
    ensures { (fabric : FabricOf) (tables : TablesOf) (lanes : LanesOf) (traffic : Traffic) (levels : LevelsOf)
        (count : ℕ) → IsLaneJudgement fabric tables lanes traffic levels count judged.now
        → IsLaneLoop fabric tables lanes traffic levels result.now }
{
    match &judged.verdict {
        LaneVerdict::Ranks { ranks: _ } => &[],
        LaneVerdict::Cycle { channels } => channels,
    }
}
