//! The answer for a fabric, its tables, its lanes and its levels.

ghost use Rattle.std.specs.Prelude.{◌≡◌, IfOk};
ghost use Rattle.fabric_tables.specs.Cells.{tables_of};
ghost use Rattle.fabric_lane_tables.specs.Lanes.{lanes_of};
ghost use Rattle.fabric_lane_tables.specs.InUse.{levels_in_use};
ghost use Rattle.fabric_lane_tables.specs.Levels.{levels_of};
ghost use Rattle.fabric_routes.specs.Counting.{IsCountOf};
ghost use Rattle.fabric_lane_counts.specs.LaneCounts.{AreLaneCounts, IsSilent};
ghost use Rattle.fabric_lane_verdict.specs.LaneJudgements.{IsLaneJudgement};
ghost use Rattle.fabric_lane_commands.specs.Inputs.{HasPlaces, told_in};
ghost use Rattle.fabric_lane_commands.specs.LaneJudged.{IsLaneAnswerFor, lane_routes_of};
ghost use Rattle.fabric_lane_commands.specs.Silence.{IsMute};

use crate::input::Input;
use crate::judged::cycle_of;
use crate::losses::{losses_of, lost_of};
use crate::mute::{mute_of, silent_of};
use crate::names::names_in;
use crate::steps::steps_of;
use common_values::memory::OutOfMemory;
use fabric_judge_commands::answer::{read_of, unowned_told};
use fabric_judge_commands::words::word_of;
use fabric_lane_counts::count::count_lane_routes;
use fabric_lane_counts::counts::LaneCounts;
use fabric_lane_routes::routing::LaneRouting;
use fabric_lane_verdict::judge::LaneJudgement;
use fabric_model::traffic::Traffic;
use fabric_print::answer::Routes;
use fabric_print_lanes::answer::{Asked, LaneAnswer, Mute};
use fabric_verdict::links::count_links;
use std::alloc::Global;

/// The answer for what was read, which was judged.
pub fn answer_for(
    alloc: Global,
    input: &Input,
    traffic: Traffic,
    asked: Asked,
    judged: &LaneJudgement,
) -> Result<LaneAnswer, OutOfMemory>
    requires places { HasPlaces input.now }
    requires judged { IsLaneJudgement input.now.topology.fabric (tables_of input.now.tables.cells)
        (lanes_of input.now.lanes) traffic (levels_in_use input.now.levels) input.now.lanes.count judged.now }
    ensures answer { IfOk result (IsLaneAnswerFor traffic asked (told_in input.now)) }
    ensures lanes { IfOk result (λ answer. answer.lanes ≡ input.now.lanes.count) }
{
    let fabric = &input.topology.fabric;
    let counts = counts_for(alloc, input, traffic)?;
    let cycle = steps_of(alloc, fabric, cycle_of(judged))?;
    let lost = lost_of(alloc, fabric, counts.lost)?;
    let silent = silent_of(alloc, input, traffic, counts)?;
    let mute = mute_for(input, traffic, silent);
    let names = names_in(alloc, &input.topology.text, mute, &cycle, &lost)?;
    let links = count_links(fabric).links;
    Ok(LaneAnswer {
        read: read_of(fabric, &input.tables, links),
        traffic: word_of(traffic),
        lanes: input.lanes.count() as u64,
        asked,
        routes: routes_of(traffic, counts),
        silent,
        mute,
        channels: judged.channels,
        dependencies: judged.dependencies,
        cycle,
        losses: losses_of(counts),
        lost,
        unset: input.topology.unset as u64,
        names,
    })
}

// The counts of the routes.
fn counts_for(alloc: Global, input: &Input, traffic: Traffic) -> Result<LaneCounts, OutOfMemory>
    requires { HasPlaces input.now }
    ensures { IfOk result (AreLaneCounts input.now.topology.fabric (tables_of input.now.tables.cells)
        (lanes_of input.now.lanes) traffic (levels_in_use input.now.levels)) }
{
    let routing = LaneRouting {
        fabric: &input.topology.fabric,
        cells: &input.tables.cells,
        lanes: &input.lanes,
        levels: input.levels.levels(),
        traffic,
    };
    count_lane_routes(alloc, &routing)
}

// The first pair that is given no service level, if there are so many.
fn mute_for(input: &Input, traffic: Traffic, silent: u64) -> Option<Mute>
    requires places { HasPlaces input.now }
    requires silent { IsCountOf (IsSilent input.now.topology.fabric (tables_of input.now.tables.cells) traffic
        (levels_of input.now.levels.given)) silent }
    ensures { IsMute input.now.topology.fabric (tables_of input.now.tables.cells) traffic
        (levels_of input.now.levels.given) result }
{
    mute_of(
        silent,
        &input.topology.fabric,
        &input.tables.cells,
        &input.levels.given,
        traffic,
    )
}

fn routes_of(traffic: Traffic, counts: LaneCounts) -> Routes
    ensures { result ≡ lane_routes_of traffic counts }
{
    Routes {
        routes: counts.routes,
        arrived: counts.arrived,
        hops: u64::from(counts.hops),
        unowned: unowned_told(traffic, counts.unowned),
    }
}
