//! The dependencies of a credit loop on lanes, as an answer tells them.

ghost use Rattle.std.specs.Prelude.{◌≡◌, map, IfOk};
ghost use Rattle.fabric_lane_commands.specs.LaneJudged.{lane_step_of, without_lane};

use common_values::memory::OutOfMemory;
use fabric_judge_commands::steps::step_of as link_step_of;
use fabric_lane_verdict::verdict::LaneLoopChannel;
use fabric_model::fabric::Fabric;
use fabric_model::node::Spot;
use fabric_print_lanes::answer::LaneStep;
use fabric_routes::witness::Witness;
use fabric_verdict::verdict::LoopChannel;
use std::alloc::Global;

/// Of each channel of a loop the switch, the port, the lane, and the route that takes it and then the next one.
pub fn steps_of(
    alloc: Global,
    fabric: &Fabric,
    cycle: &[LaneLoopChannel],
) -> Result<Vec<LaneStep>, OutOfMemory>
    ensures { IfOk result (λ steps. steps.items ≡ map (lane_step_of fabric.now) cycle.now) }
{
    let mut steps = Vec::with_capacity(alloc, cycle.len())?;
    'channels: for one in cycle {
        steps.push(step_of(fabric, *one))?;
    }
    Ok(steps)
}

// The same of one channel.
fn step_of(fabric: &Fabric, one: LaneLoopChannel) -> LaneStep
    ensures { result ≡ lane_step_of fabric.now one }
{
    LaneStep {
        step: link_step_of(fabric, without_lane(one)),
        lane: one.channel.lane,
        level: one.witness.level,
    }
}

/// The link of a channel, and the route without its service level.
pub fn without_lane(one: LaneLoopChannel) -> LoopChannel
    ensures { result ≡ without_lane one }
{
    LoopChannel {
        channel: Spot {
            switch: one.channel.switch,
            port: one.channel.port,
        },
        witness: Witness {
            lid: one.witness.lid,
            source: one.witness.source,
        },
    }
}
