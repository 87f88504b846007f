//! The routes that are lost.

ghost use Rattle.std.specs.Prelude.{◌≡◌, ◌+◌, ◌++◌, OnOk, IfOk};
ghost use Rattle.fabric_lane_counts.specs.LaneCounts.{lane_sum_of};
ghost use Rattle.fabric_lane_commands.specs.LaneJudged.{lane_losses_of, lane_lost_by, lane_lost_of};

use common_values::memory::OutOfMemory;
use fabric_lane_counts::counts::{LaneCounts, LaneLoss, LaneLosses as Counted};
use fabric_model::fabric::Fabric;
use fabric_model::node::EndPort;
use fabric_print_lanes::answer::{LaneLosses, LaneLost, LossCause};
use std::alloc::Global;

/// How many routes are lost, by cause.
pub fn losses_of(counts: LaneCounts) -> LaneLosses
    requires { counts.routes ≡ counts.arrived + lane_sum_of counts.lost }
    ensures { result ≡ lane_losses_of counts.lost }
{
    LaneLosses {
        all: counts.routes - counts.arrived,
        missing: counts.lost.missing.count,
        dead: counts.lost.dead.count,
        wrong: counts.lost.wrong.count,
        discard: counts.lost.discard.count,
        looping: counts.lost.looping.count,
    }
}

/// The least lost route of each cause that occurs.
pub fn lost_of(
    alloc: Global,
    fabric: &Fabric,
    counted: Counted,
) -> Result<Vec<LaneLost>, OutOfMemory>
    ensures { IfOk result (λ lost. lost.items ≡ lane_lost_of fabric.now counted) }
{
    let mut lost = Vec::new(alloc);
    push_lost(&mut lost, fabric, LossCause::Missing, counted.missing)?;
    push_lost(&mut lost, fabric, LossCause::Dead, counted.dead)?;
    push_lost(&mut lost, fabric, LossCause::Wrong, counted.wrong)?;
    push_lost(&mut lost, fabric, LossCause::Discard, counted.discard)?;
    push_lost(&mut lost, fabric, LossCause::Loop, counted.looping)?;
    Ok(lost)
}

// Appends the least route that is lost by a cause, if one is.
fn push_lost(
    lost: &mut Vec<LaneLost>,
    fabric: &Fabric,
    cause: LossCause,
    loss: LaneLoss,
) -> Result<(), OutOfMemory>
    ensures { OnOk result (lost.new.items ≡ lost.old.items ++ lane_lost_by fabric.now cause loss) }
{
    let Some(route) = loss.least else {
        return Ok(());
    };
    lost.push(LaneLost {
        cause,
        lid: route.lid,
        source: fabric.guid(route.source),
        level: route.level,
        at: fabric.guid(EndPort::Switch(route.at)),
    })?;
    Ok(())
}
