//! The routes that are lost.

ghost use Rattle.std.specs.Prelude.{◌≡◌, ◌+◌, ◌++◌, OnOk, IfOk};
ghost use Rattle.fabric_counts.specs.Counts.{sum_of};
ghost use Rattle.fabric_judge_commands.specs.Judged.{losses_of, lost_by, lost_of};

use common_values::memory::OutOfMemory;
use fabric_counts::counts::{Counts, Loss, Losses};
use fabric_model::fabric::Fabric;
use fabric_model::node::EndPort;
use fabric_print::answer::{Lost, LostCounts, WhyLost};
use std::alloc::Global;

/// Returns the numbers of lost routes, by reason. The caller must pass `counts` in which the routes that arrive and
/// those that are lost make up all routes.
pub fn losses_of(counts: Counts) -> LostCounts
    requires { counts.routes ≡ counts.arrived + sum_of counts.lost }
    ensures { result ≡ losses_of counts.lost }
{
    LostCounts {
        all: counts.routes - counts.arrived,
        missing: counts.lost.missing.count,
        dead: counts.lost.dead.count,
        wrong: counts.lost.wrong.count,
        looping: counts.lost.looping.count,
    }
}

/// Returns the least lost route for each reason that occurs.
///
/// # Errors
/// `OutOfMemory`.
pub fn lost_of(alloc: Global, fabric: &Fabric, counted: Losses) -> Result<Vec<Lost>, OutOfMemory>
    ensures { IfOk result (λ lost. lost.items ≡ lost_of fabric.now counted) }
{
    let mut lost = Vec::new(alloc);
    push_lost(&mut lost, fabric, WhyLost::Missing, counted.missing)?;
    push_lost(&mut lost, fabric, WhyLost::Dead, counted.dead)?;
    push_lost(&mut lost, fabric, WhyLost::Wrong, counted.wrong)?;
    push_lost(&mut lost, fabric, WhyLost::Loop, counted.looping)?;
    Ok(lost)
}

// Appends the least route that is lost by a cause, if one is.
fn push_lost(
    lost: &mut Vec<Lost>,
    fabric: &Fabric,
    cause: WhyLost,
    loss: Loss,
) -> Result<(), OutOfMemory>
    ensures { OnOk result (lost.new.items ≡ lost.old.items ++ lost_by fabric.now cause loss) }
{
    let Some(route) = loss.least else {
        return Ok(());
    };
    lost.push(Lost {
        cause,
        lid: route.lid,
        source: fabric.guid(route.source),
        at: fabric.guid(EndPort::Switch(route.at)),
    })?;
    Ok(())
}
