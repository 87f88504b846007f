//! The dependencies of a credit loop, as the output has them.

ghost use Rattle.std.specs.Prelude.{◌≡◌, map, IfOk};
ghost use Rattle.fabric_judge_commands.specs.Judged.{step_of};

use common_values::memory::OutOfMemory;
use fabric_model::fabric::Fabric;
use fabric_model::node::EndPort;
use fabric_print::answer::LoopStep;
use fabric_verdict::verdict::LoopChannel;
use std::alloc::Global;

/// Returns, for each channel of a loop, the switch, the port, and the route that takes it and then, directly, the next
/// channel.
///
/// # Errors
/// `OutOfMemory`.
pub fn steps_of(
    alloc: Global,
    fabric: &Fabric,
    cycle: &[LoopChannel],
) -> Result<Vec<LoopStep>, OutOfMemory>
    ensures { IfOk result (λ steps. steps.items ≡ map (step_of fabric.now) cycle.now) }
{
    let mut steps = Vec::with_capacity(alloc, cycle.len())?;
    'channels: for one in cycle {
        steps.push(step_of(fabric, *one))?;
    }
    Ok(steps)
}

/// Returns, for one channel of a loop, the switch, the port, and the route that takes it and then, directly, the next
/// channel.
pub fn step_of(fabric: &Fabric, one: LoopChannel) -> LoopStep
    ensures { result ≡ step_of fabric.now one }
{
    LoopStep {
        guid: fabric.guid(EndPort::Switch(one.channel.switch)),
        port: one.channel.port,
        lid: one.witness.lid,
        source: fabric.guid(one.witness.source),
    }
}
