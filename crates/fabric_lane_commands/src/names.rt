//! The names of the nodes of an answer.

ghost use Rattle.std.specs.Prelude.{◌≡◌, IfOk};
ghost use Rattle.fabric_judge_commands.specs.Names.{names_for};
ghost use Rattle.fabric_lane_commands.specs.LaneJudged.{lane_mentioned, mute_guids};

use common_values::memory::OutOfMemory;
use fabric_judge_commands::names::{insert_two, names_for};
use fabric_print::answer::Name;
use fabric_print_lanes::answer::{LaneLost, LaneStep, Mute};
use indexmap::IndexSet;
use std::alloc::Global;

/// The names that the text of a topology tells of the nodes of this silent pair, these steps and lost routes, each once,
/// in the order in which they stand there.
pub fn names_in(
    alloc: Global,
    text: &[u8],
    mute: Option<Mute>,
    steps: &[LaneStep],
    lost: &[LaneLost],
) -> Result<Vec<Name>, OutOfMemory>
    ensures { IfOk result (λ names. names.items ≡ names_for text.now (lane_mentioned mute steps.now lost.now)) }
{
    let guids = guids_in(alloc, mute, steps, lost)?;
    names_for(alloc, text, &guids)
}

// The node of a silent pair.
fn mute_guids(alloc: Global, mute: Option<Mute>) -> Result<IndexSet<u64>, OutOfMemory>
    ensures { IfOk result (λ guids. guids.keys ≡ mute_guids mute) }
{
    let mut guids = IndexSet::new(alloc);
    if let Some(pair) = mute {
        guids.insert(pair.source)?;
    }
    Ok(guids)
}

// It, and the nodes of steps and of lost routes.
fn guids_in(
    alloc: Global,
    mute: Option<Mute>,
    steps: &[LaneStep],
    lost: &[LaneLost],
) -> Result<IndexSet<u64>, OutOfMemory>
    ensures { IfOk result (λ guids. guids.keys ≡ lane_mentioned mute steps.now lost.now) }
{
    let mut guids = mute_guids(alloc, mute)?;
    'steps: for one in steps {
        insert_two(&mut guids, one.step.guid, one.step.source)?;
    }
    'lost: for route in lost {
        insert_two(&mut guids, route.source, route.at)?;
    }
    Ok(guids)
}
