//! The answer for two tables of a fabric.

ghost use Rattle.std.specs.Prelude.{◌≡◌, IfOk, List, map};
ghost use Rattle.fabric_tables.specs.Cells.{TablesOf, tables_of};
ghost use Rattle.fabric_model.specs.Fabric.{FabricOf};
ghost use Rattle.fabric_read_tables.specs.Reads.{HasCells};
ghost use Rattle.fabric_mixtures.specs.declared.judge.LoopChannel.{LoopChannel};
ghost use Rattle.fabric_mixtures.specs.Verdict.{IsJudgement};
ghost use Rattle.fabric_between_command.specs.Judged.{IsBetweenAnswerFor, IsBetween, IsEndOf, IsLoop, IsToldOf, switches_of, turn_of};

use crate::lines::{Between, NewRows, TurnTold, print_between};
use common_values::memory::OutOfMemory;
use fabric_call::command::Given;
use fabric_call::input::Topology;
use fabric_call::status::Status;
use fabric_judge_commands::answer::read_of;
use fabric_judge_commands::names::names_for;
use fabric_mixtures::changed::count_changed;
use fabric_mixtures::judge::{Judgement, LoopChannel, Verdict, judge};
use fabric_mixtures::looped::Looped;
use fabric_model::fabric::Fabric;
use fabric_model::node::EndPort;
use fabric_read_tables::reader::Tables;
use fabric_verdict::links::count_links;
use indexmap::IndexSet;
use std::alloc::Global;

/// What `between` gives for two tables of a fabric.
pub fn given_for(
    alloc: Global,
    topology: &Topology,
    old: &Tables,
    new: &Tables,
) -> Result<Given, OutOfMemory>
    requires old { HasCells topology.now.fabric old.now }
    requires new { HasCells topology.now.fabric new.now }
    ensures { IfOk result (λ given. IsBetween topology.now.text.items topology.now.fabric old.now new.now
        given.status given.text.items) }
{
    let judged = judge(alloc, &topology.fabric, &old.cells, &new.cells)?;
    let answer = answer_for(alloc, topology, old, new, &judged)?;
    Ok(Given {
        status: status_of(&judged),
        text: print_between(alloc, &answer)?,
    })
}

// How a call ends whose answer was written.
fn status_of(judged: &Judgement) -> Status
    ensures { (fabric : FabricOf) (old new : TablesOf)
        → IsJudgement fabric old new judged.now → IsEndOf fabric old new result }
{
    match &judged.verdict {
        Verdict::Ranks { ranks: _ } => Status::Ok,
        Verdict::Cycle {
            channels: _,
            looped: _,
        } => Status::Cycle,
    }
}

// The answer for two tables of a fabric, which were judged.
fn answer_for(
    alloc: Global,
    topology: &Topology,
    old: &Tables,
    new: &Tables,
    judged: &Judgement,
) -> Result<Between, OutOfMemory>
    requires old { HasCells topology.now.fabric old.now }
    requires new { HasCells topology.now.fabric new.now }
    requires judged { IsJudgement topology.now.fabric (tables_of old.now.cells) (tables_of new.now.cells) judged.now }
    ensures { IfOk result (IsBetweenAnswerFor topology.now.text.items topology.now.fabric old.now new.now) }
{
    let fabric = &topology.fabric;
    let links = count_links(fabric);
    let cycle = turns_of(alloc, fabric, cycle_of(judged))?;
    let switches = switches_of(alloc, &cycle)?;
    Ok(Between {
        read: read_of(fabric, old, links.links),
        new: NewRows {
            rows: new.rows,
            unowned: new.unowned,
            changed: count_changed(fabric, &old.cells, &new.cells),
        },
        channels: links.channels,
        dependencies: judged.dependencies,
        looped: looped_of(judged),
        unset: topology.unset as u64,
        names: names_for(alloc, &topology.text, &switches)?,
        cycle,
    })
}

// The channels of the cycle, none if there is no cycle.
fn cycle_of(judged: &Judgement) -> &[LoopChannel]
    ensures { (fabric : FabricOf) (old new : TablesOf)
        → IsJudgement fabric old new judged.now → IsLoop fabric old new result.now }
{
    match &judged.verdict {
        Verdict::Ranks { ranks: _ } => &[],
        Verdict::Cycle {
            channels,
            looped: _,
        } => channels,
    }
}

// Which tables have a cycle by them alone, none if they have none together.
fn looped_of(judged: &Judgement) -> Option<Looped>
    ensures { (fabric : FabricOf) (old new : TablesOf) (loop : List LoopChannel)
        → IsJudgement fabric old new judged.now → IsLoop fabric old new loop → IsToldOf fabric old new loop result }
{
    match &judged.verdict {
        Verdict::Ranks { ranks: _ } => None,
        Verdict::Cycle {
            channels: _,
            looped,
        } => Some(*looped),
    }
}

// The channels of a cycle, as an answer tells them.
fn turns_of(
    alloc: Global,
    fabric: &Fabric,
    cycle: &[LoopChannel],
) -> Result<Vec<TurnTold>, OutOfMemory>
    ensures { IfOk result (λ turns. turns.items ≡ map (turn_of fabric.now) cycle.now) }
{
    let mut turns = Vec::with_capacity(alloc, cycle.len())?;
    'channels: for one in cycle {
        turns.push(turn_of(fabric, *one))?;
    }
    Ok(turns)
}

// The same of one channel.
fn turn_of(fabric: &Fabric, one: LoopChannel) -> TurnTold
    ensures { result ≡ turn_of fabric.now one }
{
    TurnTold {
        guid: fabric.guid(EndPort::Switch(one.channel.switch)),
        port: one.channel.port,
        lid: one.turn.lid,
        by: one.turn.by,
        next_by: one.turn.next_by,
    }
}

// The switches of a cycle.
fn switches_of(alloc: Global, cycle: &[TurnTold]) -> Result<IndexSet<u64>, OutOfMemory>
    ensures { IfOk result (λ switches. switches.keys ≡ switches_of cycle.now) }
{
    let mut switches = IndexSet::new(alloc);
    'turns: for turn in cycle {
        switches.insert(turn.guid)?;
    }
    Ok(switches)
}
