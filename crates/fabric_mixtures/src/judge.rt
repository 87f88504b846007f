//! The judgement of two tables of a fabric, of which the one is replaced by the other row by row.

ghost use Rattle.std.specs.Prelude.{◌≡◌, ◌<◌, IfOk, map};
ghost use Rattle.std.specs.Bool.{OnTrue, OnFalse};
ghost use Rattle.common_graph.specs.Cycles.{IsLeastCycle};
ghost use Rattle.fabric_tables.specs.Cells.{tables_of};
ghost use Rattle.fabric_model.specs.Fabric.{IsFabric, switch_count};
ghost use Rattle.fabric_routes.specs.Found.{channel_of};
ghost use Rattle.fabric_verdict.specs.Verdict.{channel_cmp, spot_at};
ghost use Rattle.fabric_mixtures.specs.Mixtures.{MayBeFollowed};
ghost use Rattle.fabric_mixtures.specs.Steps.{AreSteps, looped_by};
ghost use Rattle.fabric_mixtures.specs.Verdict.{CycleIs, HasLoop, HasNoLoop, IsJudgement, IsLeastTurn, IsLooped, IsVerdict};

use crate::follow::find_followers;
use crate::looped::Looped;
use crate::turn::{Turn, find_turn};
use common_graph::graph::Graph;
use common_graph::verdict::{Verdict as GraphVerdict, verdict_of};
use common_values::memory::OutOfMemory;
use fabric_model::fabric::Fabric;
use fabric_model::node::Spot;
use fabric_tables::cells::Cells;
use fabric_verdict::count::count_steps;
use fabric_verdict::judge::spot_of;
use std::alloc::Global;

/// A channel of a cycle, and by what it may be followed by the next one.
#[derive(Clone, Copy)]
pub struct LoopChannel {
    /// The port out of which it leads.
    pub channel: Spot,
    /// By what it may be followed.
    pub turn: Turn,
}

/// Whether channels that may follow one another lead round.
#[derive(Drop)]
pub enum Verdict {
    /// None do. The rank of each channel: 0 if it may be followed by none, else one more than the greatest of
    /// those by which it may be. The channel out of port p of switch s has the place s times the most ports
    /// of a switch, plus p - 1; at the places of ports that lead to no switch stands 0.
    Ranks {
        /// The ranks, by these places.
        ranks: Vec<u32>,
    },
    /// The least cycle: from the least channel on any, by switch, then by port, a shortest, and of these the least as a
    /// list.
    Cycle {
        /// Its channels, of which each may be followed by the next, and the last by the first.
        channels: Vec<LoopChannel>,
        /// Which of the two tables have a cycle by them alone.
        looped: Looped,
    },
}

/// What two tables of a fabric make together.
#[derive(Drop)]
pub struct Judgement {
    /// The ranks of the channels, or the least cycle.
    pub verdict: Verdict,
    /// How many pairs of channels there are of which the one may be followed by the other.
    pub dependencies: u64,
}

// By what a channel may be followed by another one.
fn turn_of(fabric: &Fabric, old: &Cells, new: &Cells, channel: Spot, next: Spot) -> Turn
    requires same { switch_count fabric.now ≡ old.now.switches }
    requires same_new { switch_count fabric.now ≡ new.now.switches }
    requires fabric { IsFabric fabric.now }
    requires follows { MayBeFollowed fabric.now (tables_of old.now) (tables_of new.now)
        (channel_of channel) (channel_of next) }
    ensures { IsLeastTurn fabric.now (tables_of old.now) (tables_of new.now) (channel_of channel) (channel_of next)
        result }
{
    match find_turn(fabric, old, new, channel, next) {
        Some(turn) => turn,
        None => unreachable!(),
    }
}

// The channels of a cycle, told by their places, each with what may follow it.
fn with_turns(
    alloc: Global,
    fabric: &Fabric,
    old: &Cells,
    new: &Cells,
    most: usize,
    places: &[u32],
) -> Result<Vec<LoopChannel>, OutOfMemory>
    requires same { switch_count fabric.now ≡ old.now.switches }
    requires same_new { switch_count fabric.now ≡ new.now.switches }
    requires fabric { IsFabric fabric.now }
    requires some { 0 < most }
    requires few { most < 255 }
    requires least { IsLeastCycle channel_cmp (MayBeFollowed fabric.now (tables_of old.now) (tables_of new.now))
        (map channel_of (map (spot_at most) places.now)) }
    ensures { IfOk result (λ channels. CycleIs fabric.now (tables_of old.now) (tables_of new.now) channels.items) }
{
    let mut channels = Vec::with_capacity(alloc, places.len())?;
    'places: for at in 0..places.len() {
        let channel = spot_of(most, places[at]);
        let next = spot_of(most, places[(at + 1) % places.len()]);
        let turn = turn_of(fabric, old, new, channel, next);
        channels.push(LoopChannel { channel, turn })?;
    }
    Ok(channels)
}

// Whether tables have a loop by them alone.
fn has_loop(alloc: Global, fabric: &Fabric, cells: &Cells) -> Result<bool, OutOfMemory>
    requires same { switch_count fabric.now ≡ cells.now.switches }
    ensures some { IfOk result (λ has. OnTrue has (HasLoop fabric.now (tables_of cells.now))) }
    ensures none { IfOk result (λ has. OnFalse has (HasNoLoop fabric.now (tables_of cells.now))) }
{
    let graph = find_followers(alloc, fabric, cells, cells)?;
    match verdict_of(alloc, &graph)? {
        GraphVerdict::Ranks { ranks: _ } => Ok(false),
        GraphVerdict::Cycle { nodes: _ } => Ok(true),
    }
}

// Which of two tables have one, by whether each has.
fn looped_by(is_old: bool, is_new: bool) -> Looped
    ensures { result ≡ looped_by is_old is_new }
{
    match (is_old, is_new) {
        (true, true) => Looped::Both,
        (true, false) => Looped::Old,
        (false, true) => Looped::New,
        (false, false) => Looped::Mixture,
    }
}

// Which of two tables have one.
fn find_looped(
    alloc: Global,
    fabric: &Fabric,
    old: &Cells,
    new: &Cells,
) -> Result<Looped, OutOfMemory>
    requires same { switch_count fabric.now ≡ old.now.switches }
    requires same_new { switch_count fabric.now ≡ new.now.switches }
    ensures { IfOk result (IsLooped fabric.now (tables_of old.now) (tables_of new.now)) }
{
    let is_old = has_loop(alloc, fabric, old)?;
    let is_new = has_loop(alloc, fabric, new)?;
    Ok(looped_by(is_old, is_new))
}

// The verdict on the graph of the channels that may follow one another.
fn verdict_on(
    alloc: Global,
    fabric: &Fabric,
    old: &Cells,
    new: &Cells,
    graph: &Graph,
) -> Result<Verdict, OutOfMemory>
    requires same { switch_count fabric.now ≡ old.now.switches }
    requires same_new { switch_count fabric.now ≡ new.now.switches }
    requires graph { AreSteps fabric.now (MayBeFollowed fabric.now (tables_of old.now) (tables_of new.now)) graph.now }
    ensures { IfOk result (λ verdict. IsVerdict fabric.now (tables_of old.now) (tables_of new.now) verdict) }
{
    let most = fabric.most().max(1);
    match verdict_of(alloc, graph)? {
        GraphVerdict::Ranks { ranks } => Ok(Verdict::Ranks { ranks }),
        GraphVerdict::Cycle { nodes } => {
            let channels = with_turns(alloc, fabric, old, new, most, &nodes)?;
            let looped = find_looped(alloc, fabric, old, new)?;
            Ok(Verdict::Cycle { channels, looped })
        }
    }
}

/// Judges two tables of a fabric together: the ranks of the channels exactly if no channels that may follow
/// one another lead round, else the least cycle, with the least LID for which each may be followed by the
/// next. The error is want of memory alone.
pub fn judge(
    alloc: Global,
    fabric: &Fabric,
    old: &Cells,
    new: &Cells,
) -> Result<Judgement, OutOfMemory>
    requires same { switch_count fabric.now ≡ old.now.switches }
    requires same_new { switch_count fabric.now ≡ new.now.switches }
    ensures { IfOk result (IsJudgement fabric.now (tables_of old.now) (tables_of new.now)) }
{
    let graph = find_followers(alloc, fabric, old, new)?;
    let dependencies = count_steps(&graph);
    let verdict = verdict_on(alloc, fabric, old, new, &graph)?;
    Ok(Judgement {
        verdict,
        dependencies,
    })
}
