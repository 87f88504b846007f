//! The judgement of the tables of a fabric.

ghost use Rattle.std.specs.Prelude.{◌≡◌, ◌<◌, ◌≤◌, ◌*◌, ◌^◌, length, map, IfOk};
ghost use Rattle.fabric_tables.specs.Cells.{tables_of};
ghost use Rattle.fabric_model.specs.Fabric.{IsFabric, switch_count};
ghost use Rattle.fabric_routes.specs.Found.{IsLeastWitness, channel_of};
ghost use Rattle.fabric_routes.specs.Finding.{AreDependencies};
ghost use Rattle.fabric_routes.specs.Routes.{DependsOn};
ghost use Rattle.fabric_verdict.specs.Judgements.{IsJudgement};
ghost use Rattle.fabric_verdict.specs.Verdict.{CycleIs, IsLeastLoop, IsVerdict, spot_at};

use crate::count::count_steps;
use crate::verdict::{LoopChannel, Verdict};
use common_graph::graph::Graph;
use common_graph::verdict::{Verdict as GraphVerdict, verdict_of};
use common_values::memory::OutOfMemory;
use fabric_model::fabric::Fabric;
use fabric_model::node::Spot;
use fabric_model::traffic::Traffic;
use fabric_routes::find::find_dependencies;
use fabric_routes::witness::{Witness, find_witness};
use fabric_tables::cells::Cells;
use std::alloc::Global;

/// What the tables of a fabric do with the routes of a traffic.
#[derive(Drop)]
pub struct Judgement {
    /// The ranks of the channels, or the least credit loop with the routes that make it.
    pub verdict: Verdict,
    /// Whether at least one route stops before its target.
    pub stops: bool,
    /// The number of pairs of channels of which the first depends on the second.
    pub dependencies: u64,
}

/// Returns the port at index `place`: port p of switch s has index s times `most`, plus p - 1. The caller must pass a
/// `most` from 1 to 254.
pub fn spot_of(most: usize, place: u32) -> Spot
    requires some { 0 < most }
    requires few { most < 255 }
    ensures { result ≡ spot_at most place }
{
    let place = place as usize;
    Spot {
        switch: (place / most) as u32,
        port: (place % most) as u8 + 1,
    }
}

// The least route by which a channel depends on another.
pub(crate) fn witness_of(
    alloc: Global,
    fabric: &Fabric,
    cells: &Cells,
    traffic: Traffic,
    channel: Spot,
    next: Spot,
) -> Result<Witness, OutOfMemory>
    requires same { switch_count fabric.now ≡ cells.now.switches }
    requires owners { length fabric.now.owners ≤ 64 * cells.now.blocks }
    requires fabric { IsFabric fabric.now }
    requires depends { DependsOn fabric.now (tables_of cells.now) traffic (channel_of channel) (channel_of next) }
    ensures { IfOk result (λ w. IsLeastWitness fabric.now (tables_of cells.now) traffic
        (channel_of channel) (channel_of next) w.lid w.source) }
{
    match find_witness(alloc, fabric, cells, traffic, channel, next)? {
        Some(witness) => Ok(witness),
        None => unreachable!(),
    }
}

// The channels of a credit loop, told by their places, each with the least route by which it depends on the next one.
fn with_witnesses(
    alloc: Global,
    fabric: &Fabric,
    cells: &Cells,
    traffic: Traffic,
    most: usize,
    places: &[u32],
) -> Result<Vec<LoopChannel>, OutOfMemory>
    requires same { switch_count fabric.now ≡ cells.now.switches }
    requires owners { length fabric.now.owners ≤ 64 * cells.now.blocks }
    requires fabric { IsFabric fabric.now }
    requires some { 0 < most }
    requires few { most < 255 }
    requires least { IsLeastLoop fabric.now (tables_of cells.now) traffic (map (spot_at most) places.now) }
    ensures { IfOk result (λ channels. CycleIs fabric.now (tables_of cells.now) traffic channels.items) }
{
    let mut channels = Vec::with_capacity(alloc, places.len())?;
    'places: for at in 0..places.len() {
        let channel = spot_of(most, places[at]);
        let next = spot_of(most, places[(at + 1) % places.len()]);
        let witness = witness_of(alloc, fabric, cells, traffic, channel, next)?;
        channels.push(LoopChannel { channel, witness })?;
    }
    Ok(channels)
}

// The verdict on a graph of the dependencies.
fn verdict_on(
    alloc: Global,
    fabric: &Fabric,
    cells: &Cells,
    traffic: Traffic,
    graph: &Graph,
) -> Result<Verdict, OutOfMemory>
    requires same { switch_count fabric.now ≡ cells.now.switches }
    requires owners { length fabric.now.owners ≤ 64 * cells.now.blocks }
    requires graph { AreDependencies fabric.now (tables_of cells.now) traffic graph.now }
    ensures { IfOk result (λ verdict. IsVerdict fabric.now (tables_of cells.now) traffic verdict) }
{
    let most = fabric.most().max(1);
    match verdict_of(alloc, graph)? {
        GraphVerdict::Ranks { ranks } => Ok(Verdict::Ranks { ranks }),
        GraphVerdict::Cycle { nodes } => {
            let channels = with_witnesses(alloc, fabric, cells, traffic, most, &nodes)?;
            Ok(Verdict::Cycle { channels })
        }
    }
}

/// Judges the tables by the routes of `traffic`.
///
/// The verdict is ranks if and only if there is no credit loop, else the least credit loop, with the least route that
/// makes each of its dependencies. If there is no credit loop and no route stops, every route arrives. The caller must
/// pass tables that have all switches and all owned LIDs of the fabric.
///
/// # Errors
/// `OutOfMemory`.
pub fn judge(
    alloc: Global,
    fabric: &Fabric,
    cells: &Cells,
    traffic: Traffic,
) -> Result<Judgement, OutOfMemory>
    requires same { switch_count fabric.now ≡ cells.now.switches }
    requires owners { length fabric.now.owners ≤ 64 * cells.now.blocks }
    ensures { IfOk result (IsJudgement fabric.now (tables_of cells.now) traffic) }
{
    let found = find_dependencies(alloc, fabric, cells, traffic)?;
    let dependencies = count_steps(&found.graph);
    let verdict = verdict_on(alloc, fabric, cells, traffic, &found.graph)?;
    Ok(Judgement {
        verdict,
        stops: found.stopped,
        dependencies,
    })
}
