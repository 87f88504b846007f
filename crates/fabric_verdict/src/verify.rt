//! The judgement of ranks from anywhere.

ghost use Rattle.std.specs.Prelude.{◌≡◌, ◌≤◌, ◌*◌, length, IfOk, MatchOption};
ghost use Rattle.common_graph.specs.Graph.{IsFirstRise as IsFirstRiseOf, value_at};
ghost use Rattle.fabric_tables.specs.Cells.{tables_of};
ghost use Rattle.fabric_model.specs.Fabric.{switch_count};
ghost use Rattle.fabric_routes.specs.Finding.{AreDependencies};
ghost use Rattle.fabric_verdict.specs.Verified.{Fall, IsFirstRise, IsVerified};

use crate::judge::{spot_of, witness_of};
use common_graph::graph::{Graph, Step};
use common_graph::ranks::first_rise;
use common_values::memory::OutOfMemory;
use fabric_model::fabric::Fabric;
use fabric_model::node::Spot;
use fabric_model::traffic::Traffic;
use fabric_routes::find::find_dependencies;
use fabric_routes::witness::Witness;
use fabric_tables::cells::Cells;
use std::alloc::Global;

/// A dependency along which ranks do not fall.
#[derive(Clone, Copy)]
pub struct Rise {
    /// The channel that depends on `next`.
    pub channel: Spot,
    /// The rank of `channel`.
    pub rank: u32,
    /// The channel on which `channel` depends.
    pub next: Spot,
    /// The rank of `next`, which is not lower than `rank`.
    pub next_rank: u32,
    /// The route that takes `channel` and then, directly, `next`: the route to the lowest LID, and of those the one
    /// from the end port of lowest GUID.
    pub witness: Witness,
}

/// What the routes of a traffic say of ranks.
#[derive(Clone, Copy)]
pub struct Verified {
    /// The first dependency along which the ranks do not fall, by switch and port of the channel that depends, then of
    /// the other. `None` if they fall along every dependency, so that there is no credit loop.
    pub rise: Option<Rise>,
    /// Whether at least one route stops before its target.
    pub stops: bool,
}

// The rank that a list has for a node, 0 if it has none.
fn rank_of(ranks: &[u32], node: usize) -> u32
    ensures { result ≡ value_at ranks.now node }
{
    ranks.get(node).copied().unwrap_or(0)
}

// A step of the graph as a dependency, with the least route that makes it.
fn rise_at(
    alloc: Global,
    fabric: &Fabric,
    cells: &Cells,
    traffic: Traffic,
    graph: &Graph,
    ranks: &[u32],
    step: Step,
) -> Result<Rise, OutOfMemory>
    requires same { switch_count fabric.now ≡ cells.now.switches }
    requires owners { length fabric.now.owners ≤ 64 * cells.now.blocks }
    requires graph { AreDependencies fabric.now (tables_of cells.now) traffic graph.now }
    requires first { IsFirstRiseOf graph.now ranks.now step.node step.next }
    ensures { IfOk result (IsFirstRise fabric.now (tables_of cells.now) traffic ranks.now) }
{
    let most = fabric.most();
    let channel = spot_of(most, step.node as u32);
    let next = spot_of(most, step.next as u32);
    let witness = witness_of(alloc, fabric, cells, traffic, channel, next)?;
    Ok(Rise {
        channel,
        rank: rank_of(ranks, step.node),
        next,
        next_rank: rank_of(ranks, step.next),
        witness,
    })
}

// The first dependency along which ranks do not fall, if there is one.
fn find_rise(
    alloc: Global,
    fabric: &Fabric,
    cells: &Cells,
    traffic: Traffic,
    graph: &Graph,
    ranks: &[u32],
) -> Result<Option<Rise>, OutOfMemory>
    requires same { switch_count fabric.now ≡ cells.now.switches }
    requires owners { length fabric.now.owners ≤ 64 * cells.now.blocks }
    requires graph { AreDependencies fabric.now (tables_of cells.now) traffic graph.now }
    ensures { IfOk result (λ rise. MatchOption rise (Fall fabric.now (tables_of cells.now) traffic ranks.now)
        (IsFirstRise fabric.now (tables_of cells.now) traffic ranks.now)) }
{
    match first_rise(graph, ranks) {
        Some(step) => {
            let rise = rise_at(alloc, fabric, cells, traffic, graph, ranks, step)?;
            Ok(Some(rise))
        }
        None => Ok(None),
    }
}

/// Judges `ranks`, from anywhere, by the routes of `traffic`: reports the first dependency along which they do not
/// fall, with the least route that makes it, and whether a route stops.
///
/// The rank of the channel out of port p of switch s is at index s times the most ports of a switch, plus p - 1; if the
/// list is shorter, it counts as 0. The caller must pass tables that have all switches and all owned LIDs of the
/// fabric.
///
/// # Errors
/// `OutOfMemory`.
pub fn verify(
    alloc: Global,
    fabric: &Fabric,
    cells: &Cells,
    traffic: Traffic,
    ranks: &[u32],
) -> Result<Verified, OutOfMemory>
    requires same { switch_count fabric.now ≡ cells.now.switches }
    requires owners { length fabric.now.owners ≤ 64 * cells.now.blocks }
    ensures { IfOk result (IsVerified fabric.now (tables_of cells.now) traffic ranks.now) }
{
    let found = find_dependencies(alloc, fabric, cells, traffic)?;
    let rise = find_rise(alloc, fabric, cells, traffic, &found.graph, ranks)?;
    Ok(Verified {
        rise,
        stops: found.stopped,
    })
}
