//! Finds all dependencies, block by block: the routes to the 64 LIDs of a block are followed together.

ghost use Rattle.std.specs.Prelude.{◌≡◌, ◌<◌, ◌≤◌, ◌*◌, ◌^◌, ◌↔◌, ◌⊎◌, ℕ, length, IfOk, IsTrue, MatchResult};
ghost use Rattle.fabric_tables.specs.Cells.{tables_of};
ghost use Rattle.fabric_routes.specs.Found.{SomeIsStopped};
ghost use Rattle.fabric_routes.specs.Finding.{AreBases, AreDependencies, AreFound, base_of};
ghost use Rattle.common_graph.specs.Graph.{LeadsTo};
ghost use Rattle.fabric_model.specs.Fabric.{LeadsWithin, switch_count};
ghost use Rattle.fabric_routes.specs.Links.{AreLinks};
ghost use Rattle.fabric_routes.specs.Starts.{AreAllSenders};
ghost use Rattle.fabric_routes.specs.Waves.{HasBit, IsGraphOf, IsWaved};

use crate::link::find_links;
use crate::sender::{Senders, find_senders, put_starts};
use crate::wave::run;
use common_graph::graph::Graph;
use common_values::memory::OutOfMemory;
use fabric_model::fabric::Fabric;
use fabric_model::node::Side;
use fabric_model::traffic::Traffic;
use fabric_tables::cells::Cells;
use std::alloc::Global;

fn clear(words: &mut [u64])
    ensures { (switch bit : ℕ) → HasBit words.new switch bit → ⊥ }
{
    'words: for word in words.iter_mut() {
        *word = 0;
    }
}

/// Adds to `graph` each dependency that a route to a LID of `block` makes, and no other.
///
/// Returns whether `stopped` held already, or such a route stops before its target. The caller must pass the links,
/// senders and graph of this fabric, and in `seen` and `done` one word for each switch as working space.
pub fn add_block(
    fabric: &Fabric,
    links: &[u64],
    cells: &Cells,
    traffic: Traffic,
    block: usize,
    senders: &[Senders],
    seen: &mut [u64],
    done: &mut [u64],
    graph: &mut Graph,
    stopped: bool,
) -> bool
    requires links { AreLinks fabric.now links.now }
    requires same { switch_count fabric.now ≡ cells.now.switches }
    requires block { block < cells.now.blocks }
    requires few { block < 1024 }
    requires senders { AreAllSenders fabric.now senders.now }
    requires seen_count { length seen.old ≡ switch_count fabric.now }
    requires done_count { length done.old ≡ switch_count fabric.now }
    requires graph { IsGraphOf fabric.now graph.old }
    ensures { IsWaved fabric.now (tables_of cells.now) traffic block graph.old graph.new stopped result }
{
    put_starts(fabric, cells, traffic, block, senders, seen);
    clear(done);
    run(fabric, links, cells, block, seen, done, graph, stopped)
}

// Adds the dependencies of all blocks.
fn add_blocks(
    fabric: &Fabric,
    links: &[u64],
    cells: &Cells,
    traffic: Traffic,
    senders: &[Senders],
    seen: &mut [u64],
    done: &mut [u64],
    graph: &mut Graph,
) -> bool
    requires links { AreLinks fabric.now links.now }
    requires same { switch_count fabric.now ≡ cells.now.switches }
    requires owners { length fabric.now.owners ≤ 64 * cells.now.blocks }
    requires senders { AreAllSenders fabric.now senders.now }
    requires seen_count { length seen.old ≡ switch_count fabric.now }
    requires done_count { length done.old ≡ switch_count fabric.now }
    requires graph { IsGraphOf fabric.now graph.old }
    ensures { AreFound fabric.now (tables_of cells.now) traffic graph.old graph.new result }
{
    let mut stopped = false;
    'waves: for block in 0..cells.blocks() {
        stopped = add_block(
            fabric, links, cells, traffic, block, senders, seen, done, graph, stopped,
        );
    }
    stopped
}

// Adds the dependencies of all blocks, and makes the rooms for their bits.
fn add_waves(
    alloc: Global,
    fabric: &Fabric,
    links: &[u64],
    cells: &Cells,
    traffic: Traffic,
    senders: &[Senders],
    graph: &mut Graph,
) -> Result<bool, OutOfMemory>
    requires links { AreLinks fabric.now links.now }
    requires same { switch_count fabric.now ≡ cells.now.switches }
    requires owners { length fabric.now.owners ≤ 64 * cells.now.blocks }
    requires senders { AreAllSenders fabric.now senders.now }
    requires graph { IsGraphOf fabric.now graph.old }
    ensures { MatchResult result
        (λ stopped. AreFound fabric.now (tables_of cells.now) traffic graph.old graph.new stopped)
        (λ _. graph.new ≡ graph.old) }
{
    let mut seen = vec![in alloc; 0u64; fabric.switches()]?;
    let mut done = vec![in alloc; 0u64; fabric.switches()]?;
    Ok(add_blocks(
        fabric, links, cells, traffic, senders, &mut seen, &mut done, graph,
    ))
}

/// Adds to `graph` each dependency that a route of `traffic` makes, and no other, and returns whether a route stops
/// before its target.
///
/// The caller must pass tables that have all switches and all owned LIDs of the fabric, and a graph of its channels.
///
/// # Errors
/// `OutOfMemory`. The graph is then unchanged.
pub fn add_dependencies(
    alloc: Global,
    fabric: &Fabric,
    cells: &Cells,
    traffic: Traffic,
    graph: &mut Graph,
) -> Result<bool, OutOfMemory>
    requires same { switch_count fabric.now ≡ cells.now.switches }
    requires owners { length fabric.now.owners ≤ 64 * cells.now.blocks }
    requires graph { IsGraphOf fabric.now graph.old }
    ensures { MatchResult result
        (λ stopped. AreFound fabric.now (tables_of cells.now) traffic graph.old graph.new stopped)
        (λ _. graph.new ≡ graph.old) }
{
    let links = find_links(alloc, fabric)?;
    let senders = find_senders(alloc, fabric)?;
    add_waves(alloc, fabric, &links, cells, traffic, &senders, graph)
}

/// What the routes of a traffic make.
#[derive(Drop)]
pub struct Found {
    /// Which channels of the fabric depend on which.
    pub graph: Graph,
    /// Whether a route stops before its target. A route that revisits a switch goes on for ever, and does not stop.
    pub stopped: bool,
}

/// Returns the number of the first channel of the switch to which `side` leads, if each switch has `channels` of them;
/// 0 if it leads to no switch.
pub fn find_base(channels: usize, side: Side) -> u32
    requires channels { channels < 2 ^ 12 }
    requires side { LeadsWithin (2 ^ 20) side }
    ensures { result ≡ base_of channels side }
{
    match side {
        Side::Bare => 0,
        Side::To(next, _) => (next as usize * channels) as u32,
        Side::End(_) => 0,
    }
}

// The bases of all ports, by place.
fn find_bases(alloc: Global, fabric: &Fabric) -> Result<Vec<u32>, OutOfMemory>
    ensures { IfOk result (λ bases. (length bases.items ≡ switch_count fabric.now * fabric.now.most)
        × AreBases fabric.now (switch_count fabric.now * fabric.now.most) bases.items) }
{
    let most = fabric.most();
    let count = fabric.switches() * most;
    let mut bases = vec![in alloc; 0u32; count]?;
    'places: for place in 0..count {
        bases[place] = find_base(most, fabric.side_at(place));
    }
    Ok(bases)
}

/// Creates a graph of the channels of `fabric` without dependencies. A row has a bit for each port, 64 in a word.
///
/// # Errors
/// `OutOfMemory`.
pub fn no_dependencies(alloc: Global, fabric: &Fabric) -> Result<Graph, OutOfMemory>
    ensures graph { IfOk result (λ graph. IsGraphOf fabric.now graph) }
    ensures none { IfOk result (λ graph. (one other : ℕ) → LeadsTo graph one other → ⊥) }
{
    let bases = find_bases(alloc, fabric)?;
    let wide = (fabric.most() + 63) / 64;
    let graph = Graph::none(alloc, bases, wide)?;
    Ok(graph)
}

/// Returns the dependencies that the routes of `traffic` make, and whether a route stops before its target.
///
/// The caller must pass tables that have all switches and all owned LIDs of the fabric.
///
/// # Errors
/// `OutOfMemory`.
pub fn find_dependencies(
    alloc: Global,
    fabric: &Fabric,
    cells: &Cells,
    traffic: Traffic,
) -> Result<Found, OutOfMemory>
    requires same { switch_count fabric.now ≡ cells.now.switches }
    requires owners { length fabric.now.owners ≤ 64 * cells.now.blocks }
    ensures graph { IfOk result (λ found. AreDependencies fabric.now (tables_of cells.now) traffic found.graph) }
    ensures stopped { IfOk result (λ found. IsTrue found.stopped ↔ SomeIsStopped fabric.now (tables_of cells.now) traffic) }
{
    let mut graph = no_dependencies(alloc, fabric)?;
    let stopped = add_dependencies(alloc, fabric, cells, traffic, &mut graph)?;
    Ok(Found { graph, stopped })
}
