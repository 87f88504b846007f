//! The dependencies of all routes.

ghost use Rattle.std.specs.Prelude.{◌≤◌, ◌*◌, ◌↔◌, ℕ, IfOk, IsTrue};
ghost use Rattle.common_graph.specs.Graph.{LeadsTo};
ghost use Rattle.fabric_model.specs.Fabric.{IsFabric, switch_count};
ghost use Rattle.fabric_tables.specs.Cells.{tables_of};
ghost use Rattle.fabric_lane_tables.specs.Lanes.{IsLaneCount, lanes_of};
ghost use Rattle.fabric_lane_tables.specs.Levels.{levels_of};
ghost use Rattle.fabric_lane_routes.specs.LaneFound.{SomeIsLaneStopped};
ghost use Rattle.fabric_lane_routes.specs.Routing.{by_routing};
ghost use Rattle.fabric_lane_waves.specs.LaneBlocks.{AreFoundBelow, AreLaneDependencies, AreRooms, IsWavedOf};
ghost use Rattle.fabric_lane_waves.specs.LaneGates.{AreGatesOn};
ghost use Rattle.fabric_lane_waves.specs.LaneSteps.{AreLaneBases, IsGraphOn, IsLaneGraphOf};

use crate::block::BlockRoutes;
use crate::gate::{Gates, find_gates, sources};
use crate::mark::clear;
use crate::room::Rooms;
use crate::start::{begin_all, put_owned, put_sent};
use crate::wave::run;
use common_graph::graph::Graph;
use common_values::memory::OutOfMemory;
use fabric_lane_routes::routing::LaneRouting;
use fabric_model::fabric::Fabric;
use fabric_routes::find::find_base;
use std::alloc::Global;

// Adds to a graph each dependency that a route to a LID of a block makes, and no other. Answers whether such a route stops,
// or one has before.
fn add_block(
    routes: &BlockRoutes<'_>,
    gates: &Gates,
    rooms: &mut Rooms,
    graph: &mut Graph,
    stopped: bool,
) -> bool
    requires fabric { IsFabric routes.now.routing.fabric.now }
    requires count { IsLaneCount (lanes_of routes.now.routing.lanes.now) routes.now.routing.lanes.now.count }
    requires gates { AreGatesOn routes.now.routing gates.now }
    requires rooms { AreRooms routes.now.routing gates.now rooms.old }
    requires graph { IsGraphOn routes.now.routing graph.old }
    ensures rooms { AreRooms routes.now.routing gates.now rooms.new }
    ensures waved { IsWavedOf routes.now graph.old graph.new stopped result }
{
    let top = rooms.top;
    let owned = rooms.owned.as_mut_slice();
    let sent = rooms.sent.as_mut_slice();
    let seen = rooms.seen.as_mut_slice();
    let done = rooms.done.as_mut_slice();
    put_owned(routes.routing.fabric, routes.block, owned);
    put_sent(routes, gates, top, owned, sent);
    clear(seen);
    clear(done);
    let stops = begin_all(routes, &gates.spots, top, sent, seen, stopped);
    run(routes, seen, done, graph, stops)
}

// The same of all blocks.
fn add_blocks(
    routing: &LaneRouting<'_>,
    gates: &Gates,
    rooms: &mut Rooms,
    graph: &mut Graph,
) -> bool
    requires fabric { IsFabric routing.now.fabric.now }
    requires count { IsLaneCount (lanes_of routing.now.lanes.now) routing.now.lanes.now.count }
    requires gates { AreGatesOn routing.now gates.now }
    requires rooms { AreRooms routing.now gates.now rooms.old }
    requires graph { IsGraphOn routing.now graph.old }
    ensures { AreFoundBelow routing.now (64 * routing.now.cells.now.blocks) graph.old graph.new result }
{
    let mut stopped = false;
    'adding: for block in 0..routing.cells.blocks() {
        let routes = BlockRoutes {
            routing: *routing,
            block,
        };
        stopped = add_block(&routes, gates, rooms, graph, stopped);
    }
    stopped
}

// The same in rooms of its own.
fn add_dependencies(
    alloc: Global,
    routing: &LaneRouting<'_>,
    gates: &Gates,
    graph: &mut Graph,
) -> Result<bool, OutOfMemory>
    requires gates { AreGatesOn routing.now gates.now }
    requires graph { IsGraphOn routing.now graph.old }
    ensures { IfOk result (AreFoundBelow routing.now (64 * routing.now.cells.now.blocks) graph.old graph.new) }
{
    let top = routing.levels.count();
    let places = top * routing.fabric.switches() * routing.lanes.count();
    let owned = vec![in alloc; 0u64; sources(routing.fabric)]?;
    let sent = vec![in alloc; 0u64; gates.spots.len() * top]?;
    let seen = vec![in alloc; 0u64; places]?;
    let done = vec![in alloc; 0u64; places]?;
    let mut rooms = Rooms {
        top,
        owned,
        sent,
        seen,
        done,
    };
    Ok(add_blocks(routing, gates, &mut rooms, graph))
}

// The first channel of the switch to which each channel leads, by their numbers.
fn find_bases(alloc: Global, fabric: &Fabric, count: usize) -> Result<Vec<u32>, OutOfMemory>
    requires { count ≤ 15 }
    ensures { IfOk result (λ bases. AreLaneBases fabric.now count (switch_count fabric.now * fabric.now.most * count)
        bases.items) }
{
    let row = fabric.most() * count;
    let channels = fabric.switches() * row;
    let mut bases = vec![in alloc; 0u32; channels]?;
    'channels: for channel in 0..channels {
        bases[channel] = find_base(row, fabric.side_at(channel / count));
    }
    Ok(bases)
}

// A graph of the channels of a fabric on so many lanes, of which none leads to another. A row has a bit for
// each port and lane, 64 in a word.
fn no_dependencies(alloc: Global, fabric: &Fabric, count: usize) -> Result<Graph, OutOfMemory>
    requires { count ≤ 15 }
    ensures graph { IfOk result (λ graph. IsLaneGraphOf fabric.now count graph) }
    ensures none { IfOk result (λ graph. (one other : ℕ) → LeadsTo graph one other → ⊥) }
{
    let bases = find_bases(alloc, fabric, count)?;
    let wide = (fabric.most() * count + 63) / 64;
    let graph = Graph::none(alloc, bases, wide)?;
    Ok(graph)
}

/// What the routes of a traffic with some levels make.
#[derive(Drop)]
pub struct LaneFound {
    /// Which channels of the fabric depend on which, each a link on a lane.
    pub graph: Graph,
    /// Whether a route stops or is discarded. One that goes on for ever does neither.
    pub stopped: bool,
}

/// The dependencies of the channels of a fabric, each a link on a lane, by the routes of a traffic with some levels: of
/// each two channels whether the one depends on the other, and whether a route stops or is discarded.
pub fn find_lane_dependencies(
    alloc: Global,
    routing: &LaneRouting<'_>,
) -> Result<LaneFound, OutOfMemory>
    ensures graph { IfOk result (λ found. AreLaneDependencies routing.now.fabric.now
        (tables_of routing.now.cells.now) (lanes_of routing.now.lanes.now) routing.now.lanes.now.count
        routing.now.traffic (levels_of routing.now.levels.now) found.graph) }
    ensures stopped { IfOk result (λ found. IsTrue found.stopped ↔ by_routing SomeIsLaneStopped routing.now) }
{
    let count = routing.lanes.count();
    let mut graph = no_dependencies(alloc, routing.fabric, count)?;
    let gates = find_gates(alloc, routing)?;
    let _blocks = routing.cells.blocks();
    let stopped = add_dependencies(alloc, routing, &gates, &mut graph)?;
    Ok(LaneFound { graph, stopped })
}
