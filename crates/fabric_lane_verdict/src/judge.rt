//! The judgement of the tables of a fabric with lanes.

ghost use Rattle.std.specs.Prelude.{◌≡◌, ◌<◌, ◌≤◌, ◌*◌, ◌^◌, length, map, IfOk};
ghost use Rattle.fabric_tables.specs.Cells.{tables_of};
ghost use Rattle.fabric_model.specs.Fabric.{IsFabric, switch_count};
ghost use Rattle.fabric_lane_tables.specs.Lanes.{lanes_of};
ghost use Rattle.fabric_lane_tables.specs.Levels.{levels_of};
ghost use Rattle.fabric_lane_routes.specs.LaneFound.{IsLeastLaneWitness};
ghost use Rattle.fabric_lane_routes.specs.LaneRoutes.{LaneDependsOn};
ghost use Rattle.fabric_lane_routes.specs.Routing.{by_routing};
ghost use Rattle.fabric_lane_waves.specs.LaneBlocks.{AreLaneDependencies};
ghost use Rattle.fabric_lane_witness.specs.Witness.{lane_channel_of};
ghost use Rattle.fabric_lane_verdict.specs.LaneJudgements.{IsLaneJudgement};
ghost use Rattle.fabric_lane_verdict.specs.LaneVerdict.{IsLaneVerdict, IsLeastLaneLoop, LaneCycleIs, lane_spot_at};

use crate::verdict::{LaneLoopChannel, LaneVerdict};
use common_graph::graph::Graph;
use common_graph::verdict::{Verdict as GraphVerdict, verdict_of};
use common_values::memory::OutOfMemory;
use fabric_lane_routes::routing::LaneRouting;
use fabric_lane_waves::find::find_lane_dependencies;
use fabric_lane_witness::witness::{LaneSpot, LaneWitness, find_lane_witness};
use fabric_verdict::count::count_steps;
use fabric_verdict::links::count_links;
use std::alloc::Global;

/// What the tables of a fabric do with the routes of a traffic, on lanes and with service levels.
#[derive(Drop)]
pub struct LaneJudgement {
    /// The ranks of the channels, or the least credit loop with the routes that make it.
    pub verdict: LaneVerdict,
    /// Whether some route stops before its target, or is discarded.
    pub stops: bool,
    /// How many channels there are: the ports that lead to a switch, each on each of the lanes.
    pub channels: u64,
    /// How many pairs of channels there are of which the one depends on the other.
    pub dependencies: u64,
}

/// The channel of a place, if a switch has at most so many ports and there are so many lanes. The channel out of port p of
/// switch s on lane v has the place (s times the most ports, plus p - 1) times the lanes, plus v.
pub fn lane_spot_of(most: usize, count: usize, place: u32) -> LaneSpot
    requires some { 0 < most }
    requires few { most < 255 }
    requires some_lanes { 0 < count }
    requires few_lanes { count ≤ 15 }
    ensures { result ≡ lane_spot_at most count place }
{
    let place = place as usize;
    let port = place / count;
    LaneSpot {
        switch: (port / most) as u32,
        port: (port % most) as u8 + 1,
        lane: (place % count) as u8,
    }
}

// The least route by which a channel depends on another.
fn witness_of(
    alloc: Global,
    routing: &LaneRouting<'_>,
    channel: LaneSpot,
    next: LaneSpot,
) -> Result<LaneWitness, OutOfMemory>
    requires fabric { IsFabric routing.now.fabric.now }
    requires depends { by_routing LaneDependsOn routing.now
        (lane_channel_of channel) (lane_channel_of next) }
    ensures { IfOk result (λ w. by_routing IsLeastLaneWitness routing.now (lane_channel_of channel) (lane_channel_of next) w.lid w.source w.level) }
{
    match find_lane_witness(alloc, routing, channel, next)? {
        Some(witness) => Ok(witness),
        None => unreachable!(),
    }
}

// The channels of a credit loop, told by their places, each with the least route by which it depends on the next one.
fn with_witnesses(
    alloc: Global,
    routing: &LaneRouting<'_>,
    most: usize,
    count: usize,
    places: &[u32],
) -> Result<Vec<LaneLoopChannel>, OutOfMemory>
    requires fabric { IsFabric routing.now.fabric.now }
    requires some { 0 < most }
    requires few { most < 255 }
    requires some_lanes { 0 < count }
    requires few_lanes { count ≤ 15 }
    requires least { by_routing IsLeastLaneLoop routing.now
        (map (lane_spot_at most count) places.now) }
    ensures { IfOk result (λ channels. by_routing LaneCycleIs routing.now channels.items) }
{
    let mut channels = Vec::with_capacity(alloc, places.len())?;
    'places: for at in 0..places.len() {
        let channel = lane_spot_of(most, count, places[at]);
        let next = lane_spot_of(most, count, places[(at + 1) % places.len()]);
        let witness = witness_of(alloc, routing, channel, next)?;
        channels.push(LaneLoopChannel { channel, witness })?;
    }
    Ok(channels)
}

// The verdict on a graph of the dependencies.
fn verdict_on(
    alloc: Global,
    routing: &LaneRouting<'_>,
    graph: &Graph,
) -> Result<LaneVerdict, OutOfMemory>
    requires graph { AreLaneDependencies routing.now.fabric.now (tables_of routing.now.cells.now) (lanes_of routing.now.lanes.now) routing.now.lanes.now.count routing.now.traffic
        (levels_of routing.now.levels.now) graph.now }
    ensures { IfOk result (λ verdict. by_routing IsLaneVerdict routing.now routing.now.lanes.now.count verdict) }
{
    let most = routing.fabric.most().max(1);
    let count = routing.lanes.count().max(1);
    match verdict_of(alloc, graph)? {
        GraphVerdict::Ranks { ranks } => Ok(LaneVerdict::Ranks { ranks }),
        GraphVerdict::Cycle { nodes } => {
            let channels = with_witnesses(alloc, routing, most, count, &nodes)?;
            Ok(LaneVerdict::Cycle { channels })
        }
    }
}

/// Judges the tables of a fabric by the routes of a traffic, on lanes and with service levels. A channel is a link on a
/// lane. The ranks of the channels exactly if there is no credit loop, else the least one, with the least route that makes
/// each of its dependencies; whether a route stops or is discarded; how many channels there are; and how many dependencies.
/// If there is no credit loop and none stops, all arrive. The error is want of memory alone.
pub fn judge(alloc: Global, routing: &LaneRouting<'_>) -> Result<LaneJudgement, OutOfMemory>
    ensures { IfOk result (by_routing IsLaneJudgement routing.now routing.now.lanes.now.count) }
{
    let channels = count_links(routing.fabric).channels * routing.lanes.count() as u64;
    let found = find_lane_dependencies(alloc, routing)?;
    let dependencies = count_steps(&found.graph);
    let verdict = verdict_on(alloc, routing, &found.graph)?;
    Ok(LaneJudgement {
        verdict,
        stops: found.stopped,
        channels,
        dependencies,
    })
}
