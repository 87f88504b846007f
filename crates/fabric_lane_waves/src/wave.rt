//! One wave on lanes: routes to the LIDs of a block go on together from departure to departure, until no step is new.

ghost use Rattle.std.specs.Prelude.{◌≡◌, ◌<◌, ◌≤◌, ◌+◌, ◌-◌, ◌*◌, ◌^◌, ◌⊎◌, ◌↔◌, ℕ, length, MatchOption};
ghost use Rattle.std.specs.Int.{bit_at};
ghost use Rattle.fabric_routes.specs.Waves.{HasBit, IsIdle, IsLink};
ghost use Rattle.fabric_lane_routes.specs.LaneFound.{lane_number};
ghost use Rattle.fabric_model.specs.Fabric.{switch_count};
ghost use Rattle.fabric_lane_waves.specs.LaneSteps.{AddsOne, AreWordsOn, IsGraphOn, IsLaneGraphOf, StepsOf, StopsOf, place_on};
ghost use Rattle.fabric_lane_waves.specs.Waves.{IsFurther, IsSpread, IsTurned, Taken};

use crate::block::BlockRoutes;
use crate::departure::{Departure, departure_at, place_of};
use crate::mark::mark;
use common_graph::bits::{lowest, without};
use common_graph::graph::Graph;
use fabric_lane_routes::hop::LaneHop;
use fabric_lane_routes::routing::LaneRouting;
use fabric_model::fabric::Fabric;
use fabric_routes::word::{fresh_of, joined};

// The number of a channel: out of a port of a switch, on one of so many lanes.
#[inline]
fn number_of(most: usize, count: usize, switch: usize, port: u8, lane: usize) -> usize
    requires switch { switch < 2 ^ 14 }
    requires most { most < 255 }
    requires used { 0 < port }
    requires low { port ≤ most }
    requires lanes { count ≤ 15 }
    requires lane { lane < count }
    ensures { result ≡ (switch * most + (port - 1)) * count + lane }
{
    (switch * most + (usize::from(port) - 1)) * count + lane
}

// Adds a dependency: of the channel out of a port of a switch on a lane, on that out of a port of the next switch on a
// lane.
#[inline]
fn depend(
    fabric: &Fabric,
    count: usize,
    from: Departure,
    port: u8,
    next_port: u8,
    next_lane: u8,
    graph: &mut Graph,
)
    requires lanes { count ≤ 15 }
    requires switch { from.switch < switch_count fabric.now }
    requires lane { from.lane < count }
    requires link { (next : ℕ) × IsLink fabric.now from.switch port next }
    requires used { 0 < next_port }
    requires low { next_port ≤ fabric.now.most }
    requires next_lane { next_lane < count }
    requires graph { IsLaneGraphOf fabric.now count graph.old }
    ensures leads { (next : ℕ) → IsLink fabric.now from.switch port next
        → AddsOne graph.old graph.new
        (lane_number fabric.now count (record { switch = from.switch; port = port; lane = from.lane }))
        (lane_number fabric.now count (record { switch = next; port = next_port; lane = next_lane })) }
    ensures wide { graph.new.wide ≡ graph.old.wide }
    ensures bases { graph.new.bases ≡ graph.old.bases }
{
    let most = fabric.most();
    let channel = number_of(most, count, from.switch, port, from.lane);
    let offset = number_of(most, count, 0, next_port, usize::from(next_lane));
    graph.insert(channel, offset);
}

// Takes the step of a departure for a LID of the block. Answers whether what goes to it stops at the next switch, or
// something has stopped before. If it goes on, the place to which it leads is ahead: a hint, on which nothing rests.
#[inline]
fn take(
    routes: &BlockRoutes<'_>,
    from: Departure,
    bit: usize,
    seen: &mut [u64],
    graph: &mut Graph,
    ahead: &mut usize,
    stopped: bool,
) -> bool
    requires level { from.level < 16 }
    requires switch { from.switch < switch_count routes.now.routing.fabric.now }
    requires lane { from.lane < routes.now.routing.lanes.now.count }
    requires bit { bit < 64 }
    requires places { AreWordsOn routes.now.routing seen.old }
    requires place { place_on routes.now.routing from < length seen.old }
    requires graph { IsGraphOn routes.now.routing graph.old }
    ensures { Taken (StepsOf routes.now) (StopsOf routes.now) (λ place other. (place ≡ place_on routes.now.routing from) × (other ≡ bit))
        (record { seen = seen.old; graph = graph.old; stopped = stopped })
        (record { seen = seen.new; graph = graph.new; stopped = result }) }
{
    let routing = &routes.routing;
    let Some(way) = routing.find_way(from.switch, routes.block, bit) else {
        return stopped;
    };
    match routing.find_lane_hop(from.level, routes.block, bit, way.next) {
        LaneHop::On(next_port, lane, _) => {
            let fabric = routing.fabric;
            let count = routing.lanes.count();
            let to = Departure {
                level: from.level,
                switch: way.next.switch as usize,
                lane: usize::from(lane),
            };
            let place = place_of(fabric.switches(), count, to);
            mark(seen, place, bit);
            *ahead = place;
            depend(fabric, count, from, way.port, next_port, lane, graph);
            stopped
        }
        LaneHop::Arrive => stopped,
        LaneHop::Stop(_) => true,
        LaneHop::Discard => true,
    }
}

// Takes the steps from a place for each LID of which a bit is fresh.
#[inline]
fn visit(
    routes: &BlockRoutes<'_>,
    place: usize,
    fresh: u64,
    seen: &mut [u64],
    graph: &mut Graph,
    ahead: &mut usize,
    stopped: bool,
) -> bool
    requires places { AreWordsOn routes.now.routing seen.old }
    requires graph { IsGraphOn routes.now.routing graph.old }
    requires place { place < length seen.old }
    ensures { Taken (StepsOf routes.now) (StopsOf routes.now) (λ at other. (at ≡ place) × (bit_at fresh other ≡ 1))
        (record { seen = seen.old; graph = graph.old; stopped = stopped })
        (record { seen = seen.new; graph = graph.new; stopped = result }) }
{
    let LaneRouting { fabric, lanes, .. } = routes.routing;
    let from = departure_at(fabric.switches(), lanes.count(), place);
    let mut left = fresh;
    let mut stops = stopped;
    'bits: while left > 0 {
        let bit = lowest(left);
        stops = take(routes, from, bit, seen, graph, ahead, stops);
        left = without(left, bit);
    }
    stops
}

// Takes the steps from a place that were not taken yet, if there are any.
#[inline]
fn turn(
    routes: &BlockRoutes<'_>,
    place: usize,
    seen: &mut [u64],
    done: &mut [u64],
    graph: &mut Graph,
    ahead: &mut usize,
    stopped: bool,
) -> Option<bool>
    requires places { AreWordsOn routes.now.routing seen.old }
    requires graph { IsGraphOn routes.now.routing graph.old }
    requires place { place < length seen.old }
    requires done_count { length done.old ≡ length seen.old }
    ensures { MatchOption result
        (IsIdle place (record { seen = seen.old; graph = graph.old; stopped = stopped })
        (record { seen = seen.new; graph = graph.new; stopped = stopped }) done.old done.new)
        (λ stops. IsTurned (StepsOf routes.now) (StopsOf routes.now) place
        (record { seen = seen.old; graph = graph.old; stopped = stopped })
        (record { seen = seen.new; graph = graph.new; stopped = stops }) done.old done.new) }
{
    let gone = done[place];
    let fresh = fresh_of(seen[place], gone);
    if fresh == 0 {
        return None;
    }
    done[place] = joined(gone, fresh);
    Some(visit(routes, place, fresh, seen, graph, ahead, stopped))
}

// Takes the steps from a place that were not taken yet, if there are any; then those from the place to which the last of
// them led, and so on until one has none.
fn follow(
    routes: &BlockRoutes<'_>,
    place: usize,
    seen: &mut [u64],
    done: &mut [u64],
    graph: &mut Graph,
    stopped: bool,
) -> Option<bool>
    requires places { AreWordsOn routes.now.routing seen.old }
    requires graph { IsGraphOn routes.now.routing graph.old }
    requires place { place < length seen.old }
    requires done_count { length done.old ≡ length seen.old }
    ensures { MatchOption result
        (IsIdle place (record { seen = seen.old; graph = graph.old; stopped = stopped })
        (record { seen = seen.new; graph = graph.new; stopped = stopped }) done.old done.new)
        (λ stops. IsFurther (StepsOf routes.now) (StopsOf routes.now)
        (record { seen = seen.old; graph = graph.old; stopped = stopped })
        (record { seen = seen.new; graph = graph.new; stopped = stops }) done.old done.new) }
{
    let mut ahead = place;
    let mut stops = turn(routes, place, seen, done, graph, &mut ahead, stopped)?;
    'turns: while ahead < seen.len() {
        let next = ahead;
        match turn(routes, next, seen, done, graph, &mut ahead, stops) {
            Some(now) => stops = now,
            None => break 'turns,
        }
    }
    Some(stops)
}

/// Rounds over the places until nothing is fresh. The bits that are seen are those of the places at which routes begin.
pub fn run(
    routes: &BlockRoutes<'_>,
    seen: &mut [u64],
    done: &mut [u64],
    graph: &mut Graph,
    stopped: bool,
) -> bool
    requires places { AreWordsOn routes.now.routing seen.old }
    requires graph { IsGraphOn routes.now.routing graph.old }
    requires done_count { length done.old ≡ length seen.old }
    requires none { (place bit : ℕ) → HasBit done.old place bit → ⊥ }
    ensures { IsSpread (StepsOf routes.now) (StopsOf routes.now)
        (record { seen = seen.old; graph = graph.old; stopped = stopped })
        (record { seen = seen.new; graph = graph.new; stopped = result }) }
{
    let mut stops = stopped;
    let mut fresh = true;
    'rounds: while fresh {
        fresh = false;
        'places: for place in 0..seen.len() {
            if let Some(now) = follow(routes, place, seen, done, graph, stops) {
                stops = now;
                fresh = true;
            }
        }
    }
    stops
}
