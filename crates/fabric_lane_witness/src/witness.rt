//! By which route a channel depends on another, with lanes.

ghost use Rattle.std.specs.Prelude.{◌≡◌, ◌<◌, ◌≤◌, ◌*◌, ◌^◌, ◌↔◌, ℕ, length, IfOk, IfSome, IsTrue, MatchOption};
ghost use Rattle.std.specs.Int.{bit_at};
ghost use Rattle.fabric_tables.specs.Cells.{tables_of};
ghost use Rattle.fabric_model.specs.declared.node.EndPort.{EndPort};
ghost use Rattle.fabric_model.specs.declared.node.Spot.{Spot};
ghost use Rattle.fabric_model.specs.Fabric.{IsFabric, switch_count};
ghost use Rattle.fabric_lane_routes.specs.declared.hop.LaneHop.TheVariants.{On};
ghost use Rattle.fabric_lane_routes.specs.LaneFound.{IsLeastLaneWitness};
ghost use Rattle.fabric_routes.specs.Witness.{IsFirst};
ghost use Rattle.fabric_lane_routes.specs.LaneWays.{IsWay};
ghost use Rattle.fabric_lane_routes.specs.Routing.{by_lanes, by_routing, hop_by};
ghost use Rattle.fabric_lane_witness.specs.Search.{AreOn, AreOnFor, GoesBy, IsAudienceFor, IsLeastAt, IsLeastLevel, IsReadyFor};
ghost use Rattle.fabric_lane_witness.specs.Search.{Takes, TakesAs, count_of, end_at};
ghost use Rattle.fabric_lane_witness.specs.Witness.{HasNoLaneWitness, lane_channel_of};

use crate::walk::goes_by;
use common_values::memory::OutOfMemory;
use fabric_lane_routes::hop::LaneHop;
use fabric_lane_routes::routing::LaneRouting;
use fabric_lane_routes::start::begin_at;
use fabric_lane_tables::lanes::LEVELS;
use fabric_model::fabric::Fabric;
use fabric_model::node::{EndPort, Spot};
use fabric_routes::audience::{Audience, audience_of};
use fabric_routes::trace::Mark;
use fabric_routes::witness::{comes, lesser};
use fabric_routes::word::{has_bit, with_bit};
use std::alloc::Global;

/// A channel: the link out of a port of a switch, on a lane.
#[derive(Clone, Copy)]
pub struct LaneSpot {
    /// The place of the switch.
    pub switch: u32,
    /// The port.
    pub port: u8,
    /// The lane.
    pub lane: u8,
}

/// A route.
#[derive(Clone, Copy)]
pub struct LaneWitness {
    /// The LID to which it leads.
    pub lid: u16,
    /// The end port that sends.
    pub source: EndPort,
    /// The service level.
    pub level: u8,
}

// What is sought: the routes to a LID that take a channel and then, directly, the next one; who sends to the LID; and the
// levels, as bits, with which what goes by the channel goes on by the next one.
#[derive(Clone, Copy)]
struct Sought {
    lid: usize,
    audience: Audience,
    channel: LaneSpot,
    next: LaneSpot,
    on: u64,
}

// The end ports of adapters and routers, or those of switches.
#[derive(Clone, Copy)]
enum Kind {
    Hosts,
    Switches,
}

impl Kind {
    // How many a fabric has.
    fn count(self, fabric: &Fabric) -> usize
        ensures count { result ≡ count_of fabric.now self }
        ensures few { result < 2 ^ 16 }
    {
        match self {
            Kind::Hosts => fabric.ends(),
            Kind::Switches => fabric.switches(),
        }
    }

    // The one of a place.
    fn end_port(self, place: u32) -> EndPort
        ensures { result ≡ end_at self place }
    {
        match self {
            Kind::Hosts => EndPort::Host(place),
            Kind::Switches => EndPort::Switch(place),
        }
    }
}

// Whether a switch sends by the port and on the lane of a channel.
fn is_by(does: LaneHop, channel: LaneSpot) -> bool
    ensures { IsTrue result ↔ ((after : Spot) × (does ≡ On channel.port channel.lane after)) }
{
    match does {
        LaneHop::On(port, lane, _) => port == channel.port && lane == channel.lane,
        LaneHop::Arrive => false,
        LaneHop::Stop(_) => false,
        LaneHop::Discard => false,
    }
}

// The port of a switch to which the link of a channel leads, if what goes to a LID leaves its switch by it.
// Blocks have 64 LIDs.
fn comes_out(routing: &LaneRouting<'_>, lid: usize, channel: LaneSpot) -> Option<Spot>
    requires lid { lid < 64 * routing.now.cells.now.blocks }
    requires channel { channel.switch < switch_count routing.now.fabric.now }
    ensures way { MatchOption result
        ((spot : Spot) → IsWay routing.now.fabric.now (tables_of routing.now.cells.now) lid channel.switch channel.port spot → ⊥)
        (IsWay routing.now.fabric.now (tables_of routing.now.cells.now) lid channel.switch channel.port) }
    ensures within { IfSome result (λ spot. spot.switch < switch_count routing.now.fabric.now) }
{
    let Some(way) = routing.find_way(channel.switch as usize, lid / 64, lid % 64) else {
        return None;
    };
    if way.port != channel.port {
        return None;
    }
    Some(way.next)
}

// The levels with which what goes to a LID and leaves a switch by the link of a channel goes on by the next channel, as
// bits.
fn levels_on(routing: &LaneRouting<'_>, lid: usize, channel: LaneSpot, next: LaneSpot) -> u64
    requires lid { lid < 64 * routing.now.cells.now.blocks }
    requires channel { channel.switch < switch_count routing.now.fabric.now }
    requires next { next.switch < switch_count routing.now.fabric.now }
    ensures { by_lanes AreOn routing.now lid
        (lane_channel_of channel) (lane_channel_of next) result }
{
    let Some(spot) = comes_out(routing, lid, channel) else {
        return 0;
    };
    if spot.switch != next.switch {
        return 0;
    }
    let mut word = 0u64;
    'levels: for level in 0..LEVELS {
        if is_by(routing.lane_hop_at(level, lid, spot), next) {
            word = with_bit(word, level);
        }
    }
    word
}

// Whether a level is in a word and in that of what is sought, and what has it and goes to the LID goes by the channel, from
// a port of a switch on.
fn goes_with(
    routing: &LaneRouting<'_>,
    level: usize,
    with: u64,
    sought: Sought,
    start: Spot,
    seen: &mut [bool],
) -> bool
    requires level { level < 16 }
    requires lid { sought.lid < 64 * routing.now.cells.now.blocks }
    requires start { start.switch < switch_count routing.now.fabric.now }
    requires seen { length seen.old ≡ switch_count routing.now.fabric.now }
    ensures { IsTrue result ↔ ((bit_at with level ≡ 1) × (bit_at sought.on level ≡ 1)
        × GoesBy (hop_by routing.now level sought.lid) start
        (lane_channel_of sought.channel)) }
{
    if !has_bit(with, level) {
        return false;
    }
    if !has_bit(sought.on, level) {
        return false;
    }
    goes_by(routing, level, sought.lid, sought.channel, start, seen)
}

// The least level with which the route of an end port to the LID takes the channel and then, directly, the next one. Only
// the routes that come to the switch of the channel on one lane are followed.
fn least_level(
    routing: &LaneRouting<'_>,
    sought: Sought,
    marks: &mut [Mark],
    path: &mut [u32],
    seen: &mut [bool],
    source: EndPort,
) -> Option<u8>
    requires few { switch_count routing.now.fabric.now ≤ 2 ^ 14 }
    requires lid { sought.lid < 64 * routing.now.cells.now.blocks }
    requires on { by_lanes AreOnFor routing.now sought }
    requires audience { IsAudienceFor routing.now sought }
    requires room { switch_count routing.now.fabric.now ≤ length path.old }
    requires seen { length seen.old ≡ switch_count routing.now.fabric.now }
    requires ready { IsReadyFor routing.now.fabric.now (tables_of routing.now.cells.now) sought marks.old }
    ensures ready { IsReadyFor routing.now.fabric.now (tables_of routing.now.cells.now) sought marks.new }
    ensures level { MatchOption result (by_routing TakesAs routing.now sought source → ⊥)
        (by_routing IsLeastLevel routing.now sought.lid
        (lane_channel_of sought.channel) (lane_channel_of sought.next) source) }
{
    let via = sought.channel.switch;
    if !comes(
        routing.fabric,
        routing.cells,
        sought.audience,
        sought.lid,
        via,
        marks,
        path,
        source,
    ) {
        return None;
    }
    let start = begin_at(routing.fabric, source)?;
    let with = u64::from(routing.levels.levels(source, sought.lid));
    'levels: for level in 0..LEVELS {
        if goes_with(routing, level, with, sought, start, seen) {
            return Some(level as u8);
        }
    }
    None
}

// Whether it takes the two with some level.
fn takes(
    routing: &LaneRouting<'_>,
    sought: Sought,
    marks: &mut [Mark],
    path: &mut [u32],
    seen: &mut [bool],
    source: EndPort,
) -> bool
    requires few { switch_count routing.now.fabric.now ≤ 2 ^ 14 }
    requires lid { sought.lid < 64 * routing.now.cells.now.blocks }
    requires on { by_lanes AreOnFor routing.now sought }
    requires audience { IsAudienceFor routing.now sought }
    requires room { switch_count routing.now.fabric.now ≤ length path.old }
    requires seen { length seen.old ≡ switch_count routing.now.fabric.now }
    requires ready { IsReadyFor routing.now.fabric.now (tables_of routing.now.cells.now) sought marks.old }
    ensures ready { IsReadyFor routing.now.fabric.now (tables_of routing.now.cells.now) sought marks.new }
    ensures takes { IsTrue result ↔ by_routing TakesAs routing.now sought source }
{
    match least_level(routing, sought, marks, path, seen, source) {
        Some(_) => true,
        None => false,
    }
}

// The first of the end ports of a kind, which stand by rising GUID, whose route does.
fn first_of_kind(
    routing: &LaneRouting<'_>,
    sought: Sought,
    marks: &mut [Mark],
    path: &mut [u32],
    seen: &mut [bool],
    kind: Kind,
) -> Option<u32>
    requires few { switch_count routing.now.fabric.now ≤ 2 ^ 14 }
    requires lid { sought.lid < 64 * routing.now.cells.now.blocks }
    requires on { by_lanes AreOnFor routing.now sought }
    requires audience { IsAudienceFor routing.now sought }
    requires room { switch_count routing.now.fabric.now ≤ length path.old }
    requires seen { length seen.old ≡ switch_count routing.now.fabric.now }
    requires ready { IsReadyFor routing.now.fabric.now (tables_of routing.now.cells.now) sought marks.old }
    ensures ready { IsReadyFor routing.now.fabric.now (tables_of routing.now.cells.now) sought marks.new }
    ensures first { MatchOption result
        ((place : ℕ) → by_routing TakesAs routing.now sought (end_at kind place) → ⊥)
        (IsFirst (λ place. by_routing TakesAs routing.now sought (end_at kind place))) }
{
    'places: for place in 0..kind.count(routing.fabric) {
        let source = kind.end_port(place as u32);
        if takes(routing, sought, marks, path, seen, source) {
            return Some(place as u32);
        }
    }
    None
}

// The end port of least GUID whose route does, and its least level.
fn first_of_all(
    routing: &LaneRouting<'_>,
    sought: Sought,
    marks: &mut [Mark],
    path: &mut [u32],
    seen: &mut [bool],
) -> Option<(EndPort, u8)>
    requires few { switch_count routing.now.fabric.now ≤ 2 ^ 14 }
    requires lid { sought.lid < 64 * routing.now.cells.now.blocks }
    requires on { by_lanes AreOnFor routing.now sought }
    requires audience { IsAudienceFor routing.now sought }
    requires room { switch_count routing.now.fabric.now ≤ length path.old }
    requires seen { length seen.old ≡ switch_count routing.now.fabric.now }
    requires ready { IsReadyFor routing.now.fabric.now (tables_of routing.now.cells.now) sought marks.old }
    requires fabric { IsFabric routing.now.fabric.now }
    ensures { MatchOption result ((source : EndPort) → by_routing TakesAs routing.now sought source → ⊥)
        (λ found. by_routing IsLeastAt routing.now sought.lid
        (lane_channel_of sought.channel) (lane_channel_of sought.next) found.0 found.1) }
{
    let hosts = Kind::Hosts;
    let switches = Kind::Switches;
    let host = first_of_kind(routing, sought, marks, path, seen, hosts);
    let switch = first_of_kind(routing, sought, marks, path, seen, switches);
    let source = lesser(routing.fabric, host, switch)?;
    let level = least_level(routing, sought, marks, path, seen, source)?;
    Some((source, level))
}

// The same, in rooms of its own.
fn first_found(
    alloc: Global,
    routing: &LaneRouting<'_>,
    sought: Sought,
) -> Result<Option<(EndPort, u8)>, OutOfMemory>
    requires lid { sought.lid < 64 * routing.now.cells.now.blocks }
    requires on { by_lanes AreOnFor routing.now sought }
    requires audience { IsAudienceFor routing.now sought }
    ensures { IfOk result (λ found. MatchOption found ((source : EndPort) → by_routing TakesAs routing.now sought source → ⊥)
        (λ least. by_routing IsLeastAt routing.now sought.lid
        (lane_channel_of sought.channel) (lane_channel_of sought.next) least.0 least.1)) }
{
    let mut marks = vec![in alloc; Mark::New; routing.fabric.switches()]?;
    let mut path = vec![in alloc; 0u32; routing.fabric.switches()]?;
    let mut seen = vec![in alloc; false; routing.fabric.switches()]?;
    let found = first_of_all(routing, sought, &mut marks, &mut path, &mut seen);
    Ok(found)
}

// The end port of least GUID whose route to a LID with some level takes a channel and then, directly, another one; and its
// least level.
fn witness_at(
    alloc: Global,
    routing: &LaneRouting<'_>,
    lid: usize,
    channel: LaneSpot,
    next: LaneSpot,
) -> Result<Option<(EndPort, u8)>, OutOfMemory>
    requires lid { lid < 64 * routing.now.cells.now.blocks }
    requires channel { channel.switch < switch_count routing.now.fabric.now }
    requires next { next.switch < switch_count routing.now.fabric.now }
    ensures { IfOk result (λ found. MatchOption found
        ((source : EndPort) → by_routing Takes routing.now
        lid (lane_channel_of channel) (lane_channel_of next) source → ⊥)
        (λ least. by_routing IsLeastAt routing.now lid
        (lane_channel_of channel) (lane_channel_of next) least.0 least.1)) }
{
    let audience = audience_of(routing.fabric, routing.cells, routing.traffic, lid);
    if let Audience::Nobody = audience {
        return Ok(None);
    }
    let on = levels_on(routing, lid, channel, next);
    if on == 0 {
        return Ok(None);
    }
    let sought = Sought {
        lid,
        audience,
        channel,
        next,
        on,
    };
    let found = first_found(alloc, routing, sought)?;
    Ok(found)
}

/// The least LID, to it the end port of least GUID, and from that with the least level, whose route takes a channel and
/// then, directly, another one. There is none exactly if the channel does not depend on the other. The error is want of
/// memory alone.
pub fn find_lane_witness(
    alloc: Global,
    routing: &LaneRouting<'_>,
    channel: LaneSpot,
    next: LaneSpot,
) -> Result<Option<LaneWitness>, OutOfMemory>
    requires channel { channel.switch < switch_count routing.now.fabric.now }
    requires next { next.switch < switch_count routing.now.fabric.now }
    ensures { IfOk result (λ found. MatchOption found
        (by_routing HasNoLaneWitness routing.now
        (lane_channel_of channel) (lane_channel_of next))
        (λ w. by_routing IsLeastLaneWitness routing.now
        (lane_channel_of channel) (lane_channel_of next) w.lid w.source w.level)) }
{
    'lids: for lid in 0..64 * routing.cells.blocks() {
        let found = witness_at(alloc, routing, lid, channel, next)?;
        if let Some((source, level)) = found {
            let lid = lid as u16;
            return Ok(Some(LaneWitness { lid, source, level }));
        }
    }
    Ok(None)
}
