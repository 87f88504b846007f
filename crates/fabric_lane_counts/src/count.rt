//! How the routes of a traffic with service levels end, and how many do.

ghost use Rattle.std.specs.Prelude.{◌≡◌, ◌≢◌, ◌<◌, ◌≤◌, ◌+◌, ◌*◌, ◌^◌, ℕ, IfOk, None, Some};
ghost use Rattle.fabric_tables.specs.Cells.{tables_of};
ghost use Rattle.fabric_counts.specs.Steps.{IsEndPort, place_of};
ghost use Rattle.fabric_lane_counts.specs.Ends.{AreEnds, AreReady};
ghost use Rattle.fabric_lane_counts.specs.LaneCounts.{AreCountsOf, AreLaneCounts, lane_sum_of};
ghost use Rattle.fabric_lane_counts.specs.Steps.{AreCountsUntil, AreRooms, IsBefore, IsBeforeLevel, IsUpTo};
ghost use Rattle.fabric_lane_routes.specs.LaneRoutes.{begin_of};
ghost use Rattle.fabric_lane_routes.specs.Routing.{by_lanes, by_routing};
ghost use Rattle.fabric_model.specs.Fabric.{switch_count};
ghost use Rattle.fabric_routes.specs.Audience.{IsAudience};
ghost use Rattle.fabric_routes.specs.Routes.{Sends};
ghost use Rattle.fabric_lane_tables.specs.Levels.{levels_of};

use crate::alike::alike_counts;
use crate::counts::LaneCounts;
use crate::ends::Ends;
use crate::gone::put_gone;
use crate::keep::is_kept;
use crate::room::Rooms;
use crate::route::BegunRoute;
use crate::source::sender_begin;
use crate::sums::sum_levels;
use common_values::memory::OutOfMemory;
use fabric_counts::count::{count_routes, forget};
use fabric_counts::source::{end_port_at, end_ports, unowned_of};
use fabric_lane_routes::routing::LaneRouting;
use fabric_lane_tables::levels::Levels;
use fabric_model::node::{EndPort, Spot};
use fabric_routes::audience::{Audience, audience_of};
use fabric_routes::word::has_bit;
use std::alloc::Global;

// An end port that sends to a LID.
#[derive(Clone, Copy)]
struct Sender {
    // The LID.
    lid: u16,
    // The end port.
    source: EndPort,
    // The port of a switch by which its routes begin.
    start: Spot,
}

impl LaneCounts {
    // A route, if its level is one of some, as bits. How it ends with each level is known.
    fn add_told(&mut self, routing: &LaneRouting<'_>, told: u16, route: BegunRoute, ends: Ends)
        requires few { switch_count routing.now.fabric.now ≤ 2 ^ 14 }
        requires lid { route.lid < 64 * routing.now.cells.now.blocks }
        requires level { route.level < 16 }
        requires start { route.start.switch < switch_count routing.now.fabric.now }
        requires begins { begin_of routing.now.fabric.now route.source ≡ Some route.start }
        requires ends { by_lanes AreEnds routing.now route.lid route.start ends }
        requires all { self.old.routes ≡ self.old.arrived + lane_sum_of self.old.lost }
        requires unowned { self.old.unowned ≤ self.old.arrived }
        requires fits { self.old.routes < 2 ^ 40 }
        ensures all { self.new.routes ≡ self.new.arrived + lane_sum_of self.new.lost }
        ensures routes { self.new.routes ≤ self.old.routes + 1 }
        ensures silent { self.new.silent ≡ self.old.silent }
        ensures unowned { self.new.unowned ≤ self.new.arrived }
        ensures counts { levels_of routing.now.levels.now route.source route.lid ≡ told
            → Sends routing.now.fabric.now (tables_of routing.now.cells.now) routing.now.traffic route.lid route.source
            → by_lanes AreCountsOf routing.now (IsBefore routing.now route) self.old
            → by_lanes AreCountsOf routing.now (IsUpTo routing.now route) self.new }
    {
        if !has_bit(u64::from(told), usize::from(route.level)) {
            return;
        }
        self.add(routing, route, ends.with_level(route.level));
    }

    // The routes of an end port to a LID, with each level of some, as bits, one after the other. How they end is known.
    fn add_each(&mut self, routing: &LaneRouting<'_>, told: u16, sender: Sender, ends: Ends)
        requires few { switch_count routing.now.fabric.now ≤ 2 ^ 14 }
        requires lid { sender.lid < 64 * routing.now.cells.now.blocks }
        requires start { sender.start.switch < switch_count routing.now.fabric.now }
        requires begins { begin_of routing.now.fabric.now sender.source ≡ Some sender.start }
        requires ends { by_lanes AreEnds routing.now sender.lid sender.start ends }
        requires all { self.old.routes ≡ self.old.arrived + lane_sum_of self.old.lost }
        requires unowned { self.old.unowned ≤ self.old.arrived }
        requires fits { self.old.routes < 2 ^ 39 }
        ensures routes { self.new.routes ≤ self.old.routes + 16 }
        ensures silent { self.new.silent ≡ self.old.silent }
        ensures unowned { self.new.unowned ≤ self.new.arrived }
        ensures counts { levels_of routing.now.levels.now sender.source sender.lid ≡ told
            → Sends routing.now.fabric.now (tables_of routing.now.cells.now) routing.now.traffic sender.lid sender.source
            → by_lanes AreCountsOf routing.now (IsBeforeLevel routing.now sender.lid sender.source 0) self.old
            → by_lanes AreCountsOf routing.now (IsBeforeLevel routing.now sender.lid sender.source 16) self.new }
    {
        'levels: for level in 0..16u8 {
            let route = BegunRoute {
                lid: sender.lid,
                source: sender.source,
                level,
                start: sender.start,
            };
            self.add_told(routing, told, route, ends);
        }
    }

    // The routes of an end port to a LID, with each level of some, as bits, at once if all arrive.
    fn add_levels(&mut self, routing: &LaneRouting<'_>, told: u16, sender: Sender, ends: Ends)
        requires few { switch_count routing.now.fabric.now ≤ 2 ^ 14 }
        requires lid { sender.lid < 64 * routing.now.cells.now.blocks }
        requires start { sender.start.switch < switch_count routing.now.fabric.now }
        requires begins { begin_of routing.now.fabric.now sender.source ≡ Some sender.start }
        requires some { told ≢ 0 }
        requires ends { by_lanes AreEnds routing.now sender.lid sender.start ends }
        requires all { self.old.routes ≡ self.old.arrived + lane_sum_of self.old.lost }
        requires unowned { self.old.unowned ≤ self.old.arrived }
        requires fits { self.old.routes < 2 ^ 39 }
        ensures routes { self.new.routes ≤ self.old.routes + 16 }
        ensures silent { self.new.silent ≡ self.old.silent }
        ensures unowned { self.new.unowned ≤ self.new.arrived }
        ensures counts { levels_of routing.now.levels.now sender.source sender.lid ≡ told
            → Sends routing.now.fabric.now (tables_of routing.now.cells.now) routing.now.traffic sender.lid sender.source
            → by_lanes AreCountsOf routing.now (IsBeforeLevel routing.now sender.lid sender.source 0) self.old
            → by_lanes AreCountsOf routing.now (IsBeforeLevel routing.now sender.lid sender.source 16) self.new }
    {
        match ends.all_arrive(told) {
            Some(switches) => {
                let routes = u64::from(told.count_ones());
                let unowned = unowned_of(routing.fabric, sender.lid as usize, routes);
                self.add_arrived(routes, unowned, switches);
            }
            None => self.add_each(routing, told, sender, ends),
        }
    }

    // The routes of an end port to a LID, which has this audience, if it sends to it.
    fn add_source(
        &mut self,
        routing: &LaneRouting<'_>,
        lid: u16,
        audience: Audience,
        rooms: &mut Rooms,
        source: EndPort,
    )
        requires few { switch_count routing.now.fabric.now ≤ 2 ^ 14 }
        requires lid { lid < 64 * routing.now.cells.now.blocks }
        requires audience { IsAudience routing.now.fabric.now (tables_of routing.now.cells.now) routing.now.traffic lid
            audience }
        requires ready { by_lanes AreReady routing.now lid rooms.old }
        requires source { IsEndPort routing.now.fabric.now source }
        requires low { place_of routing.now.fabric.now source ≤ 2 ^ 17 }
        requires counts { by_routing AreCountsUntil routing.now lid (place_of routing.now.fabric.now source) 0
            self.old }
        ensures ready { by_lanes AreReady routing.now lid rooms.new }
        ensures counts { by_routing AreCountsUntil routing.now lid (place_of routing.now.fabric.now source + 1) 0
            self.new }
    {
        let target = lid as usize;
        let Some(start) = sender_begin(routing.fabric, audience, target, source) else {
            return;
        };
        let told = routing.levels.levels(source, target);
        if told == 0 {
            self.silent += 1;
            return;
        }
        let ends = rooms.ends_from(routing, lid, start);
        self.add_levels(routing, told, Sender { lid, source, start }, ends);
    }

    // The routes of all end ports to a LID, which has this audience, one after the other.
    fn with_sources(
        self,
        routing: &LaneRouting<'_>,
        lid: u16,
        audience: Audience,
        rooms: &mut Rooms,
    ) -> LaneCounts
        requires few { switch_count routing.now.fabric.now ≤ 2 ^ 14 }
        requires lid { lid < 64 * routing.now.cells.now.blocks }
        requires audience { IsAudience routing.now.fabric.now (tables_of routing.now.cells.now) routing.now.traffic lid
            audience }
        requires rooms { AreRooms (switch_count routing.now.fabric.now) rooms.old }
        requires counts { by_routing AreCountsUntil routing.now lid 0 0 self }
        ensures rooms { AreRooms (switch_count routing.now.fabric.now) rooms.new }
        ensures counts { by_routing AreCountsUntil routing.now (lid + 1) 0 0 result }
    {
        forget(&mut rooms.marks);
        put_gone(routing, lid, &mut rooms.gone);
        let mut counts = self;
        'places: for place in 0..end_ports(routing.fabric) {
            let source = end_port_at(routing.fabric, place);
            counts.add_source(routing, lid, audience, rooms, source);
        }
        counts
    }

    // The routes to a LID.
    fn with_lid(self, routing: &LaneRouting<'_>, lid: u16, rooms: &mut Rooms) -> LaneCounts
        requires few { switch_count routing.now.fabric.now ≤ 2 ^ 14 }
        requires lid { lid < 64 * routing.now.cells.now.blocks }
        requires rooms { AreRooms (switch_count routing.now.fabric.now) rooms.old }
        requires counts { by_routing AreCountsUntil routing.now lid 0 0 self }
        ensures rooms { AreRooms (switch_count routing.now.fabric.now) rooms.new }
        ensures counts { by_routing AreCountsUntil routing.now (lid + 1) 0 0 result }
    {
        let target = lid as usize;
        let audience = audience_of(routing.fabric, routing.cells, routing.traffic, target);
        match audience {
            Audience::Nobody => self,
            _ => self.with_sources(routing, lid, audience, rooms),
        }
    }
}

// The counts of the routes to all LIDs.
fn count_lids(routing: &LaneRouting<'_>, rooms: &mut Rooms) -> LaneCounts
    requires few { switch_count routing.now.fabric.now ≤ 2 ^ 14 }
    requires rooms { AreRooms (switch_count routing.now.fabric.now) rooms.old }
    ensures counts { by_routing AreCountsUntil routing.now (64 * routing.now.cells.now.blocks) 0 0 result }
    ensures low { routing.now.cells.now.blocks ≤ 1024 }
    ensures past { (switch lid : ℕ) → 64 * routing.now.cells.now.blocks ≤ lid
        → tables_of routing.now.cells.now switch lid ≡ None }
{
    let mut counts = LaneCounts::none();
    'lids: for lid in 0..64 * routing.cells.blocks() {
        counts = counts.with_lid(routing, lid as u16, rooms);
    }
    counts
}

// The counts by the routes of each end port to each LID.
fn count_each(alloc: Global, routing: &LaneRouting<'_>) -> Result<LaneCounts, OutOfMemory>
    ensures counts { IfOk result (by_routing AreLaneCounts routing.now) }
    ensures few { IfOk result (λ counts. lane_sum_of counts.lost < 2 ^ 64) }
{
    let mut rooms = Rooms::new(alloc, routing.fabric.switches())?;
    Ok(count_lids(routing, &mut rooms))
}

// The counts if all end ports send with the same levels, as bits.
fn count_alike(
    alloc: Global,
    routing: &LaneRouting<'_>,
    told: u16,
) -> Result<LaneCounts, OutOfMemory>
    requires { routing.now.levels.now ≡ Levels.Same told }
    ensures counts { IfOk result (by_routing AreLaneCounts routing.now) }
    ensures few { IfOk result (λ counts. lane_sum_of counts.lost < 2 ^ 64) }
{
    if !is_kept(routing.fabric, routing.lanes, u64::from(told)) {
        return count_each(alloc, routing);
    }
    let counts = count_routes(alloc, routing.fabric, routing.cells, routing.traffic)?;
    Ok(alike_counts(told, &counts))
}

// The counts if each end port and LID have levels of their own. They are known at once if nothing can be
// discarded, all arrive on one lane, and each pair has a level.
fn count_told(alloc: Global, routing: &LaneRouting<'_>) -> Result<LaneCounts, OutOfMemory>
    ensures counts { IfOk result (by_routing AreLaneCounts routing.now) }
    ensures few { IfOk result (λ counts. lane_sum_of counts.lost < 2 ^ 64) }
{
    if !is_kept(routing.fabric, routing.lanes, 0xFFFF) {
        return count_each(alloc, routing);
    }
    let counts = count_routes(alloc, routing.fabric, routing.cells, routing.traffic)?;
    let sums = sum_levels(alloc, routing)?;
    match sums.counts(&counts) {
        Some(all) => Ok(all),
        None => count_each(alloc, routing),
    }
}

/// How many routes of a traffic with service levels there are, each level of an end port and a LID a route of its own; how
/// many arrive, how many of these go to LIDs that nobody owns, through how many switches the longest goes; those that do not
/// arrive, by cause: of each the least and where it is lost; and how many pairs of an end port and a LID have no level. The
/// error is out of memory.
pub fn count_lane_routes(
    alloc: Global,
    routing: &LaneRouting<'_>,
) -> Result<LaneCounts, OutOfMemory>
    ensures counts { IfOk result (by_routing AreLaneCounts routing.now) }
    ensures few { IfOk result (λ counts. lane_sum_of counts.lost < 2 ^ 64) }
{
    match routing.levels {
        Levels::Same(told) => count_alike(alloc, routing, *told),
        _ => count_told(alloc, routing),
    }
}
