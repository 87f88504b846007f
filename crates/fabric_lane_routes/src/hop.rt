//! One hop of a route with a service level: the table gives the port, and both ports with the level give the lane.

ghost use Rattle.std.specs.Prelude.{◌≡◌, ◌<◌, ◌+◌, ◌*◌, ◌^◌};
ghost use Rattle.fabric_tables.specs.Cells.{TablesOf, tables_of};
ghost use Rattle.fabric_lane_tables.specs.Lanes.{lanes_of};
ghost use Rattle.fabric_model.specs.Fabric.{owner_of, switch_count};
ghost use Rattle.fabric_lane_routes.specs.LaneRoutes.{lane_hop, lane_hop_over, lane_end_if, on_lane};
ghost use Rattle.fabric_lane_routes.specs.LaneExits.{IsByLaneLink, IsExit, exit_of};
ghost use Rattle.fabric_lane_routes.specs.Routing.{hop_by};

use crate::routing::LaneRouting;
use fabric_lane_tables::lanes::{DISCARD, LaneRows};
use fabric_model::fabric::Fabric;
use fabric_model::node::{Side, Spot};
use fabric_routes::hop::{Cause, ends_at_host, ends_at_switch};
use fabric_tables::cells::Cells;

/// What a switch does with what came in by a port, has a service level and goes to a LID.
#[derive(Clone, Copy)]
pub enum LaneHop {
    /// It sends it out of this port, on this lane, to this port of a switch.
    On(u8, u8, Spot),
    /// It hands it to the owner of the LID, which may be its own port 0; if nobody owns the LID, to whichever end port.
    Arrive,
    /// It stops it, by this cause.
    Stop(Cause),
    /// It discards it: the port is not bare, and the lane is 15.
    Discard,
}

/// How a route ends, from a port of a switch on.
#[derive(Clone, Copy)]
pub enum LaneOutcome {
    /// It arrives, and goes through so many switches: the first one and the last one count.
    Arrives(u32),
    /// It stops, by this cause.
    Stops(Cause),
    /// It is discarded.
    Discards,
    /// It goes on for ever.
    Loops,
}

/// By which port a switch sends what goes to a LID.
#[derive(Clone, Copy)]
pub enum Exit {
    /// By none: its table has none for the LID.
    Nowhere,
    /// By its own port 0.
    Own,
    /// By this port, which is not 0; and where it leads. It may be bare.
    By(u8, Side),
}

// The end of a route, where it arrives or at a wrong place.
#[inline]
fn end_of(arrives: bool) -> LaneHop
    ensures { result ≡ lane_end_if arrives }
{
    if arrives {
        LaneHop::Arrive
    } else {
        LaneHop::Stop(Cause::Wrong)
    }
}

// What is sent out on a lane, which may discard it.
#[inline]
fn sent_on(lane: u8, does: LaneHop) -> LaneHop
    ensures { result ≡ on_lane lane does }
{
    if lane == DISCARD {
        LaneHop::Discard
    } else {
        does
    }
}

// The hop by a port that is not 0, on a lane.
#[inline]
fn hop_by_side(fabric: &Fabric, lid: usize, port: u8, lane: u8, side: Side) -> LaneHop
    ensures { result ≡ lane_hop_over (owner_of fabric.now lid) port lane side }
{
    match side {
        Side::Bare => LaneHop::Stop(Cause::Dead),
        Side::To(next, entry) => {
            let spot = Spot {
                switch: next,
                port: entry,
            };
            sent_on(lane, LaneHop::On(port, lane, spot))
        }
        Side::End(end) => sent_on(lane, end_of(ends_at_host(fabric, lid, end))),
    }
}

/// By which port a switch sends what goes to a LID of a block: one of 64, by its bit.
#[inline]
pub fn find_exit(fabric: &Fabric, cells: &Cells, switch: usize, block: usize, bit: usize) -> Exit
    requires same { switch_count fabric.now ≡ cells.now.switches }
    requires switch { switch < switch_count fabric.now }
    requires block { block < cells.now.blocks }
    requires bit { bit < 64 }
    ensures exit { result ≡ exit_of fabric.now switch (tables_of cells.now switch (64 * block + bit)) }
    ensures within { IsExit fabric.now switch result }
    ensures lid { 64 * block + bit < 2 ^ 16 }
{
    let port = cells.port(switch, block, bit);
    match port {
        None => Exit::Nowhere,
        Some(0) => Exit::Own,
        Some(port) => Exit::By(port, fabric.side(switch, port)),
    }
}

/// The hop of a switch for what came in by a port, has a level and goes to a LID, by its exit.
#[inline]
pub fn hop_through(
    fabric: &Fabric,
    lanes: &LaneRows,
    level: usize,
    lid: usize,
    at: Spot,
    exit: Exit,
) -> LaneHop
    requires lanes { switch_count fabric.now ≡ lanes.now.switches }
    requires level { level < 16 }
    requires at { at.switch < switch_count fabric.now }
    requires exit { IsExit fabric.now at.switch exit }
    ensures hop { (tables : TablesOf) → exit ≡ exit_of fabric.now at.switch (tables at.switch lid)
        → result ≡ lane_hop fabric.now tables (lanes_of lanes.now) level lid at }
    ensures link { IsByLaneLink fabric.now (lanes_of lanes.now) level at result }
{
    match exit {
        Exit::Nowhere => LaneHop::Stop(Cause::Missing),
        Exit::Own => end_of(ends_at_switch(fabric, lid, at.switch as usize)),
        Exit::By(port, side) => {
            let lane = lanes.lane(
                at.switch as usize,
                usize::from(at.port),
                usize::from(port),
                level,
            );
            hop_by_side(fabric, lid, port, lane, side)
        }
    }
}

impl LaneRouting<'_> {
    /// The hop of a switch for what came in by a port, has a level and goes to a LID of a block: one of 64, by its bit.
    #[inline]
    pub fn find_lane_hop(&self, level: usize, block: usize, bit: usize, at: Spot) -> LaneHop
        requires level { level < 16 }
        requires block { block < self.now.cells.now.blocks }
        requires bit { bit < 64 }
        requires at { at.switch < switch_count self.now.fabric.now }
        ensures hop { result ≡ hop_by self.now level (64 * block + bit) at }
        ensures link { IsByLaneLink self.now.fabric.now (lanes_of self.now.lanes.now) level at result }
    {
        let exit = find_exit(self.fabric, self.cells, at.switch as usize, block, bit);
        hop_through(self.fabric, self.lanes, level, 64 * block + bit, at, exit)
    }

    /// The hop of a switch for what came in by a port, has a level and goes to a LID.
    #[inline]
    pub fn lane_hop_at(&self, level: usize, lid: usize, at: Spot) -> LaneHop
        requires level { level < 16 }
        requires lid { lid < 64 * self.now.cells.now.blocks }
        requires at { at.switch < switch_count self.now.fabric.now }
        ensures hop { result ≡ hop_by self.now level lid at }
        ensures link { IsByLaneLink self.now.fabric.now (lanes_of self.now.lanes.now) level at result }
    {
        self.find_lane_hop(level, lid / 64, lid % 64, at)
    }
}
