//! One hop of a route, which waves, traces and witnesses share, and how a route ends.

ghost use Rattle.std.specs.Prelude.{◌≡◌, ◌<◌, ◌≤◌, ◌+◌, ◌*◌, ◌^◌, length};
ghost use Rattle.fabric_tables.specs.Cells.{tables_of};
ghost use Rattle.fabric_model.specs.Fabric.{owner_of, side_of, LeadsWithin, switch_count};
ghost use Rattle.fabric_routes.specs.Waves.{IsByLink};
ghost use Rattle.fabric_routes.specs.Routes.{hop, hop_by, hop_over, end_if, ends_at_host, ends_at_switch};

use fabric_model::fabric::Fabric;
use fabric_model::node::{EndPort, Side};
use fabric_tables::cells::Cells;

/// Why a route stops at a switch.
#[derive(Clone, Copy)]
pub enum Cause {
    /// The table has no port for the LID.
    Missing,
    /// The port is bare: it leads nowhere.
    Dead,
    /// The port leads to an end port that does not own the LID, though another one does. Port 0 is the switch itself.
    Wrong,
}

/// What a switch does with packets for a LID.
#[derive(Clone, Copy)]
pub enum Hop {
    /// It forwards them through this port, to the switch at this index.
    On(u8, u32),
    /// It delivers them to the owner of the LID, which can be its own port 0; if nobody owns the LID, to any end port.
    Arrive,
    /// It drops them, for this reason.
    Stop(Cause),
}

/// How a route ends, from a switch on.
#[derive(Clone, Copy)]
pub enum Outcome {
    /// It arrives, through this number of switches, including the first and the last.
    Arrives(u32),
    /// It stops, for this reason.
    Stops(Cause),
    /// It goes on for ever, because it revisits a switch.
    Loops,
}

/// Reports whether packets for `lid` arrive at `end`, an end port of an adapter or router: it owns `lid`, or nobody
/// does.
#[inline]
pub fn ends_at_host(fabric: &Fabric, lid: usize, end: u32) -> bool
    ensures { result ≡ ends_at_host (owner_of fabric.now lid) end }
{
    match fabric.owner(lid) {
        Some(EndPort::Host(own)) => own == end,
        Some(EndPort::Switch(_)) => false,
        None => true,
    }
}

/// Reports whether packets for `lid` arrive at `switch`: it owns `lid`, or nobody does.
#[inline]
pub fn ends_at_switch(fabric: &Fabric, lid: usize, switch: usize) -> bool
    ensures { result ≡ ends_at_switch (owner_of fabric.now lid) switch }
{
    match fabric.owner(lid) {
        Some(EndPort::Host(_)) => false,
        Some(EndPort::Switch(own)) => own as usize == switch,
        None => true,
    }
}

// The end of a route, where it arrives or at a wrong place.
#[inline]
fn end_of(arrives: bool) -> Hop
    ensures { result ≡ end_if arrives }
{
    if arrives {
        Hop::Arrive
    } else {
        Hop::Stop(Cause::Wrong)
    }
}

// The hop by a port that is not 0.
#[inline]
fn hop_by_side(fabric: &Fabric, switch: usize, lid: usize, port: u8, side: Side) -> Hop
    requires side { side ≡ side_of fabric.now switch port }
    requires within { LeadsWithin (switch_count fabric.now) side }
    ensures hop { result ≡ hop_over (owner_of fabric.now lid) port side }
    ensures link { IsByLink fabric.now switch result }
{
    match side {
        Side::Bare => Hop::Stop(Cause::Dead),
        Side::To(next, _) => Hop::On(port, next),
        Side::End(end) => end_of(ends_at_host(fabric, lid, end)),
    }
}

// The hop by what the table says.
#[inline]
fn hop_by_port(fabric: &Fabric, switch: usize, lid: usize, port: Option<u8>) -> Hop
    requires { switch < switch_count fabric.now }
    ensures hop { result ≡ hop_by fabric.now switch lid port }
    ensures link { IsByLink fabric.now switch result }
{
    match port {
        None => Hop::Stop(Cause::Missing),
        Some(0) => end_of(ends_at_switch(fabric, lid, switch)),
        Some(port) => hop_by_side(fabric, switch, lid, port, fabric.side(switch, port)),
    }
}

/// Returns what `switch` does with packets for LID 64 · `block` + `bit`. The caller must keep all three in range.
#[inline]
#[tactic(auto, unfolding(crate::specs::Routes::hop))]
pub fn find_hop(fabric: &Fabric, cells: &Cells, switch: usize, block: usize, bit: usize) -> Hop
    requires same { switch_count fabric.now ≡ cells.now.switches }
    requires switch { switch < switch_count fabric.now }
    requires block { block < cells.now.blocks }
    requires bit { bit < 64 }
    ensures hop { result ≡ hop fabric.now (tables_of cells.now) switch (64 * block + bit) }
    ensures link { IsByLink fabric.now switch result }
{
    let port = cells.port(switch, block, bit);
    hop_by_port(fabric, switch, 64 * block + bit, port)
}

/// Returns what `switch` does with packets for `lid`. The caller must keep both in range.
#[inline]
pub fn hop_at(fabric: &Fabric, cells: &Cells, switch: usize, lid: usize) -> Hop
    requires same { switch_count fabric.now ≡ cells.now.switches }
    requires switch { switch < switch_count fabric.now }
    requires lid { lid < 64 * cells.now.blocks }
    ensures hop { result ≡ hop fabric.now (tables_of cells.now) switch lid }
    ensures link { IsByLink fabric.now switch result }
{
    find_hop(fabric, cells, switch, lid / 64, lid % 64)
}
