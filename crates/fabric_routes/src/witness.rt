//! Finds the route by which a channel depends on another.

ghost use Rattle.std.specs.Prelude.{◌≡◌, ◌<◌, ◌≤◌, ◌*◌, ◌^◌, ◌↔◌, ℕ, length, IfOk, IsTrue, MatchOption};
ghost use Rattle.fabric_model.specs.declared.node.EndPort.{EndPort};
ghost use Rattle.fabric_model.specs.declared.node.EndPort.TheVariants as port;
ghost use Rattle.fabric_model.specs.Fabric.{IsFabric, switch_count};
ghost use Rattle.fabric_tables.specs.Cells.{tables_of};
ghost use Rattle.fabric_routes.specs.Found.{IsLeastWitness, channel_of};
ghost use Rattle.fabric_routes.specs.Finding.{HasNoWitness};
ghost use Rattle.fabric_routes.specs.Trace.{IsReady, hop_to, way};
ghost use Rattle.fabric_routes.specs.Witness.{ComesFor, GoesBy, IsFirst, IsFirstSource, IsNextBy};
ghost use Rattle.fabric_routes.specs.Witness.{IsLesser, IsLesserOf, IsLeastAt, NoSourceTakes};

use crate::audience::{Audience, audience_of, sender_start};
use crate::hop::{Hop, Outcome, hop_at};
use crate::trace::{Mark, Target, trace};
use common_values::memory::OutOfMemory;
use fabric_model::fabric::Fabric;
use fabric_model::node::{EndPort, Spot};
use fabric_model::traffic::Traffic;
use fabric_tables::cells::Cells;
use std::alloc::Global;

/// A route.
#[derive(Clone, Copy)]
pub struct Witness {
    /// The LID to which it leads.
    pub lid: u16,
    /// The end port that sends.
    pub source: EndPort,
}

// To which switch another one sends what goes to a LID, if it does so out of this port.
fn next_by(fabric: &Fabric, cells: &Cells, lid: usize, channel: Spot) -> Option<u32>
    requires same { switch_count fabric.now ≡ cells.now.switches }
    requires lid { lid < 64 * cells.now.blocks }
    requires channel { channel.switch < switch_count fabric.now }
    ensures { IsNextBy fabric.now (tables_of cells.now) lid channel result }
{
    match hop_at(fabric, cells, channel.switch as usize, lid) {
        Hop::On(port, next) => {
            if port == channel.port {
                Some(next)
            } else {
                None
            }
        }
        Hop::Arrive => None,
        Hop::Stop(_) => None,
    }
}

// Whether what comes to the switch of a channel goes by it and then by the next one.
fn goes_by(fabric: &Fabric, cells: &Cells, lid: usize, channel: Spot, next: Spot) -> bool
    requires same { switch_count fabric.now ≡ cells.now.switches }
    requires lid { lid < 64 * cells.now.blocks }
    requires channel { channel.switch < switch_count fabric.now }
    requires next { next.switch < switch_count fabric.now }
    ensures { IsTrue result ↔ GoesBy fabric.now (tables_of cells.now) lid (channel_of channel) (channel_of next) }
{
    match next_by(fabric, cells, lid, channel) {
        Some(there) => there == next.switch && next_by(fabric, cells, lid, next).is_some(),
        None => false,
    }
}

/// Reports whether `source` sends to `lid`, whose audience is `audience`, and its route comes to `via`.
///
/// The caller must pass marks of routes to `lid` that are followed until `via`, in `path` a place for each switch as
/// working space, and a `lid` in range.
pub fn comes(
    fabric: &Fabric,
    cells: &Cells,
    audience: Audience,
    lid: usize,
    via: u32,
    marks: &mut [Mark],
    path: &mut [u32],
    source: EndPort,
) -> bool
    requires same { switch_count fabric.now ≡ cells.now.switches }
    requires few { switch_count fabric.now ≤ 2 ^ 14 }
    requires lid { lid < 64 * cells.now.blocks }
    requires room { switch_count fabric.now ≤ length path.old }
    requires ready { IsReady (hop_to fabric.now (tables_of cells.now) (way lid via)) (switch_count fabric.now)
        marks.old }
    ensures ready { IsReady (hop_to fabric.now (tables_of cells.now) (way lid via)) (switch_count fabric.now) marks.new }
    ensures comes { IsTrue result ↔ ComesFor fabric.now (tables_of cells.now) audience lid via source }
{
    let Some(start) = sender_start(fabric, audience, lid, source) else {
        return false;
    };
    let target = Target {
        block: lid / 64,
        bit: lid % 64,
        until: Some(via),
    };
    match trace(fabric, cells, target, marks, path, start as usize) {
        Outcome::Arrives(_) => true,
        Outcome::Stops(_) => false,
        Outcome::Loops => false,
    }
}

// The end port of an adapter or router of least GUID whose route to a LID comes to a switch.
fn first_host(
    fabric: &Fabric,
    cells: &Cells,
    audience: Audience,
    lid: usize,
    via: u32,
    marks: &mut [Mark],
    path: &mut [u32],
) -> Option<u32>
    requires same { switch_count fabric.now ≡ cells.now.switches }
    requires few { switch_count fabric.now ≤ 2 ^ 14 }
    requires lid { lid < 64 * cells.now.blocks }
    requires room { switch_count fabric.now ≤ length path.old }
    requires ready { IsReady (hop_to fabric.now (tables_of cells.now) (way lid via)) (switch_count fabric.now)
        marks.old }
    ensures ready { IsReady (hop_to fabric.now (tables_of cells.now) (way lid via)) (switch_count fabric.now) marks.new }
    ensures first { MatchOption result
        ((end : ℕ) → ComesFor fabric.now (tables_of cells.now) audience lid via (port.Host end) → ⊥)
        (IsFirst (λ end. ComesFor fabric.now (tables_of cells.now) audience lid via (port.Host end))) }
{
    'ends: for end in 0..fabric.ends() {
        let source = EndPort::Host(end as u32);
        if comes(fabric, cells, audience, lid, via, marks, path, source) {
            return Some(end as u32);
        }
    }
    None
}

// The same of the switches.
fn first_switch(
    fabric: &Fabric,
    cells: &Cells,
    audience: Audience,
    lid: usize,
    via: u32,
    marks: &mut [Mark],
    path: &mut [u32],
) -> Option<u32>
    requires same { switch_count fabric.now ≡ cells.now.switches }
    requires few { switch_count fabric.now ≤ 2 ^ 14 }
    requires lid { lid < 64 * cells.now.blocks }
    requires room { switch_count fabric.now ≤ length path.old }
    requires ready { IsReady (hop_to fabric.now (tables_of cells.now) (way lid via)) (switch_count fabric.now)
        marks.old }
    ensures { MatchOption result
        ((switch : ℕ) → ComesFor fabric.now (tables_of cells.now) audience lid via (port.Switch switch) → ⊥)
        (IsFirst (λ switch. ComesFor fabric.now (tables_of cells.now) audience lid via (port.Switch switch))) }
{
    'switches: for switch in 0..fabric.switches() {
        let source = EndPort::Switch(switch as u32);
        if comes(fabric, cells, audience, lid, via, marks, path, source) {
            return Some(switch as u32);
        }
    }
    None
}

// Of an end port of an adapter or router and a switch the one of lesser GUID.
fn lesser_of(fabric: &Fabric, end: u32, place: u32) -> Option<EndPort>
    ensures { IsLesserOf fabric.now end place result }
{
    if fabric.guid(EndPort::Switch(place)) < fabric.guid(EndPort::Host(end)) {
        Some(EndPort::Switch(place))
    } else {
        Some(EndPort::Host(end))
    }
}

/// Returns whichever of an end port of an adapter or router, `host`, and a switch has the lower GUID. Either can be
/// missing.
pub fn lesser(fabric: &Fabric, host: Option<u32>, switch: Option<u32>) -> Option<EndPort>
    ensures { IsLesser fabric.now host switch result }
{
    match host {
        None => match switch {
            None => None,
            Some(place) => Some(EndPort::Switch(place)),
        },
        Some(end) => match switch {
            None => Some(EndPort::Host(end)),
            Some(place) => lesser_of(fabric, end, place),
        },
    }
}

// The end port of least GUID whose route to a LID comes to a switch.
fn first_of_all(
    fabric: &Fabric,
    cells: &Cells,
    audience: Audience,
    lid: usize,
    via: u32,
    marks: &mut [Mark],
    path: &mut [u32],
) -> Option<EndPort>
    requires same { switch_count fabric.now ≡ cells.now.switches }
    requires few { switch_count fabric.now ≤ 2 ^ 14 }
    requires lid { lid < 64 * cells.now.blocks }
    requires room { switch_count fabric.now ≤ length path.old }
    requires ready { IsReady (hop_to fabric.now (tables_of cells.now) (way lid via)) (switch_count fabric.now)
        marks.old }
    requires fabric { IsFabric fabric.now }
    ensures { MatchOption result
        ((source : EndPort) → ComesFor fabric.now (tables_of cells.now) audience lid via source → ⊥)
        (IsFirstSource fabric.now (ComesFor fabric.now (tables_of cells.now) audience lid via)) }
{
    let host = first_host(fabric, cells, audience, lid, via, marks, path);
    let switch = first_switch(fabric, cells, audience, lid, via, marks, path);
    lesser(fabric, host, switch)
}

// The same, in rooms of its own.
fn first_source(
    alloc: Global,
    fabric: &Fabric,
    cells: &Cells,
    audience: Audience,
    lid: usize,
    via: u32,
) -> Result<Option<EndPort>, OutOfMemory>
    requires same { switch_count fabric.now ≡ cells.now.switches }
    requires lid { lid < 64 * cells.now.blocks }
    ensures { IfOk result (λ found. MatchOption found
        ((source : EndPort) → ComesFor fabric.now (tables_of cells.now) audience lid via source → ⊥)
        (IsFirstSource fabric.now (ComesFor fabric.now (tables_of cells.now) audience lid via))) }
{
    let mut marks = vec![in alloc; Mark::New; fabric.switches()]?;
    let mut path = vec![in alloc; 0u32; fabric.switches()]?;
    let found = first_of_all(fabric, cells, audience, lid, via, &mut marks, &mut path);
    Ok(found)
}

// The end port of least GUID whose route to a LID takes a channel and then, directly, another one.
fn witness_at(
    alloc: Global,
    fabric: &Fabric,
    cells: &Cells,
    traffic: Traffic,
    lid: usize,
    channel: Spot,
    next: Spot,
) -> Result<Option<EndPort>, OutOfMemory>
    requires same { switch_count fabric.now ≡ cells.now.switches }
    requires lid { lid < 64 * cells.now.blocks }
    requires channel { channel.switch < switch_count fabric.now }
    requires next { next.switch < switch_count fabric.now }
    ensures { IfOk result (λ found. MatchOption found
        (NoSourceTakes fabric.now (tables_of cells.now) traffic lid (channel_of channel) (channel_of next))
        (IsLeastAt fabric.now (tables_of cells.now) traffic lid (channel_of channel) (channel_of next))) }
{
    if !goes_by(fabric, cells, lid, channel, next) {
        return Ok(None);
    }
    let audience = audience_of(fabric, cells, traffic, lid);
    if let Audience::Nobody = audience {
        return Ok(None);
    }
    let found = first_source(alloc, fabric, cells, audience, lid, channel.switch)?;
    Ok(found)
}

/// Returns the least route that takes `channel` and then, directly, `next`: to the lowest LID, and of the routes to it
/// the one from the end port of lowest GUID. Returns `None` if `channel` does not depend on `next`.
///
/// The caller must pass tables that have all switches and all owned LIDs of the fabric, and channels out of its
/// switches.
///
/// # Errors
/// `OutOfMemory`.
pub fn find_witness(
    alloc: Global,
    fabric: &Fabric,
    cells: &Cells,
    traffic: Traffic,
    channel: Spot,
    next: Spot,
) -> Result<Option<Witness>, OutOfMemory>
    requires same { switch_count fabric.now ≡ cells.now.switches }
    requires owners { length fabric.now.owners ≤ 64 * cells.now.blocks }
    requires channel { channel.switch < switch_count fabric.now }
    requires next { next.switch < switch_count fabric.now }
    ensures { IfOk result (λ found. MatchOption found
        (HasNoWitness fabric.now (tables_of cells.now) traffic (channel_of channel) (channel_of next))
        (λ w. IsLeastWitness fabric.now (tables_of cells.now) traffic (channel_of channel) (channel_of next)
        w.lid w.source)) }
{
    'lids: for lid in 0..64 * cells.blocks() {
        let found = witness_at(alloc, fabric, cells, traffic, lid, channel, next)?;
        if let Some(source) = found {
            let lid = lid as u16;
            return Ok(Some(Witness { lid, source }));
        }
    }
    Ok(None)
}
