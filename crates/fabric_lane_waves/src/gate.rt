//! Where routes begin: at the gates of switches.

ghost use Rattle.std.specs.Prelude.{◌≡◌, ◌<◌, ◌^◌, length, IfOk, IfSome, IsTrue, MatchOption};
ghost use Rattle.fabric_lane_tables.specs.Lanes.{lanes_of};
ghost use Rattle.fabric_routes.specs.Routes.{IsSource};
ghost use Rattle.fabric_lane_waves.specs.LaneGates.{AreAlike, AreGatesBelow, AreGatesOn, AreLastGates, AreMoreSpots, IsGateFor, IsGateOf};
ghost use Rattle.fabric_lane_waves.specs.LaneGates.{place_in, source_at, source_count};

use common_values::memory::OutOfMemory;
use fabric_lane_routes::routing::LaneRouting;
use fabric_lane_routes::start::begin_at;
use fabric_lane_tables::lanes::LaneRows;
use fabric_model::fabric::Fabric;
use fabric_model::node::{EndPort, Spot};
use fabric_routes::start::is_source;
use std::alloc::Global;

/// Where routes begin. One gate may serve several end ports: from their ports of a switch all goes on the
/// same lanes.
#[derive(Drop)]
pub struct Gates {
    /// The gates: ports of switches by which routes come in first.
    pub spots: Vec<Spot>,
    /// Of each end port the number of its gate, from 0; none if it does not send. End ports stand by their
    /// places, those of adapters and routers first.
    pub gates: Vec<Option<u32>>,
}

/// How many end ports there are, those of switches too.
pub fn sources(fabric: &Fabric) -> usize
    ensures count { result ≡ source_count fabric.now }
    ensures few { result < 2 ^ 17 }
{
    fabric.ends() + fabric.switches()
}

/// The end port of a place: those of adapters and routers stand first.
#[inline]
pub fn source_of(fabric: &Fabric, place: usize) -> EndPort
    requires { place < 2 ^ 17 }
    ensures { result ≡ source_at fabric.now place }
{
    let ends = fabric.ends();
    if place < ends {
        EndPort::Host(place as u32)
    } else {
        EndPort::Switch((place - ends) as u32)
    }
}

/// The place of an end port, if the fabric has it.
#[inline]
pub fn place_of_source(fabric: &Fabric, source: EndPort) -> Option<usize>
    ensures place { result ≡ place_in fabric.now source }
    ensures low { IfSome result (λ place. place < source_count fabric.now) }
{
    let ends = fabric.ends();
    match source {
        EndPort::Host(end) => {
            if (end as usize) < ends {
                return Some(end as usize);
            }
            None
        }
        EndPort::Switch(switch) => {
            if (switch as usize) < fabric.switches() {
                return Some(ends + switch as usize);
            }
            None
        }
    }
}

// Whether the same rows were told for what comes in by two ports of a switch: then all goes on the same lanes.
fn are_alike(lanes: &LaneRows, one: Spot, other: Spot) -> bool
    requires switch { one.switch < lanes.now.switches }
    requires same { one.switch ≡ other.switch }
    ensures { IsTrue result → AreAlike (lanes_of lanes.now) one other }
{
    let switch = one.switch as usize;
    'ports: for port in 0..lanes.most() + 1 {
        let here = lanes.told(switch, usize::from(one.port), port);
        let there = lanes.told(switch, usize::from(other.port), port);
        if here != there {
            return false;
        }
    }
    true
}

// The gate for a port: the last one of its switch, if it serves; else a new one.
fn gate_for(
    lanes: &LaneRows,
    spots: &mut Vec<Spot>,
    last: &mut [Option<u32>],
    spot: Spot,
) -> Result<u32, OutOfMemory>
    requires switch { spot.switch < lanes.now.switches }
    requires size { length last.old ≡ lanes.now.switches }
    requires few { length spots.old.items < 2 ^ 17 }
    requires last { AreLastGates spots.old.items last.old }
    ensures gate { IfOk result (IsGateFor (lanes_of lanes.now) spots.new.items spot) }
    ensures more { IfOk result (λ _. AreMoreSpots lanes.now.switches spots.old.items spots.new.items) }
    ensures last { IfOk result (λ _. AreLastGates spots.new.items last.new) }
{
    let switch = spot.switch as usize;
    if let Some(gate) = last[switch] {
        if are_alike(lanes, spots[gate as usize], spot) {
            return Ok(gate);
        }
    }
    let made = spots.len() as u32;
    spots.push(spot)?;
    last[switch] = Some(made);
    Ok(made)
}

// The gate of an end port, if it sends.
fn gate_of(
    routing: &LaneRouting<'_>,
    source: EndPort,
    spots: &mut Vec<Spot>,
    last: &mut [Option<u32>],
) -> Result<Option<u32>, OutOfMemory>
    requires size { length last.old ≡ routing.now.lanes.now.switches }
    requires few { length spots.old.items < 2 ^ 17 }
    requires last { AreLastGates spots.old.items last.old }
    ensures gate { IfOk result (λ gate. MatchOption gate
        (IsSource routing.now.fabric.now routing.now.traffic source → ⊥)
        (IsGateOf routing.now.fabric.now (lanes_of routing.now.lanes.now) routing.now.traffic spots.new.items source)) }
    ensures more { IfOk result (λ _. AreMoreSpots routing.now.lanes.now.switches spots.old.items spots.new.items) }
    ensures last { IfOk result (λ _. AreLastGates spots.new.items last.new) }
{
    if !is_source(routing.fabric, routing.traffic, source) {
        return Ok(None);
    }
    let Some(spot) = begin_at(routing.fabric, source) else {
        return Ok(None);
    };
    let gate = gate_for(routing.lanes, spots, last, spot)?;
    Ok(Some(gate))
}

// Puts the gates of all end ports.
fn put_gates(
    routing: &LaneRouting<'_>,
    spots: &mut Vec<Spot>,
    last: &mut [Option<u32>],
    gates: &mut [Option<u32>],
) -> Result<(), OutOfMemory>
    requires size { length last.old ≡ routing.now.lanes.now.switches }
    requires count { length gates.old ≡ source_count routing.now.fabric.now }
    requires none { length spots.old.items ≡ 0 }
    requires last { AreLastGates spots.old.items last.old }
    ensures { IfOk result (λ _. AreGatesBelow routing.now.fabric.now (lanes_of routing.now.lanes.now)
        routing.now.traffic (source_count routing.now.fabric.now) spots.new.items gates.new) }
{
    'sources: for place in 0..sources(routing.fabric) {
        let source = source_of(routing.fabric, place);
        let gate = gate_of(routing, source, spots, last)?;
        gates[place] = gate;
    }
    Ok(())
}

/// The gates of a routing.
pub fn find_gates(alloc: Global, routing: &LaneRouting<'_>) -> Result<Gates, OutOfMemory>
    ensures { IfOk result (AreGatesOn routing.now) }
{
    let mut spots = Vec::new(alloc);
    let mut last = vec![in alloc; None; routing.fabric.switches()]?;
    let mut gates = vec![in alloc; None; sources(routing.fabric)]?;
    put_gates(routing, &mut spots, &mut last, &mut gates)?;
    Ok(Gates { spots, gates })
}
