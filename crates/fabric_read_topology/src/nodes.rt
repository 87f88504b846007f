//! The nodes among facts.

ghost use Rattle.std.specs.Prelude.{◌≡◌, ◌≤◌, [], IfErr, IfOk};
ghost use Rattle.common_lines.specs.Stops.{IsStep};
ghost use Rattle.fabric_model.specs.Nodes.{AddsEnd, AddsSwitch, IsRefusedEnd, IsRefusedSwitch};
ghost use Rattle.fabric_read_topology.specs.Facts.{AddsNode, AreLids, IsFaultyNode, IsNodeCause, node_stop};
ghost use Rattle.fabric_read_topology.specs.Facts.{range_of, switch_of};
ghost use Rattle.fabric_read_topology.specs.Fabrics.{no_nodes};

use crate::base::{base_of, unset_end};
use crate::cause::FabricCause;
use crate::lines::Takes;
use common_lines::stop::Stop;
use common_values::memory::OutOfMemory;
use fabric_model::node::{LidRange, NodeFault, Switch};
use fabric_model::nodes::Nodes;
use fabric_topology::fact::Fact;
use indexmap::IndexSet;
use std::alloc::Global;

/// The nodes of the facts taken so far.
#[derive(Drop)]
pub struct ToldNodes {
    /// The nodes.
    pub nodes: Nodes,
    /// The GUIDs of those that have the base LID 65535.
    pub unset: IndexSet<u64>,
}

impl ToldNodes {
    /// Creates an empty set of nodes.
    ///
    /// # Errors
    /// `OutOfMemory`.
    pub fn new(alloc: Global) -> Result<ToldNodes, OutOfMemory>
        ensures nodes { IfOk result (λ told. told.nodes ≡ no_nodes) }
        ensures unset { IfOk result (λ told. told.unset.keys ≡ []) }
    {
        Ok(ToldNodes {
            nodes: Nodes::new(alloc)?,
            unset: IndexSet::new(alloc),
        })
    }
}

impl Takes for ToldNodes {
    ghost use Rattle.fabric_read_topology.specs.Facts.{AddsUnset, AddsNode, IsFaultyNode};

    ghost adds = { λ old fact new. AddsNode old.nodes fact new.nodes × AddsUnset old.unset.keys fact new.unset.keys };

    ghost is_faulty = { λ old. IsFaultyNode old.nodes };

    fn take(&mut self, fact: Fact) -> Result<(), Stop<FabricCause>> {
        take_node(&mut self.nodes, fact)?;
        if let Some(guid) = unset_end(fact) {
            let Ok(_) = self.unset.insert(guid) else {
                return Err(Stop::OutOfMemory);
            };
        }
        Ok(())
    }
}

// Adds the node of a fact, if it tells of one.
fn take_node(nodes: &mut Nodes, fact: Fact) -> Result<(), Stop<FabricCause>>
    ensures { IsStep result (AddsNode nodes.old fact nodes.new) (IsFaultyNode nodes.old fact) }
{
    match fact {
        Fact::Switch {
            guid,
            ports,
            base,
            lmc,
        } => take_switch(nodes, guid, ports, base, lmc),
        Fact::Host { guid, base, lmc } => take_end(nodes, guid, base, lmc),
        Fact::Link { one: _, other: _ } => Ok(()),
        Fact::Neighbour { guid: _, base: _ } => Ok(()),
        Fact::HasSwitch { guid: _ } => Ok(()),
    }
}

// Adds a switch.
fn take_switch(
    nodes: &mut Nodes,
    guid: u64,
    ports: u64,
    base: u64,
    lmc: u64,
) -> Result<(), Stop<FabricCause>>
    ensures { IsStep result
        ((ports ≤ 255) × AreLids base lmc × AddsSwitch nodes.old nodes.new guid (switch_of ports base lmc))
        (IsNodeCause ((ports ≤ 255) × AreLids base lmc)
        (IsRefusedSwitch nodes.old guid (switch_of ports base lmc))) }
{
    let ports = byte(ports)?;
    let lids = lids(base, lmc)?;
    match nodes.add_switch(guid, Switch { ports, lids }) {
        Ok(()) => Ok(()),
        Err(stop) => Err(of_node(stop)),
    }
}

// Adds an end port of an adapter or router.
fn take_end(nodes: &mut Nodes, guid: u64, base: u64, lmc: u64) -> Result<(), Stop<FabricCause>>
    ensures { IsStep result (AreLids base lmc × AddsEnd nodes.old nodes.new guid (range_of base lmc))
        (IsNodeCause (AreLids base lmc) (IsRefusedEnd nodes.old guid (range_of base lmc))) }
{
    let lids = lids(base, lmc)?;
    match nodes.add_end(guid, lids) {
        Ok(()) => Ok(()),
        Err(stop) => Err(of_node(stop)),
    }
}

// Why a node stops the reader.
fn of_node(stop: Stop<NodeFault>) -> Stop<FabricCause>
    ensures { result ≡ node_stop stop }
{
    match stop {
        Stop::Fault(fault) => Stop::Fault(FabricCause::Node(fault)),
        Stop::OutOfMemory => Stop::OutOfMemory,
    }
}

// A number of ports, or an LMC.
fn byte(number: u64) -> Result<u8, Stop<FabricCause>>
    ensures ok { IfOk result (λ byte. (byte ≡ number) × (number ≤ 255)) }
    ensures err { IfErr result (λ stop. (stop ≡ Stop.Fault FabricCause.Range) × (¬ (number ≤ 255))) }
{
    if number > 255 {
        return Err(Stop::Fault(FabricCause::Range));
    }
    Ok(number as u8)
}

// The LIDs from a base on, if it is one.
fn lids(base: u64, lmc: u64) -> Result<LidRange, Stop<FabricCause>>
    ensures ok { IfOk result (λ lids. (lids ≡ range_of base lmc) × AreLids base lmc) }
    ensures err { IfErr result (λ stop. (stop ≡ Stop.Fault FabricCause.Range) × (¬ AreLids base lmc)) }
{
    let base = base_of(base);
    if base > 0xBFFF {
        return Err(Stop::Fault(FabricCause::Range));
    }
    let lmc = byte(lmc)?;
    Ok(LidRange {
        base: base as u16,
        lmc,
    })
}
