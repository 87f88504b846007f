//! The links among facts, the switches that lines name, and the LIDs that neighbours give.

ghost use Rattle.std.specs.Prelude.{◌≡◌, ◌<◌, ◌↔◌, IfErr, IfOk, IsTrue, OnOk, Some};
ghost use Rattle.fabric_model.specs.Fabric.{IsPort, end_with, switch_count, switch_with};
ghost use Rattle.fabric_read_topology.specs.Facts.{CablesPort, CannotJoin, IsLidOf, IsNoCable, IsNoLink, Joins};
ghost use Rattle.fabric_read_topology.specs.Facts.{LinksPorts, node_with, spot_of};

use crate::base::base_of;
use crate::cause::FabricCause;
use crate::lines::Takes;
use common_lines::stop::Stop;
use fabric_model::fabric::Fabric;
use fabric_model::node::{EndPort, LinkFault, Spot};
use fabric_topology::fact::{Fact, PortTold};

impl Takes for Fabric {
    ghost use Rattle.fabric_read_topology.specs.Facts.{AddsLink, IsFaultyLink};

    ghost adds = { AddsLink };

    ghost is_faulty = { IsFaultyLink };

    fn take(&mut self, fact: Fact) -> Result<(), Stop<FabricCause>> {
        match fact {
            Fact::Link { one, other } => match join(self, one, other) {
                Ok(()) => Ok(()),
                Err(fault) => Err(Stop::Fault(FabricCause::Link(fault))),
            },
            Fact::Neighbour { guid, base } => {
                if is_lid_of(self, guid, base_of(base)) {
                    Ok(())
                } else {
                    Err(Stop::Fault(FabricCause::LidDiffers))
                }
            }
            Fact::HasSwitch { guid } => match self.switch_with(guid) {
                Some(_) => Ok(()),
                None => Err(Stop::Fault(FabricCause::UnknownSwitch)),
            },
            Fact::Switch {
                guid: _,
                ports: _,
                base: _,
                lmc: _,
            } => Ok(()),
            Fact::Host {
                guid: _,
                base: _,
                lmc: _,
            } => Ok(()),
        }
    }
}

// Joins two ports, if both belong to nodes that were told of.
fn join(fabric: &mut Fabric, one: PortTold, other: PortTold) -> Result<(), LinkFault>
    ensures ok { OnOk result (Joins fabric.old one other fabric.new) }
    ensures err { IfErr result (CannotJoin fabric.old one other) }
{
    match one {
        PortTold::OfSwitch { guid, port } => match other {
            PortTold::OfSwitch {
                guid: other,
                port: far,
            } => link(fabric, guid, port, other, far),
            PortTold::OfHost { guid: end } => cable(fabric, guid, port, end),
        },
        PortTold::OfHost { guid: end } => match other {
            PortTold::OfSwitch { guid, port } => cable(fabric, guid, port, end),
            PortTold::OfHost { guid: _ } => Ok(()),
        },
    }
}

// Links two ports of switches.
fn link(fabric: &mut Fabric, guid: u64, port: u64, other: u64, far: u64) -> Result<(), LinkFault>
    ensures ok { OnOk result
        (LinksPorts fabric.old (switch_with fabric.old guid) port
        (switch_with fabric.old other) far fabric.new) }
    ensures err { IfErr result
        (IsNoLink fabric.old (switch_with fabric.old guid) port (switch_with fabric.old other) far) }
{
    let Some(switch) = fabric.switch_with(guid) else {
        return Ok(());
    };
    let Some(other) = fabric.switch_with(other) else {
        return Ok(());
    };
    let one = spot_at(fabric, switch, port)?;
    let other = spot_at(fabric, other, far)?;
    fabric.link(one, other)
}

// Cables an end port to a port of a switch.
fn cable(fabric: &mut Fabric, guid: u64, port: u64, end: u64) -> Result<(), LinkFault>
    ensures ok { OnOk result
        (CablesPort fabric.old (switch_with fabric.old guid) port (end_with fabric.old end) fabric.new) }
    ensures err { IfErr result
        (IsNoCable fabric.old (switch_with fabric.old guid) port (end_with fabric.old end)) }
{
    let Some(switch) = fabric.switch_with(guid) else {
        return Ok(());
    };
    let Some(end) = fabric.end_with(end) else {
        return Ok(());
    };
    let spot = spot_at(fabric, switch, port)?;
    fabric.cable(end, spot)
}

// The port of a switch with this number, if it may have one.
fn spot_at(fabric: &Fabric, switch: u32, port: u64) -> Result<Spot, LinkFault>
    requires { switch < switch_count fabric.now }
    ensures ok { IfOk result (λ spot. spot ≡ spot_of switch port) }
    ensures err { IfErr result
        (λ why. (why ≡ LinkFault.NoPort) × (¬ IsPort fabric.now (spot_of switch port))) }
{
    if port > u64::from(fabric.ports(switch as usize)) {
        return Err(LinkFault::NoPort);
    }
    Ok(Spot {
        switch,
        port: port as u8,
    })
}

// Whether a base LID that a neighbour tells of a node, or 0, is one of the node's, if the node was told of.
fn is_lid_of(fabric: &Fabric, guid: u64, base: u64) -> bool
    ensures { IsTrue result ↔ IsLidOf fabric.now (node_with fabric.now guid) base }
{
    match node_at(fabric, guid) {
        Some(node) => base == 0 || is_owner(fabric.owner(base as usize), node),
        None => true,
    }
}

// The switch or end port with a GUID, if there is one.
fn node_at(fabric: &Fabric, guid: u64) -> Option<EndPort>
    ensures { result ≡ node_with fabric.now guid }
{
    match fabric.switch_with(guid) {
        Some(switch) => Some(EndPort::Switch(switch)),
        None => fabric.end_with(guid).map(EndPort::Host),
    }
}

// Whether an owner is this end port.
fn is_owner(owner: Option<EndPort>, port: EndPort) -> bool
    ensures { IsTrue result ↔ (owner ≡ Some port) }
{
    match (owner, port) {
        (Some(EndPort::Host(one)), EndPort::Host(other)) => one == other,
        (Some(EndPort::Switch(one)), EndPort::Switch(other)) => one == other,
        _ => false,
    }
}
