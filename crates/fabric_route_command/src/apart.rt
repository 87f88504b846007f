//! Who is not joined to whom.

ghost use Rattle.std.specs.Prelude.{◌≡◌, ◌↔◌, ℕ, IfOk, IsTrue, MatchOption};
ghost use Rattle.fabric_model.specs.declared.node.EndPort.{EndPort};
ghost use Rattle.fabric_model.specs.declared.node.EndPort.TheVariants as port;
ghost use Rattle.fabric_model.specs.Fabric.{IsFabric};
ghost use Rattle.fabric_model.specs.declared.traffic.Traffic.TheVariants.{Managed};
ghost use Rattle.fabric_route_command.specs.Joined.{AllJoined, IsApart};
ghost use Rattle.fabric_route_command.specs.Parts.{AllJoinedBy, AreLabels, IsApartBy, IsOtherSource, IsOtherTarget, label_of};

use crate::parts::labels_of;
use common_values::memory::OutOfMemory;
use fabric_model::fabric::Fabric;
use fabric_model::node::EndPort;
use fabric_model::traffic::Traffic;
use fabric_routes::start::{begins_at, is_source, is_target};
use std::alloc::Global;

/// An end port, and a LID to which it sends.
#[derive(Clone, Copy)]
pub struct Pair {
    /// The end port.
    pub source: EndPort,
    /// The LID.
    pub lid: u16,
}

/// An end port and a LID to which it sends without being joined to the owner of the LID, if there are such.
pub fn find_apart(
    alloc: Global,
    fabric: &Fabric,
    traffic: Traffic,
) -> Result<Option<Pair>, OutOfMemory>
    ensures { IfOk result (λ found. MatchOption found (AllJoined fabric.now traffic)
        (λ pair. IsApart fabric.now traffic pair.lid pair.source)) }
{
    let labels = labels_of(alloc, fabric)?;
    Ok(find_for(fabric, traffic, &labels))
}

// The same by the labels of switches.
fn find_for(fabric: &Fabric, traffic: Traffic, labels: &[u32]) -> Option<Pair>
    requires fabric { IsFabric fabric.now }
    requires labels { AreLabels fabric.now labels.now }
    ensures { MatchOption result (AllJoined fabric.now traffic)
        (λ pair. IsApart fabric.now traffic pair.lid pair.source) }
{
    match traffic {
        Traffic::Managed => find_managed(fabric, labels),
        _ => find_pair(fabric, traffic, traffic, labels),
    }
}

// The same by `Managed`: adapters and routers send to all, and switches to these.
fn find_managed(fabric: &Fabric, labels: &[u32]) -> Option<Pair>
    requires fabric { IsFabric fabric.now }
    requires labels { AreLabels fabric.now labels.now }
    ensures { MatchOption result (AllJoined fabric.now Managed)
        (λ pair. IsApart fabric.now Managed pair.lid pair.source) }
{
    match find_pair(fabric, Traffic::Lids, Traffic::Lids, labels) {
        Some(pair) => Some(pair),
        None => find_pair(fabric, Traffic::All, Traffic::Hosts, labels),
    }
}

// An end port that sends by one traffic, and a LID to which some send by another, that are not joined: all are to have
// the label of the first end port that sends.
fn find_pair(fabric: &Fabric, from: Traffic, to: Traffic, labels: &[u32]) -> Option<Pair>
    requires fabric { IsFabric fabric.now }
    requires labels { AreLabels fabric.now labels.now }
    ensures { MatchOption result (AllJoinedBy fabric.now from to)
        (λ pair. IsApartBy fabric.now from to pair.lid pair.source) }
{
    let first = find_source(fabric, from, labels, None)?;
    let label = label_of(fabric, labels, first);
    if let Some(lid) = find_target(fabric, to, labels, label) {
        return Some(Pair { source: first, lid });
    }
    let lid = find_target(fabric, to, labels, None)?;
    let source = find_source(fabric, from, labels, label)?;
    Some(Pair { source, lid })
}

// The label of the switch of an end port.
fn label_of(fabric: &Fabric, labels: &[u32], end: EndPort) -> Option<u32>
    ensures { result ≡ label_of fabric.now labels.now end }
{
    let switch = begins_at(fabric, end)?;
    labels.get(switch as usize).copied()
}

// Whether an end port sends and has another label.
fn is_other(
    fabric: &Fabric,
    traffic: Traffic,
    labels: &[u32],
    label: Option<u32>,
    source: EndPort,
) -> bool
    ensures { IsTrue result ↔ IsOtherSource fabric.now traffic labels.now label source }
{
    is_source(fabric, traffic, source) && label_of(fabric, labels, source) != label
}

// The first end port that sends and has another label.
fn find_source(
    fabric: &Fabric,
    traffic: Traffic,
    labels: &[u32],
    label: Option<u32>,
) -> Option<EndPort>
    ensures { MatchOption result ((source : EndPort) → ¬ IsOtherSource fabric.now traffic labels.now label source)
        (IsOtherSource fabric.now traffic labels.now label) }
{
    match find_host(fabric, traffic, labels, label) {
        Some(source) => Some(source),
        None => find_switch(fabric, traffic, labels, label),
    }
}

// The same of those of adapters and routers.
fn find_host(
    fabric: &Fabric,
    traffic: Traffic,
    labels: &[u32],
    label: Option<u32>,
) -> Option<EndPort>
    ensures { MatchOption result
        ((end : ℕ) → ¬ IsOtherSource fabric.now traffic labels.now label (port.Host end))
        (IsOtherSource fabric.now traffic labels.now label) }
{
    'ends: for end in 0..fabric.ends() {
        let source = EndPort::Host(end as u32);
        if is_other(fabric, traffic, labels, label, source) {
            return Some(source);
        }
    }
    None
}

// The same of switches.
fn find_switch(
    fabric: &Fabric,
    traffic: Traffic,
    labels: &[u32],
    label: Option<u32>,
) -> Option<EndPort>
    ensures { MatchOption result
        ((switch : ℕ) → ¬ IsOtherSource fabric.now traffic labels.now label (port.Switch switch))
        (IsOtherSource fabric.now traffic labels.now label) }
{
    'switches: for switch in 0..fabric.switches() {
        let source = EndPort::Switch(switch as u32);
        if is_other(fabric, traffic, labels, label, source) {
            return Some(source);
        }
    }
    None
}

// Whether a LID is sent to and its owner has another label.
fn is_other_target(
    fabric: &Fabric,
    traffic: Traffic,
    labels: &[u32],
    label: Option<u32>,
    lid: usize,
) -> bool
    ensures { IsTrue result ↔ IsOtherTarget fabric.now traffic labels.now label lid }
{
    match fabric.owner(lid) {
        Some(owner) => {
            is_target(fabric, traffic, lid) && label_of(fabric, labels, owner) != label
        }
        None => false,
    }
}

// The first LID that is sent to and whose owner has another label.
fn find_target(fabric: &Fabric, traffic: Traffic, labels: &[u32], label: Option<u32>) -> Option<u16>
    ensures { MatchOption result ((lid : ℕ) → ¬ IsOtherTarget fabric.now traffic labels.now label lid)
        (IsOtherTarget fabric.now traffic labels.now label) }
{
    'lids: for lid in 0..fabric.lids() {
        if is_other_target(fabric, traffic, labels, label, lid) {
            return Some(lid as u16);
        }
    }
    None
}
