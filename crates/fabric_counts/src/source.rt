//! The end ports that send, one after the other.

ghost use Rattle.std.specs.Prelude.{◌≡◌, ◌≢◌, ◌<◌, ◌≤◌, ◌+◌, ◌^◌, Some, length};
ghost use Rattle.fabric_model.specs.Fabric.{owner_of, switch_count};
ghost use Rattle.fabric_routes.specs.Audience.{IsHeard};
ghost use Rattle.fabric_routes.specs.Counting.{IsCountOf};
ghost use Rattle.fabric_routes.specs.Routes.{IsSource};
ghost use Rattle.fabric_counts.specs.Steps.{AreHeard, IsEndPort, place_of, unowned_of};

use fabric_model::fabric::Fabric;
use fabric_model::node::EndPort;
use fabric_model::traffic::Traffic;
use fabric_routes::audience::Audience;
use fabric_routes::start::is_source;

/// How many end ports there are.
pub fn end_ports(fabric: &Fabric) -> usize
    ensures count { result ≡ length fabric.now.cables + switch_count fabric.now }
    ensures few { result ≤ 2 ^ 17 }
{
    fabric.ends() + fabric.switches()
}

/// The end port at a place among all: those of adapters and routers first, then switches.
pub fn end_port_at(fabric: &Fabric, place: usize) -> EndPort
    requires place { place < length fabric.now.cables + switch_count fabric.now }
    requires low { place < 2 ^ 17 }
    ensures place { place_of fabric.now result ≡ place }
    ensures is { IsEndPort fabric.now result }
{
    let ends = fabric.ends();
    if place < ends {
        EndPort::Host(place as u32)
    } else {
        EndPort::Switch((place - ends) as u32)
    }
}

/// How many end ports send.
pub fn count_sources(fabric: &Fabric, traffic: Traffic) -> u64
    ensures count { IsCountOf (IsSource fabric.now traffic) result }
    ensures few { result ≤ 2 ^ 17 }
{
    let mut count = 0u64;
    'places: for place in 0..end_ports(fabric) {
        let sends = is_source(fabric, traffic, end_port_at(fabric, place));
        count += u64::from(sends);
    }
    count
}

/// How many end ports are of each audience.
#[derive(Clone, Copy)]
pub struct Heard {
    /// Those of adapters and routers that are cabled to switches.
    pub hosts: u64,
    /// Those, and all switches.
    pub everyone: u64,
}

/// How many are.
pub fn count_heard(fabric: &Fabric) -> Heard
    ensures { AreHeard fabric.now result }
{
    Heard {
        hosts: count_sources(fabric, Traffic::Lids),
        everyone: count_sources(fabric, Traffic::All),
    }
}

// How many end ports but one send, if so many do at all.
fn count_others(fabric: &Fabric, traffic: Traffic, one: EndPort, sources: u64) -> u64
    requires { IsCountOf (IsSource fabric.now traffic) sources }
    ensures count { IsCountOf (λ source. IsSource fabric.now traffic source × (source ≢ one)) result }
    ensures few { result ≤ sources }
{
    if is_source(fabric, traffic, one) {
        sources - 1
    } else {
        sources
    }
}

// How many do but the owner of a LID.
fn count_but_owner(fabric: &Fabric, traffic: Traffic, lid: usize, sources: u64) -> u64
    requires { IsCountOf (IsSource fabric.now traffic) sources }
    ensures count { IsCountOf (λ source. IsSource fabric.now traffic source
        × (owner_of fabric.now lid ≢ Some source)) result }
    ensures few { result ≤ sources }
{
    match fabric.owner(lid) {
        Some(owner) => count_others(fabric, traffic, owner, sources),
        None => sources,
    }
}

/// How many end ports send to a LID with this audience.
pub fn count_senders(fabric: &Fabric, audience: Audience, lid: usize, heard: Heard) -> u64
    requires { AreHeard fabric.now heard }
    ensures count { IsCountOf (IsHeard fabric.now audience lid) result }
    ensures few { result ≤ 2 ^ 17 }
{
    match audience {
        Audience::Nobody => 0,
        Audience::Hosts => count_but_owner(fabric, Traffic::Lids, lid, heard.hosts),
        Audience::Everyone => count_but_owner(fabric, Traffic::All, lid, heard.everyone),
    }
}

/// Of so many routes that arrive, to one LID, those to a LID that nobody owns: all, or none.
#[inline]
pub fn unowned_of(fabric: &Fabric, lid: usize, routes: u64) -> u64
    ensures count { result ≡ unowned_of (owner_of fabric.now lid) routes }
    ensures few { result ≤ routes }
{
    match fabric.owner(lid) {
        Some(_) => 0,
        None => routes,
    }
}
