//! Where routes begin: which end ports send, and from which switches.

ghost use Rattle.std.specs.Prelude.{◌≡◌, ◌<◌, ◌↔◌, Some, IfSome, IsTrue};
ghost use Rattle.fabric_model.specs.Fabric.{owner_of, start_of, switch_count};
ghost use Rattle.fabric_model.specs.declared.node.EndPort.{EndPort};
ghost use Rattle.fabric_routes.specs.Routes.{IsCabled, IsSource, IsTarget};
ghost use Rattle.fabric_model.specs.declared.traffic.Traffic.{Traffic};

use fabric_model::fabric::Fabric;
use fabric_model::node::EndPort;
use fabric_model::traffic::Traffic;

/// Returns the switch where the routes of `source` begin.
pub fn begins_at(fabric: &Fabric, source: EndPort) -> Option<u32>
    ensures start { result ≡ start_of fabric.now source }
    ensures within { (traffic : Traffic) → IsSource fabric.now traffic source
        → IfSome result (λ start. start < switch_count fabric.now) }
{
    match source {
        EndPort::Host(end) => {
            let spot = fabric.cable_of(end as usize)?;
            Some(spot.switch)
        }
        EndPort::Switch(switch) => Some(switch),
    }
}

/// Reports whether `source` sends.
pub fn is_source(fabric: &Fabric, traffic: Traffic, source: EndPort) -> bool
    ensures { IsTrue result ↔ IsSource fabric.now traffic source }
{
    match source {
        EndPort::Host(end) => is_cabled(fabric, end),
        EndPort::Switch(switch) => match traffic {
            Traffic::Hosts => false,
            Traffic::Lids => false,
            Traffic::Managed => (switch as usize) < fabric.switches(),
            Traffic::All => (switch as usize) < fabric.switches(),
            Traffic::Rows => (switch as usize) < fabric.switches(),
        },
    }
}

/// Reports whether `who` owns `lid`.
#[inline]
pub fn is_owner(fabric: &Fabric, lid: usize, who: EndPort) -> bool
    ensures { IsTrue result ↔ (owner_of fabric.now lid ≡ Some who) }
{
    match fabric.owner(lid) {
        Some(EndPort::Host(own)) => match who {
            EndPort::Host(end) => own == end,
            EndPort::Switch(_) => false,
        },
        Some(EndPort::Switch(own)) => match who {
            EndPort::Host(_) => false,
            EndPort::Switch(switch) => own == switch,
        },
        None => false,
    }
}

/// Reports whether `end`, an end port of an adapter or router, is cabled to a switch.
#[inline]
pub fn is_cabled(fabric: &Fabric, end: u32) -> bool
    ensures { IsTrue result ↔ IsCabled fabric.now end }
{
    match fabric.cable_of(end as usize) {
        Some(_) => true,
        None => false,
    }
}

/// Reports whether an end port to which others send owns `lid`.
#[inline]
pub fn is_target(fabric: &Fabric, traffic: Traffic, lid: usize) -> bool
    ensures { IsTrue result ↔ ((owner : EndPort) × (owner_of fabric.now lid ≡ Some owner) × IsTarget fabric.now traffic owner) }
{
    match fabric.owner(lid) {
        Some(EndPort::Host(end)) => is_cabled(fabric, end),
        Some(EndPort::Switch(_)) => match traffic {
            Traffic::Hosts => false,
            Traffic::Lids => true,
            Traffic::Managed => true,
            Traffic::All => true,
            Traffic::Rows => true,
        },
        None => false,
    }
}
