//! Who sends to a LID.

ghost use Rattle.std.specs.Prelude.{◌≡◌, ◌≢◌, ◌<◌, ◌+◌, ◌*◌, ◌↔◌, ℕ, None, Some, IfSome, IsTrue, MatchOption};
ghost use Rattle.std.specs.Int.{bit_at};
ghost use Rattle.fabric_model.specs.Fabric.{FabricOf, owner_of, start_of, switch_count};
ghost use Rattle.fabric_model.specs.declared.node.EndPort.TheVariants as port;
ghost use Rattle.fabric_tables.specs.Cells.{TablesOf, tables_of};
ghost use Rattle.fabric_routes.specs.Audience.{AreTargets, IsAudience, IsHeard, IsHeardFrom, IsPutFor};
ghost use Rattle.fabric_routes.specs.Routes.{IsSource, Sends};
ghost use Rattle.fabric_model.specs.declared.traffic.Traffic.{Traffic};

use crate::start::{begins_at, is_cabled, is_owner};
use crate::word::with_bit;
use fabric_model::fabric::Fabric;
use fabric_model::node::EndPort;
use fabric_model::traffic::Traffic;
use fabric_tables::cells::Cells;

/// Who sends to a LID. The owner of the LID never does.
#[derive(Clone, Copy)]
pub enum Audience {
    /// No end port.
    Nobody,
    /// The end ports of adapters and routers that are cabled to switches.
    Hosts,
    /// The end ports of `Hosts`, and all switches.
    Everyone,
}

// Who sends to the LIDs of an end port of an adapter or router.
#[inline]
fn audience_of_host(fabric: &Fabric, traffic: Traffic, end: u32) -> Audience
    ensures { (tables : TablesOf) (lid : ℕ) → owner_of fabric.now lid ≡ Some (port.Host end)
        → IsAudience fabric.now tables traffic lid result }
{
    if !is_cabled(fabric, end) {
        return Audience::Nobody;
    }
    match traffic {
        Traffic::Hosts => Audience::Hosts,
        Traffic::Lids => Audience::Hosts,
        Traffic::Managed => Audience::Everyone,
        Traffic::All => Audience::Everyone,
        Traffic::Rows => Audience::Everyone,
    }
}

// Who sends to the LIDs of a switch.
#[inline]
fn audience_of_switch(traffic: Traffic) -> Audience
    ensures { (fabric : FabricOf) (tables : TablesOf) (lid switch : ℕ)
        → owner_of fabric lid ≡ Some (port.Switch switch) → IsAudience fabric tables traffic lid result }
{
    match traffic {
        Traffic::Hosts => Audience::Nobody,
        Traffic::Lids => Audience::Hosts,
        Traffic::Managed => Audience::Hosts,
        Traffic::All => Audience::Everyone,
        Traffic::Rows => Audience::Everyone,
    }
}

// Who sends to a LID that nobody owns.
#[inline]
fn audience_of_row(cells: &Cells, traffic: Traffic, lid: usize) -> Audience
    requires { lid < 64 * cells.now.blocks }
    ensures { (fabric : FabricOf) → owner_of fabric lid ≡ None
        → IsAudience fabric (tables_of cells.now) traffic lid result }
{
    match traffic {
        Traffic::Hosts => Audience::Nobody,
        Traffic::Lids => Audience::Nobody,
        Traffic::Managed => Audience::Nobody,
        Traffic::All => Audience::Nobody,
        Traffic::Rows => {
            if cells.has_row(lid / 64, lid % 64) {
                Audience::Everyone
            } else {
                Audience::Nobody
            }
        }
    }
}

/// Returns who sends to `lid`. The tables matter only if nobody owns `lid`. The caller must keep `lid` within the
/// blocks of `cells`.
#[inline]
pub fn audience_of(fabric: &Fabric, cells: &Cells, traffic: Traffic, lid: usize) -> Audience
    requires { lid < 64 * cells.now.blocks }
    ensures { IsAudience fabric.now (tables_of cells.now) traffic lid result }
{
    match fabric.owner(lid) {
        Some(EndPort::Host(end)) => audience_of_host(fabric, traffic, end),
        Some(EndPort::Switch(_)) => audience_of_switch(traffic),
        None => audience_of_row(cells, traffic, lid),
    }
}

// Whether an end port is of an audience.
#[inline]
fn is_heard_from(fabric: &Fabric, audience: Audience, source: EndPort) -> bool
    ensures { IsTrue result ↔ IsHeardFrom fabric.now audience source }
{
    match audience {
        Audience::Nobody => false,
        Audience::Hosts => match source {
            EndPort::Host(end) => is_cabled(fabric, end),
            EndPort::Switch(_) => false,
        },
        Audience::Everyone => match source {
            EndPort::Host(end) => is_cabled(fabric, end),
            EndPort::Switch(switch) => (switch as usize) < fabric.switches(),
        },
    }
}

/// Reports whether `source` sends to `lid`, whose audience is `audience`: it belongs to the audience, and does not own
/// `lid`.
#[inline]
pub fn is_heard(fabric: &Fabric, audience: Audience, lid: usize, source: EndPort) -> bool
    ensures { IsTrue result ↔ IsHeard fabric.now audience lid source }
{
    if !is_heard_from(fabric, audience, source) {
        return false;
    }
    !is_owner(fabric, lid, source)
}

/// Returns the switch where the route of `source` to `lid`, whose audience is `audience`, begins, or `None` if it does
/// not send.
pub fn sender_start(fabric: &Fabric, audience: Audience, lid: usize, source: EndPort) -> Option<u32>
    ensures start { MatchOption result (IsHeard fabric.now audience lid source → ⊥)
        (λ start. IsHeard fabric.now audience lid source × (start_of fabric.now source ≡ Some start)) }
    ensures within { IfSome result (λ start. start < switch_count fabric.now) }
{
    if !is_heard(fabric, audience, lid, source) {
        return None;
    }
    begins_at(fabric, source)
}

/// The LIDs of a block to which end ports send, as bits, by audience.
#[derive(Clone, Copy)]
pub struct Targets {
    /// The LIDs to which only end ports of adapters and routers send.
    pub hosts: u64,
    /// The LIDs to which switches also send.
    pub everyone: u64,
}

impl Targets {
    // With the LID of a bit, by who sends to it.
    #[inline]
    fn with(self, audience: Audience, bit: usize) -> Targets
        requires { bit < 64 }
        ensures { IsPutFor audience self result bit }
    {
        match audience {
            Audience::Nobody => self,
            Audience::Hosts => Targets {
                hosts: with_bit(self.hosts, bit),
                everyone: self.everyone,
            },
            Audience::Everyone => Targets {
                hosts: self.hosts,
                everyone: with_bit(self.everyone, bit),
            },
        }
    }

    /// Returns the LIDs to which `source` sends, if it sends at all. Its own LIDs can be among them or not.
    #[inline]
    pub fn sent_by(self, source: EndPort) -> u64
        ensures { (fabric : FabricOf) (tables : TablesOf) (traffic : Traffic) (block : ℕ)
            → AreTargets fabric tables traffic block self → IsSource fabric traffic source
            → (bit : ℕ) → owner_of fabric (64 * block + bit) ≢ Some source
            → ((bit_at result bit ≡ 1) ↔ ((bit < 64) × Sends fabric tables traffic (64 * block + bit) source)) }
    {
        match source {
            EndPort::Host(_) => self.hosts | self.everyone,
            EndPort::Switch(_) => self.everyone,
        }
    }
}

/// Returns the LIDs of `block` to which end ports send, by audience. The caller must pass a block of `cells`, below
/// 1,024.
pub fn targets_of(fabric: &Fabric, cells: &Cells, traffic: Traffic, block: usize) -> Targets
    requires block { block < cells.now.blocks }
    requires few { block < 1024 }
    ensures { AreTargets fabric.now (tables_of cells.now) traffic block result }
{
    let mut targets = Targets {
        hosts: 0,
        everyone: 0,
    };
    'bits: for bit in 0..64usize {
        let audience = audience_of(fabric, cells, traffic, 64 * block + bit);
        targets = targets.with(audience, bit);
    }
    targets
}
