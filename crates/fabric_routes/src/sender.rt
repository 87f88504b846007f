//! Which end ports send from each switch, and at which switches routes begin.

ghost use Rattle.std.specs.Prelude.{◌≡◌, ◌<◌, ◌≤◌, ◌+◌, ◌*◌, ◌^◌, ◌↔◌, ℕ, Some, length, IfOk};
ghost use Rattle.std.specs.Int.{bit_at};
ghost use Rattle.fabric_model.specs.Fabric.{FabricOf, owner_of, start_of, switch_count};
ghost use Rattle.fabric_model.specs.declared.node.EndPort.TheVariants as port;
ghost use Rattle.fabric_tables.specs.Cells.{TablesOf, tables_of};
ghost use Rattle.fabric_routes.specs.Audience.{AreTargets};
ghost use Rattle.fabric_routes.specs.Routes.{Sends};
ghost use Rattle.fabric_routes.specs.Starts.{AreAllSenders, AreAllSendersBelow, AreSendersOf, IsAmong, IsHeardAt, IsStart};
ghost use Rattle.fabric_routes.specs.Waves.{AreStarts};
ghost use Rattle.fabric_routes.specs.declared.audience.Audience.{Audience};
ghost use Rattle.fabric_routes.specs.declared.audience.Audience.TheVariants as audience;
ghost use Rattle.fabric_model.specs.declared.traffic.Traffic.{Traffic};
ghost use Rattle.fabric_model.specs.declared.node.EndPort.{EndPort};

use crate::audience::{Targets, targets_of};
use crate::start::is_owner;
use crate::word::{fresh_of, with_bit};
use common_values::memory::OutOfMemory;
use fabric_model::fabric::Fabric;
use fabric_model::node::EndPort;
use fabric_model::traffic::Traffic;
use fabric_tables::cells::Cells;
use std::alloc::Global;

/// Which end ports send from a switch.
#[derive(Clone, Copy)]
pub enum Senders {
    /// None.
    Quiet,
    /// This end port, and no other.
    One(EndPort),
    /// Two or more.
    Several,
}

// The LIDs of a block that an end port owns.
fn owned_by(fabric: &Fabric, block: usize, who: EndPort) -> u64
    requires { block < 1024 }
    ensures { (bit : ℕ) → ((bit_at result bit ≡ 1) ↔ ((bit < 64) × (owner_of fabric.now (64 * block + bit) ≡ Some who))) }
{
    let mut word = 0u64;
    'bits: for bit in 0..64usize {
        if is_owner(fabric, 64 * block + bit, who) {
            word = with_bit(word, bit);
        }
    }
    word
}

// Those of some LIDs of a block to which a route begins at a switch, if their audience is this and these send from there.
#[inline]
fn starts_of(fabric: &Fabric, block: usize, senders: Senders, targets: u64) -> u64
    requires block { block < 1024 }
    requires targets { (bit : ℕ) → bit_at targets bit ≡ 1 → bit < 64 }
    ensures { (audience : Audience) (switch : ℕ) → AreSendersOf (IsHeardAt fabric.now audience switch) senders
        → (bit : ℕ) → ((bit_at result bit ≡ 1)
        ↔ ((bit_at targets bit ≡ 1) × IsStart fabric.now audience (64 * block + bit) switch)) }
{
    if targets == 0 {
        return 0;
    }
    match senders {
        Senders::Quiet => 0,
        Senders::One(who) => fresh_of(targets, owned_by(fabric, block, who)),
        Senders::Several => targets,
    }
}

// The senders of a switch, with itself.
#[inline]
fn with_switch(senders: Senders, switch: u32) -> Senders
    ensures { (fabric : FabricOf) → switch < switch_count fabric
        → AreSendersOf (IsHeardAt fabric audience.Hosts switch) senders
        → AreSendersOf (IsHeardAt fabric audience.Everyone switch) result }
{
    match senders {
        Senders::Quiet => Senders::One(EndPort::Switch(switch)),
        Senders::One(_) => Senders::Several,
        Senders::Several => Senders::Several,
    }
}

// The LIDs of a block to which some end port sends from a switch.
#[inline]
fn starts_at(fabric: &Fabric, block: usize, switch: u32, senders: Senders, targets: Targets) -> u64
    requires block { block < 1024 }
    requires switch { switch < switch_count fabric.now }
    requires senders { AreSendersOf (IsAmong fabric.now (length fabric.now.cables) switch) senders }
    requires hosts { (bit : ℕ) → bit_at targets.hosts bit ≡ 1 → bit < 64 }
    requires everyone { (bit : ℕ) → bit_at targets.everyone bit ≡ 1 → bit < 64 }
    ensures { (tables : TablesOf) (traffic : Traffic) → AreTargets fabric.now tables traffic block targets
        → (bit : ℕ) → ((bit_at result bit ≡ 1) ↔ ((bit < 64) × ((source : EndPort) × Sends fabric.now tables traffic (64 * block + bit) source × (start_of fabric.now source ≡ Some switch)))) }
{
    let hosts = starts_of(fabric, block, senders, targets.hosts);
    let all = with_switch(senders, switch);
    let everyone = starts_of(fabric, block, all, targets.everyone);
    hosts | everyone
}

/// Sets in `words`, for each switch, the LIDs of `block` to which at least one end port sends from that switch. The
/// caller must pass the senders of this fabric, and one word for each switch.
pub fn put_starts(
    fabric: &Fabric,
    cells: &Cells,
    traffic: Traffic,
    block: usize,
    senders: &[Senders],
    words: &mut [u64],
)
    requires block { block < cells.now.blocks }
    requires few { block < 1024 }
    requires senders { AreAllSenders fabric.now senders.now }
    requires count { length words.old ≡ switch_count fabric.now }
    ensures { AreStarts fabric.now (tables_of cells.now) traffic block words.new }
{
    let targets = targets_of(fabric, cells, traffic, block);
    'switches: for switch in 0..fabric.switches() {
        words[switch] = starts_at(fabric, block, switch as u32, senders[switch], targets);
    }
}

// The senders of a switch with one more end port of an adapter or router.
fn with_sender(senders: Senders, end: u32) -> Senders
    ensures { (fabric : FabricOf) (switch : ℕ) → start_of fabric (port.Host end) ≡ Some switch
        → AreSendersOf (IsAmong fabric end switch) senders → AreSendersOf (IsAmong fabric (end + 1) switch) result }
{
    match senders {
        Senders::Quiet => Senders::One(EndPort::Host(end)),
        Senders::One(_) => Senders::Several,
        Senders::Several => Senders::Several,
    }
}

// Adds one to the senders of the switch to which it is cabled.
fn add_sender(fabric: &Fabric, senders: &mut Vec<Senders>, end: usize)
    requires end { end < 2 ^ 16 }
    requires senders { AreAllSendersBelow fabric.now end senders.old.items }
    ensures { AreAllSendersBelow fabric.now (end + 1) senders.new.items }
{
    let Some(spot) = fabric.cable_of(end) else {
        return;
    };
    let at = spot.switch as usize;
    let before = senders[at];
    senders[at] = with_sender(before, end as u32);
}

/// Returns which end ports of adapters and routers send from each switch. The switch itself does not count.
///
/// # Errors
/// `OutOfMemory`.
pub fn find_senders(alloc: Global, fabric: &Fabric) -> Result<Vec<Senders>, OutOfMemory>
    ensures { IfOk result (λ senders. AreAllSenders fabric.now senders.items) }
{
    let mut senders = vec![in alloc; Senders::Quiet; fabric.switches()]?;
    'ends: for end in 0..fabric.ends() {
        add_sender(fabric, &mut senders, end);
    }
    Ok(senders)
}
