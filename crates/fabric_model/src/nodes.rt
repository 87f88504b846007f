//! The switches and end ports of a topology, added one by one in any order.

ghost use Rattle.std.specs.Prelude.{◌≡◌, ◌<◌, ◌≤◌, ◌+◌, ◌-◌, ◌^◌, ◌++◌, [], ◌∷◌, ◌↔◌, length, replicate, ℕ};
ghost use Rattle.std.specs.Prelude.{slice_index_or, None, true, false, IfNone, IfOk, IfSome, IsTrue, OnErr};
ghost use Rattle.common_lines.specs.Stops.{IsStep};
ghost use Rattle.fabric_model.specs.Nodes.{AddsEnd, AddsSwitch, AreRefused, IsAmong, IsFlagged, IsLow};
ghost use Rattle.fabric_model.specs.Nodes.{IsRefusedEnd, IsRefusedSwitch, IsTaken, node_of};

use crate::node::{LidRange, NodeFault, Switch};
use common_lines::stop::Stop;
use common_values::memory::OutOfMemory;
use indexmap::IndexMap;
use std::alloc::Global;
use std::marker::Model;

/// One more than the highest LID that an end port can own.
pub const LIDS: usize = 0xC000;

/// The highest number of switches.
pub const MOST_SWITCHES: usize = 1 << 14;

/// The highest number of end ports of adapters and routers.
pub const MOST_ENDS: usize = (1 << 16) - 1;

/// Switches and end ports by their GUIDs, and which LIDs have an owner.
#[derive(Drop)]
pub struct Nodes {
    pub(crate) switches: IndexMap<u64, Switch>,
    pub(crate) ends: IndexMap<u64, LidRange>,
    pub(crate) owned: Vec<bool>,
}

impl Model for Nodes {
    ghost use Rattle.std.specs.Prelude.{◌≡◌, length};
    ghost use Rattle.fabric_model.specs.Nodes.{AreNodes, AreOwned, NodesOf};

    ghost Value = { NodesOf };

    ghost view = { λ n. record { switches = n.switches.entries; ends = n.ends.entries } };

    ghost invariant = { λ n. AreNodes (record { switches = n.switches.entries; ends = n.ends.entries })
        × (length n.owned.items ≡ 49152)
        × AreOwned (record { switches = n.switches.entries; ends = n.ends.entries }) n.owned.items };
}

// So many flags, none of which is set.
fn no_flags(alloc: Global, count: usize) -> Result<Vec<bool>, OutOfMemory>
    ensures { IfOk result (λ flags. flags.items ≡ replicate count false) }
{
    let flags = vec![in alloc; false; count]?;
    Ok(flags)
}

// Whether all LIDs of a range may be owned.
fn is_low(lids: LidRange) -> bool
    ensures { IsTrue result ↔ IsLow lids }
{
    lids.lmc < 8 && usize::from(lids.base) + (1usize << lids.lmc) <= LIDS
}

// One more than the last LID of a range that is not empty.
pub(crate) fn end_of(lids: LidRange) -> usize
    requires { IsLow lids }
    ensures end { result ≡ lids.base + 2 ^ lids.lmc }
    ensures low { result ≤ 49152 }
{
    lids.base as usize + (1usize << lids.lmc)
}

// Whether a LID of a range has an owner.
fn is_owned(owned: &[bool], lids: LidRange) -> bool
    requires count { length owned.now ≡ 49152 }
    requires low { IsLow lids }
    ensures flagged { result ≡ true → IsFlagged owned.now lids }
    ensures free { result ≡ false → ¬ IsFlagged owned.now lids }
{
    let first = usize::from(lids.base);
    if first == 0 {
        return false;
    }
    'lids: for lid in first..first + (1usize << lids.lmc) {
        if owned[lid] {
            return true;
        }
    }
    false
}

// Gives the LIDs of a range to a node.
fn own(owned: &mut [bool], lids: LidRange)
    requires count { length owned.old ≡ 49152 }
    requires low { IsLow lids }
    ensures count { length owned.new ≡ 49152 }
    ensures inside { (lid : ℕ) → IsAmong lids lid → slice_index_or owned.new lid false ≡ true }
    ensures outside { (lid : ℕ) → ¬ IsAmong lids lid
        → slice_index_or owned.new lid false ≡ slice_index_or owned.old lid false }
{
    let first = usize::from(lids.base);
    if first == 0 {
        return;
    }
    'lids: for lid in first..first + (1usize << lids.lmc) {
        owned[lid] = true;
    }
}

// Why the LIDs of a new node are refused, if they are.
fn lids_fault(owned: &[bool], lids: LidRange) -> Option<NodeFault>
    requires { length owned.now ≡ 49152 }
    ensures low { IfNone result (IsLow lids) }
    ensures free { IfNone result (¬ IsFlagged owned.now lids) }
    ensures refused { IfSome result (AreRefused owned.now lids) }
{
    if !is_low(lids) {
        return Some(NodeFault::LidsTooHigh);
    }
    if is_owned(owned, lids) {
        return Some(NodeFault::LidTaken);
    }
    None
}

impl Nodes {
    /// Creates an empty set of nodes.
    ///
    /// # Errors
    /// `OutOfMemory`.
    pub fn new(alloc: Global) -> Result<Nodes, OutOfMemory>
        ensures { IfOk result (λ n. n ≡ record { switches = []; ends = [] }) }
    {
        let owned = no_flags(alloc, LIDS)?;
        Ok(Nodes {
            switches: IndexMap::new(alloc),
            ends: IndexMap::new(alloc),
            owned,
        })
    }

    /// Adds `switch` with `guid`. A switch that was added already, with the same ports and LIDs, counts once.
    ///
    /// # Errors
    /// The first `NodeFault` that holds, or out of memory. The nodes are then unchanged.
    pub fn add_switch(&mut self, guid: u64, switch: Switch) -> Result<(), Stop<NodeFault>>
        ensures added { IsStep result (AddsSwitch self.old self.new guid switch)
            (IsRefusedSwitch self.old guid switch) }
        ensures kept { OnErr result (self.new ≡ self.old) }
    {
        if let Some(told) = self.switches.get(&guid).copied() {
            return once(told == switch);
        }
        if self.ends.contains_key(&guid) {
            return Err(Stop::Fault(NodeFault::Differs));
        }
        if switch.ports == 255 {
            return Err(Stop::Fault(NodeFault::TooManyPorts));
        }
        if self.switches.len() >= MOST_SWITCHES {
            return Err(Stop::Fault(NodeFault::TooMany));
        }
        if let Some(fault) = lids_fault(&self.owned, switch.lids) {
            return Err(Stop::Fault(fault));
        }
        self.push_switch(guid, switch)
    }

    // Adds a switch that is new.
    fn push_switch(&mut self, guid: u64, switch: Switch) -> Result<(), Stop<NodeFault>>
        requires absent { node_of self.old.switches guid ≡ None }
        requires few { length self.old.switches < 2 ^ 14 }
        requires ports { switch.ports < 255 }
        requires low { IsLow switch.lids }
        requires free { ¬ IsTaken self.old switch.lids }
        ensures added { IsStep result
            (self.new ≡ record { switches = self.old.switches ++ (guid, switch) ∷ []; ends = self.old.ends })
            (λ _. ⊥) }
        ensures kept { OnErr result (self.new ≡ self.old) }
    {
        let Ok(_) = self.switches.insert(guid, switch) else {
            return Err(Stop::OutOfMemory);
        };
        own(&mut self.owned, switch.lids);
        Ok(())
    }

    /// Adds the end port, of an adapter or router, with `guid` and `lids`. An end port that was added already, with the
    /// same LIDs, counts once.
    ///
    /// # Errors
    /// The first `NodeFault` that holds, or out of memory. The nodes are then unchanged.
    pub fn add_end(&mut self, guid: u64, lids: LidRange) -> Result<(), Stop<NodeFault>>
        ensures added { IsStep result (AddsEnd self.old self.new guid lids)
            (IsRefusedEnd self.old guid lids) }
        ensures kept { OnErr result (self.new ≡ self.old) }
    {
        if let Some(told) = self.ends.get(&guid).copied() {
            return once(told == lids);
        }
        if self.switches.contains_key(&guid) {
            return Err(Stop::Fault(NodeFault::Differs));
        }
        if self.ends.len() >= MOST_ENDS {
            return Err(Stop::Fault(NodeFault::TooMany));
        }
        if let Some(fault) = lids_fault(&self.owned, lids) {
            return Err(Stop::Fault(fault));
        }
        self.push_end(guid, lids)
    }

    // Adds an end port that is new.
    fn push_end(&mut self, guid: u64, lids: LidRange) -> Result<(), Stop<NodeFault>>
        requires absent { node_of self.old.ends guid ≡ None }
        requires few { length self.old.ends < 2 ^ 16 - 1 }
        requires low { IsLow lids }
        requires free { ¬ IsTaken self.old lids }
        ensures added { IsStep result
            (self.new ≡ record { switches = self.old.switches; ends = self.old.ends ++ (guid, lids) ∷ [] })
            (λ _. ⊥) }
        ensures kept { OnErr result (self.new ≡ self.old) }
    {
        let Ok(_) = self.ends.insert(guid, lids) else {
            return Err(Stop::OutOfMemory);
        };
        own(&mut self.owned, lids);
        Ok(())
    }
}

// What a node that was told before is answered.
fn once(is_alike: bool) -> Result<(), Stop<NodeFault>>
    ensures { IsStep result (IsTrue is_alike) (λ cause. (cause ≡ NodeFault.Differs) × (is_alike ≡ false)) }
{
    if is_alike {
        Ok(())
    } else {
        Err(Stop::Fault(NodeFault::Differs))
    }
}
