//! The fabric: nodes in ascending order of GUID, and links.

ghost use Rattle.std.specs.Prelude.{◌≡◌, ◌≢◌, ◌<◌, ◌≤◌, ◌-◌, ◌*◌, ◌^◌, ◌↔◌, ℕ, length, slice_get};
ghost use Rattle.std.specs.Prelude.{slice_index_or, replicate, All, None, IfErr, IfOk, IfSome, IsTrue};
ghost use Rattle.std.specs.Prelude.{OnErr, OnOk};
ghost use Rattle.fabric_model.specs.declared.node.Switch.{Switch};
ghost use Rattle.fabric_model.specs.declared.node.LidRange.{LidRange};
ghost use Rattle.fabric_model.specs.Nodes.{AreNodes, AreOwners, EndsOwned, HasOneEndPort, IsLow, NodesOf, PutsOwner};
ghost use Rattle.fabric_model.specs.Sides.{IsSideSet, IsSmallEnd, fabric_in, nodes_in};
ghost use Rattle.fabric_model.specs.Fabric.{AreUncabled, IsBareOf, IsCabledTo, IsFabric, IsLinked, IsMost, IsPort};
ghost use Rattle.fabric_model.specs.Fabric.{IsRefusedCable, IsRefusedLink, LeadsWithin, MayCable, MayLink};
ghost use Rattle.fabric_model.specs.Fabric.{cable_of, end_with, guid_in, guid_of, owner_of, ports_of, side_of};
ghost use Rattle.fabric_model.specs.Fabric.{switch_count, switch_with};

use crate::node::{EndPort, LidRange, LinkFault, Side, Spot, Switch};
use crate::nodes::{LIDS, Nodes, end_of};
use crate::side::{BARE, pack, unpack};
use common_values::memory::OutOfMemory;
use indexmap::IndexMap;
use std::alloc::Global;
use std::marker::Model;

/// Switches, end ports and links. Nodes are kept in ascending order of GUID, and named by their index.
#[derive(Drop)]
pub struct Fabric {
    switches: IndexMap<u64, Switch>,
    ends: IndexMap<u64, LidRange>,
    most: usize,
    sides: Vec<u32>,
    cables: Vec<Option<Spot>>,
    owners: Vec<Option<EndPort>>,
}

impl Model for Fabric {
    ghost use Rattle.fabric_model.specs.Fabric.{FabricOf, IsFabric};
    ghost use Rattle.fabric_model.specs.Sides.{sides_in};

    ghost Value = { FabricOf };

    ghost view = { λ f. record {
      nodes = record { switches = f.switches.entries; ends = f.ends.entries };
      most = f.most;
      sides = sides_in f.sides.items;
      cables = f.cables.items;
      owners = f.owners.items;
    } };

    ghost invariant = { λ f. IsFabric (record {
      nodes = record { switches = f.switches.entries; ends = f.ends.entries };
      most = f.most;
      sides = sides_in f.sides.items;
      cables = f.cables.items;
      owners = f.owners.items;
    }) };
}

// Whether nothing is cabled there.
fn is_bare(side: Side) -> bool
    ensures { IsTrue result ↔ (side ≡ Side.Bare) }
{
    match side {
        Side::Bare => true,
        Side::To(_, _) => false,
        Side::End(_) => false,
    }
}

// Whether a port leads to a port of a switch.
fn leads_to(side: Side, spot: Spot) -> bool
    ensures { IsTrue result ↔ (side ≡ Side.To spot.switch spot.port) }
{
    match side {
        Side::Bare => false,
        Side::To(switch, port) => switch == spot.switch && port == spot.port,
        Side::End(_) => false,
    }
}

// Whether it leads to an end port of an adapter or router.
fn leads_to_end(side: Side, end: u32) -> bool
    ensures { IsTrue result ↔ (side ≡ Side.End end) }
{
    match side {
        Side::Bare => false,
        Side::To(_, _) => false,
        Side::End(there) => there == end,
    }
}

// Whether an end port is cabled to a port of a switch.
fn is_spot(cable: Option<Spot>, spot: Spot) -> bool
    ensures { IsTrue result ↔ (cable ≡ Some spot) }
{
    match cable {
        Some(there) => there.switch == spot.switch && there.port == spot.port,
        None => false,
    }
}

// How many ports the switch at a place has.
fn ports_at(switches: &IndexMap<u64, Switch>, place: usize) -> u8
    requires place { place < length switches.now.entries }
    requires low { All (λ n. n.1.ports < 255) switches.now.entries }
    ensures at { (default : ℕ × Switch) →
        (slice_index_or switches.now.entries place default).1.ports ≡ result }
    ensures low { result < 255 }
{
    switches.as_slice()[place].ports
}

// How many ports the switch with most has.
fn most_ports(switches: &IndexMap<u64, Switch>) -> u8
    requires { All (λ n. n.1.ports < 255) switches.now.entries }
    ensures most { IsMost switches.now.entries result }
    ensures low { result < 255 }
{
    let mut most = 0;
    'switches: for place in 0..switches.len() {
        most = ports_at(switches, place).max(most);
    }
    most
}

// Puts the owner of the LIDs of a range.
fn put_owner(owners: &mut Vec<Option<EndPort>>, lids: LidRange, owner: EndPort)
    requires count { length owners.old.items ≡ 49152 }
    requires low { IsLow lids }
    ensures count { length owners.new.items ≡ 49152 }
    ensures puts { PutsOwner owners.old.items owners.new.items lids owner }
{
    if lids.base == 0 {
        return;
    }
    let first = lids.base as usize;
    let end = end_of(lids);
    'lids: for lid in first..end {
        owners[lid] = Some(owner);
    }
}

// The LIDs of the switch at a place.
fn switch_lids(switches: &IndexMap<u64, Switch>, place: usize) -> LidRange
    requires place { place < length switches.now.entries }
    requires low { All (λ n. IsLow n.1.lids) switches.now.entries }
    ensures at { (default : ℕ × Switch) →
        (slice_index_or switches.now.entries place default).1.lids ≡ result }
    ensures low { IsLow result }
{
    switches.as_slice()[place].lids
}

// The LIDs of the end port at a place.
fn end_lids(ends: &IndexMap<u64, LidRange>, place: usize) -> LidRange
    requires place { place < length ends.now.entries }
    requires low { All (λ n. IsLow n.1) ends.now.entries }
    ensures at { (default : ℕ × LidRange) → (slice_index_or ends.now.entries place default).1 ≡ result }
    ensures low { IsLow result }
{
    ends.as_slice()[place]
}

// Puts the owners of the LIDs of switches.
fn put_switches(owners: &mut Vec<Option<EndPort>>, switches: &IndexMap<u64, Switch>)
    requires count { length owners.old.items ≡ 49152 }
    requires few { length switches.now.entries ≤ 2 ^ 14 }
    requires low { All (λ n. IsLow n.1.lids) switches.now.entries }
    ensures count { length owners.new.items ≡ 49152 }
    ensures owners { (nodes : NodesOf) → nodes.switches ≡ switches.now.entries → HasOneEndPort nodes
        → AreOwners nodes 0 0 owners.old.items → AreOwners nodes (length nodes.switches) 0 owners.new.items }
{
    'switches: for place in 0..switches.len() {
        put_owner(
            owners,
            switch_lids(switches, place),
            EndPort::Switch(place as u32),
        );
    }
}

// Puts the owners of the LIDs of end ports of adapters and routers.
fn put_ends(owners: &mut Vec<Option<EndPort>>, ends: &IndexMap<u64, LidRange>)
    requires count { length owners.old.items ≡ 49152 }
    requires few { length ends.now.entries < 2 ^ 16 }
    requires low { All (λ n. IsLow n.1) ends.now.entries }
    ensures count { length owners.new.items ≡ 49152 }
    ensures owners { (nodes : NodesOf) → nodes.ends ≡ ends.now.entries → HasOneEndPort nodes
        → AreOwners nodes (length nodes.switches) 0 owners.old.items
        → AreOwners nodes (length nodes.switches) (length nodes.ends) owners.new.items }
{
    'ends: for place in 0..ends.len() {
        put_owner(owners, end_lids(ends, place), EndPort::Host(place as u32));
    }
}

// One more than the greatest LID that has an owner.
fn owned_end(owners: &[Option<EndPort>]) -> usize
    ensures low { result ≤ length owners.now }
    ensures none { (lid : ℕ) → result ≤ lid → slice_index_or owners.now lid None ≡ None }
    ensures last { 0 < result → slice_index_or owners.now (result - 1) None ≢ None }
{
    let mut end = owners.len();
    'lids: while end > 0 {
        match owners[end - 1] {
            Some(_) => return end,
            None => end -= 1,
        }
    }
    end
}

// So many LIDs without an owner.
fn no_owners(alloc: Global) -> Result<Vec<Option<EndPort>>, OutOfMemory>
    ensures count { IfOk result (λ owners. length owners.items ≡ 49152) }
    ensures none { IfOk result (λ owners. (lid : ℕ) → slice_index_or owners.items lid None ≡ None) }
{
    let owners = vec![in alloc; None; LIDS]?;
    Ok(owners)
}

// The owner of each LID, up to the greatest that has one: a copy, since the room for all LIDs is 0.6 MB.
fn find_owners(
    alloc: Global,
    switches: &IndexMap<u64, Switch>,
    ends: &IndexMap<u64, LidRange>,
) -> Result<Vec<Option<EndPort>>, OutOfMemory>
    requires few { length switches.now.entries ≤ 2 ^ 14 }
    requires low { All (λ n. IsLow n.1.lids) switches.now.entries }
    requires few_ends { length ends.now.entries < 2 ^ 16 }
    requires low_ends { All (λ n. IsLow n.1) ends.now.entries }
    ensures count { IfOk result (λ owners. length owners.items ≤ 49152) }
    ensures last { IfOk result (λ owners. EndsOwned owners.items) }
    ensures owners { IfOk result (λ owners. (nodes : NodesOf) → nodes.switches ≡ switches.now.entries
        → nodes.ends ≡ ends.now.entries → HasOneEndPort nodes
        → AreOwners nodes (length nodes.switches) (length nodes.ends) owners.items) }
{
    let mut owners = no_owners(alloc)?;
    put_switches(&mut owners, switches);
    put_ends(&mut owners, ends);
    let end = owned_end(&owners);
    let owned = Vec::from_slice(alloc, &owners[..end])?;
    Ok(owned)
}

// So many bare sides.
fn bare_sides(alloc: Global, count: usize) -> Result<Vec<u32>, OutOfMemory>
    ensures { IfOk result (λ sides. sides.items ≡ replicate count 4294967295) }
{
    let sides = vec![in alloc; BARE; count]?;
    Ok(sides)
}

// So many end ports that are not cabled.
fn no_cables(alloc: Global, count: usize) -> Result<Vec<Option<Spot>>, OutOfMemory>
    ensures count { IfOk result (λ cables. length cables.items ≡ count) }
    ensures none { IfOk result (λ cables. AreUncabled cables.items) }
{
    let cables = vec![in alloc; None; count]?;
    Ok(cables)
}

// What stands beside the nodes of a fabric.
#[derive(Drop)]
struct Parts {
    most: usize,
    sides: Vec<u32>,
    cables: Vec<Option<Spot>>,
    owners: Vec<Option<EndPort>>,
}

// Puts nodes in the order of their GUIDs, and gives what stands beside them in a fabric that is not cabled.
fn bare_parts(
    alloc: Global,
    switches: &mut IndexMap<u64, Switch>,
    ends: &mut IndexMap<u64, LidRange>,
) -> Result<Parts, OutOfMemory>
    requires { AreNodes (nodes_in switches.old.entries ends.old.entries) }
    ensures { IfOk result (λ parts. IsBareOf (nodes_in switches.old.entries ends.old.entries)
        (fabric_in (nodes_in switches.new.entries ends.new.entries) parts)) }
{
    switches.sort_keys()?;
    ends.sort_keys()?;
    let most = usize::from(most_ports(switches));
    let owners = find_owners(alloc, switches, ends)?;
    let sides = bare_sides(alloc, switches.len() * most)?;
    let cables = no_cables(alloc, ends.len())?;
    Ok(Parts {
        most,
        sides,
        cables,
        owners,
    })
}

impl Fabric {
    /// Creates a fabric of `nodes`, in ascending order of GUID, in which nothing is cabled.
    ///
    /// # Errors
    /// `OutOfMemory`.
    pub fn of(alloc: Global, nodes: Nodes) -> Result<Fabric, OutOfMemory>
        ensures { IfOk result (λ fabric. IsBareOf nodes fabric) }
    {
        let Nodes {
            mut switches,
            mut ends,
            owned: _,
        } = nodes;
        let Parts {
            most,
            sides,
            cables,
            owners,
        } = bare_parts(alloc, &mut switches, &mut ends)?;
        Ok(Fabric {
            switches,
            ends,
            most,
            sides,
            cables,
            owners,
        })
    }

    /// Returns the index of the switch with `guid`, if there is one.
    pub fn switch_with(&self, guid: u64) -> Option<u32>
        ensures place { result ≡ switch_with self.now guid }
        ensures within { IfSome result (λ place. place < switch_count self.now) }
    {
        let place = self.switches.get_index_of(&guid)?;
        Some(place as u32)
    }

    /// Returns the index of the end port, of an adapter or router, with `guid`, if there is one.
    pub fn end_with(&self, guid: u64) -> Option<u32>
        ensures place { result ≡ end_with self.now guid }
        ensures within { IfSome result (λ place. place < length self.now.cables) }
    {
        let place = self.ends.get_index_of(&guid)?;
        Some(place as u32)
    }

    // Whether a switch has a port.
    fn has_port(&self, spot: Spot) -> bool
        requires { spot.switch < switch_count self.now }
        ensures { IsTrue result ↔ IsPort self.now spot }
    {
        spot.port > 0 && spot.port <= self.ports(spot.switch as usize)
    }

    // Puts where a port leads.
    fn put_side(&mut self, spot: Spot, side: Side)
        requires switch { spot.switch < switch_count self.old }
        requires port { IsPort self.old spot }
        requires small { IsSmallEnd side }
        requires within { LeadsWithin (switch_count self.old) side }
        ensures { IsSideSet self.old self.new spot side }
    {
        let place = spot.switch as usize * self.most + (usize::from(spot.port) - 1);
        self.sides[place] = pack(side);
    }

    // Links two bare ports of switches.
    fn put_link(&mut self, one: Spot, other: Spot)
        requires one { one.switch < switch_count self.old }
        requires other { other.switch < switch_count self.old }
        requires one_port { IsPort self.old one }
        requires other_port { IsPort self.old other }
        ensures { IsLinked self.old self.new one other }
    {
        self.put_side(one, Side::To(other.switch, other.port));
        self.put_side(other, Side::To(one.switch, one.port));
    }

    /// Links ports `one` and `other` of switches. A link that exists already counts once.
    ///
    /// The caller must name switches of this fabric.
    ///
    /// # Errors
    /// `NoPort` if a switch does not have the port; `Differs` if either port is cabled otherwise. The fabric is then
    /// unchanged.
    pub fn link(&mut self, one: Spot, other: Spot) -> Result<(), LinkFault>
        requires one { one.switch < switch_count self.old }
        requires other { other.switch < switch_count self.old }
        ensures may { OnOk result (MayLink self.old one other) }
        ensures linked { OnOk result (IsLinked self.old self.new one other) }
        ensures refused { IfErr result (IsRefusedLink self.old one other) }
        ensures kept { OnErr result (self.new ≡ self.old) }
    {
        if !self.has_port(one) || !self.has_port(other) {
            return Err(LinkFault::NoPort);
        }
        let there = self.side(one.switch as usize, one.port);
        let back = self.side(other.switch as usize, other.port);
        if leads_to(there, other) && leads_to(back, one) {
            return Ok(());
        }
        if !is_bare(there) || !is_bare(back) {
            return Err(LinkFault::Differs);
        }
        self.put_link(one, other);
        Ok(())
    }

    // Cables a bare end port to a bare port of a switch.
    fn put_cable(&mut self, end: u32, spot: Spot)
        requires end { end < length self.old.cables }
        requires few { end < 2 ^ 16 }
        requires switch { spot.switch < switch_count self.old }
        requires port { IsPort self.old spot }
        ensures { IsCabledTo self.old self.new end spot }
    {
        self.put_side(spot, Side::End(end));
        self.cables[end as usize] = Some(spot);
    }

    /// Cables `end`, an end port of an adapter or router, to port `spot` of a switch. A cable that exists already
    /// counts once.
    ///
    /// The caller must name an end port and a switch of this fabric.
    ///
    /// # Errors
    /// `NoPort` if the switch does not have the port; `Differs` if the end port or the port is cabled otherwise. The
    /// fabric is then unchanged.
    pub fn cable(&mut self, end: u32, spot: Spot) -> Result<(), LinkFault>
        requires end { end < length self.old.cables }
        requires switch { spot.switch < switch_count self.old }
        ensures may { OnOk result (MayCable self.old end spot) }
        ensures cabled { OnOk result (IsCabledTo self.old self.new end spot) }
        ensures refused { IfErr result (IsRefusedCable self.old end spot) }
        ensures kept { OnErr result (self.new ≡ self.old) }
    {
        if !self.has_port(spot) {
            return Err(LinkFault::NoPort);
        }
        let there = self.side(spot.switch as usize, spot.port);
        let back = self.cable_of(end as usize);
        if leads_to_end(there, end) && is_spot(back, spot) {
            return Ok(());
        }
        if !is_bare(there) || back.is_some() {
            return Err(LinkFault::Differs);
        }
        self.put_cable(end, spot);
        Ok(())
    }

    /// Returns the number of switches, at most 16,384.
    pub fn switches(&self) -> usize
        ensures count { result ≡ switch_count self.now }
        ensures most { result ≤ 2 ^ 14 }
        ensures fabric { IsFabric self.now }
    {
        self.switches.len()
    }

    /// Returns the number of end ports of adapters and routers.
    pub fn ends(&self) -> usize
        ensures count { result ≡ length self.now.cables }
        ensures few { result < 2 ^ 16 }
    {
        self.cables.len()
    }

    /// Returns the number of ports of `switch`. The caller must name a switch of this fabric.
    pub fn ports(&self, switch: usize) -> u8
        requires { switch < switch_count self.now }
        ensures { result ≡ ports_of self.now switch }
    {
        match self.switches.get_index(switch) {
            Some((_, told)) => told.ports,
            None => 0,
        }
    }

    // The GUID of an end port of an adapter or router; 0 for a place at which there is none.
    fn end_guid(&self, end: usize) -> u64
        ensures { result ≡ guid_in (slice_get self.now.nodes.ends end) }
    {
        match self.ends.get_index(end) {
            Some((guid, _)) => *guid,
            None => 0,
        }
    }

    // The GUID of a switch, in the same way.
    fn switch_guid(&self, switch: usize) -> u64
        ensures { result ≡ guid_in (slice_get self.now.nodes.switches switch) }
    {
        match self.switches.get_index(switch) {
            Some((guid, _)) => *guid,
            None => 0,
        }
    }

    /// Returns the GUID of `port`, or 0 if there is no such end port.
    pub fn guid(&self, port: EndPort) -> u64
        ensures { result ≡ guid_of self.now port }
    {
        match port {
            EndPort::Host(end) => self.end_guid(end as usize),
            EndPort::Switch(switch) => self.switch_guid(switch as usize),
        }
    }

    /// Returns the number of ports of the switch with most ports, at most 254.
    pub fn most(&self) -> usize
        ensures most { result ≡ self.now.most }
        ensures low { result < 255 }
        ensures few { switch_count self.now ≤ 2 ^ 14 }
        ensures fabric { IsFabric self.now }
    {
        self.most
    }

    /// Returns where `port` of `switch` leads. The caller must name a switch of this fabric.
    pub fn side(&self, switch: usize, port: u8) -> Side
        requires { switch < switch_count self.now }
        ensures side { result ≡ side_of self.now switch port }
        ensures within { LeadsWithin (switch_count self.now) result }
    {
        let port = usize::from(port);
        if port == 0 || port > self.most {
            return Side::Bare;
        }
        self.side_at(switch * self.most + (port - 1))
    }

    /// As `side`, for the port at index `place` among all ports, switch by switch. The caller must keep `place` below
    /// the number of switches times `most`.
    pub fn side_at(&self, place: usize) -> Side
        requires { place < switch_count self.now * self.now.most }
        ensures side { result ≡ slice_index_or self.now.sides place Side.Bare }
        ensures within { LeadsWithin (switch_count self.now) result }
    {
        self.packed_side(place)
    }

    // The side at a place among all ports.
    fn packed_side(&self, place: usize) -> Side
        requires { place < switch_count self.now * self.now.most }
        ensures side { result ≡ slice_index_or self.now.sides place Side.Bare }
        ensures fabric { IsFabric self.now }
    {
        unpack(self.sides[place])
    }

    /// Returns the end port that owns `lid`, if any.
    pub fn owner(&self, lid: usize) -> Option<EndPort>
        ensures { result ≡ owner_of self.now lid }
    {
        self.owners.get(lid).copied().flatten()
    }

    /// Returns one more than the highest LID that has an owner, or 0 if none has.
    pub fn lids(&self) -> usize
        ensures count { result ≡ length self.now.owners }
        ensures most { result ≤ 0xC000 }
    {
        self.owners.len()
    }

    /// Returns the port to which `end`, an end port of an adapter or router, is cabled.
    pub fn cable_of(&self, end: usize) -> Option<Spot>
        ensures cable { result ≡ cable_of self.now end }
        ensures within { IfSome result (λ spot. spot.switch < switch_count self.now) }
        ensures few { length self.now.cables < 2 ^ 16 }
    {
        self.cable_at(end)
    }

    // Where it is cabled.
    fn cable_at(&self, end: usize) -> Option<Spot>
        ensures cable { result ≡ cable_of self.now end }
        ensures fabric { IsFabric self.now }
    {
        self.cables.get(end).copied().flatten()
    }
}
