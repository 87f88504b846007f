//! The routes between end ports of adapters and routers that arrive: how many there are, how long the longest is,
//! and how many go over each channel.

ghost use Rattle.std.specs.Prelude.{◌≡◌, ◌≢◌, ◌<◌, ◌≤◌, ◌+◌, ◌*◌, ◌^◌, ◌-◌, ℕ, length, max, slice_index, slice_set, IfOk};
ghost use Rattle.fabric_tables.specs.Cells.{TablesOf, tables_of};
ghost use Rattle.fabric_counts.specs.Counts.{hop_for};
ghost use Rattle.fabric_model.specs.Fabric.{FabricOf, IsFabric, switch_count};
ghost use Rattle.fabric_routes.specs.Counting.{IsCountOf};
ghost use Rattle.fabric_routes.specs.Found.{number};
ghost use Rattle.fabric_routes.specs.declared.hop.Outcome.TheVariants.{Arrives};
ghost use Rattle.fabric_model.specs.declared.traffic.Traffic.TheVariants.{Hosts};
ghost use Rattle.fabric_routes.specs.Routes.{EndsAs, IsTarget};
ghost use Rattle.fabric_route_command.specs.Loads.{AreAllLoads, AreHops, AreHosts, AreHostsBelow, AreLoadsAlong, AreLoadsUntil, AreReady, AreRooms};
ghost use Rattle.fabric_route_command.specs.Loads.{IsFrom, IsHostAt, IsPlace};
ghost use Rattle.fabric_route_command.specs.Measured.{IsGreatestLoad};

use common_values::memory::OutOfMemory;
use fabric_counts::count::{end_from, forget};
use fabric_model::fabric::Fabric;
use fabric_model::node::EndPort;
use fabric_model::traffic::Traffic;
use fabric_routes::hop::{Hop, Outcome, hop_at};
use fabric_routes::start::{begins_at, is_target};
use fabric_routes::trace::Mark;
use fabric_tables::cells::Cells;
use std::alloc::Global;

/// What routes that arrive come to.
#[derive(Drop)]
pub struct Loads {
    /// How many there are.
    pub routes: u64,
    /// The most links between switches that one of them goes over.
    pub longest: u32,
    /// How many of them go over each channel, by its number.
    pub each: Vec<u64>,
    /// And over all channels together: a route counts once for each of its channels.
    pub hops: u64,
}

// Rooms for what is found of each switch, which serve for all LIDs, one after the other.
#[derive(Drop)]
struct Rooms {
    // How the route from each switch ends.
    marks: Vec<Mark>,
    // The switches of a route.
    path: Vec<u32>,
    // What each switch does with what goes to the LID.
    hops: Vec<Hop>,
}

// Puts what each switch does with what goes to a LID.
fn put_hops(fabric: &Fabric, cells: &Cells, lid: u16, hops: &mut [Hop])
    requires same { switch_count fabric.now ≡ cells.now.switches }
    requires lid { lid < 64 * cells.now.blocks }
    requires size { length hops.old ≡ switch_count fabric.now }
    ensures { AreHops fabric.now (tables_of cells.now) lid hops.new }
{
    'switches: for switch in 0..fabric.switches() {
        hops[switch] = hop_at(fabric, cells, switch, lid as usize);
    }
}

// One end port more of those at each switch.
fn add_host(fabric: &Fabric, hosts: &mut Vec<u64>, end: usize)
    requires end { end < 2 ^ 16 }
    requires hosts { AreHostsBelow fabric.now end hosts.old.items }
    ensures { AreHostsBelow fabric.now (end + 1) hosts.new.items }
{
    let Some(spot) = fabric.cable_of(end) else {
        return;
    };
    let at = spot.switch as usize;
    let before = hosts[at];
    hosts[at] = before + 1;
}

// How many end ports of adapters and routers are cabled to each switch.
fn count_hosts(alloc: Global, fabric: &Fabric) -> Result<Vec<u64>, OutOfMemory>
    ensures { IfOk result (λ hosts. AreHosts fabric.now hosts.items) }
{
    let mut hosts = vec![in alloc; 0u64; fabric.switches()]?;
    'ends: for end in 0..fabric.ends() {
        add_host(fabric, &mut hosts, end);
    }
    Ok(hosts)
}

// How many of those at a switch are not the owner of a LID.
fn count_senders(fabric: &Fabric, owner: EndPort, switch: usize, hosts: u64) -> u64
    requires owner { IsTarget fabric.now Hosts owner }
    requires hosts { IsCountOf (IsHostAt fabric.now switch) hosts }
    ensures count { IsCountOf (λ source. IsHostAt fabric.now switch source × (source ≢ owner)) result }
    ensures few { result ≤ hosts }
{
    let Some(start) = begins_at(fabric, owner) else {
        return hosts;
    };
    if start as usize == switch {
        hosts - 1
    } else {
        hosts
    }
}

impl Rooms {
    // Rooms for so many switches.
    fn new(alloc: Global, switches: usize) -> Result<Rooms, OutOfMemory>
        ensures { IfOk result (AreRooms switches) }
    {
        let marks = vec![in alloc; Mark::New; switches]?;
        let path = vec![in alloc; 0u32; switches]?;
        let hops = vec![in alloc; Hop::Arrive; switches]?;
        Ok(Rooms { marks, path, hops })
    }
}

impl Loads {
    // No loads.
    fn none(alloc: Global, fabric: &Fabric) -> Result<Loads, OutOfMemory>
        ensures { IfOk result (λ loads. (tables : TablesOf) → AreLoadsUntil fabric.now tables 0 0 loads) }
    {
        let each = vec![in alloc; 0u64; fabric.switches() * fabric.most()]?;
        Ok(Loads {
            routes: 0,
            longest: 0,
            each,
            hops: 0,
        })
    }

    // So many routes more over the channel of a port of a switch.
    fn add_to(&mut self, fabric: &Fabric, switch: usize, port: u8, routes: u64)
        requires place { IsPlace fabric.now (record { switch = switch; port = port }) }
        requires size { length self.old.each.items ≡ switch_count fabric.now * fabric.now.most }
        requires less { (place : ℕ) → slice_index self.old.each.items place ≤ self.old.hops }
        requires fits { self.old.hops + routes < 2 ^ 64 }
        ensures each { let place = number fabric.now (record { switch = switch; port = port }) in
            self.new.each.items ≡ slice_set self.old.each.items place (slice_index self.old.each.items place + routes) }
        ensures hops { self.new.hops ≡ self.old.hops + routes }
        ensures same_routes { self.new.routes ≡ self.old.routes }
        ensures same_longest { self.new.longest ≡ self.old.longest }
    {
        let place = switch * fabric.most() + (usize::from(port) - 1);
        let before = self.each[place];
        self.each[place] = before + routes;
        self.hops += routes;
    }

    // So many routes more, those to a LID from a switch, which arrive through so many switches. Their channels are not
    // counted yet.
    fn add_arrived(&mut self, switches: u32, routes: u64)
        requires fits { self.old.routes + routes < 2 ^ 64 }
        ensures routes { self.new.routes ≡ self.old.routes + routes }
        ensures longest { self.new.longest ≡ max self.old.longest (switches - 1) }
        ensures each { self.new.each.items ≡ self.old.each.items }
        ensures hops { self.new.hops ≡ self.old.hops }
    {
        self.routes += routes;
        self.longest = self.longest.max(switches.saturating_sub(1));
    }

    // The channels of so many routes more, those to a LID from a switch, which arrive.
    fn add_routes(
        &mut self,
        fabric: &Fabric,
        cells: &Cells,
        lid: u16,
        hops: &[Hop],
        start: usize,
        routes: u64,
    )
        requires same { switch_count fabric.now ≡ cells.now.switches }
        requires lid { lid < 64 * cells.now.blocks }
        requires few_switches { switch_count fabric.now ≤ 2 ^ 14 }
        requires start { start < switch_count fabric.now }
        requires routes { IsCountOf (IsFrom fabric.now (tables_of cells.now) lid start) routes }
        requires few { routes ≤ 2 ^ 16 }
        requires hops { AreHops fabric.now (tables_of cells.now) lid hops.now }
        requires arrive { (switches : ℕ)
            × EndsAs (hop_for fabric.now (tables_of cells.now) lid) start (Arrives switches) }
        requires loads { AreLoadsAlong fabric.now (tables_of cells.now) lid start 0 self.old }
        ensures { AreLoadsUntil fabric.now (tables_of cells.now) lid (start + 1) self.new }
    {
        let mut at = start;
        'hops: for _hops in 0..fabric.switches() {
            match hops[at] {
                Hop::On(port, next) => {
                    self.add_to(fabric, at, port, routes);
                    at = next as usize;
                }
                Hop::Arrive => return,
                Hop::Stop(_) => return,
            }
        }
    }

    // The routes to a LID from a switch, so many, if they arrive.
    fn add_from(
        &mut self,
        fabric: &Fabric,
        cells: &Cells,
        lid: u16,
        rooms: &mut Rooms,
        start: usize,
        routes: u64,
    )
        requires same { switch_count fabric.now ≡ cells.now.switches }
        requires switches { switch_count fabric.now ≤ 2 ^ 14 }
        requires lid { lid < 64 * cells.now.blocks }
        requires start { start < switch_count fabric.now }
        requires rooms { AreReady fabric.now (tables_of cells.now) lid rooms.old }
        requires routes { IsCountOf (IsFrom fabric.now (tables_of cells.now) lid start) routes }
        requires few { routes ≤ 2 ^ 16 }
        requires loads { AreLoadsUntil fabric.now (tables_of cells.now) lid start self.old }
        ensures rooms { AreReady fabric.now (tables_of cells.now) lid rooms.new }
        ensures loads { AreLoadsUntil fabric.now (tables_of cells.now) lid (start + 1) self.new }
    {
        if routes == 0 {
            return;
        }
        match end_from(fabric, cells, lid, &mut rooms.marks, &mut rooms.path, start) {
            Outcome::Arrives(switches) => {
                self.add_arrived(switches, routes);
                self.add_routes(fabric, cells, lid, &rooms.hops, start, routes);
            }
            Outcome::Stops(_) => {}
            Outcome::Loops => {}
        }
    }

    // The routes to a LID.
    fn add_lid(
        &mut self,
        fabric: &Fabric,
        cells: &Cells,
        lid: u16,
        hosts: &[u64],
        rooms: &mut Rooms,
    )
        requires same { switch_count fabric.now ≡ cells.now.switches }
        requires lid { lid < 64 * cells.now.blocks }
        requires hosts { AreHosts fabric.now hosts.now }
        requires rooms { AreRooms (switch_count fabric.now) rooms.old }
        requires loads { AreLoadsUntil fabric.now (tables_of cells.now) lid 0 self.old }
        ensures rooms { AreRooms (switch_count fabric.now) rooms.new }
        ensures loads { AreLoadsUntil fabric.now (tables_of cells.now) (lid + 1) 0 self.new }
    {
        let Some(owner) = fabric.owner(lid as usize) else {
            return;
        };
        if !is_target(fabric, Traffic::Hosts, lid as usize) {
            return;
        }
        forget(&mut rooms.marks);
        put_hops(fabric, cells, lid, &mut rooms.hops);
        'switches: for start in 0..fabric.switches() {
            let routes = count_senders(fabric, owner, start, hosts[start]);
            self.add_from(fabric, cells, lid, rooms, start, routes);
        }
    }

    /// What the routes between end ports of adapters and routers come to that arrive. The error is out of memory alone.
    pub fn of(alloc: Global, fabric: &Fabric, cells: &Cells) -> Result<Loads, OutOfMemory>
        requires same { switch_count fabric.now ≡ cells.now.switches }
        requires owners { length fabric.now.owners ≤ 64 * cells.now.blocks }
        ensures loads { IfOk result (AreAllLoads fabric.now (tables_of cells.now)) }
        ensures fabric { IfOk result (λ _. IsFabric fabric.now) }
    {
        let hosts = count_hosts(alloc, fabric)?;
        let mut rooms = Rooms::new(alloc, fabric.switches())?;
        let mut loads = Loads::none(alloc, fabric)?;
        'lids: for lid in 0..fabric.lids() {
            loads.add_lid(fabric, cells, lid as u16, &hosts, &mut rooms);
        }
        Ok(loads)
    }

    /// The most routes that go over one channel.
    pub fn greatest(&self) -> u64
        ensures { (fabric : FabricOf) (tables : TablesOf) → IsFabric fabric → AreAllLoads fabric tables self.now
            → IsGreatestLoad fabric tables result }
    {
        let mut greatest = 0u64;
        'loads: for load in &self.each {
            greatest = greatest.max(*load);
        }
        greatest
    }
}
