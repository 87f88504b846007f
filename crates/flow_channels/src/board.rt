//! Packets in channels and at routers. A move into or out of a channel reports what its first packet does next.

ghost use Rattle.std.specs.Prelude.{◌≡◌, ◌<◌, ◌≤◌, ◌++◌, ◌∷◌, [], length, slice_get};
ghost use Rattle.std.specs.Prelude.{slice_index_or, IfOk, IsTrue, MatchOption, Some, ◌↔◌};
ghost use Rattle.dep_check.specs.Tables.{IsSpot, place_of, wire_at, WiresAreWithin};
ghost use Rattle.flow_channels.specs.Board.{AreEmptyQueues, AreIdleRouters, asked_by, come_by, flow_of, HasLink};
ghost use Rattle.flow_channels.specs.Board.{IsKept, IsSoundOver, ways};
ghost use Rattle.flow_channels.specs.Ahead.{ahead_of, asks_of};
ghost use Rattle.flow_channels.specs.Flows.{empty_flow, enters, first_asks, first_of, leaves};
ghost use Rattle.flow_channels.specs.Moves.{CanArrive, HasRoom};
ghost use Rattle.flow_channels.specs.Queue.{QueueOf};
ghost use Rattle.flow_channels.specs.Turns.{AreFree, IsAtTarget};

use crate::exits::NUMBERS;
use crate::queue::Queue;
use crate::tables::Tables;
use common_values::memory::OutOfMemory;
use dep_check::channel::Channel;
use dep_check::spot::{SPOTS, place_of, spot_at};
use fcfc_router::router::Router;
use std::alloc::Global;

/// A packet that entered, and the number of the switch that it goes to.
#[derive(Clone, Copy)]
pub struct Packet {
    /// The packet.
    pub packet: u32,
    /// The number of the switch.
    pub to: u8,
}

/// A packet at its target, which is the first packet of a channel.
#[derive(Clone, Copy)]
pub struct Arrival {
    /// The channel.
    pub channel: Channel,
    /// The packet.
    pub packet: Packet,
}

/// A packet that was granted a port, by its index among the packets that entered.
#[derive(Clone, Copy)]
pub struct Departure {
    /// The number of the switch.
    pub at: u8,
    /// The port.
    pub exit: u8,
    /// The index of the packet.
    pub slot: u32,
}

/// What the first packet of a channel does at the far side.
#[derive(Clone, Copy)]
pub enum Ahead {
    /// There is no such packet, or no far side.
    Rests,
    /// The packet is at its target.
    Arrives,
    /// The packet asks for a port there.
    Asks {
        /// The far side.
        end: Channel,
    },
}

impl Ahead {
    /// Returns the far side, if the packet asks there.
    pub fn asks(&self) -> Option<Channel>
        ensures { result ≡ asks_of self.now }
    {
        match self {
            Ahead::Asks { end } => Some(*end),
            Ahead::Arrives => None,
            Ahead::Rests => None,
        }
    }
}

/// The packets and where they are. The slot of a packet is its index in the order of entering.
#[derive(Drop)]
pub struct Board {
    /// The packets that entered.
    pub packets: Vec<Packet>,
    /// For each packet that waits, the port where it arrived; 0 if it starts there.
    pub entries: Vec<u8>,
    /// The packets in the channel of each spot.
    pub queues: Vec<Queue>,
    /// The requests that wait at the switch of each number.
    pub routers: Vec<Router>,
}

impl Board {
    fn first(&self, channel: Channel) -> Option<u32>
        requires spot { IsSpot channel }
        requires queues { length self.now.queues.items ≡ 1651 }
        ensures { (none : QueueOf)
            → result ≡ slice_get (slice_index_or self.now.queues.items (place_of channel) none).slots 0 }
    {
        self.queues[place_of(channel)].first()
    }

    // A packet asks at a switch for the exits of the entry at which it came in.
    fn ask(&mut self, tables: &Tables, at: u8, slot: u32, entry: u8)
        requires kept { IsKept tables.now self.old }
        requires at { at < 127 }
        requires entry { entry < 13 }
        requires slot { slot < length self.old.packets.items }
        requires sound { IsSoundOver tables.now (asked_by self.old at slot entry) }
        ensures kept { IsKept tables.now self.new }
        ensures flow { flow_of self.new ≡ asked_by self.old at slot entry }
        ensures packets { self.new.packets.items ≡ self.old.packets.items }
    {
        let came = Channel { at, port: entry };
        let exits = tables.exits.get(came, self.packets[slot as usize].to);
        self.entries[slot as usize] = entry;
        self.routers[usize::from(at)].ask_set(slot, exits);
    }

    // What the first packet of a channel does at the far side.
    fn ahead(&self, tables: &Tables, channel: Channel) -> Ahead
        requires kept { IsKept tables.now self.now }
        requires spot { IsSpot channel }
        ensures { result ≡ ahead_of ((ways tables.now).far channel) (first_of (flow_of self.now) channel) }
    {
        let Some(end) = tables.far(channel) else {
            return Ahead::Rests;
        };
        let Some(slot) = self.first(channel) else {
            return Ahead::Rests;
        };
        if self.packets[slot as usize].to == end.at {
            return Ahead::Arrives;
        }
        Ahead::Asks { end }
    }

    // The first packet of a channel asks at the far side, unless that is its target.
    fn first_asks(&mut self, tables: &Tables, channel: Channel) -> Ahead
        requires kept { IsKept tables.now self.old }
        requires spot { IsSpot channel }
        requires sound { IsSoundOver tables.now (first_asks (ways tables.now) channel (flow_of self.old)) }
        ensures kept { IsKept tables.now self.new }
        ensures flow { flow_of self.new ≡ first_asks (ways tables.now) channel (flow_of self.old) }
        ensures packets { self.new.packets.items ≡ self.old.packets.items }
        ensures ahead { result ≡ ahead_of ((ways tables.now).far channel) (first_of (flow_of self.new) channel) }
    {
        let Some(end) = tables.far(channel) else {
            return Ahead::Rests;
        };
        let Some(slot) = self.first(channel) else {
            return Ahead::Rests;
        };
        let to = self.packets[slot as usize].to;
        if to == end.at {
            return Ahead::Arrives;
        }
        self.ask(tables, end.at, slot, end.port);
        Ahead::Asks { end }
    }

    /// Removes the first packet of `channel`, and lets the next one ask. Returns what that one does.
    ///
    /// The caller must pass the tables of the board, and the resulting flow must be sound.
    pub fn leave(&mut self, tables: &Tables, channel: Channel) -> Ahead
        requires kept { IsKept tables.now self.old }
        requires spot { IsSpot channel }
        requires sound { IsSoundOver tables.now (leaves (ways tables.now) channel (flow_of self.old)) }
        ensures kept { IsKept tables.now self.new }
        ensures flow { flow_of self.new ≡ leaves (ways tables.now) channel (flow_of self.old) }
        ensures packets { self.new.packets.items ≡ self.old.packets.items }
        ensures ahead { result ≡ ahead_of ((ways tables.now).far channel) (first_of (flow_of self.new) channel) }
    {
        self.queues[place_of(channel)].pop();
        self.first_asks(tables, channel)
    }

    /// Adds the packet `slot` at the end of `channel`, and lets it ask if it is first.
    ///
    /// Returns what the first packet does.
    /// The caller must pass the tables of the board, and the resulting flow must be sound.
    pub fn come_into(&mut self, tables: &Tables, channel: Channel, slot: u32) -> Ahead
        requires kept { IsKept tables.now self.old }
        requires spot { IsSpot channel }
        requires slot { slot < length self.old.packets.items }
        requires sound { IsSoundOver tables.now (come_by tables.now self.old channel slot) }
        ensures kept { IsKept tables.now self.new }
        ensures flow { flow_of self.new ≡ come_by tables.now self.old channel slot }
        ensures packets { self.new.packets.items ≡ self.old.packets.items }
        ensures ahead { result ≡ ahead_of ((ways tables.now).far channel) (first_of (flow_of self.new) channel) }
    {
        let count = self.queues[place_of(channel)].len();
        self.queues[place_of(channel)].push(slot);
        if count == 0 {
            return self.first_asks(tables, channel);
        }
        self.ahead(tables, channel)
    }

    /// Returns the first packet of `channel`, if it is at its target.
    pub fn arrived_in(&self, tables: &Tables, channel: Channel) -> Option<Packet>
        requires kept { IsKept tables.now self.now }
        requires spot { IsSpot channel }
        ensures { MatchOption result (CanArrive (ways tables.now) (flow_of self.now) channel → ⊥)
            (IsAtTarget tables.now self.now channel) }
    {
        let end = tables.far(channel)?;
        let slot = self.first(channel)?;
        let packet = self.packets[slot as usize];
        if packet.to == end.at {
            return Some(packet);
        }
        None
    }

    /// Reports whether `channel` is a channel with free space.
    pub fn has_room(&self, tables: &Tables, channel: Channel) -> bool
        requires kept { IsKept tables.now self.now }
        requires spot { IsSpot channel }
        ensures { IsTrue result ↔ HasRoom (ways tables.now) (flow_of self.now) channel }
    {
        tables.far(channel).is_some() && self.queues[place_of(channel)].len() < tables.room
    }

    /// Returns the ports of the switch `at` whose channels have free space, as a set.
    pub fn free_ports(&self, tables: &Tables, at: u8) -> u16
        requires kept { IsKept tables.now self.now }
        requires at { at < 127 }
        ensures { AreFree tables.now self.now at result }
    {
        let mut free = 0;
        'ports: for port in 0..13u8 {
            if self.has_room(tables, Channel { at, port }) {
                free |= 1u16 << port;
            }
        }
        free
    }

    /// Lets `packet` enter at the switch `from`, and ask there.
    ///
    /// The caller must pass the tables of the board, there must be space, and the resulting flow must be sound.
    pub fn enter(&mut self, tables: &Tables, packet: Packet, from: u8)
        requires kept { IsKept tables.now self.old }
        requires from { from < 127 }
        requires to { packet.to < 127 }
        requires few { length self.old.packets.items < tables.now.limit }
        requires limit { tables.now.limit ≤ 10012 }
        requires sound { IsSoundOver tables.now (enters packet.packet from packet.to (flow_of self.old)) }
        ensures kept { IsKept tables.now self.new }
        ensures flow { flow_of self.new ≡ enters packet.packet from packet.to (flow_of self.old) }
        ensures packets { self.new.packets.items ≡ self.old.packets.items ++ (packet ∷ []) }
    {
        let slot = self.packets.len() as u32;
        match self.packets.push(packet) {
            Ok(()) => (),
            Err(_) => unreachable!(),
        }
        match self.entries.push(0) {
            Ok(()) => (),
            Err(_) => unreachable!(),
        }
        self.ask(tables, from, slot, 0);
    }
}

// An empty queue for a spot, with room if a link is there.
fn empty_queue(
    alloc: Global,
    tables: &Tables,
    spot: Channel,
    places: usize,
) -> Result<Queue, OutOfMemory>
    requires { IsSpot spot }
    ensures empty { IfOk result (λ queue. queue.slots ≡ []) }
    ensures places { IfOk result (λ queue.
        (end : Channel) → wire_at tables.now.wires.items spot ≡ Some end → queue.places ≡ places) }
{
    match tables.far(spot) {
        Some(_) => Queue::new(alloc, places),
        None => Queue::new(alloc, 0),
    }
}

fn empty_queues(alloc: Global, tables: &Tables, places: usize) -> Result<Vec<Queue>, OutOfMemory>
    ensures { IfOk result (λ queues. AreEmptyQueues tables.now.wires.items places 1651 queues.items) }
{
    let mut queues = Vec::with_capacity(alloc, usize::from(SPOTS))?;
    'spots: for place in 0..SPOTS {
        queues.push(empty_queue(alloc, tables, spot_at(place), places)?)?;
    }
    Ok(queues)
}

// Whether a port of a number has a link.
fn has_link(tables: &Tables, at: u8) -> bool
    requires { at < 127 }
    ensures { IsTrue result ↔ HasLink tables.now.wires.items at }
{
    'ports: for port in 0..13u8 {
        if tables.far(Channel { at, port }).is_some() {
            return true;
        }
    }
    false
}

// A router for a number, at which nobody waits. Without a link nobody asks there, and it needs no more room
// than the least.
fn idle_router(alloc: Global, tables: &Tables, at: u8, most: u32) -> Result<Router, OutOfMemory>
    requires at { at < 127 }
    requires least { 1 ≤ most }
    requires limit { most ≤ 10012 }
    ensures idle { IfOk result (λ router. router.waiting ≡ []) }
    ensures most { IfOk result (λ router. HasLink tables.now.wires.items at → router.most ≡ most) }
{
    if has_link(tables, at) {
        return Router::new(alloc, most);
    }
    Router::new(alloc, 1)
}

// A router for each number.
fn idle_routers(alloc: Global, tables: &Tables, most: u32) -> Result<Vec<Router>, OutOfMemory>
    requires least { 1 ≤ most }
    requires limit { most ≤ 10012 }
    ensures { IfOk result (λ routers. AreIdleRouters tables.now.wires.items most 127 routers.items) }
{
    let mut routers = Vec::with_capacity(alloc, usize::from(NUMBERS))?;
    'numbers: for at in 0..NUMBERS {
        routers.push(idle_router(alloc, tables, at, most)?)?;
    }
    Ok(routers)
}

impl Board {
    /// Creates a board without packets. The caller must pass a limit from 1 to 10,012 in `tables`.
    ///
    /// # Errors
    /// `OutOfMemory` if an allocation fails.
    pub fn new(alloc: Global, tables: &Tables) -> Result<Self, OutOfMemory>
        requires within { WiresAreWithin tables.now.wires.items }
        requires least { 1 ≤ tables.now.limit }
        requires limit { tables.now.limit ≤ 10012 }
        ensures kept { IfOk result (IsKept tables.now) }
        ensures flow { IfOk result (λ board. flow_of board ≡ empty_flow) }
        ensures packets { IfOk result (λ board. board.packets.items ≡ []) }
    {
        let most = tables.limit;
        let places = tables.room.min(most as usize);
        Ok(Board {
            packets: Vec::with_capacity(alloc, most as usize)?,
            entries: Vec::with_capacity(alloc, most as usize)?,
            queues: empty_queues(alloc, tables, places)?,
            routers: idle_routers(alloc, tables, most)?,
        })
    }
}
