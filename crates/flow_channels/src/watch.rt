//! An index that a turn uses instead of checking all channels and switches. All moves of the board update it.

ghost use Rattle.std.specs.Prelude.{◌≡◌, ◌<◌, ◌≤◌, ◌++◌, ◌∷◌, [], length, slice_index};
ghost use Rattle.std.specs.Prelude.{IfOk, IsNone, MatchOption};
ghost use Rattle.dep_check.specs.Tables.{IsSpot};
ghost use Rattle.flow_channels.specs.Board.{come_by, flow_of, freed_by, gone_by, IsKept};
ghost use Rattle.flow_channels.specs.Board.{IsSoundOver, left_by, ways};
ghost use Rattle.flow_channels.specs.Ahead.{ahead_of};
ghost use Rattle.flow_channels.specs.Flows.{empty_flow, enters, first_of, leaves};
ghost use Rattle.flow_channels.specs.Turns.{HasDeparted, IsFirstArrival, IsSame, NoneArrives, NoneGoes};
ghost use Rattle.flow_channels.specs.Watch.{AreArriving, AreFreePorts, HasPortIf, HeldBefore, IsWatched};

use crate::board::{Ahead, Arrival, Board, Departure, Packet};
use crate::exits::NUMBERS;
use crate::marks::SpotMarks;
use crate::tables::Tables;
use common_values::memory::OutOfMemory;
use dep_check::channel::Channel;
use dep_check::spot::{place_of, spot_at};
use fcfc_router::router::Grant;
use std::alloc::Global;

/// The channels and switches that can make the next move.
#[derive(Drop)]
pub struct Watch {
    /// The indices of the channels whose first packet is at its target.
    pub arriving: SpotMarks,
    /// For each switch, by number, the ports whose channels have free space.
    pub free: Vec<u16>,
    /// The numbers of the switches where some packet can leave, and perhaps of others.
    pub awake: SpotMarks,
}

// The ports of each switch whose channels have room.
fn all_free(alloc: Global, tables: &Tables, board: &Board) -> Result<Vec<u16>, OutOfMemory>
    requires { IsKept tables.now board.now }
    ensures { IfOk result (λ free. AreFreePorts tables.now (flow_of board.now) 127 free.items) }
{
    let mut free = Vec::with_capacity(alloc, usize::from(NUMBERS))?;
    'numbers: for at in 0..NUMBERS {
        free.push(board.free_ports(tables, at))?;
    }
    Ok(free)
}

// A set with a port, or without it.
fn with_port(set: u16, port: u8, is_in: bool) -> u16
    requires { port < 16 }
    ensures { HasPortIf set port is_in result }
{
    let bit = 1u16 << port;
    if is_in {
        return set | bit;
    }
    set & !bit
}

// Sees to whether a channel has room, after something came or went in it.
fn see_room(free: &mut Vec<u16>, tables: &Tables, board: &Board, channel: Channel)
    requires kept { IsKept tables.now board.now }
    requires spot { IsSpot channel }
    requires was { HeldBefore tables.now channel (flow_of board.now)
        (λ old. AreFreePorts tables.now old 127 free.old.items) }
    ensures { AreFreePorts tables.now (flow_of board.now) 127 free.new.items }
{
    let at = usize::from(channel.at);
    let has_room = board.has_room(tables, channel);
    free[at] = with_port(free[at], channel.port, has_room);
}

// Sees to whether the first packet of a channel is at its target, after something came or went
// in it.
fn see_first(
    arriving: &mut SpotMarks,
    tables: &Tables,
    board: &Board,
    channel: Channel,
    ahead: Ahead,
)
    requires spot { IsSpot channel }
    requires ahead { ahead ≡ ahead_of ((ways tables.now).far channel) (first_of (flow_of board.now) channel) }
    requires was { HeldBefore tables.now channel (flow_of board.now)
        (λ old. AreArriving tables.now old arriving.old) }
    ensures { AreArriving tables.now (flow_of board.now) arriving.new }
{
    let place = place_of(channel);
    match ahead {
        Ahead::Arrives => arriving.insert(place),
        Ahead::Rests => arriving.remove(place),
        Ahead::Asks { end: _end } => arriving.remove(place),
    }
}

impl Watch {
    /// Creates the index of `board`, which must have no packets on the way.
    ///
    /// # Errors
    /// `OutOfMemory` if an allocation fails.
    pub fn new(alloc: Global, tables: &Tables, board: &Board) -> Result<Self, OutOfMemory>
        requires kept { IsKept tables.now board.now }
        requires empty { flow_of board.now ≡ empty_flow }
        ensures { IfOk result (IsWatched tables.now (flow_of board.now)) }
    {
        Ok(Watch {
            arriving: SpotMarks::new(),
            free: all_free(alloc, tables, board)?,
            awake: SpotMarks::new(),
        })
    }

    // Sees to what may happen after something came or went in a channel.
    fn see(&mut self, tables: &Tables, board: &Board, channel: Channel, ahead: Ahead)
        requires kept { IsKept tables.now board.now }
        requires spot { IsSpot channel }
        requires ahead { ahead ≡ ahead_of ((ways tables.now).far channel) (first_of (flow_of board.now) channel) }
        requires was { HeldBefore tables.now channel (flow_of board.now)
            (λ old. IsWatched tables.now old self.old) }
        ensures { IsWatched tables.now (flow_of board.now) self.new }
    {
        see_first(&mut self.arriving, tables, board, channel, ahead);
        see_room(&mut self.free, tables, board, channel);
        self.awake.insert(usize::from(channel.at));
        if let Some(end) = ahead.asks() {
            self.awake.insert(usize::from(end.at));
        }
    }

    /// Removes the first packet of `channel`, and lets the next one ask.
    ///
    /// The caller must pass the tables and the board of this index, and the resulting flow must be sound.
    pub fn leave(&mut self, tables: &Tables, board: &mut Board, channel: Channel)
        requires kept { IsKept tables.now board.old }
        requires watched { IsWatched tables.now (flow_of board.old) self.old }
        requires spot { IsSpot channel }
        requires sound { IsSoundOver tables.now (leaves (ways tables.now) channel (flow_of board.old)) }
        ensures kept { IsKept tables.now board.new }
        ensures watched { IsWatched tables.now (flow_of board.new) self.new }
        ensures flow { flow_of board.new ≡ leaves (ways tables.now) channel (flow_of board.old) }
        ensures packets { board.new.packets.items ≡ board.old.packets.items }
    {
        let ahead = board.leave(tables, channel);
        self.see(tables, board, channel, ahead);
    }

    // What came in at a spot leaves the channel that brought it, if one did.
    fn leave_by(&mut self, tables: &Tables, board: &mut Board, came: Channel)
        requires kept { IsKept tables.now board.old }
        requires watched { IsWatched tables.now (flow_of board.old) self.old }
        requires spot { IsSpot came }
        requires sound { IsSoundOver tables.now (freed_by tables.now board.old came) }
        ensures kept { IsKept tables.now board.new }
        ensures watched { IsWatched tables.now (flow_of board.new) self.new }
        ensures flow { flow_of board.new ≡ freed_by tables.now board.old came }
        ensures packets { board.new.packets.items ≡ board.old.packets.items }
    {
        if let Some(channel) = tables.far(came) {
            self.leave(tables, board, channel);
        }
    }

    // A packet comes last in a channel, and asks if it is the first there.
    fn come_into(&mut self, tables: &Tables, board: &mut Board, channel: Channel, slot: u32)
        requires kept { IsKept tables.now board.old }
        requires watched { IsWatched tables.now (flow_of board.old) self.old }
        requires spot { IsSpot channel }
        requires slot { slot < length board.old.packets.items }
        requires sound { IsSoundOver tables.now (come_by tables.now board.old channel slot) }
        ensures kept { IsKept tables.now board.new }
        ensures watched { IsWatched tables.now (flow_of board.new) self.new }
        ensures flow { flow_of board.new ≡ come_by tables.now board.old channel slot }
        ensures packets { board.new.packets.items ≡ board.old.packets.items }
    {
        let ahead = board.come_into(tables, channel, slot);
        self.see(tables, board, channel, ahead);
    }

    /// Moves the packet of `departure` from the channel that brought it, if one did, into the channel of its port.
    ///
    /// The caller must pass the tables and the board of this index, and the resulting flows must be sound.
    pub fn go(&mut self, tables: &Tables, board: &mut Board, departure: Departure)
        requires kept { IsKept tables.now board.old }
        requires watched { IsWatched tables.now (flow_of board.old) self.old }
        requires at { departure.at < 127 }
        requires exit { departure.exit < 13 }
        requires slot { departure.slot < length board.old.packets.items }
        requires entry { slice_index board.old.entries.items departure.slot < 13 }
        requires left { IsSoundOver tables.now (left_by tables.now board.old departure) }
        requires sound { IsSoundOver tables.now (gone_by tables.now board.old departure) }
        ensures kept { IsKept tables.now board.new }
        ensures watched { IsWatched tables.now (flow_of board.new) self.new }
        ensures flow { flow_of board.new ≡ gone_by tables.now board.old departure }
        ensures packets { board.new.packets.items ≡ board.old.packets.items }
    {
        let came = Channel {
            at: departure.at,
            port: board.entries[departure.slot as usize],
        };
        self.leave_by(tables, board, came);
        let channel = Channel {
            at: departure.at,
            port: departure.exit,
        };
        self.come_into(tables, board, channel, departure.slot);
    }

    /// Lets `packet` enter at the switch `from`, and ask there.
    ///
    /// The caller must pass the tables and the board of this index; there must be space, and the resulting flow must be
    /// sound.
    pub fn enter(&mut self, tables: &Tables, board: &mut Board, packet: Packet, from: u8)
        requires kept { IsKept tables.now board.old }
        requires watched { IsWatched tables.now (flow_of board.old) self.old }
        requires from { from < 127 }
        requires to { packet.to < 127 }
        requires few { length board.old.packets.items < tables.now.limit }
        requires limit { tables.now.limit ≤ 10012 }
        requires sound { IsSoundOver tables.now (enters packet.packet from packet.to (flow_of board.old)) }
        ensures kept { IsKept tables.now board.new }
        ensures watched { IsWatched tables.now (flow_of board.new) self.new }
        ensures flow { flow_of board.new ≡ enters packet.packet from packet.to (flow_of board.old) }
        ensures packets { board.new.packets.items ≡ board.old.packets.items ++ (packet ∷ []) }
    {
        board.enter(tables, packet, from);
        self.awake.insert(usize::from(from));
    }

    /// Returns the first channel whose first packet is at its target, and that packet, if there is one.
    pub fn arrival(&self, tables: &Tables, board: &Board) -> Option<Arrival>
        requires kept { IsKept tables.now board.now }
        requires watched { IsWatched tables.now (flow_of board.now) self.now }
        ensures { MatchOption result (NoneArrives tables.now board.now 1651)
            (IsFirstArrival tables.now board.now) }
    {
        let place = self.arriving.first()?;
        let channel = spot_at(place as u16);
        let packet = board.arrived_in(tables, channel)?;
        Some(Arrival { channel, packet })
    }

    /// Grants a port to the packet that asked first of those that can leave, at the first switch where one can.
    ///
    /// Returns `None`, and moves no packet, if no packet can leave.
    pub fn departure(&mut self, tables: &Tables, board: &mut Board) -> Option<Departure>
        requires kept { IsKept tables.now board.old }
        requires watched { IsWatched tables.now (flow_of board.old) self.old }
        ensures departed { MatchOption result (NoneGoes tables.now board.old 127)
            (HasDeparted tables.now board.old board.new) }
        ensures same { IsNone result → IsSame board.old board.new }
        ensures kept { IsKept tables.now board.new }
        ensures watched { IsWatched tables.now (flow_of board.new) self.new }
    {
        'numbers: while let Some(number) = self.awake.first() {
            let at = number as u8;
            let free = self.free[number];
            if let Some(Grant { packet, port }) = board.routers[number].grant(free) {
                return Some(Departure {
                    at,
                    exit: port,
                    slot: packet,
                });
            }
            self.awake.remove(number);
        }
        None
    }
}
