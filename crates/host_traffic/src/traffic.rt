//! The packets in flight.

ghost use Rattle.std.specs.Prelude.{◌≡◌, ◌==◌, ◌<◌, ◌≤◌, ◌^◌, [], length, Some, is_some, true, false, AllPairs, IfOk, IfSome};
ghost use Rattle.std.specs.Option.{option_map};
ghost use Rattle.std.specs.VecDeque.{deque_len, deque_capacity};
ghost use Rattle.host_traffic.specs.Packets.{delivered_to, first_packet, goes_by};
ghost use Rattle.host_traffic.specs.Packets.{hop_in, hopped_in, packet_of, place_now, with_new};
ghost use Rattle.host_traffic.specs.Filed.{IsFiledIn, IsFoundAt, IsPlaceFor, place_after};

use crate::hop::{DropCause, Hop};
use crate::packet::Packet;
use crate::view::HopView;
use an_base::place::Place;
use an_base::port::Port;
use common_values::memory::OutOfMemory;
use slab::Slab;
use std::alloc::Global;
use std::collections::VecDeque;
use std::marker::Model;

// The number of a packet, and the key under which it is stored.
#[derive(Clone, Copy)]
struct Filed {
    packet: u32,
    key: usize,
}

/// The packets in flight, up to a fixed number.
///
/// They are stored in a slab. Their keys are in ascending order of packet number, so the lowest one is
/// at the front: packets are numbered as they are sent, so a new one comes last, and mostly the lowest
/// one leaves.
#[derive(Drop)]
pub struct Traffic {
    most: u32,
    packets: Slab<Packet>,
    order: VecDeque<Filed>,
}

impl Model for Traffic {
    ghost use Rattle.host_traffic.specs.Packets.{TrafficOf};
    ghost use Rattle.std.specs.VecDeque.{deque_capacity};
    ghost use Rattle.host_traffic.specs.Filed.{shown, IsFiled};

    ghost Value = { TrafficOf };

    ghost view = { λ t. record { packets = shown t.packets t.order.items; most = t.most } };

    ghost invariant = { λ t. IsFiled t.most t.packets t.order.items (deque_capacity t.order) };
}

// The index at which a packet with this number is filed.
fn found_at(order: &VecDeque<Filed>, packet: u32) -> Option<usize>
    requires { AllPairs (λ one other. one.packet < other.packet) order.now.items }
    ensures found { IsFoundAt packet order.now.items result }
    ensures bound { IfSome result (λ place. place < deque_len order.now) }
{
    match order.binary_search_by(|filed| filed.packet.cmp(&packet)) {
        Ok(place) => Some(place),
        Err(_) => None,
    }
}

// The index at which a packet with a new number is to be filed.
fn place_for(order: &VecDeque<Filed>, packet: u32) -> usize
    requires { AllPairs (λ one other. one.packet < other.packet) order.now.items }
    ensures { IsPlaceFor packet order.now.items result }
{
    order.partition_point(|filed| filed.packet < packet)
}

// Files a packet that is stored, in the order of numbers. There must be room for it.
fn file(order: &mut VecDeque<Filed>, filed: Filed)
    requires rising { AllPairs (λ one other. one.packet < other.packet) order.old.items }
    requires room { deque_len order.old < deque_capacity order.old }
    ensures order { IsFiledIn filed order.old.items order.new.items }
    ensures capacity { deque_capacity order.old ≤ deque_capacity order.new }
{
    let place = place_for(order, filed.packet);
    order.insert(place, filed).unwrap();
}

// The result at the switch of the packet's address: it is delivered to the host at the port of the address, if it is
// for that host.
fn delivery(port: Port, host: Option<(u16, u64)>, packet: Packet) -> Hop
    ensures { result ≡ delivered_to port host packet }
{
    match host {
        None => Hop::Dropped {
            cause: DropCause::NoHost,
        },
        Some((host, uid)) if uid == packet.uid => Hop::Delivered { exit: port, host },
        Some(_) => Hop::Dropped {
            cause: DropCause::WrongHost,
        },
    }
}

// The result elsewhere: it goes through the lowest of these exits.
fn onward<V: HopView>(exits: &[u8], view: &V, packet: Packet) -> Hop
    ensures { result ≡ goes_by exits.now (V.next_at view.now packet.at) }
{
    match exits.first() {
        None => Hop::Dropped {
            cause: DropCause::NoExit,
        },
        Some(exit) => match view.next(packet.at, Port(*exit)) {
            Some(_) => Hop::Went { exit: Port(*exit) },
            None => Hop::Dropped {
                cause: DropCause::LinkDown,
            },
        },
    }
}

// The packet's next hop, by the table in use.
fn next_hop<V: HopView>(packet: Packet, view: &V) -> Hop
    ensures { result ≡ hop_in (V.table_at view.now) (V.host_at view.now) (V.next_at view.now) packet }
{
    match view.table(packet.at) {
        None => Hop::Dropped {
            cause: DropCause::NoTable,
        },
        Some(table) => {
            let number = packet.switch_number();
            if number == table.number() {
                let port = packet.last_port();
                delivery(port, view.host(packet.at, port), packet)
            } else {
                let exits = table.exits(packet.row_entry().as_u8(), number).list();
                onward(exits.as_slice(), view, packet)
            }
        }
    }
}

// The switch and port where a packet is after a hop; `None` if it is no longer in flight.
fn place_after<V: HopView>(hop: &Hop, view: &V, at: Place) -> Option<(Place, Port)>
    ensures { result ≡ place_after hop.now (V.next_at view.now at) }
{
    match *hop {
        Hop::Went { exit } => view.next(at, exit),
        _ => None,
    }
}

impl Traffic {
    /// Creates a list without packets, with room for `most` at once, and allocates all its memory.
    ///
    /// # Errors
    /// `OutOfMemory` if an allocation fails.
    pub fn begin(alloc: Global, most: u32) -> Result<Self, OutOfMemory>
        ensures { IfOk result (λ traffic. traffic ≡ record { packets = []; most = most }) }
    {
        Ok(Traffic {
            most,
            packets: Slab::with_capacity(alloc, most as usize)?,
            order: VecDeque::with_capacity(alloc, most as usize)?,
        })
    }

    /// Adds the packet that a host at `entry` of switch `at` sends to `address`, for the host with identifier
    /// `uid`.
    ///
    /// The address is 16 times the number of a switch plus a port there, below 2^12. The row of entry 0
    /// forwards the packet at its first hop. There must be room, and no packet with this number in flight.
    pub fn send(&mut self, packet: u32, at: Place, entry: Port, address: u16, uid: u64)
        requires room { length self.old.packets < self.old.most }
        requires new { is_some (packet_of packet self.old.packets) ≡ false }
        requires address { address < 2 ^ 12 }
        ensures { self.new ≡ record self.old {
          packets = with_new
              (record { packet = packet; at = at; entry = entry; is_new = true; address = address; uid = uid })
              self.old.packets;
        } }
    {
        let key = self.packets.insert_reserved(Packet {
            packet,
            at,
            entry,
            is_new: true,
            address,
            uid,
        });
        file(&mut self.order, Filed { packet, key });
    }

    /// Moves the packet with this number, which must be in flight, by one hop, and returns the hop.
    ///
    /// The packet is then at another switch, or no longer in flight.
    pub fn hop<V: HopView>(&mut self, packet: u32, view: &V) -> Hop
        requires under_way { is_some (packet_of packet self.old.packets) ≡ true }
        ensures hop { Some result ≡ option_map
            (hop_in (V.table_at view.now) (V.host_at view.now) (V.next_at view.now))
            (packet_of packet self.old.packets) }
        ensures packets { self.new ≡ record self.old {
          packets = hopped_in (V.table_at view.now) (V.host_at view.now) (V.next_at view.now) packet
              (packet_of packet self.old.packets) self.old.packets;
        } }
    {
        let place = found_at(&self.order, packet).unwrap();
        let key = self.order[place].key;
        let moving = self.packets[key];
        let hop = next_hop(moving, view);
        match &place_after(&hop, view, moving.at) {
            Some((at, entry)) => self.packets[key] = moving.moved_to(*at, *entry),
            None => {
                self.packets.remove(key);
                self.order.remove(place);
            }
        }
        hop
    }

    /// Returns the lowest packet number in flight; `None` if and only if no packet is in flight.
    pub fn first(&self) -> Option<u32>
        ensures first { result ≡ first_packet self.now.packets }
        ensures rising { AllPairs (λ one other. one.packet < other.packet) self.now.packets }
    {
        let filed = self.order.front()?;
        Some(filed.packet)
    }

    /// Returns the switch that the packet with this number is at, and the port that it came in on.
    ///
    /// Returns `None` if and only if it is not in flight.
    pub fn place(&self, packet: u32) -> Option<(Place, Port)>
        ensures { result ≡ option_map place_now (packet_of packet self.now.packets) }
    {
        let place = found_at(&self.order, packet)?;
        let found = self.packets[self.order[place].key];
        Some((found.at, found.entry))
    }

    /// Reports whether no packet is in flight.
    pub fn is_empty(&self) -> bool
        ensures { result ≡ (length self.now.packets == 0) }
    {
        self.order.is_empty()
    }
}
