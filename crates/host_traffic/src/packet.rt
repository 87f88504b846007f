//! The fields of a packet. Its address is 16 times the number of a switch plus a port there.

ghost use Rattle.std.specs.Prelude.{◌≡◌, ◌/◌, ◌%◌, ◌<◌, ◌^◌, Some};
ghost use Rattle.host_traffic.specs.Packets.{moved_to, row_entry};

use an_base::place::Place;
use an_base::port::Port;
use std::marker::Model;

/// A packet in flight.
#[derive(Clone, Copy)]
pub struct Packet {
    /// Its number.
    pub packet: u32,
    /// The switch that it is at.
    pub at: Place,
    /// The port that it came in on.
    pub entry: Port,
    /// Whether its host has just sent it.
    pub is_new: bool,
    /// The address that it goes to.
    pub address: u16,
    /// The identifier of the host that it is for.
    pub uid: u64,
}

impl Model for Packet {
    ghost use Rattle.std.specs.Prelude.{◌<◌, ◌^◌};
    ghost use Rattle.host_traffic.specs.Packets.{PacketOf};

    ghost Value = { PacketOf };

    ghost view = { λ p. record {
      packet = p.packet;
      at = p.at;
      entry = p.entry;
      is_new = p.is_new;
      address = p.address;
      uid = p.uid;
    } };

    ghost invariant = { λ p. p.address < 2 ^ 12 };

    ghost inverse = { λ v. record {
      packet = v.packet;
      at = v.at;
      entry = v.entry;
      is_new = v.is_new;
      address = v.address;
      uid = v.uid;
    } };
}

impl Packet {
    /// Returns the number of the switch that it goes to.
    pub fn switch_number(self) -> u8
        ensures { result ≡ self.address / 16 }
    {
        (self.address / 16) as u8
    }

    /// Returns the port that it goes to on that switch.
    pub fn last_port(self) -> Port
        ensures { result ≡ self.address % 16 }
    {
        Port((self.address % 16) as u8)
    }

    /// Returns the entry of the row that forwards it: 0 until its first hop, then its ingress port.
    pub fn row_entry(self) -> Port
        ensures { result ≡ row_entry self }
    {
        if self.is_new { Port(0) } else { self.entry }
    }

    /// Returns the packet after it has come to switch `at` on port `entry`.
    pub fn moved_to(self, at: Place, entry: Port) -> Packet
        ensures { result ≡ moved_to (Some (at, entry)) self }
    {
        Packet {
            at,
            entry,
            is_new: false,
            ..self
        }
    }
}
