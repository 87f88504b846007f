//! What is to be repaired.

use common_values::memory::OutOfMemory;
use fabric_engine_channels::channels::{Channel, Channels};
use fabric_engine_channels::demand::{Demand, Target};
use fabric_engine_channels::table::Table;
use fabric_engine_rising::plan::{is_from_all, sends_to};
use fabric_model::fabric::Fabric;
use fabric_model::traffic::Traffic;
use fabric_tables::cells::Cells;
use std::alloc::Global;

// How many slots a switch has: one for each number that a port may have.
const SLOTS: u32 = 256;

// The slot of a port.
fn slot_of(switch: u32, port: u8) -> u32 {
    switch.wrapping_mul(SLOTS).wrapping_add(u32::from(port))
}

/// Which channel leaves by each port of each switch, if one does.
#[derive(Drop)]
pub struct Ports {
    slots: Table<Option<Channel>>,
}

impl Ports {
    /// The channels of the ports.
    pub fn of(alloc: Global, channels: &Channels) -> Result<Ports, OutOfMemory> {
        let count = channels.switches().wrapping_mul(SLOTS);
        let mut slots = Table::filled(alloc, count, None)?;
        'channels: for number in 0..channels.count() {
            let channel = Channel(number);
            let slot = slot_of(channels.from(channel), channels.port(channel));
            slots.put(slot, Some(channel));
        }
        Ok(Ports { slots })
    }

    /// The channel of a port.
    pub fn channel(&self, switch: u32, port: u8) -> Option<Channel> {
        self.slots.get(slot_of(switch, port))
    }
}

/// What a task has of the fabric.
#[derive(Drop)]
pub struct Parts {
    channels: Channels,
    demand: Demand,
    ports: Ports,
}

impl Parts {
    /// The parts of a fabric.
    pub fn of(alloc: Global, fabric: &Fabric) -> Result<Parts, OutOfMemory> {
        let channels = Channels::of(alloc, fabric)?;
        let demand = Demand::of(alloc, fabric)?;
        let ports = Ports::of(alloc, &channels)?;
        Ok(Parts {
            channels,
            demand,
            ports,
        })
    }

    /// To repair tables of the fabric for a traffic.
    pub fn task<'a>(&'a self, cells: &'a Cells, traffic: Traffic) -> Task<'a> {
        Task {
            channels: &self.channels,
            demand: &self.demand,
            ports: &self.ports,
            cells,
            traffic,
        }
    }
}

/// What is to be repaired: the tables of a fabric, for a traffic.
#[derive(Clone, Copy)]
pub struct Task<'a> {
    /// The channels of the fabric.
    pub channels: &'a Channels,
    /// Its end ports.
    pub demand: &'a Demand,
    /// The channels of its ports.
    pub ports: &'a Ports,
    /// The tables.
    pub cells: &'a Cells,
    /// The traffic that is to arrive.
    pub traffic: Traffic,
}

impl Task<'_> {
    /// Whether routes of the traffic to a target begin at a switch.
    pub fn sends_from(self, switch: u32, target: Target) -> bool {
        is_from_all(self.traffic, target) || self.demand.hosts(switch) > 0
    }

    /// Whether routes of the traffic lead to a target.
    pub fn sends_to(self, target: Target) -> bool {
        sends_to(self.traffic, target)
    }

    // The port of a switch for a LID. Blocks have 64 LIDs.
    fn port(self, switch: u32, lid: u16) -> Option<u8> {
        let switch = switch as usize;
        let block = usize::from(lid) / 64;
        let bit = usize::from(lid) % 64;
        if switch >= self.cells.switches() || block >= self.cells.blocks() {
            return None;
        }
        self.cells.port(switch, block, bit)
    }

    /// The channel by which a switch sends to a LID; none if it sends to an end port or does not send.
    pub fn exit(self, switch: u32, lid: u16) -> Option<Channel> {
        let port = self.port(switch, lid)?;
        self.channel(switch, port)
    }

    /// The channel that leaves a switch by a port, if one does.
    pub fn channel(self, switch: u32, port: u8) -> Option<Channel> {
        self.ports.channel(switch, port)
    }

    /// Whether the switch of a target has the owner's port for it.
    pub fn delivers(self, target: Target) -> bool {
        self.port(target.switch, target.lid) == Some(target.port)
    }
}
