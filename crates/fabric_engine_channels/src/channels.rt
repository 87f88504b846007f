//! The channels of a fabric and their turns.

ghost use Rattle.std.specs.Prelude.{◌<◌};
ghost use Rattle.fabric_model.specs.Fabric.{switch_count};

use crate::table::{Numbered, Table};
use common_values::memory::OutOfMemory;
use fabric_model::fabric::Fabric;
use fabric_model::node::Side;
use std::alloc::Global;
use std::ops::Range;

/// A link between two switches in one of its directions, by its number.
#[derive(Clone, Copy, PartialEq, Eq)]
pub struct Channel(pub u32);

impl Numbered for Channel {
    #[inline]
    fn number(self) -> u32 {
        self.0
    }
}

/// A turn, by its number: from a channel to a channel out of the switch to which it leads.
#[derive(Clone, Copy)]
pub struct Turn(pub u32);

impl Numbered for Turn {
    #[inline]
    fn number(self) -> u32 {
        self.0
    }
}

// The ports of a channel, and its turns.
#[derive(Clone, Copy)]
struct Detail {
    // The port by which its switch sends, and the one by which the other receives.
    port: u8,
    entry: u8,
    // The number of the first of its turns.
    turns: u32,
}

// What is said of a channel that there is not.
const NO_DETAIL: Detail = Detail {
    port: 0,
    entry: 0,
    turns: u32::MAX,
};

// The channel that there is not.
const NO_CHANNEL: Channel = Channel(u32::MAX);

/// The channels of a fabric, switch by switch, and in ascending order of port for each switch. A link of a switch to
/// itself does not count, because no route needs it.
#[derive(Drop)]
pub struct Channels {
    switches: u32,
    details: Table<Detail>,
    // The switch to which each channel leads, and the channel of the same link in the other direction: these are what
    // is looked up most, so they stand close together.
    heads: Table<u32>,
    backs: Table<Channel>,
    // The first channel of each switch, and how many channels there are after these.
    firsts: Table<u32>,
    turns: u32,
}

impl Channels {
    /// Returns the channels of `fabric`.
    ///
    /// # Errors
    /// `OutOfMemory`.
    pub fn of(alloc: Global, fabric: &Fabric) -> Result<Channels, OutOfMemory> {
        let mut channels = Channels {
            switches: fabric.switches() as u32,
            details: Table::empty(alloc, NO_DETAIL),
            heads: Table::empty(alloc, u32::MAX),
            backs: Table::empty(alloc, NO_CHANNEL),
            firsts: Table::empty(alloc, 0),
            turns: 0,
        };
        'switches: for switch in 0..fabric.switches() {
            channels.add_exits(fabric, switch)?;
        }
        let count = channels.count();
        channels.firsts.push(count)?;
        channels.pair();
        Ok(channels)
    }

    // Adds the channels of a switch.
    fn add_exits(&mut self, fabric: &Fabric, switch: usize) -> Result<(), OutOfMemory>
        requires { switch < switch_count fabric.now }
    {
        let count = self.count();
        self.firsts.push(count)?;
        'ports: for place in 0..fabric.ports(switch) {
            self.add_exit(fabric, switch, place + 1)?;
        }
        Ok(())
    }

    // Adds the channel of a port, if it leads to another switch.
    fn add_exit(&mut self, fabric: &Fabric, switch: usize, port: u8) -> Result<(), OutOfMemory>
        requires { switch < switch_count fabric.now }
    {
        let Side::To(to, entry) = fabric.side(switch, port) else {
            return Ok(());
        };
        if to as usize == switch {
            return Ok(());
        }
        self.heads.push(to)?;
        self.backs.push(NO_CHANNEL)?;
        self.details.push(Detail {
            port,
            entry,
            turns: 0,
        })
    }

    // Finds for each channel the one of the same link in the other direction, and numbers the turns.
    fn pair(&mut self) {
        'channels: for number in 0..self.count() {
            let to = self.heads.get(number);
            let mut detail = self.details.get(number);
            detail.turns = self.turns;
            self.details.put(number, detail);
            let back = self.exit_by(to, detail.entry);
            self.backs.put(number, back);
            self.turns = self.turns.wrapping_add(self.degree(to));
        }
    }

    // The channel of a switch by a port.
    fn exit_by(&self, switch: u32, port: u8) -> Channel {
        'exits: for number in self.exits(switch) {
            if self.details.get(number).port == port {
                return Channel(number);
            }
        }
        NO_CHANNEL
    }

    /// Returns the number of switches.
    pub fn switches(&self) -> u32 {
        self.switches
    }

    /// Returns the number of channels.
    pub fn count(&self) -> u32 {
        self.heads.count()
    }

    /// Returns the number of turns.
    pub fn turns(&self) -> u32 {
        self.turns
    }

    /// Returns the port of its switch out of which `channel` leads.
    pub fn port(&self, channel: Channel) -> u8 {
        self.details.get(channel).port
    }

    /// Returns the switch to which `channel` leads.
    #[inline]
    pub fn to(&self, channel: Channel) -> u32 {
        self.heads.get(channel)
    }

    /// Returns the switch out of which `channel` leads.
    #[inline]
    pub fn from(&self, channel: Channel) -> u32 {
        self.to(self.back(channel))
    }

    /// Returns the channel of the same link in the other direction.
    #[inline]
    pub fn back(&self, channel: Channel) -> Channel {
        self.backs.get(channel)
    }

    /// Returns the numbers of the channels out of `switch`.
    #[inline]
    pub fn exits(&self, switch: u32) -> Range<u32> {
        self.firsts.get(switch)..self.firsts.get(switch.wrapping_add(1))
    }

    /// Returns the number of channels out of `switch`.
    #[inline]
    pub fn degree(&self, switch: u32) -> u32 {
        let exits = self.exits(switch);
        exits.end.saturating_sub(exits.start)
    }

    /// Returns the first of the switches with the most channels.
    pub fn widest(&self) -> u32 {
        let mut widest = 0;
        'switches: for switch in 0..self.switches {
            if self.degree(switch) > self.degree(widest) {
                widest = switch;
            }
        }
        widest
    }

    /// Returns the turn from `channel` to `next`, a channel out of the switch to which `channel` leads.
    #[inline]
    pub fn turn(&self, channel: Channel, next: Channel) -> Turn {
        let place = self.place(self.to(channel), next);
        Turn(self.details.get(channel).turns.wrapping_add(place))
    }

    /// Returns the index of `channel` among those of `switch`.
    #[inline]
    pub fn place(&self, switch: u32, channel: Channel) -> u32 {
        channel.0.wrapping_sub(self.firsts.get(switch))
    }

    /// Returns the channel at index `place` among those of `switch`, if there is one.
    #[inline]
    pub fn exit_at(&self, switch: u32, place: u32) -> Option<Channel> {
        let exits = self.exits(switch);
        let number = exits.start.wrapping_add(place);
        if number < exits.end {
            return Some(Channel(number));
        }
        None
    }
}
