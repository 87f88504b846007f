//! One graph of spots for two searches: channels that lead to channels, and packets on the way to one target.

ghost use Rattle.std.specs.Prelude.{◌≡◌, ◌≢◌, ◌<◌, ◌↔◌, ℕ, true, length, Some, None, Contains, IsTrue, IfOk, IfSome};
ghost use Rattle.std.specs.Int.{bit_at};
ghost use Rattle.dep_check.specs.declared.channel.Channel.{Channel};
ghost use Rattle.dep_check.specs.Tables.{AreLinks, has_at, IsSpot, wire_at};
ghost use Rattle.dep_check.specs.Ports.{HasOnlyPorts};
ghost use Rattle.dep_check.specs.Targets.{AreByTarget};

use crate::channel::Channel;
use crate::exits::{all_exits, exits_at, has_exit, no_exits};
use crate::spot::place_of;
use crate::targets::ByTarget;
use an_base::numbers::Numbers;
use an_base::port_set::{lowest, without};
use an_base::row::Row;
use common_values::memory::OutOfMemory;
use std::alloc::Global;

/// The steps between spots.
///
/// They go from a channel to the channels that it leads to by the rows of all numbers; or, for packets to
/// one number, by its rows from the spot where they arrive to the spot where they arrive next.
#[derive(Drop)]
pub struct Steps {
    /// The far side of each spot.
    pub wires: Vec<Option<Channel>>,
    /// The exits of the rows, as a set of ports for packets that arrive at each spot.
    pub exits: Vec<u16>,
    /// The number that packets go to; `None` for channels.
    pub to: Option<u8>,
    ghost links: { AreLinks wires.items },
}

impl Steps {
    ghost use Rattle.dep_check.specs.Search.{AreBetween, AreSteps, ComesIn, Depends, GoesBy, HasLoosePort, IsEnd, IsStep, IsStuck};

    /// Creates the steps of channels by `rows`. The caller must pass far sides that are symmetric, as links are.
    ///
    /// # Errors
    /// `OutOfMemory` if an allocation fails.
    pub fn of(alloc: Global, wires: &[Option<Channel>], rows: &[Row]) -> Result<Steps, OutOfMemory>
        requires { AreLinks wires.now }
        ensures { IfOk result (AreSteps wires.now rows.now None) }
    {
        let wires = Vec::from_slice(alloc, wires)?;
        let exits = all_exits(alloc, rows)?;
        Ok(Steps {
            wires,
            exits,
            to: None,
        })
    }

    /// Creates steps between `wires` that lead nowhere yet. The caller must pass far sides that are symmetric.
    ///
    /// # Errors
    /// `OutOfMemory` if an allocation fails.
    pub fn between(alloc: Global, wires: &[Option<Channel>]) -> Result<Steps, OutOfMemory>
        requires { AreLinks wires.now }
        ensures { IfOk result (AreBetween wires.now) }
    {
        let wires = Vec::from_slice(alloc, wires)?;
        let exits = no_exits(alloc)?;
        Ok(Steps {
            wires,
            exits,
            to: None,
        })
    }

    /// Turns them into the steps of packets to the number `to`, by the rows towards it.
    ///
    /// The caller must pass the exits of `rows` by target, and a number of the topology.
    pub fn turn(&mut self, rows: &[Row], numbers: &Numbers, by_target: &ByTarget, to: u8)
        requires count { length self.old.exits.items ≡ 1651 }
        requires rows { AreByTarget rows.now numbers.now by_target.now }
        requires to { to < 127 }
        requires known { Contains numbers.now to }
        ensures { AreSteps self.old.wires.items rows.now (Some to) self.new }
    {
        self.exits.copy_from_slice(by_target.table(to));
        self.to = Some(to);
    }

    /// Returns the far side of `spot`, if it has a link.
    pub fn far(&self, spot: Channel) -> Option<Channel>
        requires { IsSpot spot }
        ensures far { result ≡ wire_at self.now.wires.items spot }
        ensures links { AreLinks self.now.wires.items }
    {
        self.wires.get(place_of(spot)).copied().flatten()
    }

    // The exits by which a channel may lead on.
    fn channel_exits(&self, channel: Channel) -> u16
        requires { IsSpot channel }
        ensures ports { HasOnlyPorts result }
        ensures steps { (e : ℕ) (b : Channel) → Depends self.now.wires.items self.now.exits.items channel e b
            → bit_at result e ≡ 1 }
    {
        match self.far(channel) {
            Some(far) => exits_at(&self.exits, far),
            None => 0,
        }
    }

    // The exits by which packets to a number may go on from a spot.
    fn packet_exits(&self, to: u8, spot: Channel) -> u16
        requires { IsSpot spot }
        ensures ports { HasOnlyPorts result }
        ensures steps { (e : ℕ) (b : Channel) → GoesBy self.now.wires.items self.now.exits.items to spot e b
            → bit_at result e ≡ 1 }
        ensures all { (e : ℕ) → spot.at ≢ to → e < 13 → has_at self.now.exits.items spot e ≡ true
            → bit_at result e ≡ 1 }
    {
        if spot.at == to {
            return 0;
        }
        exits_at(&self.exits, spot)
    }

    /// Returns the exits that steps from `spot` can use; no step uses another exit.
    pub fn exits_from(&self, spot: Channel) -> u16
        requires { IsSpot spot }
        ensures ports { HasOnlyPorts result }
        ensures steps { (e : ℕ) (b : Channel) → IsStep self.now spot e b → bit_at result e ≡ 1 }
        ensures all { (to e : ℕ) → self.now.to ≡ Some to → spot.at ≢ to → e < 13
            → has_at self.now.exits.items spot e ≡ true → bit_at result e ≡ 1 }
    {
        match self.to {
            None => self.channel_exits(spot),
            Some(to) => self.packet_exits(to, spot),
        }
    }

    // The channel of an exit of the far side of a channel.
    fn next_channel(&self, channel: Channel, exit: u8) -> Option<Channel>
        requires spot { IsSpot channel }
        requires exit { exit < 13 }
        ensures { (b : Channel)
            → ((result ≡ Some b) ↔ Depends self.now.wires.items self.now.exits.items channel exit b) }
    {
        let far = self.far(channel)?;
        if !has_exit(&self.exits, far, exit) {
            return None;
        }
        let next = Channel {
            at: far.at,
            port: exit,
        };
        let _link = self.far(next)?;
        Some(next)
    }

    // Where packets come in next that go on by an exit.
    fn next_entry(&self, to: u8, spot: Channel, exit: u8) -> Option<Channel>
        requires spot { IsSpot spot }
        requires exit { exit < 13 }
        ensures { (b : Channel)
            → ((result ≡ Some b) ↔ GoesBy self.now.wires.items self.now.exits.items to spot exit b) }
    {
        if spot.at == to || !has_exit(&self.exits, spot, exit) {
            return None;
        }
        self.far(Channel {
            at: spot.at,
            port: exit,
        })
    }

    /// Returns the spot that the step from `spot` by `exit` leads to, if there is one.
    pub fn next(&self, spot: Channel, exit: u8) -> Option<Channel>
        requires spot { IsSpot spot }
        requires exit { exit < 13 }
        ensures step { (b : Channel) → ((result ≡ Some b) ↔ IsStep self.now spot exit b) }
        ensures spot { IfSome result IsSpot }
    {
        match self.to {
            None => self.next_channel(spot, exit),
            Some(to) => self.next_entry(to, spot, exit),
        }
    }

    /// Returns the channel that leads to `channel` through the port `entry` of its switch, if there is one.
    ///
    /// The caller must use it only on the steps of channels.
    pub fn before(&self, channel: Channel, entry: u8) -> Option<Channel>
        requires spot { IsSpot channel }
        requires entry { entry < 13 }
        requires channels { self.now.to ≡ None }
        ensures before { (a : Channel) → ((result ≡ Some a) ↔ ComesIn self.now a channel entry) }
        ensures spot { IfSome result IsSpot }
    {
        let near = Channel {
            at: channel.at,
            port: entry,
        };
        if !has_exit(&self.exits, near, channel.port) {
            return None;
        }
        let _link = self.far(channel)?;
        self.far(near)
    }

    // Whether one of some ports of a switch has no link.
    fn has_loose(&self, at: u8, ports: u16) -> bool
        requires at { at < 127 }
        requires ports { HasOnlyPorts ports }
        ensures { IsTrue result ↔ HasLoosePort self.now.wires.items at ports }
    {
        let mut left = ports;
        'ports: while left > 0 {
            let port = lowest(left);
            left = without(left, port);
            if self.far(Channel { at, port }).is_none() {
                return true;
            }
        }
        false
    }

    // Whether packets get stuck at a spot: there is no exit, or one without a link.
    fn is_end(&self, to: u8, spot: Channel) -> bool
        requires { IsSpot spot }
        ensures { IsTrue result ↔ IsEnd self.now.wires.items self.now.exits.items to spot }
    {
        if spot.at == to {
            return false;
        }
        let exits = exits_at(&self.exits, spot);
        if exits == 0 {
            return true;
        }
        self.has_loose(spot.at, exits)
    }

    /// Reports whether packets get stuck at `spot` before their target. Steps of channels never get stuck.
    pub fn is_stuck(&self, spot: Channel) -> bool
        requires { IsSpot spot }
        ensures { IsTrue result ↔ IsStuck self.now spot }
    {
        match self.to {
            None => false,
            Some(to) => self.is_end(to, spot),
        }
    }
}
