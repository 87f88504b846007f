//! Spanning trees.

use crate::levels::up_down;
use common_values::memory::OutOfMemory;
use fabric_engine_channels::amount::Change;
use fabric_engine_channels::channels::{Channel, Channels};
use fabric_engine_channels::order::Order;
use fabric_engine_channels::table::Table;
use fabric_engine_channels::ways::{FAR, Rule, Ways};
use std::alloc::Global;

/// A spanning tree of the switches that are joined to its root: their paths to the root.
#[derive(Drop)]
pub struct Tree {
    ways: Ways,
}

// A walk in depth, so far.
#[derive(Drop)]
struct Walk {
    ways: Ways,
    // The switches from the root to the one that the walk has come to.
    path: Vec<u32>,
    // How many channels of each switch lead to switches to which the walk has not come.
    fresh: Table<u32>,
}

// A number for a channel that mixes the bits of both, if the seed is not 0. With seed 0 it is 0 for all
// channels: then the walk takes the first of those that are alike.
fn scattered(seed: u64, channel: Channel) -> u64 {
    let mixed = seed
        .wrapping_add(u64::from(channel.0))
        .wrapping_mul(0x9E37_79B9_7F4A_7C15);
    let mixed = (mixed ^ mixed >> 30).wrapping_mul(0xBF58_476D_1CE4_E5B9);
    (mixed ^ mixed >> 27).wrapping_mul(seed)
}

impl Walk {
    // Nowhere yet.
    fn new(alloc: Global, channels: &Channels) -> Result<Walk, OutOfMemory> {
        let switches = channels.switches();
        Ok(Walk {
            ways: Ways::new(alloc, switches)?,
            path: Vec::new(alloc),
            fresh: Table::filled(alloc, switches, 0u32)?,
        })
    }

    // Comes to all switches that are joined to a root.
    fn go(&mut self, channels: &Channels, seed: u64, root: u32) -> Result<(), OutOfMemory> {
        'switches: for switch in 0..channels.switches() {
            self.fresh.put(switch, channels.degree(switch));
        }
        self.come(channels, root, None)?;
        'steps: for _ in 0..channels.switches().saturating_mul(2) {
            let Some(switch) = self.path.last().copied() else {
                break;
            };
            self.step(channels, seed, switch)?;
        }
        Ok(())
    }

    // Comes to a switch, by the other direction of its exit.
    fn come(
        &mut self,
        channels: &Channels,
        switch: u32,
        exit: Option<Channel>,
    ) -> Result<(), OutOfMemory> {
        self.ways.add(channels, switch, exit)?;
        self.path.push(switch)?;
        'exits: for number in channels.exits(switch) {
            let to = channels.to(Channel(number));
            self.fresh.change(to, 1, Change::Go);
        }
        Ok(())
    }

    // Of the channels of a switch that lead to one to which the walk has not come, one that leads to where fewest go on.
    fn next(&self, channels: &Channels, seed: u64, switch: u32) -> Option<Channel> {
        let mut best = None;
        let mut least = (u32::MAX, u64::MAX);
        'exits: for number in channels.exits(switch) {
            let channel = Channel(number);
            let to = channels.to(channel);
            let key = (self.fresh.get(to), scattered(seed, channel));
            if self.ways.depth(to) == FAR && (best.is_none() || key < least) {
                best = Some(channel);
                least = key;
            }
        }
        best
    }

    // Goes on, or one back if all neighbours are in the tree.
    fn step(&mut self, channels: &Channels, seed: u64, switch: u32) -> Result<(), OutOfMemory> {
        match self.next(channels, seed, switch) {
            Some(channel) => {
                let back = channels.back(channel);
                self.come(channels, channels.to(channel), Some(back))
            }
            None => {
                self.path.pop();
                Ok(())
            }
        }
    }
}

impl Tree {
    /// Makes a depth-first tree. It has long branches: few turns must be kept for it, and few routes pass its root.
    ///
    /// # Errors
    /// `OutOfMemory`.
    pub fn deep(
        alloc: Global,
        channels: &Channels,
        root: u32,
        seed: u64,
    ) -> Result<Tree, OutOfMemory> {
        let mut walk = Walk::new(alloc, channels)?;
        walk.go(channels, seed, root)?;
        Ok(Tree { ways: walk.ways })
    }

    /// Makes a breadth-first tree.
    ///
    /// # Errors
    /// `OutOfMemory`.
    pub fn wide(alloc: Global, channels: &Channels, root: u32) -> Result<Tree, OutOfMemory> {
        let mut ways = Ways::new(alloc, channels.switches())?;
        let loads = Table::empty(alloc, 0u64);
        ways.grow(channels, Rule::Any, &loads, root)?;
        Ok(Tree { ways })
    }

    /// Returns the order of routes that go up the tree and then down.
    ///
    /// # Errors
    /// `OutOfMemory`.
    pub fn order(&self, alloc: Global, channels: &Channels) -> Result<Order, OutOfMemory> {
        up_down(alloc, channels, self.ways.depths())
    }

    /// Returns which channels belong to the tree.
    ///
    /// # Errors
    /// `OutOfMemory`.
    pub fn marks(&self, alloc: Global, channels: &Channels) -> Result<Table<bool>, OutOfMemory> {
        let mut marks = Table::filled(alloc, channels.count(), false)?;
        'switches: for switch in 0..channels.switches() {
            if let Some(exit) = self.ways.exit(switch) {
                marks.put(exit, true);
                marks.put(channels.back(exit), true);
            }
        }
        Ok(marks)
    }
}
