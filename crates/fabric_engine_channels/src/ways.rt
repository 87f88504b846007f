//! The paths of all switches to one.

use crate::channels::{Channel, Channels};
use crate::demand::Demand;
use crate::order::Order;
use crate::table::Table;
use common_values::memory::OutOfMemory;
use std::alloc::Global;

/// The depth of a switch without a path.
pub const FAR: u32 = u32::MAX;

// What a turn costs that is to be spared: more than all loads on a way.
const SPARED: u64 = 1 << 40;

/// Which turns new paths can make.
#[derive(Clone, Copy)]
pub enum Rule<'a> {
    /// Every turn.
    Any,
    /// As few turns as possible that do not rise in an order.
    Fewest(&'a Order),
    /// Only turns that rise in an order.
    Rising(&'a Order),
}

impl Rule<'_> {
    /// Returns the cost of the turn from `channel` to the exit of the switch to which it leads, or `None` if the turn
    /// is not allowed.
    #[inline]
    pub fn toll(self, channel: Channel, exit: Option<Channel>) -> Option<u64> {
        let Some(next) = exit else {
            return Some(0);
        };
        match self {
            Rule::Any => Some(0),
            Rule::Fewest(order) => Some(if order.rises(channel, next) {
                0
            } else {
                SPARED
            }),
            Rule::Rising(order) => {
                if order.rises(channel, next) {
                    Some(0)
                } else {
                    None
                }
            }
        }
    }
}

/// The paths of all switches to one, the target: each switch with a path sends through one channel, its exit.
#[derive(Drop)]
pub struct Ways {
    exits: Table<Option<Channel>>,
    depths: Table<u32>,
    // What the channels of the ways cost together, if they were grown.
    costs: Table<u64>,
    // The switches with a way, the target first, none before one that is nearer.
    nearest: Vec<u32>,
    // For each switch one that sends to it, and for each switch another that sends to the same.
    senders: Table<Option<u32>>,
    others: Table<Option<u32>>,
}

impl Ways {
    /// Creates space for the paths of `switches` switches.
    ///
    /// # Errors
    /// `OutOfMemory`.
    pub fn new(alloc: Global, switches: u32) -> Result<Ways, OutOfMemory> {
        Ok(Ways {
            exits: Table::filled(alloc, switches, None)?,
            depths: Table::filled(alloc, switches, FAR)?,
            costs: Table::filled(alloc, switches, 0u64)?,
            nearest: Vec::with_capacity(alloc, switches as usize)?,
            senders: Table::filled(alloc, switches, None)?,
            others: Table::filled(alloc, switches, None)?,
        })
    }

    /// Returns the exit of `switch`; the target has none.
    #[inline]
    pub fn exit(&self, switch: u32) -> Option<Channel> {
        self.exits.get(switch)
    }

    /// Returns the number of channels on the path of `switch`, `FAR` if it has no path.
    #[inline]
    pub fn depth(&self, switch: u32) -> u32 {
        self.depths.get(switch)
    }

    /// Returns the number of channels on the path of each switch.
    pub fn depths(&self) -> &Table<u32> {
        &self.depths
    }

    /// Returns the switches with a path, in ascending order of distance from the target, which comes first.
    pub fn nearest(&self) -> &[u32] {
        &self.nearest
    }

    /// Sets the exit of `switch`, but leaves depths as they are.
    #[inline]
    pub fn put_exit(&mut self, switch: u32, exit: Option<Channel>) {
        self.exits.put(switch, exit);
    }

    /// Removes all paths.
    pub fn clear(&mut self) {
        self.exits.reset();
        self.depths.reset();
        self.nearest.clear();
    }

    // Adds a switch that had no way.
    #[inline]
    fn reach(&mut self, switch: u32, depth: u32) -> Result<(), OutOfMemory> {
        self.depths.put(switch, depth);
        self.nearest.push(switch)?;
        Ok(())
    }

    /// Adds `switch`, which has no path: with an exit to a switch that has one, or as the target.
    ///
    /// # Errors
    /// `OutOfMemory`.
    #[inline]
    pub fn add(
        &mut self,
        channels: &Channels,
        switch: u32,
        exit: Option<Channel>,
    ) -> Result<(), OutOfMemory> {
        let depth = match exit {
            Some(exit) => self.depth(channels.to(exit)).wrapping_add(1),
            None => 0,
        };
        self.exits.put(switch, exit);
        self.reach(switch, depth)
    }

    // Takes an exit for a switch that has no way, or one as long that costs more.
    #[inline]
    fn offer(
        &mut self,
        switch: u32,
        exit: Channel,
        depth: u32,
        cost: u64,
    ) -> Result<(), OutOfMemory> {
        if self.depths.get(switch) == FAR {
            self.reach(switch, depth)?;
        } else if cost >= self.costs.get(switch) {
            return Ok(());
        }
        self.exits.put(switch, Some(exit));
        self.costs.put(switch, cost);
        Ok(())
    }

    // Offers ways over a switch to its neighbours.
    fn offer_over(
        &mut self,
        channels: &Channels,
        rule: Rule<'_>,
        loads: &Table<u64>,
        switch: u32,
    ) -> Result<(), OutOfMemory> {
        let exit = self.exits.get(switch);
        let cost = self.costs.get(switch);
        let depth = self.depths.get(switch).wrapping_add(1);
        'exits: for number in channels.exits(switch) {
            let neighbour = channels.to(Channel(number));
            if self.depths.get(neighbour) < depth {
                continue;
            }
            let back = channels.back(Channel(number));
            if let Some(toll) = rule.toll(back, exit) {
                let load = loads.get(back).wrapping_add(toll).wrapping_add(1);
                self.offer(neighbour, back, depth, cost.wrapping_add(load))?;
            }
        }
        Ok(())
    }

    // Whether all switches have ways, and none has a longer one than this switch.
    fn is_done(&self, channels: &Channels, switch: u32) -> bool {
        match self.nearest.last() {
            Some(last) => {
                self.nearest.len() == channels.switches() as usize
                    && self.depth(*last) == self.depth(switch)
            }
            None => false,
        }
    }

    /// Makes shortest paths to `target`, depth by depth: of the exits that `rule` allows, each switch takes one to the
    /// previous depth with the lowest sum of loads to the target.
    ///
    /// # Errors
    /// `OutOfMemory`.
    pub fn grow(
        &mut self,
        channels: &Channels,
        rule: Rule<'_>,
        loads: &Table<u64>,
        target: u32,
    ) -> Result<(), OutOfMemory> {
        self.clear();
        self.costs.put(target, 0);
        self.add(channels, target, None)?;
        'levels: for place in 0..channels.switches() {
            let Some(switch) = self.nearest.get(place as usize).copied() else {
                break;
            };
            if self.is_done(channels, switch) {
                break;
            }
            self.offer_over(channels, rule, loads, switch)?;
        }
        Ok(())
    }

    // Notes for each switch which ones send to it, and forgets the depths.
    fn note_senders(&mut self, channels: &Channels) {
        self.senders.reset();
        self.depths.reset();
        'switches: for switch in 0..channels.switches() {
            if let Some(exit) = self.exits.get(switch) {
                let to = channels.to(exit);
                self.others.put(switch, self.senders.get(to));
                self.senders.put(to, Some(switch));
            }
        }
    }

    // Reaches the switches that send to one.
    fn reach_senders(&mut self, channels: &Channels, switch: u32) -> Result<(), OutOfMemory> {
        let mut sender = self.senders.get(switch);
        'senders: for _ in 0..channels.switches() {
            let Some(next) = sender else {
                break;
            };
            let exit = self.exit(next);
            self.add(channels, next, exit)?;
            sender = self.others.get(next);
        }
        Ok(())
    }

    /// Computes depths and the nearest switches again, after exits were set.
    ///
    /// # Errors
    /// `OutOfMemory`.
    pub fn arrange(&mut self, channels: &Channels, target: u32) -> Result<(), OutOfMemory> {
        self.put_exit(target, None);
        self.note_senders(channels);
        self.nearest.clear();
        self.add(channels, target, None)?;
        'levels: for place in 0..channels.switches() {
            let Some(switch) = self.nearest.get(place as usize).copied() else {
                break;
            };
            self.reach_senders(channels, switch)?;
        }
        Ok(())
    }

    /// Sets in `flows`, for each switch with a path, the number of end ports of adapters and routers at it.
    pub fn begin(&self, demand: &Demand, flows: &mut Table<u32>) {
        'hosts: for switch in &self.nearest {
            flows.put(*switch, demand.hosts(*switch));
        }
    }

    /// Sets in `flows`, for each switch with a path, the number of end ports of adapters and routers that send through
    /// it to the target, including those at the switch.
    pub fn gather(&self, channels: &Channels, demand: &Demand, flows: &mut Table<u32>) {
        self.begin(demand, flows);
        'flows: for switch in self.nearest.iter().rev() {
            if let Some(exit) = self.exit(*switch) {
                let to = channels.to(exit);
                flows.add(to, flows.get(*switch));
            }
        }
    }
}
