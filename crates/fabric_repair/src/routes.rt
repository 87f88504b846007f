//! The routes to one target along an exit of each switch.

use crate::task::Task;
use common_values::memory::OutOfMemory;
use fabric_engine_channels::channels::Channel;
use fabric_engine_channels::demand::Target;
use fabric_engine_channels::order::Order;
use fabric_engine_channels::table::Table;
use std::alloc::Global;

/// What a route costs that there is not.
pub const NO_ROUTE: u64 = u64::MAX;

// What it costs to set a row that serves one switch of sources alone: more than all channels of a route.
const ROW: u64 = 1 << 32;

/// The routes to one target: an exit of each switch, or none.
#[derive(Drop)]
pub struct Routes {
    exits: Table<Option<Channel>>,
    // How many switches of sources there are whose routes pass each switch, and the last of them.
    flows: Table<u32>,
    last: Table<u32>,
}

impl Routes {
    /// Room for the exits of so many switches.
    pub fn new(alloc: Global, switches: u32) -> Result<Routes, OutOfMemory> {
        Ok(Routes {
            exits: Table::filled(alloc, switches, None)?,
            flows: Table::filled(alloc, switches, 0u32)?,
            last: Table::filled(alloc, switches, u32::MAX)?,
        })
    }

    /// The exit of a switch.
    pub fn exit(&self, switch: u32) -> Option<Channel> {
        self.exits.get(switch)
    }

    /// Puts the exit of a switch.
    pub fn put(&mut self, switch: u32, exit: Option<Channel>) {
        self.exits.put(switch, exit);
    }

    /// The exits of all switches.
    pub fn exits_mut(&mut self) -> &mut Table<Option<Channel>> {
        &mut self.exits
    }

    /// Takes all exits away.
    pub fn clear(&mut self) {
        self.exits.reset();
    }

    /// From how many switches of sources routes pass a switch.
    pub fn flow(&self, switch: u32) -> u32 {
        self.flows.get(switch)
    }

    /// The share of a row of a switch that each switch of sources bears whose routes pass it.
    pub fn share(&self, switch: u32) -> u64 {
        ROW / u64::from(self.flow(switch).max(1))
    }

    /// What each of them bears if the switch sends by a channel: nothing if that is its exit.
    pub fn price(&self, switch: u32, channel: Channel) -> u64 {
        if self.exit(switch) == Some(channel) {
            return 0;
        }
        self.share(switch)
    }

    /// Takes the exits of the given tables.
    pub fn read(&mut self, task: Task<'_>, target: Target) {
        'switches: for switch in 0..task.channels.switches() {
            self.exits.put(switch, task.exit(switch, target.lid));
        }
        self.exits.put(target.switch, None);
    }

    // Counts the route from a switch at each switch that it passes.
    fn follow(&mut self, task: Task<'_>, source: u32) {
        let mut switch = source;
        'links: for _ in 0..task.channels.switches() {
            if self.last.get(switch) == source {
                break;
            }
            self.last.put(switch, source);
            self.flows.add(switch, 1);
            let Some(exit) = self.exits.get(switch) else {
                break;
            };
            switch = task.channels.to(exit);
        }
    }

    /// Counts from how many switches of sources routes to a target pass each switch.
    pub fn count(&mut self, task: Task<'_>, target: Target) {
        self.flows.reset();
        self.last.reset();
        'sources: for source in 0..task.channels.switches() {
            if task.sends_from(source, target) {
                self.follow(task, source);
            }
        }
    }

    // Whether the exit of a switch leads to the target, or rises to the exit there.
    fn goes_on(&self, task: Task<'_>, order: &Order, target: u32, switch: u32) -> bool {
        let Some(exit) = self.exits.get(switch) else {
            return switch == target;
        };
        let to = task.channels.to(exit);
        if to == target {
            return true;
        }
        match self.exits.get(to) {
            Some(next) => order.rises(exit, next),
            None => false,
        }
    }

    /// Whether all routes rise in an order, and so arrive. They are to be counted.
    pub fn rise(&self, task: Task<'_>, order: &Order, target: u32) -> bool {
        let mut switches = 0..task.channels.switches();
        switches.all(|switch| self.flow(switch) == 0 || self.goes_on(task, order, target, switch))
    }
}
