//! How many routes pass each channel.

use crate::plan::Plan;
use crate::rows::Rows;
use common_values::memory::OutOfMemory;
use fabric_engine_channels::amount::Change;
use fabric_engine_channels::channels::{Channel, Channels};
use fabric_engine_channels::table::Table;
use fabric_engine_channels::ways::{Rule, Ways};
use std::alloc::Global;

/// The number of routes between end ports of adapters and routers that pass each channel; and for one target the paths
/// to it, and how many of these routes pass each switch.
#[derive(Drop)]
pub struct Loads {
    loads: Table<u64>,
    /// The paths to the target.
    pub ways: Ways,
    /// The number of routes to the target that pass each switch with a path.
    pub flows: Table<u32>,
}

// Lets the flow of each switch come to the next one, and come to its exit or go from it; the farthest switches first.
fn pass_all(
    plan: Plan<'_>,
    ways: &Ways,
    flows: &mut Table<u32>,
    loads: &mut Table<u64>,
    change: Change,
) {
    'flows: for switch in ways.nearest().iter().rev() {
        if let Some(exit) = ways.exit(*switch) {
            let (to, flow) = (plan.channels.to(exit), flows.get(*switch));
            flows.add(to, flow);
            loads.change(exit, u64::from(flow), change);
        }
    }
}

impl Loads {
    /// Creates the loads of no routes.
    ///
    /// # Errors
    /// `OutOfMemory`.
    pub fn new(alloc: Global, channels: &Channels) -> Result<Loads, OutOfMemory> {
        Ok(Loads {
            loads: Table::filled(alloc, channels.count(), 0u64)?,
            ways: Ways::new(alloc, channels.switches())?,
            flows: Table::filled(alloc, channels.switches(), 0u32)?,
        })
    }

    /// Returns the number of routes that pass `channel`.
    #[inline]
    pub fn of(&self, channel: Channel) -> u64 {
        self.loads.get(channel)
    }

    /// Adds `flow` to the load of `channel`, or removes it.
    #[inline]
    pub fn change(&mut self, channel: Channel, flow: u32, change: Change) {
        self.loads.change(channel, u64::from(flow), change);
    }

    /// Counts the routes that pass each switch.
    pub fn gather(&mut self, plan: Plan<'_>) {
        self.ways
            .gather(plan.channels, plan.demand, &mut self.flows);
    }

    /// Adds the routes over the current paths to the loads, or removes them.
    pub fn change_all(&mut self, plan: Plan<'_>, change: Change) {
        self.ways.begin(plan.demand, &mut self.flows);
        pass_all(plan, &self.ways, &mut self.flows, &mut self.loads, change);
    }

    /// Makes shortest paths to the switch `target` by `rule`, over channels with low loads.
    ///
    /// # Errors
    /// `OutOfMemory`.
    pub fn grow(&mut self, plan: Plan<'_>, rule: Rule<'_>, target: u32) -> Result<(), OutOfMemory> {
        self.ways.grow(plan.channels, rule, &self.loads, target)
    }

    /// Takes the exits of row `row` as the paths to the switch `target`.
    ///
    /// # Errors
    /// `OutOfMemory`.
    pub fn take(
        &mut self,
        plan: Plan<'_>,
        rows: &Rows,
        row: u32,
        target: u32,
    ) -> Result<(), OutOfMemory> {
        rows.take(plan.channels, row, &mut self.ways);
        self.ways.arrange(plan.channels, target)
    }

    /// Returns the sum of the loads of all channels.
    pub fn sum(&self) -> u64 {
        let mut sum = 0u64;
        'channels: for number in 0..self.loads.count() {
            sum = sum.wrapping_add(self.loads.get(number));
        }
        sum
    }

    /// Returns the maximum link load.
    pub fn greatest(&self) -> u64 {
        let mut greatest = 0;
        'channels: for number in 0..self.loads.count() {
            greatest = self.loads.get(number).max(greatest);
        }
        greatest
    }
}
