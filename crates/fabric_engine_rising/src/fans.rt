//! The exits between which the routes to the LIDs at one switch can choose.

use crate::plan::Plan;
use common_values::memory::OutOfMemory;
use fabric_engine_channels::channels::Channel;
use fabric_engine_channels::table::{Table, narrow};
use fabric_engine_channels::ways::Ways;
use std::alloc::Global;

/// An exit that can be taken.
#[derive(Clone, Copy)]
pub struct Step {
    /// The exit.
    pub exit: Channel,
    /// The switch to which it leads.
    pub to: u32,
}

// The exits of a switch: they stand one after another.
#[derive(Clone, Copy)]
struct Fan {
    first: u32,
    count: u32,
}

// No exits.
const NO_FAN: Fan = Fan { first: 0, count: 0 };

/// For each switch with a path, exits that lead one channel nearer, such that all turns rise whichever exit each switch
/// takes.
#[derive(Drop)]
pub struct Fans {
    steps: Vec<Step>,
    fans: Table<Fan>,
    // The least place of an exit of each switch, and one more than the greatest of those that lead to it.
    lowest: Table<u32>,
    highest: Table<u32>,
}

impl Fans {
    /// Creates space for the exits of `switches` switches.
    ///
    /// # Errors
    /// `OutOfMemory`.
    pub fn new(alloc: Global, switches: u32) -> Result<Fans, OutOfMemory> {
        Ok(Fans {
            steps: Vec::new(alloc),
            fans: Table::filled(alloc, switches, NO_FAN)?,
            lowest: Table::filled(alloc, switches, u32::MAX)?,
            highest: Table::filled(alloc, switches, 0u32)?,
        })
    }

    // Notes that an exit of a switch may be taken.
    #[inline]
    fn note(&mut self, plan: Plan<'_>, switch: u32, step: Step) {
        let place = plan.order.place(step.exit);
        let lowest = self.lowest.get(switch).min(place);
        self.lowest.put(switch, lowest);
        let highest = self.highest.get(step.to).max(place.saturating_add(1));
        self.highest.put(step.to, highest);
    }

    // Whether another exit, which leads nearer, may be taken too: after all that lead to its switch, and before all on
    // which it can go on.
    #[inline]
    fn may_take(&self, plan: Plan<'_>, target: u32, least: u32, step: Step) -> bool {
        let place = plan.order.place(step.exit);
        place >= least && (step.to == target || place < self.lowest.get(step.to))
    }

    // Finds the exits of a switch, of which it has one.
    fn widen_one(
        &mut self,
        plan: Plan<'_>,
        ways: &Ways,
        target: u32,
        switch: u32,
        own: Step,
    ) -> Result<(), OutOfMemory> {
        let first = narrow(self.steps.len());
        let nearer = ways.depth(switch).wrapping_sub(1);
        let least = self.highest.get(switch);
        self.steps.push(own)?;
        'exits: for number in plan.channels.exits(switch) {
            let exit = Channel(number);
            let to = plan.channels.to(exit);
            let step = Step { exit, to };
            if ways.depth(to) == nearer
                && exit != own.exit
                && self.may_take(plan, target, least, step)
            {
                self.note(plan, switch, step);
                self.steps.push(step)?;
            }
        }
        let end = narrow(self.steps.len());
        let count = end.saturating_sub(first);
        self.fans.put(switch, Fan { first, count });
        Ok(())
    }

    // The exit that a switch has.
    fn own(plan: Plan<'_>, ways: &Ways, switch: u32) -> Option<Step> {
        let exit = ways.exit(switch)?;
        let to = plan.channels.to(exit);
        Some(Step { exit, to })
    }

    /// Finds the exits for the paths to `target`.
    ///
    /// # Errors
    /// `OutOfMemory`.
    pub fn widen(&mut self, plan: Plan<'_>, ways: &Ways, target: u32) -> Result<(), OutOfMemory> {
        self.steps.clear();
        self.fans.reset();
        self.lowest.reset();
        self.highest.reset();
        'own: for switch in ways.nearest() {
            if let Some(own) = Fans::own(plan, ways, *switch) {
                self.note(plan, *switch, own);
            }
        }
        'nearest: for switch in ways.nearest() {
            if let Some(own) = Fans::own(plan, ways, *switch) {
                self.widen_one(plan, ways, target, *switch, own)?;
            }
        }
        Ok(())
    }

    /// Returns the exits of `switch`.
    #[inline]
    pub fn exits(&self, switch: u32) -> &[Step] {
        let fan = self.fans.get(switch);
        let first = fan.first as usize;
        let end = first.saturating_add(fan.count as usize);
        self.steps.get(first..end).unwrap_or(&[])
    }
}
