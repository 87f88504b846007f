//! Routes laid along an order of the channels, target by target, and spread over the channels.

use crate::measures::Measures;
use crate::polish::polish;
use common_values::memory::OutOfMemory;
use fabric_engine_channels::amount::Change;
use fabric_engine_channels::channels::{Channel, Channels};
use fabric_engine_channels::demand::{Demand, Target};
use fabric_engine_channels::table::{Table, narrow};
use fabric_engine_channels::ways::Rule;
use fabric_engine_orders::levels::heights;
use fabric_engine_rising::closure::close_all;
use fabric_engine_rising::fans::{Fans, Step};
use fabric_engine_rising::loads::Loads;
use fabric_engine_rising::plan::Plan;
use fabric_engine_rising::rows::Rows;
use fabric_model::traffic::Traffic;
use std::alloc::Global;
use std::ops::Range;

// What it costs to lead routes over a channel with a load, in parts of which a channel without a load costs 64.
#[inline]
fn cost_of(load: u64) -> u64 {
    load.wrapping_mul(load).wrapping_add(64)
}

// How many digits a number of LIDs has at most, whatever the base.
const DIGITS: u32 = 32;

// Which of the exits of a switch has its turn.
#[derive(Clone, Copy)]
struct Turn {
    // The least number of an exit, and how many exits there are.
    lowest: u32,
    count: u32,
    // How many of them do not have it before one has.
    turn: u32,
}

impl Turn {
    // The turn at a height, after so many LIDs. At the leaves it goes on with each LID, and at each height above when all
    // exits below had it. A switch that is joined to no leaf is `FAR` above.
    fn of(exits: &[Step], height: u32, lids: u32) -> Turn {
        let count = narrow(exits.len());
        let mut lowest = u32::MAX;
        'exits: for step in exits {
            lowest = step.exit.0.min(lowest);
        }
        let mut turn = lids;
        'heights: for _ in 0..height.min(DIGITS) {
            turn /= count.max(1);
        }
        Turn {
            lowest,
            count,
            turn: turn % count.max(1),
        }
    }

    // How long an exit waits for its turn.
    fn wait(self, exit: Channel) -> u32 {
        let count = self.count.max(1);
        let place = exit.0.wrapping_sub(self.lowest) % count;
        place.wrapping_add(count).wrapping_sub(self.turn) % count
    }
}

/// Routes that are being laid.
#[derive(Drop)]
pub struct Laying {
    // The exits for each target.
    rows: Rows,
    // The exits of the ways to each switch from which the others are found.
    trees: Rows,
    loads: Loads,
    // For one switch: the exits between which to choose.
    fans: Fans,
    // For one target: what the routes from each switch cost.
    costs: Table<u64>,
    // How far each switch is from the leaves, if exits that cost the same are taken in turn; and to how many LIDs of
    // adapters and routers routes were laid in this round.
    heights: Option<Table<u32>>,
    lids: u32,
    measures: Measures,
}

impl Laying {
    /// Creates an empty set of routes.
    ///
    /// # Errors
    /// `OutOfMemory`.
    pub fn new(alloc: Global, channels: &Channels, demand: &Demand) -> Result<Laying, OutOfMemory> {
        let switches = channels.switches();
        let targets = narrow(demand.targets().len());
        Ok(Laying {
            rows: Rows::new(alloc, targets, switches)?,
            trees: Rows::new(alloc, switches, switches)?,
            loads: Loads::new(alloc, channels)?,
            fans: Fans::new(alloc, switches)?,
            costs: Table::filled(alloc, switches, 0u64)?,
            heights: None,
            lids: 0,
            measures: Measures::NONE,
        })
    }

    /// Returns the exits of all switches for all targets.
    pub fn rows(&self) -> &Rows {
        &self.rows
    }

    /// Creates an empty set of routes, for which exits of equal cost are taken in turn.
    ///
    /// # Errors
    /// `OutOfMemory`.
    pub fn in_turn(
        alloc: Global,
        channels: &Channels,
        demand: &Demand,
    ) -> Result<Laying, OutOfMemory> {
        let mut laying = Laying::new(alloc, channels, demand)?;
        laying.heights = Some(heights(alloc, channels, demand)?);
        Ok(laying)
    }

    /// Reports whether exits of equal cost are taken in turn.
    pub fn is_in_turn(&self) -> bool {
        self.heights.is_some()
    }

    /// Returns how good the routes of the traffic are.
    pub fn measures(&self) -> Measures {
        self.measures
    }

    /// Moves single exits, so that routes are spread better.
    ///
    /// # Errors
    /// `OutOfMemory`.
    pub fn polish(&mut self, plan: Plan<'_>) -> Result<(), OutOfMemory> {
        self.measures.longest = polish(plan, &mut self.rows, &mut self.loads)?;
        self.measures.take_loads(&self.loads);
        Ok(())
    }

    // Makes shortest ways to a switch, and longer ones if there are none that rise.
    fn make_tree(&mut self, alloc: Global, plan: Plan<'_>, target: u32) -> Result<(), OutOfMemory> {
        self.loads.grow(plan, Rule::Rising(plan.order), target)?;
        close_all(alloc, plan, &mut self.loads.ways, target)?;
        self.trees.keep(plan.channels, target, &self.loads.ways);
        Ok(())
    }

    // The ways to a switch: those that were made before, if the round is not the first.
    fn find_tree(
        &mut self,
        alloc: Global,
        plan: Plan<'_>,
        target: u32,
        round: u32,
    ) -> Result<(), OutOfMemory> {
        if round > 0 {
            return self.loads.take(plan, &self.trees, target, target);
        }
        self.make_tree(alloc, plan, target)?;
        self.measures.add_ways(plan, &self.loads.ways, target);
        Ok(())
    }

    // Which exit of a switch has its turn, if they are taken in turn.
    fn turn(&self, switch: u32) -> Option<Turn> {
        match &self.heights {
            Some(heights) => {
                let exits = self.fans.exits(switch);
                Some(Turn::of(exits, heights.get(switch), self.lids))
            }
            None => None,
        }
    }

    // Chooses for a switch the exit from which on routes cost least; of several the first, or the first in turn.
    fn choose_exit(&mut self, switch: u32) {
        let turn = self.turn(switch);
        let mut least = (u64::MAX, u32::MAX);
        let mut best = None;
        'exits: for step in self.fans.exits(switch) {
            let cost = cost_of(self.loads.of(step.exit)).saturating_add(self.costs.get(step.to));
            let wait = turn.map_or(0, |turn| turn.wait(step.exit));
            if best.is_none() || (cost, wait) < least {
                least = (cost, wait);
                best = Some(step.exit);
            }
        }
        self.loads.ways.put_exit(switch, best);
        self.costs.put(switch, least.0);
    }

    // Chooses exits for a target at a switch.
    fn choose(&mut self, plan: Plan<'_>, target: u32) {
        self.costs.put(target, 0);
        'nearest: for place in 0..plan.channels.switches() {
            let Some(switch) = self.loads.ways.nearest().get(place as usize).copied() else {
                break;
            };
            if switch != target {
                self.choose_exit(switch);
            }
        }
    }

    // Lays the routes to a target, in place of those that were laid before.
    fn lay_row(&mut self, plan: Plan<'_>, row: u32, target: Target, round: u32) {
        if round > 0 && target.is_host() {
            self.rows.take(plan.channels, row, &mut self.loads.ways);
            self.loads.change_all(plan, Change::Go);
        }
        self.choose(plan, target.switch);
        self.rows.keep(plan.channels, row, &self.loads.ways);
        if target.is_host() {
            self.loads.change_all(plan, Change::Come);
            self.lids = self.lids.wrapping_add(1);
        }
    }

    // Lays the routes to the targets at a switch.
    fn lay_switch(
        &mut self,
        alloc: Global,
        plan: Plan<'_>,
        switch: u32,
        round: u32,
    ) -> Result<(), OutOfMemory> {
        self.find_tree(alloc, plan, switch, round)?;
        self.fans.widen(plan, &self.loads.ways, switch)?;
        let mut row = plan.demand.first_at(switch);
        'targets: for target in plan.demand.targets_at(switch) {
            self.lay_row(plan, row, *target, round);
            row = row.wrapping_add(1);
        }
        Ok(())
    }

    // Lays the routes to the targets at a switch to which the traffic has none.
    fn lay_others_at(
        &mut self,
        alloc: Global,
        plan: Plan<'_>,
        switch: u32,
    ) -> Result<(), OutOfMemory> {
        let traffic = Traffic::All;
        self.make_tree(alloc, Plan { traffic, ..plan }, switch)?;
        self.fans.widen(plan, &self.loads.ways, switch)?;
        let mut row = plan.demand.first_at(switch);
        'targets: for _ in plan.demand.targets_at(switch) {
            self.choose(plan, switch);
            self.rows.keep(plan.channels, row, &self.loads.ways);
            row = row.wrapping_add(1);
        }
        Ok(())
    }

    /// Lays the routes to the targets at switches to which the traffic has none, as far as there are any. Loads and
    /// measures do not change.
    ///
    /// # Errors
    /// `OutOfMemory`.
    pub fn lay_others(&mut self, alloc: Global, plan: Plan<'_>) -> Result<(), OutOfMemory> {
        'switches: for switch in 0..plan.channels.switches() {
            if plan.leaves_out(switch) {
                self.lay_others_at(alloc, plan, switch)?;
            }
        }
        Ok(())
    }

    /// Lays the routes of the traffic, in rounds: after the first round each target is laid again by the loads of all
    /// others. The same switches have paths in each round.
    ///
    /// # Errors
    /// `OutOfMemory`.
    pub fn lay(
        &mut self,
        alloc: Global,
        plan: Plan<'_>,
        rounds: Range<u32>,
    ) -> Result<(), OutOfMemory> {
        'rounds: for round in rounds {
            self.lay_round(alloc, plan, round)?;
        }
        self.measures.take_loads(&self.loads);
        Ok(())
    }

    // Lays the routes once.
    fn lay_round(&mut self, alloc: Global, plan: Plan<'_>, round: u32) -> Result<(), OutOfMemory> {
        self.lids = 0;
        'switches: for switch in 0..plan.channels.switches() {
            if plan.sends_to_some(switch) {
                self.lay_switch(alloc, plan, switch, round)?;
            }
        }
        Ok(())
    }
}
