//! The rows that are to be set for one target, so that its routes rise in an order.

use crate::changes::{Changes, Row};
use crate::routes::{NO_ROUTE, Routes};
use crate::task::Task;
use common_values::memory::OutOfMemory;
use fabric_engine_channels::channels::Channel;
use fabric_engine_channels::demand::Target;
use fabric_engine_channels::order::Order;
use fabric_engine_channels::table::Table;
use fabric_engine_sorting::effort::Effort;
use std::alloc::Global;

// How often routes are made for a target.
const PASSES: u32 = 4;

// The exits of a target, as they are made.
#[derive(Drop)]
struct Mending {
    given: Routes,
    made: Routes,
    // The exits for which rows were set the last time.
    paid: Table<Option<Channel>>,
    // What the cheapest rising route costs that begins with each channel, and that begins at each switch.
    costs: Table<u64>,
    leasts: Table<u64>,
    // The rows that are to be set: the fewest, and those of the last time.
    rows: Vec<Row>,
    last: Vec<Row>,
}

impl Mending {
    // Room for the routes to one target.
    fn new(alloc: Global, task: Task<'_>) -> Result<Mending, OutOfMemory> {
        let switches = task.channels.switches();
        Ok(Mending {
            given: Routes::new(alloc, switches)?,
            made: Routes::new(alloc, switches)?,
            paid: Table::filled(alloc, switches, None)?,
            costs: Table::filled(alloc, task.channels.count(), NO_ROUTE)?,
            leasts: Table::filled(alloc, switches, NO_ROUTE)?,
            rows: Vec::new(alloc),
            last: Vec::new(alloc),
        })
    }

    // What it costs to send by a channel.
    fn price(&self, switch: u32, channel: Channel) -> u64 {
        if self.paid.get(switch) == Some(channel) {
            return 0;
        }
        self.given.price(switch, channel)
    }

    // Finds what rising routes to a switch cost, from the last channel of the order to the first.
    fn find_costs(&mut self, task: Task<'_>, order: &Order, target: u32) {
        self.costs.reset();
        self.leasts.reset();
        self.leasts.put(target, 0);
        'channels: for channel in order.sequence().iter().rev() {
            let from = task.channels.from(*channel);
            let onward = self.leasts.get(task.channels.to(*channel));
            if from == target || onward == NO_ROUTE {
                continue;
            }
            let price = self.price(from, *channel);
            let cost = onward.wrapping_add(price).wrapping_add(1);
            self.costs.put(*channel, cost);
            let least = self.leasts.get(from).min(cost);
            self.leasts.put(from, least);
        }
    }

    // The exit of a switch, not before a place of the order, with which the cheapest route begins; of several the last.
    fn choose(&self, task: Task<'_>, order: &Order, switch: u32, first: u32) -> Option<Channel> {
        let mut best = None;
        let mut least = (NO_ROUTE, 0);
        'exits: for number in task.channels.exits(switch) {
            let channel = Channel(number);
            let place = order.place(channel);
            let key = (self.costs.get(channel), u32::MAX - place);
            if place >= first && key.0 < NO_ROUTE && (best.is_none() || key < least) {
                best = Some(channel);
                least = key;
            }
        }
        best
    }

    // Chooses the exits of the switches of sources. Answers how many there are that have no route.
    fn begin(&mut self, task: Task<'_>, order: &Order, target: Target) -> u32 {
        self.made.clear();
        let mut lost = 0u32;
        'sources: for switch in 0..task.channels.switches() {
            if task.sends_from(switch, target) && switch != target.switch {
                let exit = self.choose(task, order, switch, 0);
                self.made.put(switch, exit);
                if exit.is_none() {
                    lost = lost.wrapping_add(1);
                }
            }
        }
        lost
    }

    // Lets a switch go on after a place of the order, by its exit or by a later one.
    fn go_on(&mut self, task: Task<'_>, order: &Order, switch: u32, place: u32) {
        let is_after = match self.made.exit(switch) {
            Some(exit) => order.place(exit) > place,
            None => false,
        };
        if !is_after {
            let exit = self.choose(task, order, switch, place.wrapping_add(1));
            self.made.put(switch, exit);
        }
    }

    // Chooses the exits of all switches to which routes lead, from the first channel of the order to the last: an exit
    // is later than all that lead to its switch.
    fn lay(&mut self, task: Task<'_>, order: &Order, target: Target) -> u32 {
        let lost = self.begin(task, order, target);
        'channels: for channel in order.sequence() {
            let (from, to) = (task.channels.from(*channel), task.channels.to(*channel));
            if to != target.switch && self.made.exit(from) == Some(*channel) {
                self.go_on(task, order, to, order.place(*channel));
            }
        }
        lost
    }

    // Adds the row of a switch, if routes pass it and its exit is another than by the given tables.
    fn push_row(&mut self, task: Task<'_>, target: Target, switch: u32) -> Result<(), OutOfMemory> {
        let Some(exit) = self.made.exit(switch) else {
            return Ok(());
        };
        if self.made.flow(switch) > 0 && self.given.exit(switch) != Some(exit) {
            let port = task.channels.port(exit);
            self.last.push(Row {
                switch,
                lid: target.lid,
                port,
            })?;
        }
        Ok(())
    }

    // Finds the rows that are to be set for the exits that were made.
    fn find_rows(&mut self, task: Task<'_>, target: Target) -> Result<(), OutOfMemory> {
        self.last.clear();
        self.made.count(task, target);
        'switches: for switch in 0..task.channels.switches() {
            self.push_row(task, target, switch)?;
        }
        Ok(())
    }

    // Keeps the rows of the last time. What they cost is paid.
    fn keep(&mut self, task: Task<'_>) {
        std::mem::swap(&mut self.rows, &mut self.last);
        'switches: for switch in 0..task.channels.switches() {
            self.paid.put(switch, self.made.exit(switch));
        }
    }

    // Makes routes a few times, each time with the rows of the time before for nothing, until they are no fewer.
    fn make(
        &mut self,
        task: Task<'_>,
        order: &Order,
        target: Target,
        effort: &mut Effort,
    ) -> Result<u32, OutOfMemory> {
        self.paid.reset();
        let mut lost = 0;
        'passes: for pass in 0..PASSES {
            effort.spend(task.channels.count());
            self.find_costs(task, order, target.switch);
            lost = self.lay(task, order, target);
            self.find_rows(task, target)?;
            if pass > 0 && self.last.len() >= self.rows.len() {
                break;
            }
            self.keep(task);
            if effort.is_spent() {
                break;
            }
        }
        Ok(lost)
    }

    // Finds the rows that are to be set for a target. Answers from how many switches of sources there is no route.
    fn mend(
        &mut self,
        task: Task<'_>,
        order: &Order,
        target: Target,
        effort: &mut Effort,
    ) -> Result<u32, OutOfMemory> {
        effort.spend(task.channels.switches());
        self.rows.clear();
        self.given.read(task, target);
        self.given.count(task, target);
        let lost = if self.given.rise(task, order, target.switch) {
            0
        } else {
            self.make(task, order, target, effort)?
        };
        if !task.delivers(target) {
            let Target { lid, switch, port } = target;
            self.rows.push(Row { switch, lid, port })?;
        }
        Ok(lost)
    }

    // Finds the rows that are to be set for all targets. Answers whether it did, or was given up.
    fn mend_all(
        &mut self,
        task: Task<'_>,
        order: &Order,
        scope: Scope<'_>,
        changes: &mut Changes,
        effort: &mut Effort,
    ) -> Result<bool, OutOfMemory> {
        'targets: for (place, target) in task.demand.targets().iter().enumerate() {
            if effort.is_spent() && scope.may_end() {
                return Ok(false);
            }
            let lost = if task.sends_to(*target) && scope.has(place) {
                self.mend(task, order, *target, effort)?
            } else {
                self.rows.clear();
                0
            };
            changes.push(&self.rows, lost)?;
        }
        Ok(true)
    }
}

/// Which targets are looked at.
#[derive(Clone, Copy)]
pub enum Scope<'a> {
    /// All, whatever the effort.
    All,
    /// All, while some effort is left.
    AllInTime,
    /// While some is left, those that these rows concern: the given routes to all others are known to rise.
    Concerned(&'a Changes),
}

impl Scope<'_> {
    // Whether the target at a place is looked at.
    fn has(self, place: usize) -> bool {
        match self {
            Scope::All | Scope::AllInTime => true,
            Scope::Concerned(changes) => changes.concerns(place),
        }
    }

    // Whether it is given up if no effort is left.
    fn may_end(self) -> bool {
        match self {
            Scope::All => false,
            Scope::AllInTime | Scope::Concerned(_) => true,
        }
    }
}

/// The rows that are to be set so that the routes of the traffic rise in an order; none if it was given up.
pub fn mend(
    alloc: Global,
    task: Task<'_>,
    order: &Order,
    scope: Scope<'_>,
    effort: &mut Effort,
) -> Result<Option<Changes>, OutOfMemory> {
    let mut mending = Mending::new(alloc, task)?;
    let mut changes = Changes::none(alloc);
    match mending.mend_all(task, order, scope, &mut changes, effort) {
        Ok(true) => Ok(Some(changes)),
        Ok(false) => Ok(None),
        Err(error) => Err(error),
    }
}
