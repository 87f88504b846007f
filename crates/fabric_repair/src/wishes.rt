//! Turns that do not rise in an order and with which fewer rows would have to be set.

use crate::changes::Changes;
use crate::routes::{NO_ROUTE, Routes};
use crate::task::Task;
use common_values::memory::OutOfMemory;
use fabric_engine_channels::channels::Channel;
use fabric_engine_channels::demand::Target;
use fabric_engine_channels::order::Order;
use fabric_engine_channels::table::Table;
use fabric_engine_sorting::effort::Effort;
use std::alloc::Global;

// How many turns of a route may fall, and one.
const LAYERS: u32 = 4;

// How a route goes on, and what that costs.
#[derive(Clone, Copy)]
struct Onward {
    next: Option<Channel>,
    cost: u64,
}

// No route goes on.
const NOWHERE: Onward = Onward {
    next: None,
    cost: NO_ROUTE,
};

// Routes to one target of which few turns fall.
#[derive(Drop)]
struct Wishing {
    given: Routes,
    // How the cheapest route goes on after each channel, and with which it begins at each switch.
    onward: Table<Onward>,
    starts: Table<Onward>,
    // The same if one turn less falls: what begins with a channel, and at a switch.
    costs_before: Table<u64>,
    least_before: Table<u64>,
    // What begins with each channel.
    costs: Table<u64>,
}

impl Wishing {
    // Room for the routes to one target.
    fn new(alloc: Global, task: Task<'_>) -> Result<Wishing, OutOfMemory> {
        let (switches, channels) = (task.channels.switches(), task.channels.count());
        Ok(Wishing {
            given: Routes::new(alloc, switches)?,
            onward: Table::filled(alloc, channels, NOWHERE)?,
            starts: Table::filled(alloc, switches, NOWHERE)?,
            costs_before: Table::filled(alloc, channels, NO_ROUTE)?,
            least_before: Table::filled(alloc, switches, NO_ROUTE)?,
            costs: Table::filled(alloc, channels, NO_ROUTE)?,
        })
    }

    // How the cheapest route goes on after a channel: by a later one, or by any that is not refused if that costs less.
    fn best_onward(&self, task: Task<'_>, refused: &Table<bool>, channel: Channel) -> Onward {
        let (to, back) = (task.channels.to(channel), task.channels.back(channel));
        let mut best = self.starts.get(to);
        let toll = self.given.share(to);
        if self.least_before.get(to).saturating_add(toll) >= best.cost {
            return best;
        }
        'exits: for number in task.channels.exits(to) {
            let next = Channel(number);
            let cost = self.costs_before.get(next).saturating_add(toll);
            let is_refused = refused.get(task.channels.turn(channel, next));
            if cost < best.cost && next != back && !is_refused {
                best = Onward {
                    next: Some(next),
                    cost,
                };
            }
        }
        best
    }

    // Finds the cheapest routes with one more turn that may fall.
    fn find_costs(&mut self, task: Task<'_>, order: &Order, refused: &Table<bool>, target: u32) {
        self.costs.reset();
        self.onward.reset();
        self.starts.reset();
        self.starts.put(
            target,
            Onward {
                next: None,
                cost: 0,
            },
        );
        'channels: for channel in order.sequence().iter().rev() {
            let from = task.channels.from(*channel);
            let onward = self.best_onward(task, refused, *channel);
            if from == target || onward.cost == NO_ROUTE {
                continue;
            }
            let price = self.given.price(from, *channel);
            let cost = onward.cost.wrapping_add(price).wrapping_add(1);
            self.costs.put(*channel, cost);
            self.onward.put(*channel, onward);
            if cost < self.starts.get(from).cost {
                let next = Some(*channel);
                self.starts.put(from, Onward { next, cost });
            }
        }
    }

    // Keeps the costs for routes with one more turn that may fall.
    fn keep(&mut self, task: Task<'_>) {
        std::mem::swap(&mut self.costs, &mut self.costs_before);
        'switches: for switch in 0..task.channels.switches() {
            self.least_before.put(switch, self.starts.get(switch).cost);
        }
    }

    // Whether there is a route from each switch of sources.
    fn reaches_all(&self, task: Task<'_>, target: Target) -> bool {
        let mut switches = 0..task.channels.switches();
        switches.all(|switch| {
            !task.sends_from(switch, target) || self.starts.get(switch).cost < NO_ROUTE
        })
    }

    // Finds the cheapest routes with at least one turn that may fall.
    fn find(
        &mut self,
        task: Task<'_>,
        order: &Order,
        refused: &Table<bool>,
        target: Target,
        effort: &mut Effort,
    ) {
        self.costs_before.reset();
        self.least_before.reset();
        'layers: for layer in 0..LAYERS {
            effort.spend(task.channels.count());
            self.find_costs(task, order, refused, target.switch);
            if layer > 0 && self.reaches_all(task, target) {
                break;
            }
            self.keep(task);
        }
    }

    // Notes the turns of the route from a switch that fall.
    fn note(&self, task: Task<'_>, order: &Order, switch: u32, wishes: &mut Table<u32>) {
        let mut at = self.starts.get(switch).next;
        'links: for _ in 0..task.channels.switches() {
            let Some(channel) = at else {
                break;
            };
            at = self.onward.get(channel).next;
            if let Some(next) = at {
                if !order.rises(channel, next) {
                    wishes.add(task.channels.turn(channel, next), 1);
                }
            }
        }
    }

    // Notes the turns that fall of the cheapest routes to a target.
    fn note_all(
        &mut self,
        task: Task<'_>,
        order: &Order,
        refused: &Table<bool>,
        target: Target,
        wishes: &mut Table<u32>,
        effort: &mut Effort,
    ) {
        self.given.read(task, target);
        self.given.count(task, target);
        self.find(task, order, refused, target, effort);
        'sources: for switch in 0..task.channels.switches() {
            if task.sends_from(switch, target) && switch != target.switch {
                self.note(task, order, switch, wishes);
            }
        }
    }
}

/// Over how many pairs of a switch and a target each turn is wished that does not rise in an order: of the targets for
/// which rows are set or something is lost, while some effort is left, and only turns that are not refused.
pub fn wish(
    alloc: Global,
    task: Task<'_>,
    order: &Order,
    changes: &Changes,
    refused: &Table<bool>,
    effort: &mut Effort,
) -> Result<Table<u32>, OutOfMemory> {
    let mut wishing = Wishing::new(alloc, task)?;
    let mut wishes = Table::filled(alloc, task.channels.turns(), 0u32)?;
    'targets: for (place, target) in task.demand.targets().iter().enumerate() {
        if changes.concerns(place) && !effort.is_spent() {
            wishing.note_all(task, order, refused, *target, &mut wishes, effort);
        }
    }
    Ok(wishes)
}
