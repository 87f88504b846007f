//! Single exits moved so that routes are spread better over the channels.

use common_values::memory::OutOfMemory;
use fabric_engine_channels::amount::Change;
use fabric_engine_channels::channels::Channel;
use fabric_engine_channels::table::narrow;
use fabric_engine_rising::loads::Loads;
use fabric_engine_rising::plan::Plan;
use fabric_engine_rising::rows::Rows;

// How often all exits are looked at.
const PASSES: u32 = 3;

// From how many switches on only exits with great loads are looked at.
const MANY: u32 = 256;

// An exit, and what it costs to lead routes over it.
#[derive(Clone, Copy)]
struct Priced {
    exit: Channel,
    price: u64,
}

// The ways to a target that are polished, and the least load of an exit that is looked at.
#[derive(Clone, Copy)]
struct Polishing<'a> {
    plan: Plan<'a>,
    target: u32,
    busy: u64,
}

impl Polishing<'_> {
    // The switch to which a channel leads.
    fn to(self, channel: Channel) -> u32 {
        self.plan.channels.to(channel)
    }

    // Lets the routes of a switch come to its way or go from it.
    fn change(self, loads: &mut Loads, switch: u32, flow: u32, change: Change) {
        let mut at = switch;
        'links: for _ in 0..self.plan.channels.switches() {
            let Some(exit) = loads.ways.exit(at) else {
                break;
            };
            loads.change(exit, flow, change);
            at = self.to(exit);
            loads.flows.change(at, flow, change);
        }
    }

    // By how much the sum of the squares of all loads grows for each route, if a flow is led over an exit and
    // on.
    fn price(self, loads: &Loads, exit: Channel, flow: u32) -> u64 {
        let mut price = 0u64;
        let mut next = Some(exit);
        'links: for _ in 0..self.plan.channels.switches() {
            let Some(channel) = next else {
                break;
            };
            let load = loads.of(channel).wrapping_mul(2);
            price = price.wrapping_add(load).wrapping_add(u64::from(flow));
            next = loads.ways.exit(self.to(channel));
        }
        price
    }

    // Whether a channel may be the exit of a switch: all turns rise, and the way grows no longer.
    fn may_be(self, loads: &Loads, least: u32, depth: u32, channel: Channel) -> bool {
        let plan = self.plan;
        loads.ways.depth(self.to(channel)) < depth
            && plan.order.place(channel) >= least
            && plan.may_follow(&loads.ways, self.target, channel)
    }

    // Whether another exit may be that of a switch.
    fn has_choice(self, loads: &Loads, switch: u32, own: Channel) -> bool {
        let least = self.plan.least_place(&loads.ways, switch);
        let depth = loads.ways.depth(switch);
        let may_be = |number: u32| {
            let exit = Channel(number);
            exit != own && self.may_be(loads, least, depth, exit)
        };
        self.plan.channels.exits(switch).any(may_be)
    }

    // The exit of a switch over which it costs least to lead a flow: the one that it has, if that is one of them.
    fn best_exit(self, loads: &Loads, switch: u32, flow: u32, own: Channel) -> Channel {
        let least = self.plan.least_place(&loads.ways, switch);
        let depth = loads.ways.depth(switch);
        let price = self.price(loads, own, flow);
        let mut best = Priced { exit: own, price };
        'exits: for number in self.plan.channels.exits(switch) {
            let exit = Channel(number);
            if exit != own && self.may_be(loads, least, depth, exit) {
                let price = self.price(loads, exit, flow);
                if price < best.price {
                    best = Priced { exit, price };
                }
            }
        }
        best.exit
    }

    // Moves the exit of a switch, if that spreads the routes better. Answers whether it did.
    fn move_exit(self, loads: &mut Loads, switch: u32, own: Channel) -> Result<bool, OutOfMemory> {
        let flow = loads.flows.get(switch);
        self.change(loads, switch, flow, Change::Go);
        let best = self.best_exit(loads, switch, flow, own);
        loads.ways.put_exit(switch, Some(best));
        self.change(loads, switch, flow, Change::Come);
        let over = loads.ways.depth(self.to(best));
        if over.wrapping_add(1) != loads.ways.depth(switch) {
            loads.ways.arrange(self.plan.channels, self.target)?;
        }
        Ok(best != own)
    }

    // Moves exits from channels that are busy. Answers whether it did.
    fn polish_ways(self, loads: &mut Loads) -> Result<bool, OutOfMemory> {
        let mut is_moved = false;
        'switches: for switch in 0..self.plan.channels.switches() {
            let Some(own) = loads.ways.exit(switch) else {
                continue;
            };
            let is_idle = loads.flows.get(switch) == 0 || loads.of(own) < self.busy;
            let is_looked_at = !is_idle && self.has_choice(loads, switch, own);
            if is_looked_at && self.move_exit(loads, switch, own)? {
                is_moved = true;
            }
        }
        Ok(is_moved)
    }

    // Polishes a row. Answers whether an exit was moved.
    fn polish_row(self, rows: &mut Rows, row: u32, loads: &mut Loads) -> Result<bool, OutOfMemory> {
        loads.take(self.plan, rows, row, self.target)?;
        loads.gather(self.plan);
        let is_moved = self.polish_ways(loads)?;
        if is_moved {
            rows.keep(self.plan.channels, row, &loads.ways);
        }
        Ok(is_moved)
    }
}

// Whether exits were moved, and the most channels on a way after it.
#[derive(Clone, Copy)]
struct Outcome {
    is_moved: bool,
    longest: u32,
}

// Polishes the rows of the end ports of adapters and routers, once.
fn polish_once(plan: Plan<'_>, rows: &mut Rows, loads: &mut Loads) -> Result<Outcome, OutOfMemory> {
    let busy = busy(plan, loads);
    let mut outcome = Outcome {
        is_moved: false,
        longest: 0,
    };
    'targets: for (row, target) in plan.demand.targets().iter().enumerate() {
        if !target.is_host() {
            continue;
        }
        let target = target.switch;
        let polishing = Polishing { plan, target, busy };
        if polishing.polish_row(rows, narrow(row), loads)? {
            outcome.is_moved = true;
        }
        outcome.longest = plan.longest(&loads.ways).max(outcome.longest);
    }
    Ok(outcome)
}

// The load from which on an exit is looked at: any, or nine tenths of the greatest if there are many
// switches.
fn busy(plan: Plan<'_>, loads: &Loads) -> u64 {
    if plan.channels.switches() < MANY {
        return 0;
    }
    loads.greatest() / 10 * 9
}

/// Moves exits of `rows`, whose loads are `loads`, so that turns rise as before, no path grows longer, and the sum of
/// the squares of the loads falls. Returns the highest number of channels on a path of end ports afterwards.
///
/// # Errors
/// `OutOfMemory`.
pub fn polish(plan: Plan<'_>, rows: &mut Rows, loads: &mut Loads) -> Result<u32, OutOfMemory> {
    let mut longest = 0;
    'passes: for _ in 0..PASSES {
        let outcome = polish_once(plan, rows, loads)?;
        longest = outcome.longest;
        if !outcome.is_moved {
            break;
        }
    }
    Ok(longest)
}
