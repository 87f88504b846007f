//! Paths for switches without a path along which an order rises from depth to depth.

use crate::plan::Plan;
use crate::raising::{extend, raise};
use common_values::memory::OutOfMemory;
use fabric_engine_channels::channels::{Channel, Channels};
use fabric_engine_channels::table::Table;
use fabric_engine_channels::ways::{FAR, Ways};
use std::alloc::Global;

// How often all exits are looked at for nearer ones.
const PASSES: u32 = 4;

// For each switch a shortest rising route to the target, whatever exits the others have.
#[derive(Drop)]
struct Shortest {
    // How many channels the route of each switch has, and the first of them.
    depths: Table<u32>,
    exits: Table<Option<Channel>>,
    // How many channels a shortest one has that begins with each channel, and the second of them.
    lengths: Table<u32>,
    nexts: Table<Option<Channel>>,
}

impl Shortest {
    // The routes of no switch but the target.
    fn none(alloc: Global, channels: &Channels, target: u32) -> Result<Shortest, OutOfMemory> {
        let mut depths = Table::filled(alloc, channels.switches(), FAR)?;
        depths.put(target, 0);
        Ok(Shortest {
            depths,
            exits: Table::filled(alloc, channels.switches(), None)?,
            lengths: Table::filled(alloc, channels.count(), FAR)?,
            nexts: Table::filled(alloc, channels.count(), None)?,
        })
    }

    // Finds the routes, from the last channel in the order to the first.
    fn find(&mut self, plan: Plan<'_>) {
        'channels: for channel in plan.order.sequence().iter().rev() {
            self.look(plan.channels, *channel);
        }
    }

    // Looks at a channel, after all that stand after it in the order: a route begins with it, if that is shorter.
    fn look(&mut self, channels: &Channels, channel: Channel) {
        let (from, to) = (channels.from(channel), channels.to(channel));
        let depth = self.depths.get(to).saturating_add(1);
        self.lengths.put(channel, depth);
        self.nexts.put(channel, self.exits.get(to));
        if depth < self.depths.get(from) {
            self.depths.put(from, depth);
            self.exits.put(from, Some(channel));
        }
    }

    // Gives to a switch without an exit, and to those on its route as far as they need them, the exits of the route. An
    // exit that is given in place of another one is later in the order.
    fn close(&self, plan: Plan<'_>, ways: &mut Ways, target: u32, missing: u32) {
        if ways.exit(missing).is_some() {
            return;
        }
        let mut switch = missing;
        let mut exit = self.exits.get(missing);
        'links: for _ in 0..plan.channels.switches() {
            let Some(channel) = exit else {
                break;
            };
            ways.put_exit(switch, Some(channel));
            if plan.may_follow(ways, target, channel) {
                break;
            }
            switch = plan.channels.to(channel);
            exit = self.nexts.get(channel);
        }
    }
}

impl Shortest {
    // The first channel of a shortest route of a switch that breaks no turn to it, if that is shorter than its way.
    fn start(&self, plan: Plan<'_>, ways: &Ways, switch: u32) -> Option<Channel> {
        let least = plan.least_place(ways, switch);
        let mut length = ways.depth(switch);
        let mut start = None;
        'exits: for number in plan.channels.exits(switch) {
            let channel = Channel(number);
            let over = self.lengths.get(channel);
            if over < length && plan.order.place(channel) >= least {
                length = over;
                start = Some(channel);
            }
        }
        start
    }

    // How many channels of a route from one on have to become exits, so that the way of its switch has fewer channels than
    // so many; none if that breaks a turn.
    fn needed(
        &self,
        plan: Plan<'_>,
        ways: &Ways,
        target: u32,
        start: Channel,
        own: u32,
    ) -> Option<u32> {
        let mut channel = start;
        'links: for count in 1..own {
            let to = plan.channels.to(channel);
            let over = ways.depth(to).saturating_add(count);
            if over < own && plan.may_follow(ways, target, channel) {
                return Some(count);
            }
            let next = self.nexts.get(channel)?;
            if plan.order.place(next) < plan.least_place(ways, to) {
                return None;
            }
            channel = next;
        }
        None
    }

    // Gives to a switch a shorter way, if one breaks no turn. Answers whether it did.
    fn reroute(&self, plan: Plan<'_>, ways: &mut Ways, target: u32, switch: u32) -> bool {
        let Some(start) = self.start(plan, ways, switch) else {
            return false;
        };
        let own = ways.depth(switch);
        let Some(needed) = self.needed(plan, ways, target, start, own) else {
            return false;
        };
        let mut exit = Some(start);
        'links: for _ in 0..needed {
            let Some(channel) = exit else {
                break;
            };
            ways.put_exit(plan.channels.from(channel), Some(channel));
            exit = self.nexts.get(channel);
        }
        true
    }
}

// Gives shorter ways to the switches whose way is too long, so far as there are some. Answers whether there were any.
fn spare_once(
    plan: Plan<'_>,
    ways: &mut Ways,
    target: u32,
    routes: &Shortest,
) -> Result<bool, OutOfMemory> {
    let mut is_shorter = false;
    'switches: for switch in 0..plan.channels.switches() {
        let depth = ways.depth(switch);
        if depth != FAR && depth > plan.most && routes.reroute(plan, ways, target, switch) {
            ways.arrange(plan.channels, target)?;
            is_shorter = true;
        }
    }
    Ok(is_shorter)
}

// Gives shorter ways to the switches whose way is too long, a few times.
fn spare(alloc: Global, plan: Plan<'_>, ways: &mut Ways, target: u32) -> Result<(), OutOfMemory> {
    if plan.longest(ways) <= plan.most {
        return Ok(());
    }
    let mut routes = Shortest::none(alloc, plan.channels, target)?;
    routes.find(plan);
    'passes: for _ in 0..PASSES {
        if !spare_once(plan, ways, target, &routes)? {
            break;
        }
    }
    Ok(())
}

// Whether some exit of a switch leads nearer than its own.
fn has_nearer(plan: Plan<'_>, ways: &Ways, switch: u32) -> bool {
    let depth = ways.depth(switch);
    let leads_nearer = |number: u32| {
        let to = plan.channels.to(Channel(number));
        ways.depth(to).saturating_add(1) < depth
    };
    plan.channels.exits(switch).any(leads_nearer)
}

// A nearer exit of a switch that breaks no turn, if it has one.
fn nearer_exit(plan: Plan<'_>, ways: &Ways, target: u32, switch: u32) -> Option<Channel> {
    let least = plan.least_place(ways, switch);
    let mut depth = ways.depth(switch);
    let mut nearer = None;
    'exits: for number in plan.channels.exits(switch) {
        let channel = Channel(number);
        let to = plan.channels.to(channel);
        let over = ways.depth(to).saturating_add(1);
        if over < depth
            && plan.order.place(channel) >= least
            && plan.may_follow(ways, target, channel)
        {
            depth = over;
            nearer = Some(channel);
        }
    }
    nearer
}

// Takes nearer exits. Answers whether there were any.
fn shorten_once(plan: Plan<'_>, ways: &mut Ways, target: u32) -> bool {
    let mut is_shorter = false;
    'switches: for switch in 0..plan.channels.switches() {
        if switch != target && ways.depth(switch) != FAR && has_nearer(plan, ways, switch) {
            if let Some(channel) = nearer_exit(plan, ways, target, switch) {
                ways.put_exit(switch, Some(channel));
                is_shorter = true;
            }
        }
    }
    is_shorter
}

// Takes nearer exits, a few times.
fn shorten(plan: Plan<'_>, ways: &mut Ways, target: u32) -> Result<(), OutOfMemory> {
    'passes: for _ in 0..PASSES {
        ways.arrange(plan.channels, target)?;
        if !shorten_once(plan, ways, target) {
            break;
        }
    }
    ways.arrange(plan.channels, target)
}

// The switches that are to have a way and have none.
fn find_missing(
    alloc: Global,
    plan: Plan<'_>,
    ways: &Ways,
    target: u32,
) -> Result<Vec<u32>, OutOfMemory> {
    let is_from_all = plan.is_from_all(target);
    let mut missing = Vec::new(alloc);
    'switches: for switch in 0..plan.channels.switches() {
        let sends = is_from_all || plan.demand.hosts(switch) > 0;
        if sends && ways.depth(switch) == FAR {
            missing.push(switch)?;
        }
    }
    Ok(missing)
}

/// Gives paths to the switches that need one and have none, where the order has rising ones, and shorter paths to those
/// whose path is too long. Afterwards all turns rise.
///
/// # Errors
/// `OutOfMemory`.
pub fn close_all(
    alloc: Global,
    plan: Plan<'_>,
    ways: &mut Ways,
    target: u32,
) -> Result<(), OutOfMemory> {
    close_missing(alloc, plan, ways, target)?;
    spare(alloc, plan, ways, target)
}

// Gives ways to the switches that are to have one and have none, so far as the order has rising ones. All turns rise
// after it that rose before: a later exit breaks no turn to it.
fn close_missing(
    alloc: Global,
    plan: Plan<'_>,
    ways: &mut Ways,
    target: u32,
) -> Result<(), OutOfMemory> {
    if plan.missing(ways, target) == 0 {
        return Ok(());
    }
    raise(plan, ways, target);
    extend(plan, ways, target)?;
    let missing = find_missing(alloc, plan, ways, target)?;
    if missing.is_empty() {
        return ways.arrange(plan.channels, target);
    }
    let mut routes = Shortest::none(alloc, plan.channels, target)?;
    routes.find(plan);
    'missing: for switch in &missing {
        routes.close(plan, ways, target, *switch);
    }
    shorten(plan, ways, target)
}
