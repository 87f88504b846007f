//! Switches from which spanning trees are made, and these trees.

use crate::task::Task;
use common_values::memory::OutOfMemory;
use fabric_engine_channels::channels::Channel;
use fabric_engine_channels::order::Order;
use fabric_engine_channels::table::Table;
use fabric_engine_orders::levels::order_from_root;
use fabric_engine_orders::spanning::Tree;
use std::alloc::Global;

// How many switches are tried as the root at least.
const LEAST_TRIED: u32 = 16;

// How many are tried at most.
const MOST_TRIED: u32 = 256;

// Between these, how many turns are looked at for them.
const LOOKED_AT: u32 = 1 << 26;

// Over how many turns routes pass each switch.
fn passed(alloc: Global, task: Task<'_>, weights: &Table<u32>) -> Result<Table<u64>, OutOfMemory> {
    let mut passed = Table::filled(alloc, task.channels.switches(), 0u64)?;
    'channels: for number in 0..task.channels.count() {
        let switch = task.channels.to(Channel(number));
        passed.add(switch, turns_from(task, weights, Channel(number)));
    }
    Ok(passed)
}

// What all turns from a channel weigh.
fn turns_from(task: Task<'_>, weights: &Table<u32>, channel: Channel) -> u64 {
    let mut weight = 0u64;
    'exits: for number in task.channels.exits(task.channels.to(channel)) {
        let turn = task.channels.turn(channel, Channel(number));
        weight = weight.wrapping_add(u64::from(weights.get(turn)));
    }
    weight
}

// What the turns from a channel weigh that fall in an order.
fn falling_after(task: Task<'_>, weights: &Table<u32>, order: &Order, channel: Channel) -> u64 {
    let mut weight = 0u64;
    'exits: for number in task.channels.exits(task.channels.to(channel)) {
        let next = Channel(number);
        let own = weights.get(task.channels.turn(channel, next));
        if own > 0 && !order.rises(channel, next) {
            weight = weight.wrapping_add(u64::from(own));
        }
    }
    weight
}

/// What the turns weigh that fall in an order.
pub fn falling(task: Task<'_>, weights: &Table<u32>, order: &Order) -> u64 {
    let mut weight = 0u64;
    'channels: for number in 0..task.channels.count() {
        weight = weight.wrapping_add(falling_after(task, weights, order, Channel(number)));
    }
    weight
}

// The switches, those that routes pass most first.
fn busiest(alloc: Global, task: Task<'_>, weights: &Table<u32>) -> Result<Vec<u32>, OutOfMemory> {
    let passed = passed(alloc, task, weights)?;
    let mut switches = Vec::with_capacity(alloc, task.channels.switches() as usize)?;
    'switches: for switch in 0..task.channels.switches() {
        switches.push(switch)?;
    }
    switches.sort_by_key(|switch| u64::MAX - passed.get(*switch))?;
    Ok(switches)
}

// Of the first of some switches one in whose order the given routes fall least.
fn least_falling(
    alloc: Global,
    task: Task<'_>,
    weights: &Table<u32>,
    switches: &[u32],
) -> Result<u32, OutOfMemory> {
    let tried = LOOKED_AT / task.channels.turns().max(1);
    let tried = tried.clamp(LEAST_TRIED, MOST_TRIED);
    let mut root = 0;
    let mut least = u64::MAX;
    'switches: for switch in switches.iter().take(tried as usize) {
        let order = order_from_root(alloc, task.channels, *switch)?;
        let weight = falling(task, weights, &order);
        if weight < least {
            root = *switch;
            least = weight;
        }
    }
    Ok(root)
}

/// Of the switches that routes pass most, one in whose order, up to it and then down, the given routes fall least.
pub fn find_root(alloc: Global, task: Task<'_>, weights: &Table<u32>) -> Result<u32, OutOfMemory> {
    let switches = busiest(alloc, task, weights)?;
    least_falling(alloc, task, weights, &switches)
}

/// Which channels are of a spanning tree, in breadth, from a root.
pub fn tree_from(alloc: Global, task: Task<'_>, root: u32) -> Result<Table<bool>, OutOfMemory> {
    let tree = Tree::wide(alloc, task.channels, root)?;
    tree.marks(alloc, task.channels)
}
