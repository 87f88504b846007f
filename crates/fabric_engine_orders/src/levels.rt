//! Levels of switches, and the orders that go up and then down by them.

use common_values::memory::OutOfMemory;
use fabric_engine_channels::channels::{Channel, Channels};
use fabric_engine_channels::demand::Demand;
use fabric_engine_channels::order::Order;
use fabric_engine_channels::table::{Table, places};
use fabric_engine_channels::ways::FAR;
use std::alloc::Global;

// Gives a level to a switch that has none.
fn reach(
    levels: &mut Table<u32>,
    reached: &mut Vec<u32>,
    switch: u32,
    level: u32,
) -> Result<(), OutOfMemory> {
    if levels.get(switch) == FAR {
        levels.put(switch, level);
        reached.push(switch)?;
    }
    Ok(())
}

// Gives the next level to the neighbours of a switch that have none.
fn reach_neighbours(
    channels: &Channels,
    levels: &mut Table<u32>,
    reached: &mut Vec<u32>,
    switch: u32,
) -> Result<(), OutOfMemory> {
    let level = levels.get(switch).wrapping_add(1);
    'exits: for number in channels.exits(switch) {
        let to = channels.to(Channel(number));
        reach(levels, reached, to, level)?;
    }
    Ok(())
}

// Gives levels to all switches that are joined to roots.
fn reach_all(
    channels: &Channels,
    levels: &mut Table<u32>,
    reached: &mut Vec<u32>,
    roots: &[u32],
) -> Result<(), OutOfMemory> {
    'roots: for root in roots {
        reach(levels, reached, *root, 0)?;
    }
    'reached: for place in 0..channels.switches() {
        let Some(switch) = reached.get(place as usize).copied() else {
            break;
        };
        reach_neighbours(channels, levels, reached, switch)?;
    }
    Ok(())
}

// How far each switch is from the nearest of some roots, `FAR` if it is joined to none.
fn distances(alloc: Global, channels: &Channels, roots: &[u32]) -> Result<Table<u32>, OutOfMemory> {
    let mut levels = Table::filled(alloc, channels.switches(), FAR)?;
    let mut reached = Vec::with_capacity(alloc, channels.switches() as usize)?;
    reach_all(channels, &mut levels, &mut reached, roots)?;
    Ok(levels)
}

// The greatest level.
fn greatest(channels: &Channels, levels: &Table<u32>) -> u32 {
    let mut greatest = 0;
    'switches: for switch in 0..channels.switches() {
        let level = levels.get(switch);
        if level != FAR {
            greatest = level.max(greatest);
        }
    }
    greatest
}

/// Returns the distance of each switch from the nearest one with end ports of adapters and routers, `FAR` if it is
/// joined to none.
///
/// # Errors
/// `OutOfMemory`.
pub fn heights(
    alloc: Global,
    channels: &Channels,
    demand: &Demand,
) -> Result<Table<u32>, OutOfMemory> {
    distances(alloc, channels, demand.leaves())
}

// Levels by height: those that are farthest from all leaves have level 0. None if each switch is a leaf, or
// none.
fn by_height(
    alloc: Global,
    channels: &Channels,
    demand: &Demand,
) -> Result<Option<Table<u32>>, OutOfMemory> {
    let heights = heights(alloc, channels, demand)?;
    let top = greatest(channels, &heights);
    if top == 0 {
        return Ok(None);
    }
    let mut levels = Table::filled(alloc, channels.switches(), 0u32)?;
    'switches: for switch in 0..channels.switches() {
        levels.put(switch, top.saturating_sub(heights.get(switch)));
    }
    Ok(Some(levels))
}

// The switches by level, and those of a level by place.
fn by_level(
    alloc: Global,
    channels: &Channels,
    levels: &Table<u32>,
) -> Result<Vec<u32>, OutOfMemory> {
    let mut switches = Vec::with_capacity(alloc, channels.switches() as usize)?;
    'switches: for switch in 0..channels.switches() {
        switches.push(switch)?;
    }
    switches.sort_by_key(|switch| levels.get(*switch))?;
    Ok(switches)
}

// Which way a channel leads.
#[derive(Clone, Copy, PartialEq, Eq)]
enum Way {
    Up,
    Down,
}

// Appends the channels of a switch that lead up, or those that lead down.
fn push_exits(
    channels: &Channels,
    ranks: &Table<u32>,
    switch: u32,
    way: Way,
    sequence: &mut Vec<Channel>,
) -> Result<(), OutOfMemory> {
    let rank = ranks.get(switch);
    'exits: for number in channels.exits(switch) {
        let channel = Channel(number);
        let led = if ranks.get(channels.to(channel)) < rank {
            Way::Up
        } else {
            Way::Down
        };
        if led == way {
            sequence.push(channel)?;
        }
    }
    Ok(())
}

/// Returns the order of routes that go up, to lower numbers in `levels`, and then down; between equal levels, towards
/// the lower index is up. First come all channels up, the deepest first, then all channels down, the highest first.
///
/// # Errors
/// `OutOfMemory`.
pub fn up_down(
    alloc: Global,
    channels: &Channels,
    levels: &Table<u32>,
) -> Result<Order, OutOfMemory> {
    let switches = by_level(alloc, channels, levels)?;
    let sequence = sequence_of(alloc, channels, &switches)?;
    Order::of(alloc, sequence)
}

// The channels up, the last switch first, and then down, the first switch first.
fn sequence_of(
    alloc: Global,
    channels: &Channels,
    switches: &[u32],
) -> Result<Vec<Channel>, OutOfMemory> {
    let ranks = places(alloc, switches)?;
    let mut sequence = Vec::with_capacity(alloc, channels.count() as usize)?;
    push_all(channels, &ranks, switches, &mut sequence)?;
    Ok(sequence)
}

// Appends the channels up and then down.
fn push_all(
    channels: &Channels,
    ranks: &Table<u32>,
    switches: &[u32],
    sequence: &mut Vec<Channel>,
) -> Result<(), OutOfMemory> {
    'up: for switch in switches.iter().rev() {
        push_exits(channels, ranks, *switch, Way::Up, sequence)?;
    }
    'down: for switch in switches {
        push_exits(channels, ranks, *switch, Way::Down, sequence)?;
    }
    Ok(())
}

/// Returns the order that goes up to `root` and then down.
///
/// # Errors
/// `OutOfMemory`.
pub fn order_from_root(
    alloc: Global,
    channels: &Channels,
    root: u32,
) -> Result<Order, OutOfMemory> {
    let levels = distances(alloc, channels, &[root])?;
    up_down(alloc, channels, &levels)
}

/// Returns the order that goes up to switches farther from all leaves and then down, or `None` if every switch is a
/// leaf, or none is.
///
/// # Errors
/// `OutOfMemory`.
pub fn order_by_height(
    alloc: Global,
    channels: &Channels,
    demand: &Demand,
) -> Result<Option<Order>, OutOfMemory> {
    match by_height(alloc, channels, demand)? {
        Some(levels) => Ok(Some(up_down(alloc, channels, &levels)?)),
        None => Ok(None),
    }
}
