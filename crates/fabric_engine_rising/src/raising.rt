//! Paths turned so that more switches can join them.

use crate::plan::Plan;
use common_values::memory::OutOfMemory;
use fabric_engine_channels::channels::Channel;
use fabric_engine_channels::ways::{FAR, Ways};

// Of the exits of a switch that lead nearer by one and break no turn, the last in the order.
fn last_exit(plan: Plan<'_>, ways: &Ways, target: u32, switch: u32, own: Channel) -> Channel {
    let nearer = ways.depth(switch).wrapping_sub(1);
    let mut last = own;
    'exits: for number in plan.channels.exits(switch) {
        let exit = Channel(number);
        if ways.depth(plan.channels.to(exit)) == nearer
            && plan.order.rises(last, exit)
            && plan.may_follow(ways, target, exit)
        {
            last = exit;
        }
    }
    last
}

/// Gives each switch the last exit, in the order, of those that lead one channel nearer. All turns that rose before
/// still rise, and more would: those from earlier channels to the exit. No path grows longer.
pub fn raise(plan: Plan<'_>, ways: &mut Ways, target: u32) {
    'nearest: for place in 0..plan.channels.switches() {
        let Some(switch) = ways.nearest().get(place as usize).copied() else {
            break;
        };
        if let Some(own) = ways.exit(switch) {
            let last = last_exit(plan, ways, target, switch, own);
            ways.put_exit(switch, Some(last));
        }
    }
}

// Adds the neighbours of a switch that have no way, if one over it rises.
fn extend_over(
    plan: Plan<'_>,
    ways: &mut Ways,
    target: u32,
    switch: u32,
) -> Result<(), OutOfMemory> {
    'exits: for number in plan.channels.exits(switch) {
        let neighbour = plan.channels.to(Channel(number));
        let back = plan.channels.back(Channel(number));
        if ways.depth(neighbour) == FAR && plan.may_follow(ways, target, back) {
            ways.add(plan.channels, neighbour, Some(back))?;
        }
    }
    Ok(())
}

/// Adds switches without a path, with exits to switches that have one. Afterwards the nearest switches are not in their
/// order.
///
/// # Errors
/// `OutOfMemory`.
pub fn extend(plan: Plan<'_>, ways: &mut Ways, target: u32) -> Result<(), OutOfMemory> {
    'nearest: for place in 0..plan.channels.switches() {
        let Some(switch) = ways.nearest().get(place as usize).copied() else {
            break;
        };
        extend_over(plan, ways, target, switch)?;
    }
    Ok(())
}
