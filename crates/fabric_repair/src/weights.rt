//! How many routes make each turn.

use crate::changes::Changes;
use crate::routes::Routes;
use crate::task::Task;
use common_values::memory::OutOfMemory;
use fabric_engine_channels::amount::Change;
use fabric_engine_channels::channels::Channel;
use fabric_engine_channels::demand::Target;
use fabric_engine_channels::table::Table;
use std::alloc::Global;

// Changes the weight of the turn that the routes over a switch make at the next one, if they go on there.
fn change_turn(
    task: Task<'_>,
    routes: &Routes,
    switch: u32,
    change: Change,
    weights: &mut Table<u32>,
) {
    let Some(exit) = routes.exit(switch) else {
        return;
    };
    let Some(next) = routes.exit(task.channels.to(exit)) else {
        return;
    };
    if next != task.channels.back(exit) {
        weights.change(task.channels.turn(exit, next), 1, change);
    }
}

// Changes the weights of the turns of the routes to a target: each by one for each switch that makes it.
fn change_turns(
    task: Task<'_>,
    target: Target,
    routes: &mut Routes,
    change: Change,
    weights: &mut Table<u32>,
) {
    routes.count(task, target);
    'switches: for switch in 0..task.channels.switches() {
        if routes.flow(switch) > 0 {
            change_turn(task, routes, switch, change, weights);
        }
    }
}

/// For each turn over how many pairs of a switch and a target routes of the traffic come to it by the given tables. A turn
/// back is none: who makes it does not arrive.
pub fn weigh(alloc: Global, task: Task<'_>) -> Result<Table<u32>, OutOfMemory> {
    let mut weights = Table::filled(alloc, task.channels.turns(), 0u32)?;
    let mut routes = Routes::new(alloc, task.channels.switches())?;
    'targets: for target in task.demand.targets() {
        if task.sends_to(*target) {
            routes.read(task, *target);
            change_turns(task, *target, &mut routes, Change::Come, &mut weights);
        }
    }
    Ok(weights)
}

// The same weights in a table of their own.
fn copy_of(alloc: Global, weights: &Table<u32>) -> Result<Table<u32>, OutOfMemory> {
    let mut copy = Table::filled(alloc, weights.count(), 0u32)?;
    'turns: for turn in 0..weights.count() {
        copy.put(turn, weights.get(turn));
    }
    Ok(copy)
}

/// The same by these tables with the rows that are set, from the weights by the given ones.
pub fn reweigh(
    alloc: Global,
    task: Task<'_>,
    given: &Table<u32>,
    changes: &Changes,
) -> Result<Table<u32>, OutOfMemory> {
    let mut weights = copy_of(alloc, given)?;
    let mut routes = Routes::new(alloc, task.channels.switches())?;
    'targets: for (place, target) in task.demand.targets().iter().enumerate() {
        if task.sends_to(*target) && changes.concerns(place) {
            routes.read(task, *target);
            change_turns(task, *target, &mut routes, Change::Go, &mut weights);
            changes.put_exits(task, place, routes.exits_mut());
            routes.put(target.switch, None);
            change_turns(task, *target, &mut routes, Change::Come, &mut weights);
        }
    }
    Ok(weights)
}
