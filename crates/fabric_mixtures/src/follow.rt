//! The graph of the channels that may follow one another.

ghost use Rattle.std.specs.Prelude.{◌≡◌, ◌<◌, IfOk};
ghost use Rattle.fabric_tables.specs.Cells.{tables_of};
ghost use Rattle.fabric_model.specs.Fabric.{switch_count};
ghost use Rattle.fabric_routes.specs.Waves.{IsGraphOf};
ghost use Rattle.fabric_mixtures.specs.Mixtures.{MayBeFollowed};
ghost use Rattle.fabric_mixtures.specs.Steps.{AreSteps, IsGrown, IsTurnAt, IsTurnBelow, IsTurnBy, IsTurnFrom, IsTurnTo};

use crate::look::{are_same, hop_for, lids_of, port_for};
use common_graph::graph::Graph;
use common_values::memory::OutOfMemory;
use fabric_model::fabric::Fabric;
use fabric_routes::find::no_dependencies;
use fabric_routes::hop::Hop;
use fabric_tables::cells::Cells;
use std::alloc::Global;

// Adds the step of what goes to a LID from a channel out of a switch, by the first tables, to one out of the next
// switch, by the second, if there is one.
#[inline]
fn add_turn(
    fabric: &Fabric,
    first: &Cells,
    second: &Cells,
    lid: usize,
    at: usize,
    graph: &mut Graph,
)
    requires same { switch_count fabric.now ≡ first.now.switches }
    requires same_second { switch_count fabric.now ≡ second.now.switches }
    requires at { at < switch_count fabric.now }
    requires graph { IsGraphOf fabric.now graph.old }
    ensures { IsGrown (IsTurnBy fabric.now (tables_of first.now) (tables_of second.now) lid at) graph.old graph.new }
{
    if let Hop::On(port, next) = hop_for(fabric, first, at, lid) {
        if let Hop::On(next_port, _after) = hop_for(fabric, second, next as usize, lid) {
            let channel = at * fabric.most() + (usize::from(port) - 1);
            graph.insert(channel, usize::from(next_port) - 1);
        }
    }
}

// The same, to the next channel by the old and by the new tables.
fn add_from(
    fabric: &Fabric,
    first: &Cells,
    old: &Cells,
    new: &Cells,
    lid: usize,
    at: usize,
    graph: &mut Graph,
)
    requires same_first { switch_count fabric.now ≡ first.now.switches }
    requires same { switch_count fabric.now ≡ old.now.switches }
    requires same_new { switch_count fabric.now ≡ new.now.switches }
    requires at { at < switch_count fabric.now }
    requires graph { IsGraphOf fabric.now graph.old }
    ensures { IsGrown
        (IsTurnFrom fabric.now (tables_of first.now) (tables_of old.now) (tables_of new.now) lid at)
        graph.old graph.new }
{
    add_turn(fabric, first, old, lid, at, graph);
    add_turn(fabric, first, new, lid, at, graph);
}

// The same by the old and by the new tables. Most rows name no port, or the same in both.
fn add_turns(fabric: &Fabric, old: &Cells, new: &Cells, lid: usize, at: usize, graph: &mut Graph)
    requires same { switch_count fabric.now ≡ old.now.switches }
    requires same_new { switch_count fabric.now ≡ new.now.switches }
    requires at { at < switch_count fabric.now }
    requires graph { IsGraphOf fabric.now graph.old }
    ensures { IsGrown (IsTurnAt fabric.now (tables_of old.now) (tables_of new.now) lid at) graph.old graph.new }
{
    let was = port_for(old, at, lid);
    let is = port_for(new, at, lid);
    if was.is_none() && is.is_none() {
        return;
    }
    add_from(fabric, old, old, new, lid, at, graph);
    if are_same(was, is) {
        return;
    }
    add_from(fabric, new, old, new, lid, at, graph);
}

// The same of all switches.
fn add_lid(fabric: &Fabric, old: &Cells, new: &Cells, lid: usize, graph: &mut Graph)
    requires same { switch_count fabric.now ≡ old.now.switches }
    requires same_new { switch_count fabric.now ≡ new.now.switches }
    requires graph { IsGraphOf fabric.now graph.old }
    ensures { IsGrown
        (IsTurnBelow fabric.now (tables_of old.now) (tables_of new.now) lid (switch_count fabric.now))
        graph.old graph.new }
{
    'switches: for at in 0..fabric.switches() {
        add_turns(fabric, old, new, lid, at, graph);
    }
}

// The same of all LIDs below a number.
fn add_lids(fabric: &Fabric, old: &Cells, new: &Cells, lids: usize, graph: &mut Graph)
    requires same { switch_count fabric.now ≡ old.now.switches }
    requires same_new { switch_count fabric.now ≡ new.now.switches }
    requires graph { IsGraphOf fabric.now graph.old }
    ensures { IsGrown (IsTurnTo fabric.now (tables_of old.now) (tables_of new.now) (switch_count fabric.now) lids)
        graph.old graph.new }
{
    'lids: for lid in 0..lids {
        add_lid(fabric, old, new, lid, graph);
    }
}

/// The graph of the channels of a fabric: which may be followed by which, by what goes to any LID.
pub fn find_followers(
    alloc: Global,
    fabric: &Fabric,
    old: &Cells,
    new: &Cells,
) -> Result<Graph, OutOfMemory>
    requires same { switch_count fabric.now ≡ old.now.switches }
    requires same_new { switch_count fabric.now ≡ new.now.switches }
    ensures { IfOk result (AreSteps fabric.now (MayBeFollowed fabric.now (tables_of old.now) (tables_of new.now))) }
{
    let mut graph = no_dependencies(alloc, fabric)?;
    let lids = lids_of(old, new);
    add_lids(fabric, old, new, lids, &mut graph);
    Ok(graph)
}
