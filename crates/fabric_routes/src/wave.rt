//! One wave: the routes to the LIDs of a block advance together from switch to switch, until no hop is new.

ghost use Rattle.std.specs.Prelude.{◌≡◌, ◌<◌, ◌⊎◌, ◌↔◌, ℕ, length, MatchOption};
ghost use Rattle.std.specs.Int.{bit_at};
ghost use Rattle.fabric_model.specs.declared.traffic.Traffic.{Traffic};
ghost use Rattle.fabric_tables.specs.Cells.{tables_of};
ghost use Rattle.fabric_routes.specs.Links.{AreLinks};
ghost use Rattle.fabric_routes.specs.Waves.{AreStarts, HasBit, IsFurther, IsGraphOf, IsIdle, IsTurned, IsWaved, Taken};
ghost use Rattle.fabric_model.specs.Fabric.{switch_count};

use crate::hop::{Hop, find_hop};
use crate::link::port_on;
use crate::word::{fresh_of, joined};
use common_graph::bits::{lowest, without};
use common_graph::graph::Graph;
use fabric_model::fabric::Fabric;
use fabric_tables::cells::Cells;

// Sets a bit of the word of a switch.
#[inline]
fn mark(words: &mut [u64], switch: usize, bit: usize)
    requires switch { switch < length words.old }
    requires bit { bit < 64 }
    ensures { (one other : ℕ) → (HasBit words.new one other ↔ (HasBit words.old one other ⊎ ((one ≡ switch) × (other ≡ bit)))) }
{
    words[switch] = words[switch] | 1u64 << bit;
}

// Takes the hop of a switch for a LID of the block. Answers whether it stops, or one has before. If it goes on, the
// switch to which it leads is ahead: a hint, on which nothing rests.
#[inline]
fn take(
    fabric: &Fabric,
    links: &[u64],
    cells: &Cells,
    block: usize,
    at: usize,
    bit: usize,
    seen: &mut [u64],
    graph: &mut Graph,
    ahead: &mut usize,
    stopped: bool,
) -> bool
    requires links { AreLinks fabric.now links.now }
    requires same { switch_count fabric.now ≡ cells.now.switches }
    requires at { at < switch_count fabric.now }
    requires block { block < cells.now.blocks }
    requires bit { bit < 64 }
    requires count { length seen.old ≡ switch_count fabric.now }
    requires graph { IsGraphOf fabric.now graph.old }
    ensures { Taken fabric.now (tables_of cells.now) block (λ switch other. (switch ≡ at) × (other ≡ bit))
        (record { seen = seen.old; graph = graph.old; stopped = stopped })
        (record { seen = seen.new; graph = graph.new; stopped = result }) }
{
    match find_hop(fabric, cells, at, block, bit) {
        Hop::On(port, next) => {
            let to = next as usize;
            mark(seen, to, bit);
            *ahead = to;
            if let Some(next_port) = port_on(fabric, links, cells, to, block, bit) {
                let channel = at * fabric.most() + (usize::from(port) - 1);
                graph.insert(channel, usize::from(next_port) - 1);
            }
            stopped
        }
        Hop::Arrive => stopped,
        Hop::Stop(_) => true,
    }
}

// Takes the hops of a switch for each LID of which a bit is fresh.
#[inline]
fn visit(
    fabric: &Fabric,
    links: &[u64],
    cells: &Cells,
    block: usize,
    at: usize,
    fresh: u64,
    seen: &mut [u64],
    graph: &mut Graph,
    ahead: &mut usize,
    stopped: bool,
) -> bool
    requires links { AreLinks fabric.now links.now }
    requires same { switch_count fabric.now ≡ cells.now.switches }
    requires at { at < switch_count fabric.now }
    requires block { block < cells.now.blocks }
    requires count { length seen.old ≡ switch_count fabric.now }
    requires graph { IsGraphOf fabric.now graph.old }
    ensures { Taken fabric.now (tables_of cells.now) block (λ switch other. (switch ≡ at) × (bit_at fresh other ≡ 1))
        (record { seen = seen.old; graph = graph.old; stopped = stopped })
        (record { seen = seen.new; graph = graph.new; stopped = result }) }
{
    let mut left = fresh;
    let mut stops = stopped;
    'bits: while left > 0 {
        let bit = lowest(left);
        stops = take(
            fabric, links, cells, block, at, bit, seen, graph, ahead, stops,
        );
        left = without(left, bit);
    }
    stops
}

// Takes the hops of a switch that were not taken yet, if there are any.
#[inline]
fn turn(
    fabric: &Fabric,
    links: &[u64],
    cells: &Cells,
    block: usize,
    at: usize,
    seen: &mut [u64],
    done: &mut [u64],
    graph: &mut Graph,
    ahead: &mut usize,
    stopped: bool,
) -> Option<bool>
    requires links { AreLinks fabric.now links.now }
    requires same { switch_count fabric.now ≡ cells.now.switches }
    requires at { at < switch_count fabric.now }
    requires block { block < cells.now.blocks }
    requires count { length seen.old ≡ switch_count fabric.now }
    requires done_count { length done.old ≡ switch_count fabric.now }
    requires graph { IsGraphOf fabric.now graph.old }
    ensures { MatchOption result
        (IsIdle at (record { seen = seen.old; graph = graph.old; stopped = stopped })
        (record { seen = seen.new; graph = graph.new; stopped = stopped }) done.old done.new)
        (λ stops. IsTurned fabric.now (tables_of cells.now) block at
        (record { seen = seen.old; graph = graph.old; stopped = stopped })
        (record { seen = seen.new; graph = graph.new; stopped = stops }) done.old done.new) }
{
    let gone = done[at];
    let fresh = fresh_of(seen[at], gone);
    if fresh == 0 {
        return None;
    }
    done[at] = joined(gone, fresh);
    Some(visit(
        fabric, links, cells, block, at, fresh, seen, graph, ahead, stopped,
    ))
}

// Takes the hops of a switch that were not taken yet, if there are any; then those of the switch to which the last of
// them led, and so on until one has none. So a line of switches is gone along at once, in whatever order they stand.
fn follow(
    fabric: &Fabric,
    links: &[u64],
    cells: &Cells,
    block: usize,
    at: usize,
    seen: &mut [u64],
    done: &mut [u64],
    graph: &mut Graph,
    stopped: bool,
) -> Option<bool>
    requires links { AreLinks fabric.now links.now }
    requires same { switch_count fabric.now ≡ cells.now.switches }
    requires at { at < switch_count fabric.now }
    requires block { block < cells.now.blocks }
    requires count { length seen.old ≡ switch_count fabric.now }
    requires done_count { length done.old ≡ switch_count fabric.now }
    requires graph { IsGraphOf fabric.now graph.old }
    ensures { MatchOption result
        (IsIdle at (record { seen = seen.old; graph = graph.old; stopped = stopped })
        (record { seen = seen.new; graph = graph.new; stopped = stopped }) done.old done.new)
        (λ stops. IsFurther fabric.now (tables_of cells.now) block
        (record { seen = seen.old; graph = graph.old; stopped = stopped })
        (record { seen = seen.new; graph = graph.new; stopped = stops }) done.old done.new) }
{
    let mut ahead = at;
    let mut stops = turn(
        fabric, links, cells, block, at, seen, done, graph, &mut ahead, stopped,
    )?;
    'turns: while ahead < fabric.switches() {
        let next = ahead;
        match turn(
            fabric, links, cells, block, next, seen, done, graph, &mut ahead, stops,
        ) {
            Some(now) => stops = now,
            None => break 'turns,
        }
    }
    Some(stops)
}

/// Goes over the switches in rounds until no bit is fresh, adds the dependencies to `graph`, and returns whether
/// `stopped` held already or a route stops.
///
/// The caller must set in `seen` the bits where routes begin, and none in `done`. In each round the highest fresh bit
/// comes to the ends of its routes, because `follow` continues at the last hop.
pub fn run(
    fabric: &Fabric,
    links: &[u64],
    cells: &Cells,
    block: usize,
    seen: &mut [u64],
    done: &mut [u64],
    graph: &mut Graph,
    stopped: bool,
) -> bool
    requires links { AreLinks fabric.now links.now }
    requires same { switch_count fabric.now ≡ cells.now.switches }
    requires block { block < cells.now.blocks }
    requires count { length seen.old ≡ switch_count fabric.now }
    requires done_count { length done.old ≡ switch_count fabric.now }
    requires none { (switch bit : ℕ) → HasBit done.old switch bit → ⊥ }
    requires graph { IsGraphOf fabric.now graph.old }
    ensures { (traffic : Traffic) → AreStarts fabric.now (tables_of cells.now) traffic block seen.old
        → IsWaved fabric.now (tables_of cells.now) traffic block graph.old graph.new stopped result }
{
    let mut stops = stopped;
    let mut fresh = true;
    'rounds: while fresh {
        fresh = false;
        'switches: for at in 0..fabric.switches() {
            if let Some(now) = follow(fabric, links, cells, block, at, seen, done, graph, stops) {
                stops = now;
                fresh = true;
            }
        }
    }
    stops
}
