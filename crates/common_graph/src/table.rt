//! Tables with a number for each node (a rank, tier or level), and searches for steps by the numbers at their ends.

ghost use Rattle.std.specs.Prelude.{◌≡◌, ◌<◌, ◌↔◌, ◌^◌, IsTrue, IfOk, IfSome, replicate, MatchOption};
ghost use Rattle.common_graph.specs.Graph.{value_at};
ghost use Rattle.common_graph.specs.Search.{FallsTo, HasNoneWithin, HasPeer, Holds, HoldsFrom, IsFirstWithin};

use crate::graph::{Graph, Step};
use common_values::memory::OutOfMemory;
use std::alloc::Global;

/// Creates a table with `value` for each of `count` nodes.
///
/// # Errors
/// `OutOfMemory` if the allocation fails.
pub fn filled(alloc: Global, count: usize, value: u32) -> Result<Vec<u32>, OutOfMemory>
    ensures { IfOk result (λ table. table.items ≡ replicate count value) }
{
    Ok(vec![in alloc; value; count]?)
}

/// Returns the value for `node`, or 0 if `table` has none.
#[inline]
pub fn value_of(table: &[u32], node: usize) -> u32
    ensures { result ≡ value_at table.now node }
{
    table.get(node).copied().unwrap_or(0)
}

/// Sets the value for `node`, if `table` has an item for it.
#[inline]
pub fn put(table: &mut [u32], node: usize, value: u32) {
    if let Some(place) = table.get_mut(node) {
        *place = value;
    }
}

/// Returns the lowest node that `node` leads to and whose value is from `least` to `most`.
#[inline]
pub fn first_within(
    graph: &Graph,
    table: &[u32],
    node: usize,
    least: u32,
    most: u32,
) -> Option<usize>
    ensures first { MatchOption result (HasNoneWithin graph.now table.now node least most)
        (IsFirstWithin graph.now table.now node least most) }
    ensures low { IfSome result (λ next. next < 2 ^ 31) }
{
    let mut cursor = graph.cursor(node, 0);
    'steps: while let Some(next) = graph.advance(node, &mut cursor) {
        let value = value_of(table, next);
        if least <= value && value <= most {
            return Some(next);
        }
    }
    None
}

// The first step from the node that lowers the value by more than `fall`.
#[inline]
fn falls_from(graph: &Graph, table: &[u32], fall: u32, node: usize) -> Option<usize>
    ensures { MatchOption result (HoldsFrom graph.now table.now fall node) (FallsTo graph.now table.now fall node) }
{
    let own = value_of(table, node);
    if own <= fall {
        return None;
    }
    first_within(graph, table, node, 0, own - fall - 1)
}

/// Returns the first step that lowers the value by more than `fall`. It visits each step at most once.
pub fn first_fall(graph: &Graph, table: &[u32], fall: u32) -> Option<Step>
    ensures { MatchOption result (Holds graph.now table.now fall)
        (λ step. FallsTo graph.now table.now fall step.node step.next) }
{
    'nodes: for node in 0..graph.count() {
        if let Some(next) = falls_from(graph, table, fall, node) {
            return Some(Step { node, next });
        }
    }
    None
}

/// Reports whether `node` leads to a node of the same value.
pub fn has_peer(graph: &Graph, table: &[u32], node: usize) -> bool
    ensures { IsTrue result ↔ HasPeer graph.now table.now node }
{
    let own = value_of(table, node);
    first_within(graph, table, node, own, own).is_some()
}
