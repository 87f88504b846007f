//! The checks of ranks, whether a heuristic of this crate found them or a caller claims them.

ghost use Rattle.std.specs.Prelude.{◌≡◌, ◌<◌, ◌↔◌, length, slice_get, IsTrue, MatchOption};
ghost use Rattle.common_graph.specs.Graph.{Fall, FallFrom, IsFirstRise};
ghost use Rattle.common_graph.specs.Search.{IsRanked, IsRiseFrom};
ghost use Rattle.common_graph.specs.Verdict.{AreAllRanks};

use crate::graph::{Graph, Step};
use crate::table::{first_within, value_of};

// The rank that a list has for a node.
#[inline]
fn rank_of(ranks: &[u32], node: usize) -> Option<u32>
    ensures { result ≡ slice_get ranks.now node }
{
    ranks.get(node).copied()
}

// Whether a list has the rank of a node.
fn is_ranked(graph: &Graph, ranks: &[u32], node: usize) -> bool
    ensures { IsTrue result ↔ IsRanked graph.now ranks.now node }
{
    let Some(own) = rank_of(ranks, node) else {
        return false;
    };
    let mut height = 0u64;
    let mut cursor = graph.cursor(node, 0);
    'steps: while let Some(next) = graph.advance(node, &mut cursor) {
        let Some(lower) = rank_of(ranks, next) else {
            return false;
        };
        height = height.max(u64::from(lower) + 1);
    }
    u64::from(own) == height
}

/// Reports whether `ranks` are the ranks of all nodes, in order.
///
/// The rank of a node is one more than the highest rank that it leads to, or 0 if it leads nowhere. It
/// visits each step at most once.
pub fn are_ranks(graph: &Graph, ranks: &[u32]) -> bool
    ensures { IsTrue result ↔ AreAllRanks graph.now ranks.now }
{
    if ranks.len() != graph.count() {
        return false;
    }
    'nodes: for node in 0..graph.count() {
        if !is_ranked(graph, ranks, node) {
            return false;
        }
    }
    true
}

// The first step from a node along which ranks do not fall.
#[inline]
fn rise_from(graph: &Graph, ranks: &[u32], node: usize) -> Option<usize>
    ensures { MatchOption result (FallFrom graph.now ranks.now node) (IsRiseFrom graph.now ranks.now node) }
{
    first_within(graph, ranks, node, value_of(ranks, node), u32::MAX)
}

/// Returns the first step along which `ranks` do not fall, by the node that it leaves, then by the node
/// that it reaches.
///
/// Returns `None` if they fall along every step. A missing rank counts as 0. It visits each step at most
/// once.
pub fn first_rise(graph: &Graph, ranks: &[u32]) -> Option<Step>
    ensures { MatchOption result (Fall graph.now ranks.now)
        (λ step. IsFirstRise graph.now ranks.now step.node step.next) }
{
    'nodes: for node in 0..graph.count() {
        if let Some(next) = rise_from(graph, ranks, node) {
            return Some(Step { node, next });
        }
    }
    None
}
