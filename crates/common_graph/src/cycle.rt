//! The least cycle, along levels that fall to its start: candidates if they pass their checks, otherwise exact levels.

ghost use Rattle.std.specs.Prelude.{◌≡◌, ◌<◌, ◌≤◌, ◌⊎◌, ◌^◌, IfOk, IfSome, MatchOption, ℕ};
ghost use Rattle.std.specs.Ordering.{nat_cmp};
ghost use Rattle.common_graph.specs.Graph.{IsNode, LeadsTo, value_at};
ghost use Rattle.common_graph.specs.Cycles.{HasNoCycle, IsLeastCycle};
ghost use Rattle.common_graph.specs.Search.{AreExact, HasBelow, HasNoCycleFrom, Holds, IsLeastCycleFrom};

use crate::graph::Graph;
use crate::level::guess_levels;
use crate::table::{filled, first_fall, first_within, has_peer, value_of};
use common_values::memory::OutOfMemory;
use std::alloc::Global;

// The least level of the nodes to which one leads, or u32::MAX if it leads nowhere.
fn least_level_ahead(graph: &Graph, levels: &[u32], node: usize) -> u32
    ensures low { (next : ℕ) → LeadsTo graph.now node next → result ≤ value_at levels.now next }
    ensures has { (result ≡ 4294967295) ⊎ HasBelow graph.now levels.now node result }
{
    let mut least = u32::MAX;
    let mut cursor = graph.cursor(node, 0);
    'steps: while let Some(next) = graph.advance(node, &mut cursor) {
        least = least.min(value_of(levels, next));
    }
    least
}

// The least shortest cycle from a node, by levels that no step lowers by more than one. None if
// there is none, or if some levels are less than the distances.
fn cycle_by(
    alloc: Global,
    graph: &Graph,
    levels: &[u32],
    start: usize,
) -> Result<Option<Vec<u32>>, OutOfMemory>
    requires start { start < 2 ^ 31 }
    requires holds { Holds graph.now levels.now 1 }
    requires goal { value_at levels.now start ≡ 0 }
    ensures { IfOk result (λ found. MatchOption found
        (AreExact graph.now levels.now start → HasNoCycleFrom graph.now start)
        (λ nodes. IsLeastCycleFrom graph.now start nodes.items)) }
{
    let mut nodes = Vec::new(alloc);
    nodes.push(start as u32)?;
    let mut node = start;
    let mut level = least_level_ahead(graph, levels, start);
    if level == u32::MAX {
        return Ok(None);
    }
    'levels: while level > 0 {
        let Some(next) = first_within(graph, levels, node, 0, level) else {
            return Ok(None);
        };
        nodes.push(next as u32)?;
        node = next;
        level -= 1;
    }
    if !graph.leads(node, start) {
        return Ok(None);
    }
    Ok(Some(nodes))
}

// The least numbers of steps to a node: each that is too great is lowered until none is. It can take
// as many passes over all steps as there are nodes, and more.
fn exact_levels(alloc: Global, graph: &Graph, start: usize) -> Result<Vec<u32>, OutOfMemory>
    requires { IsNode graph.now start }
    ensures holds { IfOk result (λ levels. Holds graph.now levels.items 1) }
    ensures goal { IfOk result (λ levels. value_at levels.items start ≡ 0) }
    ensures exact { IfOk result (λ levels. AreExact graph.now levels.items start) }
{
    let mut levels = filled(alloc, graph.count(), u32::MAX)?;
    levels[start] = 0;
    'falls: while let Some(step) = first_fall(graph, &levels, 1) {
        levels[step.node] = value_of(&levels, step.next) + 1;
    }
    Ok(levels)
}

// The least shortest cycle from a node by guessed levels. None if there is none, or if they do not pass the checks.
fn guessed_cycle(
    alloc: Global,
    graph: &Graph,
    start: usize,
) -> Result<Option<Vec<u32>>, OutOfMemory>
    requires { start < 2 ^ 31 }
    ensures { IfOk result (λ found. IfSome found
        (λ nodes. IsLeastCycleFrom graph.now start nodes.items)) }
{
    let levels = guess_levels(alloc, graph, start)?;
    if value_of(&levels, start) > 0 || first_fall(graph, &levels, 1).is_some() {
        return Ok(None);
    }
    cycle_by(alloc, graph, &levels, start)
}

// The least shortest cycle from a node, if there is one.
fn cycle_from(alloc: Global, graph: &Graph, start: usize) -> Result<Option<Vec<u32>>, OutOfMemory>
    requires node { IsNode graph.now start }
    requires few { start < 2 ^ 31 }
    ensures { IfOk result (λ found. MatchOption found (HasNoCycleFrom graph.now start)
        (λ nodes. IsLeastCycleFrom graph.now start nodes.items)) }
{
    if let Some(nodes) = guessed_cycle(alloc, graph, start)? {
        return Ok(Some(nodes));
    }
    let levels = exact_levels(alloc, graph, start)?;
    cycle_by(alloc, graph, &levels, start)
}

/// Returns the least cycle of `graph`, if there is one. The caller must pass `tiers` that no step lowers.
///
/// It searches once from each node that leads to its own tier, up to the least node on a cycle.
///
/// # Errors
/// `OutOfMemory` if an allocation fails.
pub fn least_cycle(
    alloc: Global,
    graph: &Graph,
    tiers: &[u32],
) -> Result<Option<Vec<u32>>, OutOfMemory>
    requires { Holds graph.now tiers.now 0 }
    ensures { IfOk result (λ found. MatchOption found (HasNoCycle (LeadsTo graph.now))
        (λ nodes. IsLeastCycle nat_cmp (LeadsTo graph.now) nodes.items)) }
{
    'nodes: for start in 0..graph.count() {
        if has_peer(graph, tiers, start) {
            if let Some(nodes) = cycle_from(alloc, graph, start)? {
                return Ok(Some(nodes));
            }
        }
    }
    Ok(None)
}
