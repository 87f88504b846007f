//! Candidate levels towards a start. A breadth-first search finds distances from the start. Then, in reverse order of
//! discovery, the levels of nodes on a shortest cycle are lowered.

ghost use Rattle.std.specs.Prelude.{◌<◌, ◌^◌};

use crate::graph::Graph;
use crate::table::{filled, first_within, put, value_of};
use common_values::memory::OutOfMemory;
use std::alloc::Global;

// How far a walk in breadth came.
#[derive(Clone, Copy)]
struct Walked {
    // How many nodes it came to.
    count: usize,
    // The length of the shortest cycles from the start, 0 if it found none.
    length: u32,
}

// Adds the nodes to which one leads and no steps have led. Answers how many there are then, or None if
// it leads to the start.
fn reach(
    graph: &Graph,
    start: usize,
    distances: &mut [u32],
    reached: &mut [u32],
    count: usize,
    node: usize,
) -> Option<usize> {
    let next_distance = value_of(distances, node).wrapping_add(1);
    let mut more = count;
    let mut cursor = graph.cursor(node, 0);
    'steps: while let Some(next) = graph.advance(node, &mut cursor) {
        if next == start {
            return None;
        }
        if value_of(distances, next) == u32::MAX {
            put(distances, next, next_distance);
            put(reached, more, next as u32);
            more = more.wrapping_add(1);
        }
    }
    Some(more)
}

// Walks in breadth from a start until it comes back there. Puts how far nodes are from it, which is
// u32::MAX if no steps have led there, and the nodes in the order in which it came to them.
fn walk(graph: &Graph, start: usize, distances: &mut [u32], reached: &mut [u32]) -> Walked
    requires { start < 2 ^ 31 }
{
    put(distances, start, 0);
    put(reached, 0, start as u32);
    let mut count = 1;
    'nodes: for place in 0..graph.count() {
        if place >= count {
            break;
        }
        let node = value_of(reached, place) as usize;
        match reach(graph, start, distances, reached, count, node) {
            Some(more) => count = more,
            None => {
                let length = value_of(distances, node).wrapping_add(1);
                return Walked { count, length };
            }
        }
    }
    Walked { count, length: 0 }
}

// The level of a node from which steps lead on to the start, if some shortest cycle passes it.
fn level_on(distances: &[u32], length: u32, node: usize) -> u32 {
    length.saturating_sub(value_of(distances, node))
}

// Gives to the nodes that are nearer than the length one level more than they would have on a shortest cycle.
fn lift(distances: &[u32], reached: &[u32], walked: Walked, levels: &mut [u32]) {
    'places: for place in 0..walked.count {
        let node = value_of(reached, place) as usize;
        let level = level_on(distances, walked.length, node);
        put(levels, node, level.saturating_add(1));
    }
}

// Lowers the level of those that are on one.
fn lower(graph: &Graph, distances: &[u32], reached: &[u32], walked: Walked, levels: &mut [u32]) {
    let mut place = walked.count;
    'places: while place > 0 {
        place -= 1;
        let node = value_of(reached, place) as usize;
        let level = level_on(distances, walked.length, node);
        if level > 0 && first_within(graph, levels, node, level - 1, level - 1).is_some() {
            put(levels, node, level);
        }
    }
}

// Puts the levels for a start, of which the other nodes have 1 so far.
fn put_levels(
    graph: &Graph,
    start: usize,
    distances: &mut [u32],
    reached: &mut [u32],
    levels: &mut [u32],
)
    requires { start < 2 ^ 31 }
{
    let walked = walk(graph, start, distances, reached);
    lift(distances, reached, walked, levels);
    put(levels, start, 0);
    lower(graph, distances, reached, walked, levels);
    put(levels, start, 0);
}

/// Returns candidate levels for `start`: the start has 0, and no step lowers the level by more than one.
///
/// A node on a shortest cycle from the start has the number of steps to it, and no other node has so low
/// a level in its place. No contract says so, but the caller checks the result. It visits each step from
/// nodes that are nearer than the length of that cycle twice. The caller must pass a `start` below 2^31.
///
/// # Errors
/// `OutOfMemory` if an allocation fails.
pub fn guess_levels(alloc: Global, graph: &Graph, start: usize) -> Result<Vec<u32>, OutOfMemory>
    requires { start < 2 ^ 31 }
{
    let mut distances = filled(alloc, graph.count(), u32::MAX)?;
    let mut reached = filled(alloc, graph.count(), 0)?;
    let mut levels = filled(alloc, graph.count(), 1)?;
    put_levels(graph, start, &mut distances, &mut reached, &mut levels);
    Ok(levels)
}
