//! Candidate ranks, by depth-first search with a path on the heap. A node gets its rank after all that it leads to.

use crate::graph::Graph;
use crate::table::{filled, put, value_of};
use common_values::memory::OutOfMemory;
use std::alloc::Global;

// What stands for a rank: FRESH until a walk comes to the node, OPEN while the node is on its path.
const FRESH: u32 = u32::MAX;

const OPEN: u32 = u32::MAX - 1;

// A node on the path of a walk in depth, the number from which on it has still to look at what the
// node leads to, and the rank of the node by what comes before.
#[derive(Clone, Copy)]
struct Visit {
    node: usize,
    from: usize,
    rank: u32,
}

// What a node leads to.
#[derive(Clone, Copy)]
enum Ahead {
    // A node that no walk has come to.
    Fresh(usize),
    // One that is on the path.
    Open,
    // Nodes that have their ranks.
    Ranked,
}

impl Visit {
    fn at(node: usize) -> Visit {
        Visit {
            node,
            from: 0,
            rank: 0,
        }
    }

    // Looks on at what the node leads to, as far as this has ranks.
    fn look_on(&mut self, graph: &Graph, ranks: &[u32]) -> Ahead {
        let node = self.node;
        let mut rank = self.rank;
        let mut cursor = graph.cursor(node, self.from);
        'steps: while let Some(next) = graph.advance(node, &mut cursor) {
            let lower = value_of(ranks, next);
            if lower == OPEN {
                return Ahead::Open;
            }
            if lower == FRESH {
                self.from = next;
                self.rank = rank;
                return Ahead::Fresh(next);
            }
            rank = rank.max(lower + 1);
        }
        self.rank = rank;
        Ahead::Ranked
    }
}

// Walks in depth from a node. Answers whether no step led back to the path, which is a room for the
// nodes on the way.
fn walk(
    graph: &Graph,
    ranks: &mut [u32],
    path: &mut Vec<Visit>,
    start: usize,
) -> Result<bool, OutOfMemory> {
    let mut visit = Visit::at(start);
    put(ranks, start, OPEN);
    'visits: for _ in 0..u64::MAX {
        match visit.look_on(graph, ranks) {
            Ahead::Open => return Ok(false),
            Ahead::Fresh(next) => {
                path.push(visit)?;
                visit = Visit::at(next);
                put(ranks, next, OPEN);
            }
            Ahead::Ranked => {
                put(ranks, visit.node, visit.rank);
                let Some(last) = path.pop() else {
                    return Ok(true);
                };
                visit = last;
            }
        }
    }
    Ok(true)
}

/// Returns the ranks of all nodes, or `None` if a step was found that closes a cycle.
///
/// No contract says so, but the caller checks the result. It visits each step once or twice, in
/// depth-first searches from all nodes.
///
/// # Errors
/// `OutOfMemory` if an allocation fails.
pub fn guess_ranks(alloc: Global, graph: &Graph) -> Result<Option<Vec<u32>>, OutOfMemory> {
    let count = graph.count();
    let mut ranks = filled(alloc, count, FRESH)?;
    let mut path = Vec::new(alloc);
    'nodes: for node in 0..count {
        let is_fresh = value_of(&ranks, node) == FRESH;
        if is_fresh && !walk(graph, &mut ranks, &mut path, node)? {
            return Ok(None);
        }
    }
    Ok(Some(ranks))
}
