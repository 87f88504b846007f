//! Candidate tiers, from the highest down: a component gets its tier after all that it leads to, so no step lowers one.

ghost use Rattle.std.specs.Prelude.{◌<◌, ◌^◌, IfSome};

use crate::graph::Graph;
use crate::table::{filled, put, value_of};
use common_values::memory::OutOfMemory;
use std::alloc::Global;

// A node on the path of a walk in depth, the number from which on it has still to look at what the
// node leads to, and its place among the nodes in the order in which the walks came to them, from 1.
#[derive(Clone, Copy)]
struct Visit {
    node: usize,
    from: usize,
    number: u32,
}

// What walks in depth find out about the nodes.
#[derive(Drop)]
struct Depths {
    // For each node 0, if no walk has come to it; or its tier, if it has one; or else the least number
    // of a node to which steps are known to lead. All tiers are greater than all numbers.
    marks: Vec<u32>,
    // The nodes without a tier that the walks came to, in the order in which they did ..
    open: Vec<u32>,
    // .. and how many they are.
    open_count: usize,
    last_number: u32,
    last_tier: u32,
}

// Looks on at the steps of a node, to the first that leads to a node that the walks have not come to.
fn look_on(graph: &Graph, marks: &mut [u32], visit: Visit) -> Option<usize>
    ensures { IfSome result (λ next. next < 2 ^ 31) }
{
    let mut low = value_of(marks, visit.node);
    let mut cursor = graph.cursor(visit.node, visit.from);
    'steps: while let Some(next) = graph.advance(visit.node, &mut cursor) {
        let mark = value_of(marks, next);
        if mark == 0 {
            put(marks, visit.node, low);
            return Some(next);
        }
        low = low.min(mark);
    }
    put(marks, visit.node, low);
    None
}

impl Depths {
    // Comes to a node, which gets the next number and has no tier yet.
    fn come(&mut self, node: usize) -> Visit
        requires { node < 2 ^ 31 }
    {
        let number = self.last_number.wrapping_add(1);
        self.last_number = number;
        put(&mut self.marks, node, number);
        put(&mut self.open, self.open_count, node as u32);
        self.open_count = self.open_count.wrapping_add(1);
        Visit {
            node,
            from: 0,
            number,
        }
    }

    // Leaves a node. If it leads to none without a tier that the walks came to before it, it and all
    // since have a tier of their own.
    fn leave(&mut self, visit: Visit) {
        if value_of(&self.marks, visit.node) != visit.number {
            return;
        }
        'open: while self.open_count > 0 {
            self.open_count -= 1;
            let last = value_of(&self.open, self.open_count) as usize;
            put(&mut self.marks, last, self.last_tier);
            if last == visit.node {
                break;
            }
        }
        self.last_tier = self.last_tier.wrapping_sub(1);
    }

    // Walks in depth from a node. The path is a room for the nodes on the way.
    fn walk(
        &mut self,
        graph: &Graph,
        path: &mut Vec<Visit>,
        start: usize,
    ) -> Result<(), OutOfMemory>
        requires { start < 2 ^ 31 }
    {
        let mut visit = self.come(start);
        'visits: for _ in 0..u64::MAX {
            match look_on(graph, &mut self.marks, visit) {
                Some(next) => {
                    visit.from = next;
                    path.push(visit)?;
                    visit = self.come(next);
                }
                None => {
                    self.leave(visit);
                    let Some(last) = path.pop() else {
                        return Ok(());
                    };
                    visit = last;
                }
            }
        }
        Ok(())
    }
}

/// Returns a candidate tier for each node: no step lowers the tier, and each strongly connected component
/// has its own.
///
/// It uses Tarjan's algorithm and visits each step once or twice. No contract says so, but the caller
/// checks the result.
///
/// # Errors
/// `OutOfMemory` if an allocation fails.
pub fn guess_tiers(alloc: Global, graph: &Graph) -> Result<Vec<u32>, OutOfMemory> {
    let count = graph.count();
    let mut depths = Depths {
        marks: filled(alloc, count, 0)?,
        open: filled(alloc, count, 0)?,
        open_count: 0,
        last_number: 0,
        last_tier: u32::MAX,
    };
    let mut path = Vec::new(alloc);
    'nodes: for node in 0..count {
        if value_of(&depths.marks, node) == 0 {
            depths.walk(graph, &mut path, node)?;
        }
    }
    Ok(depths.marks)
}
