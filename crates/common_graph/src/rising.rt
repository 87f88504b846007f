//! The slow method of finding ranks, for when a candidate does not pass its check.

ghost use Rattle.std.specs.Prelude.{IfOk};
ghost use Rattle.common_graph.specs.Cycles.{HasNoCycle};
ghost use Rattle.common_graph.specs.Graph.{LeadsTo};
ghost use Rattle.common_graph.specs.Verdict.{AreAllRanks};

use crate::graph::Graph;
use crate::ranks::first_rise;
use crate::table::{filled, value_of};
use common_values::memory::OutOfMemory;
use std::alloc::Global;

/// Returns the ranks of all nodes by raising ranks that are too low until none is.
///
/// The caller must pass a graph in which no steps form a cycle. It can take as many passes over all
/// steps as there are nodes, and more.
///
/// # Errors
/// `OutOfMemory` if the allocation fails.
pub fn exact_ranks(alloc: Global, graph: &Graph) -> Result<Vec<u32>, OutOfMemory>
    requires { HasNoCycle (LeadsTo graph.now) }
    ensures { IfOk result (λ ranks. AreAllRanks graph.now ranks.items) }
{
    let mut ranks = filled(alloc, graph.count(), 0)?;
    'rises: while let Some(step) = first_rise(graph, &ranks) {
        ranks[step.node] = value_of(&ranks, step.next) + 1;
    }
    Ok(ranks)
}
