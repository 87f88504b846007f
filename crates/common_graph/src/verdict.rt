//! The verdict on a graph: a candidate, its check, and the slow method only if the check fails.

ghost use Rattle.std.specs.Prelude.{◌≡◌, IfOk, IfSome};
ghost use Rattle.common_graph.specs.Search.{Holds};
ghost use Rattle.common_graph.specs.Verdict.{IsVerdict, Passes};

use crate::cycle::least_cycle;
use crate::graph::Graph;
use crate::rank_walk::guess_ranks;
use crate::ranks::are_ranks;
use crate::rising::exact_ranks;
use crate::table::first_fall;
use crate::tier_walk::guess_tiers;
use common_values::memory::OutOfMemory;
use std::alloc::Global;

/// The ranks of a graph, or its least cycle.
#[derive(Drop)]
pub enum Verdict {
    /// No steps form a cycle. The rank of a node is 0 if it leads nowhere, otherwise one more than the
    /// highest rank that it leads to.
    Ranks {
        /// The ranks of the nodes, in order.
        ranks: Vec<u32>,
    },
    /// Some steps form a cycle. The least cycle starts at the lowest node on any cycle; it is one of the
    /// shortest from there, and of these the least as a list.
    Cycle {
        /// The nodes of the cycle: each leads to the next, and the last to the first.
        nodes: Vec<u32>,
    },
}

// The ranks, if a walk in depth found them.
fn guessed_verdict(alloc: Global, graph: &Graph) -> Result<Option<Vec<u32>>, OutOfMemory>
    ensures { IfOk result (λ found. IfSome found (λ ranks. Passes graph.now ranks.items)) }
{
    let Some(ranks) = guess_ranks(alloc, graph)? else {
        return Ok(None);
    };
    if !are_ranks(graph, &ranks) {
        return Ok(None);
    }
    Ok(Some(ranks))
}

// Tiers that no step lowers: those that a walk in depth finds, or else the same for all nodes.
fn sound_tiers(alloc: Global, graph: &Graph) -> Result<Vec<u32>, OutOfMemory>
    ensures { IfOk result (λ tiers. Holds graph.now tiers.items 0) }
{
    let tiers = guess_tiers(alloc, graph)?;
    if first_fall(graph, &tiers, 0).is_some() {
        return Ok(Vec::new(alloc));
    }
    Ok(tiers)
}

/// Returns the verdict on `graph`.
///
/// By design, not proved, it visits each step two or three times if no steps form a cycle, and otherwise
/// about six times.
///
/// # Errors
/// `OutOfMemory` if an allocation fails.
pub fn verdict_of(alloc: Global, graph: &Graph) -> Result<Verdict, OutOfMemory>
    ensures { IfOk result (IsVerdict graph.now) }
{
    if let Some(ranks) = guessed_verdict(alloc, graph)? {
        return Ok(Verdict::Ranks { ranks });
    }
    let tiers = sound_tiers(alloc, graph)?;
    match least_cycle(alloc, graph, &tiers)? {
        Some(nodes) => Ok(Verdict::Cycle { nodes }),
        None => Ok(Verdict::Ranks {
            ranks: exact_ranks(alloc, graph)?,
        }),
    }
}
