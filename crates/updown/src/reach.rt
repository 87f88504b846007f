//! The computation of distances: the order of the entries, the lengths in that order, and the lives.

ghost use Rattle.std.specs.Prelude.{◌≡◌, ◌≤◌, Any, map, length, IfOk};
ghost use Rattle.an_base.specs.declared.limits.TheConstants.{MOST_SWITCHES};
ghost use Rattle.updown.specs.Distances.{AreDistances};

use crate::distance::Distances;
use crate::length::Lengths;
use crate::order::descent_of;
use an_base::life::Life;
use common_values::memory::OutOfMemory;
use std::alloc::Global;
use topo_graph::graph::Graph;

// The lives of a graph, in the order of its entries.
fn lives_of(alloc: Global, graph: &Graph) -> Result<Vec<Life>, OutOfMemory>
    ensures lives { IfOk result (λ lives. lives.items ≡ map (λ e. e.life) graph.now) }
    ensures most { IfOk result (λ lives. length lives.items ≤ MOST_SWITCHES) }
{
    let entries = graph.entries().as_slice();
    let mut lives = Vec::with_capacity(alloc, entries.len())?;
    'entries: for entry in entries {
        lives.push(entry.life)?;
    }
    Ok(lives)
}

/// Returns the distances to `to`. The caller must pass a life of the graph.
///
/// # Errors
/// `OutOfMemory` if an allocation fails.
pub fn distances(alloc: Global, graph: &Graph, to: Life) -> Result<Distances, OutOfMemory>
    requires { Any (λ e. e.life ≡ to) graph.now }
    ensures { IfOk result (AreDistances graph.now to) }
{
    let place = graph.place(to).unwrap();
    let descent = descent_of(alloc, graph)?;
    let lengths = Lengths::to(alloc, graph, &descent, place)?;
    let lives = lives_of(alloc, graph)?;
    Ok(Distances::new(lives, lengths))
}
