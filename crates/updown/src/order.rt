//! The order of the passes over a graph's entries, so that no length is needed before it is known.

ghost use Rattle.std.specs.Prelude.{length, IfOk};
ghost use Rattle.topo_graph.specs.Topology.{IsGraph};
ghost use Rattle.updown.specs.Order.{AreHeights, IsDescent};

use common_values::items::Items;
use common_values::memory::OutOfMemory;
use std::alloc::Global;
use topo_graph::graph::Graph;

/// The height of an entry: ordered by level, then by index. Lower values are higher in the tree.
#[derive(Clone, Copy, PartialEq, Eq, PartialOrd, Ord)]
pub struct Height {
    /// The level that the entry states.
    pub level: u8,
    /// The index of the entry.
    pub place: u8,
}

fn heights_of(alloc: Global, graph: &Graph) -> Result<Vec<Height>, OutOfMemory>
    ensures heights { IfOk result (λ heights. AreHeights graph.now (length graph.now) heights.items) }
    ensures graph { IfOk result (λ _. IsGraph graph.now) }
{
    let count = graph.count();
    let mut heights = Vec::with_capacity(alloc, usize::from(count))?;
    'places: for place in 0..count {
        let level = graph.level(place);
        heights.push(Height { level, place })?;
    }
    Ok(heights)
}

/// The entries of a graph from the highest to the lowest. So every upward link leads to an earlier
/// entry, and every downward link to a later one.
pub type Descent = Items<Height>;

/// Returns the entries of `graph` from the highest to the lowest.
///
/// # Errors
/// `OutOfMemory` if an allocation fails.
pub fn descent_of(alloc: Global, graph: &Graph) -> Result<Descent, OutOfMemory>
    ensures { IfOk result (λ descent. IsDescent graph.now descent) }
{
    let mut heights = heights_of(alloc, graph)?;
    heights.sort_unstable();
    Ok(Items::of(heights))
}
