//! How many dependencies a graph has.

ghost use Rattle.std.specs.Prelude.{◌≡◌, ◌≤◌, length};
ghost use Rattle.common_graph.specs.Graph.{LeadsTo};
ghost use Rattle.fabric_routes.specs.Counting.{IsCountOf};
ghost use Rattle.fabric_verdict.specs.Steps.{IsStep};

use common_graph::graph::Graph;

// To how many nodes one leads.
fn count_from(graph: &Graph, node: usize) -> u64
    ensures count { IsCountOf (LeadsTo graph.now node) result }
    ensures few { result ≤ length graph.now.bases }
{
    let mut count = 0u64;
    let mut cursor = graph.cursor(node, 0);
    'steps: while let Some(_next) = graph.advance(node, &mut cursor) {
        count += 1;
    }
    count
}

/// Returns the number of steps of `graph`.
pub fn count_steps(graph: &Graph) -> u64
    ensures { IsCountOf (IsStep graph.now) result }
{
    let mut count = 0u64;
    'nodes: for node in 0..graph.count() {
        count += count_from(graph, node);
    }
    count
}
