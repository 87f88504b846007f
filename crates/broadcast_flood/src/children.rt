//! Tree links downward. A position names only the port to the parent, so children are found from the far side.

ghost use Rattle.std.specs.Prelude.{◌≡◌, ◌↔◌, ◌<◌, length, IfOk, IsTrue};
ghost use Rattle.topo_graph.specs.Topology.{IsGraph};
ghost use Rattle.broadcast_flood.specs.Tree.{AreChildPorts, IsDown};
ghost use Rattle.broadcast_flood.specs.Kept.{AreChildren};

use an_base::row::ExitList;
use common_values::memory::OutOfMemory;
use std::alloc::Global;
use topo_graph::graph::Graph;

// Whether a port is that of a tree link to a child.
fn leads_to_child(graph: &Graph, x: u8, port: u8) -> bool
    requires { IsGraph graph.now }
    ensures { IsTrue result ↔ IsDown graph.now x port }
{
    match graph.far_place(x, port) {
        Some((child, far_port)) => graph.position(child).port == far_port,
        None => false,
    }
}

// The ports of the tree links to the children of the member at a place, rising.
fn child_ports(graph: &Graph, x: u8) -> ExitList
    requires { IsGraph graph.now }
    ensures { AreChildPorts graph.now x result }
{
    let mut ports = ExitList::new();
    'ports: for port in 1..13u8 {
        if leads_to_child(graph, x, port) {
            ports.push(port);
        }
    }
    ports
}

/// Returns the ports to the children of each member, in the order of the members.
///
/// # Errors
/// `OutOfMemory` if an allocation fails.
pub fn children_of(alloc: Global, graph: &Graph) -> Result<Vec<ExitList>, OutOfMemory>
    ensures children { IfOk result (λ children. AreChildren graph.now (length graph.now) children.items) }
    ensures graph { IfOk result (λ _. IsGraph graph.now) }
{
    let count = graph.count();
    let mut children = Vec::with_capacity(alloc, usize::from(count))?;
    'places: for x in 0..count {
        children.push(child_ports(graph, x))?;
    }
    Ok(children)
}
