//! The up ends of links, and legal routes.

ghost use Rattle.std.specs.Prelude.{◌≡◌, ◌↔◌, ◌<◌, ℕ, Some, length, IsTrue, Any};
ghost use Rattle.an_base.specs.Order.{life_cmp};
ghost use Rattle.topo_graph.specs.Topology.{far_of, life_at, place_of};
ghost use Rattle.std.specs.Ordering.{is_lt};
ghost use Rattle.updown.specs.Routes.{HasLink, height_cmp, LegalRoute, up_end_of};

use an_base::life::Life;
use std::cmp::Ordering;
use topo_graph::graph::Graph;

// How the lives at two places compare: as the places, since the entries stand by rising life.
fn lives_cmp(graph: &Graph, x: u8, y: u8) -> Ordering
    requires x { x < length graph.now }
    requires y { y < length graph.now }
    ensures { result ≡ life_cmp (life_at graph.now x) (life_at graph.now y) }
{
    let _count = graph.count();
    x.cmp(&y)
}

/// Reports whether the entry at index `x` is the up end of a link to the entry at index `y`.
///
/// The up end is the end of lower level; at equal level, the end of lower life. The caller must pass
/// indices below the number of entries.
pub fn is_up_end(graph: &Graph, x: u8, y: u8) -> bool
    requires x { x < length graph.now }
    requires y { y < length graph.now }
    ensures { result ≡ is_lt (height_cmp graph.now x y) }
{
    let lives = lives_cmp(graph, x, y);
    graph.level(x).cmp(&graph.level(y)).then(lives).is_lt()
}

/// Returns the life at the up end of the link at `port` of `life`. The caller must pass a port with a link.
pub fn up_end(graph: &Graph, life: Life, port: u8) -> Life
    requires { HasLink graph.now life port }
    ensures { (x y q : ℕ) → place_of graph.now life ≡ Some x → far_of graph.now x port ≡ Some (y, q)
        → result ≡ up_end_of graph.now x y }
{
    let x = graph.place(life).unwrap();
    let (y, _) = graph.far_place(x, port).unwrap();
    if is_up_end(graph, x, y) {
        life
    } else {
        graph.life(y)
    }
}

/// Reports whether `ports` lead from the life `from` over links along a legal route.
///
/// No upward link of a legal route follows a downward one. An empty list is a legal route, and a list
/// with a port without a link is not. The caller must pass a life of the graph.
pub fn is_legal(graph: &Graph, from: Life, ports: &[u8]) -> bool
    requires { Any (λ e. e.life ≡ from) graph.now }
    ensures { (x : ℕ) → place_of graph.now from ≡ Some x
        → (IsTrue result ↔ ((y : ℕ) × LegalRoute graph.now x ports.now y)) }
{
    let mut x = graph.place(from).unwrap();
    let mut down = false;
    'ports: for &port in ports {
        let Some((y, _)) = graph.far_place(x, port) else {
            return false;
        };
        let up = is_up_end(graph, y, x);
        if up && down {
            return false;
        }
        down = !up;
        x = y;
    }
    true
}
