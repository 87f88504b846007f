//! How packets pass a member: their ingress ports, whether they may leave upward, and their exits.

ghost use Rattle.std.specs.Prelude.{◌≡◌, ◌↔◌, ◌≤◌, IsTrue};
ghost use Rattle.table_build.specs.Bests.{HasPort};
ghost use Rattle.table_build.specs.Exits.{ArePortsBelow, is_entry, IsEntry, IsExitOf, may_go_up};

use crate::best::Best;
use an_base::row::Exits;
use topo_graph::graph::Graph;
use updown::route::is_up_end;

/// Reports whether packets that arrive at port `entry` of the member at index `x` may leave upward.
///
/// These are packets that start there, at port 0, and those that arrive over a link whose up end is the
/// member.
pub fn may_go_up(graph: &Graph, x: u8, entry: u8) -> bool
    ensures { result ≡ may_go_up graph.now x entry }
{
    if entry == 0 {
        return true;
    }
    match graph.far_place(x, entry) {
        Some((y, _)) => is_up_end(graph, x, y),
        None => false,
    }
}

/// Reports whether packets can arrive at port `entry` of the member at index `x`: port 0, or one with a link.
pub fn is_entry(graph: &Graph, x: u8, entry: u8) -> bool
    ensures test { result ≡ is_entry graph.now x entry }
    ensures meaning { IsTrue result ↔ IsEntry graph.now x entry }
{
    if entry == 0 {
        return true;
    }
    graph.far_place(x, entry).is_some()
}

/// Returns the first ports of best paths, in ascending order.
pub fn exits(best: Option<Best>) -> Exits
    ensures { ArePortsBelow (IsExitOf best) 13 result }
{
    match best {
        None => Exits::new(),
        Some(best) => Exits::of_set(best.ports),
    }
}
