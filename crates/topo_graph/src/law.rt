//! Theorems about the links of a graph. No function here has code.

ghost use Rattle.std.specs.Prelude.{◌≡◌, ◌<◌, ◌↔◌, ℕ, List, length, Some};
ghost use Rattle.an_base.specs.Values.{EntryOf, EndId};
ghost use Rattle.topo_graph.specs.Topology.{end_at, far_of, IsGraph, IsLink};

/// States that a port of a topology leads to another port if and only if a link joins the two.
pub fn far_ends()
    ensures { (es : List EntryOf) (x p y q : ℕ) → IsGraph es → x < length es → y < length es
        → ((far_of es x p ≡ Some (y, q)) ↔ IsLink es (end_at es x p) (end_at es y q)) }
{}

/// States that the link at a port has at most one other end.
pub fn one_far_end()
    ensures { (es : List EntryOf) (a b c : EndId) → IsGraph es → IsLink es a b → IsLink es a c → b ≡ c }
{}
