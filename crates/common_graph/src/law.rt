//! Theorems: what a verdict means, and that a graph has only one. No function here has code.

ghost use Rattle.std.specs.Prelude.{◌≡◌, ℕ, List};
ghost use Rattle.std.specs.Ordering.{nat_cmp};
ghost use Rattle.common_graph.specs.Graph.{Fall, GraphOf, LeadsTo};
ghost use Rattle.common_graph.specs.Cycles.{HasNoCycle, IsLeastCycle};
ghost use Rattle.common_graph.specs.Verdict.{Passes};

/// States that ranks suffice: if some numbers fall along every step, no steps form a cycle.
pub fn ranks_suffice()
    ensures { (graph : GraphOf) (ranks : List ℕ) → Fall graph ranks → HasNoCycle (LeadsTo graph) }
{}

/// States that a graph has one verdict: at most one list of ranks, at most one least cycle, and never both.
pub fn one_answer()
    ensures ranks { (graph : GraphOf) (one other : List ℕ) → Passes graph one → Passes graph other → one ≡ other }
    ensures cycle { (graph : GraphOf) (one other : List ℕ)
        → IsLeastCycle nat_cmp (LeadsTo graph) one → IsLeastCycle nat_cmp (LeadsTo graph) other → one ≡ other }
    ensures either { (graph : GraphOf) (ranks nodes : List ℕ)
        → Passes graph ranks → IsLeastCycle nat_cmp (LeadsTo graph) nodes → ⊥ }
{}
