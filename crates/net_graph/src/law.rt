//! Theorems about links and forests. No function here has code.

ghost use Rattle.std.specs.Prelude.{◌≡◌, ◌↔◌, ℕ, List, Some, Any};
ghost use Rattle.an_base.specs.Values.{EntryOf};
ghost use Rattle.net_graph.specs.declared.wiring.Far.{Far};
ghost use Rattle.net_graph.specs.Wires.{Wires, IsWired, IsAtFarSide, far_at, far_of, Joins};
ghost use Rattle.net_graph.specs.Forest.{IsForest};

/// States that a port leads to another if and only if a link joins the two.
pub fn far_ends()
    ensures { (w : Wires) (s p t q : ℕ) → IsWired w
        → ((far_of w.links s p ≡ Some (t, q)) ↔ Any (λ l. Joins l s p t q) w.links) }
{}

/// States that a port has at most one far side, which is the one that `Wiring::far` returns.
pub fn one_far_side()
    ensures { (w : Wires) (s p : ℕ) (f : Far) → IsWired w
        → IsAtFarSide w s p f → far_at w s p ≡ Some f }
{}

/// States that a wiring has only one forest.
pub fn one_forest()
    ensures { (w : Wires) (f g : List (List EntryOf)) → IsWired w
        → IsForest w f → IsForest w g → f ≡ g }
{}
