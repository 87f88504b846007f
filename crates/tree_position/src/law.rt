//! A theorem about the least position. No function here has code.

ghost use Rattle.std.specs.Prelude.{List, ◌∷◌};
ghost use Rattle.an_base.specs.Values.{Place};
ghost use Rattle.tree_position.specs.Position.{least, IsLeast};

/// The least of a position and a list of positions is one of them, and none of them is less.
pub fn least_is_least()
    ensures { (first : Place) (others : List Place) → IsLeast (least first others) (first ∷ others) }
{}
