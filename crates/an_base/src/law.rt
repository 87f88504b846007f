//! Theorems about the orders and the spanning tree. No function here has code.

ghost use Rattle.std.specs.Prelude.{◌≡◌, ℕ};
ghost use Rattle.std.specs.Cmp.{IsTotalOrder};
ghost use Rattle.std.specs.declared.cmp.Ordering.TheVariants.{Equal};
ghost use Rattle.an_base.specs.Values.{LifeId, Place, EntryOf};
ghost use Rattle.an_base.specs.Order.{life_cmp, position_cmp, entry_cmp};
ghost use Rattle.an_base.specs.Tree.{Network, IsClosed, IsPlace, HasLivesApart};

/// States that the order of lives is total, and that lives that compare equal are the same.
pub fn lives_are_ordered()
    ensures total { IsTotalOrder life_cmp }
    ensures apart { (one other : LifeId) → life_cmp one other ≡ Equal → one ≡ other }
{}

/// States that the order of positions is total, and that positions that compare equal are the same.
pub fn positions_are_ordered()
    ensures total { IsTotalOrder position_cmp }
    ensures apart { (one other : Place) → position_cmp one other ≡ Equal → one ≡ other }
{}

/// States that the order of entries is total, and that two entries of one life that compare equal are the same.
pub fn entries_are_ordered()
    ensures total { IsTotalOrder entry_cmp }
    ensures apart { (one other : EntryOf)
        → one.life ≡ other.life → entry_cmp one other ≡ Equal → one ≡ other }
{}

/// States that a node has only one place in the spanning tree of a root, if every port leads to a node
/// of the network, and no two nodes have the same life.
pub fn one_place()
    ensures { (network : Network) (top node : ℕ) (one other : Place)
        → IsClosed network → HasLivesApart network
        → IsPlace network top node one → IsPlace network top node other → one ≡ other }
{}
