//! Theorems about broadcasts, by themselves and together with the rows of tables. No function here has code.
//!
//! All except for the first assume that the positions are the tree of the links.

ghost use Rattle.std.specs.Prelude.{◌≡◌, ◌<◌, ℕ, suc, List, Bool, length};
ghost use Rattle.an_base.specs.Values.{EntryOf, LifeId};
ghost use Rattle.topo_graph.specs.Topology.{IsGraph, IsTree};
ghost use Rattle.broadcast_flood.specs.Cycles.{Leads, Walk};
ghost use Rattle.broadcast_flood.specs.Floods.{copies, GoesDown, HasItsCopy, HopOf, IsBroadcast, IsFlood};
ghost use Rattle.broadcast_flood.specs.declared.hop.FloodHop.{FloodHop};

/// States that the hops of a broadcast from a member are determined.
pub fn one_broadcast()
    ensures { (es : List EntryOf) (from : LifeId) (first second : List FloodHop)
        → IsBroadcast es from first → IsBroadcast es from second → first ≡ second }
{}

/// States that in a broadcast from any member every member, including the sender, gets exactly one copy, and that the
/// hops up end at the root.
pub fn each_member_gets_one_copy()
    ensures { (es : List EntryOf) (from y : ℕ) (ups downs : List HopOf) → IsGraph es → IsTree es
        → from < length es → y < length es → (flood : IsFlood es from ups downs)
        → (flood.top ≡ 0) × (copies es flood.top downs y ≡ 1) }
{}

/// States that, after the hops up have ended, every member has its copy before it sends it.
pub fn nobody_sends_before_its_copy()
    ensures { (es : List EntryOf) (downs : List HopOf) (k : ℕ) → IsGraph es → IsTree es → GoesDown es downs
        → k < length downs → HasItsCopy es downs k }
{}

/// States that no channel leads back to itself, over the rows of all members (for shortest or for all legal
/// routes) and broadcasts together.
pub fn no_cycle_with_broadcasts()
    ensures { (es : List EntryOf) (any : Bool) (n : ℕ) (a : ℕ × ℕ) → IsGraph es → IsTree es
        → ¬ Walk (Leads es any) (suc n) a a }
{}
