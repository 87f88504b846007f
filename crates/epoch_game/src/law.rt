//! Theorems about every state of the game, each epoch of it, and all moves that can still follow.

ghost use Rattle.std.specs.Prelude.{◌≡◌, ◌≤◌, ℕ, List, Some, true, length, Contains};
ghost use Rattle.an_base.specs.Values.{LifeId, EntryOf, TopoOf};
ghost use Rattle.topo_graph.specs.Topology.{IsGraph, IsTree};
ghost use Rattle.epoch_core.specs.Epoch.{finish};
ghost use Rattle.epoch_game.specs.Slice.{IsJoinedBy, Node, Slice, nobody, Run};
ghost use Rattle.epoch_game.specs.Streams.{HasStreams, HasGrown};
ghost use Rattle.epoch_game.specs.Improving.{OnlyImproves};
ghost use Rattle.epoch_game.specs.Leaving.{WasStableRoot, NobodyLeaves};
ghost use Rattle.epoch_game.specs.Content.{ReportsAreTrue};
ghost use Rattle.epoch_game.specs.Detection.{Reached, IsDetected, FinishedUnder};
ghost use Rattle.epoch_game.specs.Delivered.{IsDelivered, HasEnded};
ghost use Rattle.epoch_game.specs.Game.{Game, slice, begins, Play, HasFinished, IsDetectedIn};

/// In every run of an epoch each life that has joined has its own card, and the far end sent what the life has
/// accepted on a port; each names the other. What was accepted up to a point in time shows the far end as it was at
/// some point in time: its version and position, whether the link leads to its parent, its report when it was
/// stable in that version, the last position that it answered, and the topology with which it finished. The last
/// answer names the version that has its number.
pub fn streams_show_their_senders()
    ensures { (lives : List LifeId) (state : Slice) → Run lives nobody state → HasStreams lives state }
{}

/// Later, a life that has joined keeps its card, and its list only grows.
pub fn lists_only_grow()
    ensures { (lives : List LifeId) (state later : Slice) (life : LifeId) (node : Node)
        → Run lives state later → state life ≡ Some node → HasGrown later life node }
{}

/// The lives of a run are those that can join. Each life that has joined is one of them. If no life outside
/// `members` has joined, the run is also a run of `members`. So the 126 lives of the theorems below are those that
/// join the epoch, however many there are in total.
pub fn a_run_is_of_those_that_join()
    ensures members { (lives members : List LifeId) (state later : Slice)
        → Run lives state later → IsJoinedBy members later → Run members state later }
    ensures lives { (lives : List LifeId) (state : Slice)
        → Run lives nobody state → IsJoinedBy lives state }
{}

/// In every run of at most 126 lives the position of a life only falls, is never above what the last offer on a
/// link gives, whatever its level, and never returns once left; and one life more than its level says had its root
/// at that level or a lower one.
pub fn positions_only_improve()
    ensures { (lives : List LifeId) (state : Slice)
        → length lives ≤ 126 → Run lives nobody state → OnlyImproves state }
{}

/// In every run of at most 126 lives a stable life stays stable while its version stays. If a life was not stable
/// when it last had another life as root, then a life above it was not stable when that life last had the root. If
/// some life has left a root, then some life that left the root was never stable in its last version with it. So
/// nobody leaves a life that was once stable with itself as root, and every life that ever had such a root is
/// stable.
pub fn nobody_leaves_a_stable_root()
    ensures { (lives : List LifeId) (state : Slice)
        → length lives ≤ 126 → Run lives nobody state → NobodyLeaves state }
{}

/// In every run of at most 126 lives the report of a stable life has its own entry; every other entry is one that a
/// life had under the same root. A report of the present version has the present entry of each life whose present
/// positions lead to the reporting life.
pub fn reports_are_true()
    ensures { (lives : List LifeId) (state : Slice)
        → length lives ≤ 126 → Run lives nobody state → ReportsAreTrue state }
{}

/// In every run of at most 126 lives, once `root_life` is stable with itself as root: each life that is reached
/// from it over links has joined, with each of its links named at both ends; it has its place in the spanning tree,
/// is stable, and neither ever changes again; the root's report has the entry of each of these lives and no other;
/// and each topology that reaches one of them is that report with its numbering. No other life is ever reached from
/// `root_life`.
pub fn a_stable_root_detects_the_end()
    ensures { (lives : List LifeId) (state : Slice) (root_life : LifeId)
        → length lives ≤ 126 → Run lives nobody state → WasStableRoot state root_life
        → IsDetected lives state root_life }
{}

/// In every run of at most 126 lives, a life that has finished holds the report and numbering of a life that was
/// stable with itself as root, and is reached from it.
pub fn a_finish_comes_from_a_stable_root()
    ensures { (lives : List LifeId) (state : Slice) (life : LifeId) (node : Node) (topology : TopoOf)
        → length lives ≤ 126 → Run lives nobody state
        → state life ≡ Some node → finish node.card node.log ≡ Some topology
        → FinishedUnder state life topology }
{}

/// In every run of at most 126 lives no life is reached from two lives that were stable as their own
/// roots.
pub fn stable_roots_share_no_life()
    ensures { (lives : List LifeId) (state : Slice) (root_life other_root life : LifeId)
        → length lives ≤ 126 → Run lives nobody state → WasStableRoot state root_life
        → WasStableRoot state other_root
        → Reached state root_life life → Reached state other_root life → root_life ≡ other_root }
{}

/// In every run of at most 126 lives two lives that have finished under one root hold one topology.
pub fn one_root_gives_one_topology()
    ensures { (lives : List LifeId) (state : Slice) (life other : LifeId) (node other_node : Node)
        (topology other_topology : TopoOf) (entry other_entry : EntryOf)
        → length lives ≤ 126 → Run lives nobody state
        → state life ≡ Some node → finish node.card node.log ≡ Some topology → Contains topology.entries entry
        → state other ≡ Some other_node → finish other_node.card other_node.log ≡ Some other_topology
        → Contains other_topology.entries other_entry
        → entry.position.root ≡ other_entry.position.root → topology ≡ other_topology }
{}

/// In every run of at most 126 lives the topology with which a life has finished is a graph, and each
/// of its entries has its place in the tree of shortest walks to the least life. So its lives are one
/// component of its links.
pub fn a_finish_is_a_tree()
    ensures { (lives : List LifeId) (state : Slice) (life : LifeId) (node : Node) (topology : TopoOf)
        → length lives ≤ 126 → Run lives nobody state
        → state life ≡ Some node → finish node.card node.log ≡ Some topology
        → IsGraph topology.entries × IsTree topology.entries }
{}

/// In every run of at most 126 lives, suppose that each life that is reached from `life` over links has joined,
/// with each of its links named at both ends, and has accepted all that was sent to it. Then one of them is stable
/// with itself as root, all are stable in their places in the tree of shortest walks to it, and each has finished
/// with one topology, whose entries are those of these lives and no other.
pub fn a_delivered_component_has_finished()
    ensures { (lives : List LifeId) (state : Slice) (life : LifeId)
        → length lives ≤ 126 → Run lives nobody state → IsDelivered state life → HasEnded lives state life }
{}

/// The moves of the game form a run of each epoch, in which a life that has left makes no more moves. So the
/// theorems about an epoch hold in each epoch of every state of the game, and from each such state on.
pub fn each_epoch_is_a_run()
    ensures reached { (lives : List LifeId) (first : LifeId → ℕ) (game : Game) (epoch : ℕ)
        → Play lives (begins first) game → Run lives nobody (slice epoch game) }
    ensures later { (lives : List LifeId) (first : LifeId → ℕ) (game later : Game) (epoch : ℕ)
        → Play lives (begins first) game → Play lives game later
        → Run lives (slice epoch game) (slice epoch later) }
{}

/// In every state of the game, and in each epoch that at most 126 lives have joined, however many there are in
/// total: once a life is stable with itself as root, all that is said above of the lives reached from it holds. As
/// long as only these 126 join the epoch, no later move changes which lives are reached, nor the version or the
/// position of one of them.
pub fn termination_is_detected()
    ensures { (lives members : List LifeId) (first : LifeId → ℕ) (game : Game) (epoch : ℕ)
        (root_life : LifeId)
        → length members ≤ 126 → Play lives (begins first) game → IsJoinedBy members (slice epoch game)
        → WasStableRoot (slice epoch game) root_life
        → IsDetectedIn lives members game epoch root_life }
{}

/// In every state of the game, a life that has loaded in an epoch has finished there.
pub fn who_has_loaded_has_finished()
    ensures { (lives : List LifeId) (first : LifeId → ℕ) (game : Game) (life : LifeId) (epoch : ℕ)
        → Play lives (begins first) game → game.loaded life epoch ≡ true → HasFinished game life epoch }
{}

/// In every state of the game no life has joined an epoch above its present one.
pub fn no_life_has_joined_an_epoch_ahead()
    ensures { (lives : List LifeId) (first : LifeId → ℕ) (game : Game) (life : LifeId) (epoch : ℕ)
        (node : Node)
        → Play lives (begins first) game → game.nodes life epoch ≡ Some node → epoch ≤ game.present life }
{}
