//! Theorems about flows, most of them over rows that pass. No function here has code.

ghost use Rattle.std.specs.Prelude.{◌≡◌, ◌≢◌, ◌+◌, ◌≤◌, ℕ, Bool, List, [], Option, Some, length};
ghost use Rattle.an_base.specs.Values.{EntryOf};
ghost use Rattle.an_base.specs.Rows.{RowOf};
ghost use Rattle.an_base.specs.Numbers.{AreNumbers};
ghost use Rattle.topo_graph.specs.Topology.{IsGraph, IsTree};
ghost use Rattle.dep_check.specs.declared.channel.Channel.{Channel};
ghost use Rattle.dep_check.specs.Answer.{Passes};
ghost use Rattle.dep_check.specs.Laws.{AreTables};
ghost use Rattle.dep_check.specs.Tables.{IsSpot, rank_at};
ghost use Rattle.flow_channels.specs.declared.went.Went.{Went};
ghost use Rattle.flow_channels.specs.Layout.{HasRanks, IsWired, JoinsAll, layout_of, LayoutOf};
ghost use Rattle.flow_channels.specs.Flows.{FlowOf, left_of, queue_at, waiting_at};
ghost use Rattle.flow_channels.specs.Moves.{FirstCanMove, IsPossible, IsTurn, Move, Turns};
ghost use Rattle.flow_channels.specs.Runs.{Act, Comes, entered, greatest, hops_in, hops_of, moves_left};
ghost use Rattle.flow_channels.specs.Sound.{IsSound};

/// States that over rows that pass every flow that comes about is sound, in whatever order moves are made.
///
/// Every packet is on a path that the rows give, the first packet of each channel asks at the far side, and no
/// channel has more packets than it holds.
pub fn what_comes_about_is_sound()
    ensures { (entries : List EntryOf) (numbers : List ℕ) (rows : List RowOf) (ranks : List (Option ℕ))
        (most limit : ℕ) (acts : List Act) (flow : FlowOf)
        → IsGraph entries → AreNumbers numbers → length numbers ≡ length entries
        → Passes entries numbers rows ranks → 1 ≤ most
        → Comes (layout_of entries numbers rows most) limit acts flow
        → IsWired (layout_of entries numbers rows most)
        × IsSound (layout_of entries numbers rows most) (entered acts) flow }
{}

/// States that some packet can move while a packet is on its way. Of the channels that have packets, the first
/// packet of each channel of lowest rank can move.
pub fn some_packet_can_move()
    ensures least { (layout : LayoutOf) (ranks : List (Option ℕ)) (known : List ℕ) (flow : FlowOf)
        (channel : Channel) (rank : ℕ)
        → IsWired layout → JoinsAll layout → HasRanks layout ranks → IsSound layout known flow
        → queue_at flow channel ≢ [] → rank_at ranks channel ≡ Some rank
        → ((other : Channel) (above : ℕ)
        → queue_at flow other ≢ [] → rank_at ranks other ≡ Some above → rank ≤ above)
        → FirstCanMove layout flow channel }
    ensures possible { (layout : LayoutOf) (ranks : List (Option ℕ)) (known : List ℕ) (flow : FlowOf)
        → IsWired layout → JoinsAll layout → HasRanks layout ranks → IsSound layout known flow
        → left_of flow ≢ 0 → (move : Move) × IsPossible layout flow move }
{}

/// States that no order of moves deadlocks: over rows that pass, whatever packets entered and whatever possible
/// moves were made, in whatever order, some packet can move while a packet is on its way.
pub fn no_order_of_moves_locks_up()
    ensures { (entries : List EntryOf) (numbers : List ℕ) (rows : List RowOf) (ranks : List (Option ℕ))
        (most limit : ℕ) (acts : List Act) (flow : FlowOf)
        → IsGraph entries → AreNumbers numbers → length numbers ≡ length entries
        → Passes entries numbers rows ranks → 1 ≤ most
        → Comes (layout_of entries numbers rows most) limit acts flow → left_of flow ≢ 0
        → (move : Move) × IsPossible (layout_of entries numbers rows most) flow move }
{}

/// States that no order of moves deadlocks over the rows of the tables of all members, which the switches load,
/// if the positions of the topology are the tree of its links.
pub fn tables_of_a_topology_never_lock_up()
    ensures { (entries : List EntryOf) (numbers : List ℕ) (any : Bool) (rows : List RowOf) (most limit : ℕ)
        (acts : List Act) (flow : FlowOf)
        → IsGraph entries → IsTree entries → AreNumbers numbers → length numbers ≡ length entries
        → AreTables entries numbers any rows → 1 ≤ most
        → Comes (layout_of entries numbers rows most) limit acts flow → left_of flow ≢ 0
        → (move : Move) × IsPossible (layout_of entries numbers rows most) flow move }
{}

/// States that a turn is determined by the flow before it, and so are the turns until no packet is left.
pub fn one_run()
    ensures turn { (layout : LayoutOf) (old new other : FlowOf) (went way : Went)
        → IsTurn layout old went new → IsTurn layout old way other → (went ≡ way) × (new ≡ other) }
    ensures run { (layout : LayoutOf) (known : List ℕ) (old new other : FlowOf) (went ways : List Went)
        → IsWired layout → IsSound layout known old → Turns layout old went new → left_of new ≡ 0
        → Turns layout old ways other → left_of other ≡ 0 → (went ≡ ways) × (new ≡ other) }
{}

/// States that turns end: each lowers the bound on the moves left by at least one.
pub fn turns_end()
    ensures { (layout : LayoutOf) (ranks : List (Option ℕ)) (known : List ℕ) (old new : FlowOf)
        (went : List Went)
        → IsWired layout → HasRanks layout ranks → IsSound layout known old → Turns layout old went new
        → length went + moves_left ranks new ≤ moves_left ranks old }
{}

/// States that no packet goes out more often than the highest rank plus one: if the rows pass, over all packets
/// and all moves in whatever order; and in the turns from every sound flow.
pub fn hops_are_few()
    ensures all { (entries : List EntryOf) (numbers : List ℕ) (rows : List RowOf) (ranks : List (Option ℕ))
        (most limit : ℕ) (acts : List Act) (flow : FlowOf) (packet : ℕ)
        → IsGraph entries → AreNumbers numbers → length numbers ≡ length entries
        → Passes entries numbers rows ranks → 1 ≤ most
        → Comes (layout_of entries numbers rows most) limit acts flow
        → hops_in packet acts ≤ greatest ranks + 1 }
    ensures turns { (layout : LayoutOf) (ranks : List (Option ℕ)) (known : List ℕ) (old new : FlowOf)
        (went : List Went) (packet : ℕ)
        → IsWired layout → HasRanks layout ranks → IsSound layout known old → Turns layout old went new
        → hops_of packet went ≤ greatest ranks + 1 }
{}

/// States that no more packets are in a channel, or wait at a switch, than entered. So that much space suffices.
pub fn never_more_than_entered()
    ensures queued { (layout : LayoutOf) (known : List ℕ) (flow : FlowOf) (channel : Channel)
        → IsSound layout known flow → IsSpot channel → length (queue_at flow channel) ≤ length known }
    ensures waiting { (layout : LayoutOf) (known : List ℕ) (flow : FlowOf) (at : ℕ)
        → IsWired layout → IsSound layout known flow → length (waiting_at flow at) ≤ length known }
{}
