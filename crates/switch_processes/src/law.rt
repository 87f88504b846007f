//! What processes did, each in its own order, is one history, and what therefore holds of them.

ghost use Rattle.std.specs.Prelude.{◌≡◌, ◌≤◌, ◌∷◌, ℕ, Contains, List, length};
ghost use Rattle.an_base.specs.Values.{EntryOf, LifeId, TopoOf};
ghost use Rattle.topo_graph.specs.Topology.{IsGraph, IsTree};
ghost use Rattle.epoch_game.specs.Slice.{Earlier};
ghost use Rattle.switch_core.specs.Kept.{KeptOf, StandsFor};
ghost use Rattle.switch_game.specs.Network.{PowerOn};
ghost use Rattle.switch_game.specs.Quiet.{HasSettled, IsQuiet};
ghost use Rattle.switch_processes.specs.Processes.{AreLivesOf, AreTimes, Call, Event, GoOn, HasFinished, HasNoCycle, IsConsistentCut, IsJoinedBy, IsRun, Takes, made_by, switch_after};
ghost use Rattle.switch_processes.specs.Calls.{HasCalled};
ghost use Rattle.switch_processes.specs.Orders.{HasOneOrder, Passes, game_after, network_after};

/// What is kept of a switch after the calls of a program, by their contracts, represents the switch after these
/// calls; and the switch takes each of them.
pub fn calls_are_those_of_a_process()
    ensures stands { (on : PowerOn) (life : LifeId) (kept : KeptOf) (calls : List Call)
        → HasCalled on life kept calls → StandsFor kept (switch_after on life calls) }
    ensures taken { (on : PowerOn) (life : LifeId) (kept : KeptOf) (calls : List Call)
        → HasCalled on life kept calls → (call : Call) (before : List Call)
        → Earlier (call ∷ before) calls → Takes (switch_after on life before) call }
{}

/// If each process made its calls in its own order, each frame that came in went out by an event, and no event
/// happened before itself, then all calls have one order. It keeps the order of each process, and has the sending
/// of each frame before its arrival. At each point in time it is a history of the network of all lives, in which
/// each life is at a point in time of its process, as the switch that the process has then.
pub fn processes_have_one_order()
    ensures { (lives : List LifeId) (on : PowerOn) (did : LifeId → List Call) (sending : Event → Event)
        → IsRun lives on did sending → HasNoCycle did sending → HasOneOrder lives on did sending }
{}

/// No event happened before itself if events have times that rise in each process, and from the sending of a frame
/// to its arrival. What was done by a given time is then a consistent cut.
pub fn events_have_times()
    ensures no_cycle { (lives : List LifeId) (on : PowerOn) (did : LifeId → List Call)
        (sending : Event → Event) (time : Event → ℕ)
        → IsRun lives on did sending → AreTimes did sending time → HasNoCycle did sending }
    ensures cut { (lives : List LifeId) (on : PowerOn) (did : LifeId → List Call) (sending : Event → Event)
        (time : Event → ℕ) (now : ℕ)
        → IsRun lives on did sending → AreTimes did sending time
        → IsConsistentCut did (λ life. made_by time now life (did life)) sending }
{}

/// What processes did up to a consistent cut is itself such a run, so whatever holds of runs holds at each
/// consistent cut. One order of the whole passes the cut: it has all that was done up to the cut first, and the
/// network continues from there.
pub fn a_consistent_cut_is_a_run()
    ensures run { (lives : List LifeId) (on : PowerOn) (did cut : LifeId → List Call)
        (sending : Event → Event)
        → IsRun lives on did sending → IsConsistentCut did cut sending → IsRun lives on cut sending }
    ensures no_cycle { (did cut : LifeId → List Call) (sending : Event → Event)
        → HasNoCycle did sending → IsConsistentCut did cut sending → HasNoCycle cut sending }
    ensures passed { (lives : List LifeId) (on : PowerOn) (did cut : LifeId → List Call)
        (sending : Event → Event)
        → IsRun lives on did sending → HasNoCycle did sending → IsConsistentCut did cut sending
        → (one : HasOneOrder lives on did sending) × Passes lives on cut one.order }
{}

/// At most 126 lives ever join the epoch. Two lives that have finished it under one root, each at some point in
/// time of its own, hold one topology. The links of a topology with which a life has finished the epoch are a
/// graph, and each of its lives has its place in the tree of shortest walks. Each of these lives is in that epoch
/// or in a higher one.
pub fn processes_hold_one_topology()
    ensures one { (lives members : List LifeId) (on : PowerOn) (did : LifeId → List Call)
        (sending : Event → Event) (life other : LifeId) (epoch : ℕ) (topology other_topology : TopoOf)
        (entry other_entry : EntryOf)
        → IsRun lives on did sending → HasNoCycle did sending
        → IsJoinedBy members on did epoch → length members ≤ 126
        → HasFinished on did life epoch topology → HasFinished on did other epoch other_topology
        → Contains topology.entries entry → Contains other_topology.entries other_entry
        → entry.position.root ≡ other_entry.position.root → topology ≡ other_topology }
    ensures tree { (lives members : List LifeId) (on : PowerOn) (did : LifeId → List Call)
        (sending : Event → Event) (life : LifeId) (epoch : ℕ) (topology : TopoOf)
        → IsRun lives on did sending → HasNoCycle did sending
        → IsJoinedBy members on did epoch → length members ≤ 126
        → HasFinished on did life epoch topology → IsGraph topology.entries × IsTree topology.entries }
    ensures behind { (lives members : List LifeId) (on : PowerOn) (did : LifeId → List Call)
        (sending : Event → Event) (life : LifeId) (epoch : ℕ) (topology : TopoOf) (entry : EntryOf)
        → IsRun lives on did sending → HasNoCycle did sending
        → IsJoinedBy members on did epoch → length members ≤ 126
        → HasFinished on did life epoch topology → Contains topology.entries entry
        → epoch ≤ (switch_after on entry.life (did entry.life)).epoch }
{}

/// If at most 126 lives ever join the epoch in which a life is at the end, and its component is quiet in the
/// network of the one order, then the component has settled.
pub fn a_quiet_component_has_settled()
    ensures { (lives members : List LifeId) (on : PowerOn) (did : LifeId → List Call)
        (sending : Event → Event) (life : LifeId) (one : HasOneOrder lives on did sending)
        → IsJoinedBy members on did (switch_after on life (did life)).epoch → length members ≤ 126
        → IsQuiet (network_after on one.order) life
        → HasSettled members (network_after on one.order) (game_after on one.order) life }
{}

/// Only the lives of a run join an epoch. If switches resume where they were, each later life from no lower epoch,
/// then at most as many lives join an epoch as there are switches, however many lives there are.
pub fn an_epoch_is_joined_once_by_a_switch()
    ensures lives { (lives : List LifeId) (on : PowerOn) (did : LifeId → List Call) (sending : Event → Event)
        (epoch : ℕ)
        → IsRun lives on did sending → IsJoinedBy lives on did epoch }
    ensures once { (lives : List LifeId) (on : PowerOn) (did : LifeId → List Call) (sending : Event → Event)
        (uids : List ℕ) (epoch : ℕ)
        → IsRun lives on did sending → HasNoCycle did sending
        → AreLivesOf uids lives → GoOn lives on did
        → (members : List LifeId) × (length members ≤ length uids) × IsJoinedBy members on did epoch }
{}
