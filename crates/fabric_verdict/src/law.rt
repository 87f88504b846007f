//! What passing means, and what a credit loop means. No function here has code.

ghost use Rattle.std.specs.Prelude.{◌≡◌, ◌≢◌, ◌<◌, ◌≤◌, ◌+◌, ℕ, List, [], ◌∷◌, None, Contains, length};
ghost use Rattle.common_graph.specs.Cycles.{HasNoCycle, IsCycle};
ghost use Rattle.fabric_tables.specs.Cells.{TablesOf};
ghost use Rattle.fabric_model.specs.declared.node.EndPort.{EndPort};
ghost use Rattle.fabric_model.specs.Fabric.{FabricOf, guid_of};
ghost use Rattle.fabric_model.specs.declared.traffic.Traffic.{Traffic};
ghost use Rattle.fabric_routes.specs.Found.{IsLeastWitness, SomeIsStopped};
ghost use Rattle.fabric_routes.specs.declared.hop.Hop.TheVariants.{Arrive};
ghost use Rattle.fabric_routes.specs.Routes.{Channel, DependsOn, IsStopped, Sends, hop};
ghost use Rattle.fabric_verdict.specs.Count.{IsChannelCount, IsDependencyCount, IsLinkCount};
ghost use Rattle.fabric_verdict.specs.Packets.{AllFit, AllStand, ComesFree, FirstCanGo, Leaves, Packet, QueuesOf, StandsIn};
ghost use Rattle.fabric_verdict.specs.declared.verdict.LoopChannel.{LoopChannel};
ghost use Rattle.fabric_verdict.specs.declared.verify.Verified.{Verified};
ghost use Rattle.fabric_verdict.specs.Traffics.{IsNoMore};
ghost use Rattle.fabric_verdict.specs.Verified.{Fall, IsVerified};
ghost use Rattle.fabric_verdict.specs.Verdict.{AllArrive, AreAtMost, ArrivesBy, CycleIs, HasRanks, rank_in, spots_in};

/// Proves that routes arrive soon: if there is no credit loop and no route of the traffic stops, every route arrives.
/// It crosses at most one link more than the highest rank, so at most two switches more.
pub fn routes_arrive_soon()
    ensures { (fabric : FabricOf) (tables : TablesOf) (traffic : Traffic) (ranks : List ℕ) (most lid : ℕ)
        (source : EndPort)
        → HasRanks fabric tables traffic ranks → AreAtMost fabric ranks most
        → ((to : ℕ) (from : EndPort) → IsStopped fabric tables traffic to from → ⊥)
        → Sends fabric tables traffic lid source
        → (links : ℕ) × (links ≤ most + 1) × ArrivesBy fabric tables lid source links }
{}

/// Proves that some packet can move, and that waiting packets lead to it. Suppose that there is no credit loop, that
/// every channel has space for at least one packet, and that every packet is on a route of the traffic. Start at any
/// channel that is not empty, and go each time to the channel for which its first packet waits: you come to a channel
/// whose first packet leaves or has free space ahead. Routes can be lost: a packet whose route stops at a switch is
/// dropped there, so it leaves.
pub fn some_packet_can_move()
    ensures { (fabric : FabricOf) (tables : TablesOf) (traffic : Traffic) (ranks : List ℕ) (room : Channel → ℕ)
        (queue : QueuesOf) (channel : Channel)
        → HasRanks fabric tables traffic ranks
        → ((each : Channel) → 1 ≤ room each) → AllStand fabric tables traffic queue → queue channel ≢ []
        → ComesFree fabric tables room queue channel }
{}

/// Proves that no packet is dropped if no route of the traffic stops: a packet that leaves at the far side of its
/// channel arrives.
pub fn no_packet_is_dropped()
    ensures { (fabric : FabricOf) (tables : TablesOf) (traffic : Traffic) (channel : Channel) (packet : Packet)
        → ((to : ℕ) (from : EndPort) → IsStopped fabric tables traffic to from → ⊥)
        → (stands : StandsIn fabric tables traffic channel packet)
        → Leaves (hop fabric tables stands.far packet.lid) → hop fabric tables stands.far packet.lid ≡ Arrive }
{}

/// Proves that a credit loop can be full, whatever buffer space the channels have, at least one packet each. Some
/// filling of at most this space, with each packet on a route of the traffic, fills every channel of the loop, and the
/// first packet of none of them can go.
pub fn a_cycle_can_be_full()
    ensures { (fabric : FabricOf) (tables : TablesOf) (traffic : Traffic) (start : Channel) (rest : List Channel)
        (room : Channel → ℕ)
        → IsCycle (DependsOn fabric tables traffic) start rest → ((each : Channel) → 1 ≤ room each)
        → (queue : QueuesOf) × AllStand fabric tables traffic queue × AllFit room queue
        × ((channel : Channel) → Contains (start ∷ rest) channel → length (queue channel) ≡ room channel)
        × ((channel : Channel) → Contains (start ∷ rest) channel
        → FirstCanGo fabric tables room queue channel → ⊥) }
{}

/// Proves that ranks suffice: any numbers that fall along every dependency exclude a credit loop.
pub fn ranks_suffice()
    ensures { (fabric : FabricOf) (tables : TablesOf) (traffic : Traffic) (rank : Channel → ℕ)
        → ((channel next : Channel) → DependsOn fabric tables traffic channel next → rank next < rank channel)
        → HasNoCycle (DependsOn fabric tables traffic) }
{}

/// Proves that ranks from `judge` fall along every dependency, and that `verify` never reports a rise for ranks that
/// fall.
pub fn ranks_that_fall()
    ensures given { (fabric : FabricOf) (tables : TablesOf) (traffic : Traffic) (ranks : List ℕ)
        → HasRanks fabric tables traffic ranks → Fall fabric tables traffic ranks }
    ensures accepted { (fabric : FabricOf) (tables : TablesOf) (traffic : Traffic) (ranks : List ℕ) (found : Verified)
        → Fall fabric tables traffic ranks → IsVerified fabric tables traffic ranks found → found.rise ≡ None }
{}

/// Proves that fewer routes make fewer dependencies. If one traffic comes before another in `hosts`, `lids`, `managed`,
/// `all`, `rows`, every end port that sends in the first also sends in the other, and every dependency of the first is
/// one of the other. So tables that pass for the other traffic pass for the first.
pub fn fewer_routes_fewer_dependencies()
    ensures sends { (fabric : FabricOf) (tables : TablesOf) (one other : Traffic) (lid : ℕ) (source : EndPort)
        → IsNoMore one other → Sends fabric tables one lid source → Sends fabric tables other lid source }
    ensures depends { (fabric : FabricOf) (tables : TablesOf) (one other : Traffic) (channel next : Channel)
        → IsNoMore one other
        → DependsOn fabric tables one channel next → DependsOn fabric tables other channel next }
    ensures passes { (fabric : FabricOf) (tables : TablesOf) (one other : Traffic)
        → IsNoMore one other
        → HasNoCycle (DependsOn fabric tables other) → AllArrive fabric tables other
        → HasNoCycle (DependsOn fabric tables one) × AllArrive fabric tables one }
{}

/// Proves that tables have one verdict. Each channel has one rank. There is one least credit loop, and one LID and one
/// GUID of the source of the least route that makes a dependency. Ranks and a credit loop exclude each other. If every
/// route of the traffic arrives, none is stopped. The numbers of links, channels and dependencies are unique.
pub fn one_answer()
    ensures ranks { (fabric : FabricOf) (tables : TablesOf) (traffic : Traffic) (one other : List ℕ)
        (channel : Channel)
        → HasRanks fabric tables traffic one → HasRanks fabric tables traffic other
        → rank_in fabric one channel ≡ rank_in fabric other channel }
    ensures cycle { (fabric : FabricOf) (tables : TablesOf) (traffic : Traffic) (one other : List LoopChannel)
        → CycleIs fabric tables traffic one → CycleIs fabric tables traffic other → spots_in one ≡ spots_in other }
    ensures witness { (fabric : FabricOf) (tables : TablesOf) (traffic : Traffic) (channel next : Channel)
        (lid other_lid : ℕ) (source other : EndPort)
        → IsLeastWitness fabric tables traffic channel next lid source
        → IsLeastWitness fabric tables traffic channel next other_lid other
        → (lid ≡ other_lid) × (guid_of fabric source ≡ guid_of fabric other) }
    ensures either { (fabric : FabricOf) (tables : TablesOf) (traffic : Traffic) (ranks : List ℕ)
        (channels : List LoopChannel)
        → HasRanks fabric tables traffic ranks → CycleIs fabric tables traffic channels → ⊥ }
    ensures arrive { (fabric : FabricOf) (tables : TablesOf) (traffic : Traffic)
        → AllArrive fabric tables traffic → SomeIsStopped fabric tables traffic → ⊥ }
    ensures links { (fabric : FabricOf) (one other : ℕ)
        → IsLinkCount fabric one → IsLinkCount fabric other → one ≡ other }
    ensures channels { (fabric : FabricOf) (one other : ℕ)
        → IsChannelCount fabric one → IsChannelCount fabric other → one ≡ other }
    ensures dependencies { (fabric : FabricOf) (tables : TablesOf) (traffic : Traffic) (one other : ℕ)
        → IsDependencyCount fabric tables traffic one → IsDependencyCount fabric tables traffic other → one ≡ other }
{}
