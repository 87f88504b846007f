//! What is so of each mixture of two tables. No function here has code.

ghost use Rattle.std.specs.Prelude.{◌≡◌, ◌≢◌, ◌<◌, ◌≤◌, ℕ, List, [], None};
ghost use Rattle.common_graph.specs.Cycles.{HasNoCycle};
ghost use Rattle.fabric_tables.specs.Cells.{TablesOf};
ghost use Rattle.fabric_model.specs.declared.node.EndPort.TheVariants as port;
ghost use Rattle.fabric_model.specs.Fabric.{FabricOf, owner_of, switch_count};
ghost use Rattle.fabric_model.specs.declared.traffic.Traffic.{Traffic};
ghost use Rattle.fabric_model.specs.declared.traffic.Traffic.TheVariants.{All, Rows};
ghost use Rattle.fabric_routes.specs.Routes.{Channel, DependsOn, SendsToOwner};
ghost use Rattle.fabric_verdict.specs.Packets.{QueuesOf};
ghost use Rattle.fabric_mixtures.specs.Mixtures.{IsEmptied, IsMixture, MayBeFollowed, MayTakeBoth};
ghost use Rattle.fabric_mixtures.specs.Moves.{DependsWhile};
ghost use Rattle.fabric_mixtures.specs.Packets.{AllStandWhile, ComesFree};
ghost use Rattle.fabric_mixtures.specs.Verdict.{HasRanks};

/// A mixture of two tables makes no dependency that they do not make together. So if no channels that may follow one
/// another lead round, no mixture has a credit loop, for any traffic, also for LIDs that nobody owns. Each of the two
/// tables is a mixture.
pub fn no_mixture_has_a_loop()
    ensures depends { (fabric : FabricOf) (old new mixed : TablesOf) (traffic : Traffic) (channel next : Channel)
        → IsMixture old new mixed → DependsOn fabric mixed traffic channel next
        → MayBeFollowed fabric old new channel next }
    ensures no_loop { (fabric : FabricOf) (old new mixed : TablesOf) (traffic : Traffic)
        → HasNoCycle (MayBeFollowed fabric old new) → IsMixture old new mixed
        → HasNoCycle (DependsOn fabric mixed traffic) }
    ensures both { (old new : TablesOf) → IsMixture old new old × IsMixture old new new }
{}

/// The same while rows change: a packet takes each hop by a mixture of its own, in whatever order these follow one
/// another.
pub fn no_change_has_a_loop()
    ensures depends { (fabric : FabricOf) (old new : TablesOf) (traffic : Traffic) (channel next : Channel)
        → DependsWhile fabric old new traffic channel next → MayBeFollowed fabric old new channel next }
    ensures no_loop { (fabric : FabricOf) (old new : TablesOf) (traffic : Traffic)
        → HasNoCycle (MayBeFollowed fabric old new) → HasNoCycle (DependsWhile fabric old new traffic) }
{}

/// What may be followed is: some packet takes the one channel and then the other while rows change, and if the channels
/// are out of two switches, one mixture makes the dependency. It is so for the traffic `all` if the switch of the channel
/// sends to the LID, as it does if another end port owns the LID; and for `rows` if nobody owns it.
pub fn what_may_be_followed_is()
    ensures changing { (fabric : FabricOf) (old new : TablesOf) (lid : ℕ) (channel next : Channel)
        → MayTakeBoth fabric old new lid channel next → SendsToOwner fabric All lid (port.Switch channel.switch)
        → DependsWhile fabric old new All channel next }
    ensures at_once { (fabric : FabricOf) (old new : TablesOf) (lid : ℕ) (channel next : Channel)
        → MayTakeBoth fabric old new lid channel next → SendsToOwner fabric All lid (port.Switch channel.switch)
        → channel.switch ≢ next.switch
        → (mixed : TablesOf) × IsMixture old new mixed × DependsOn fabric mixed All channel next }
    ensures changing_unowned { (fabric : FabricOf) (old new : TablesOf) (lid : ℕ) (channel next : Channel)
        → MayTakeBoth fabric old new lid channel next → owner_of fabric lid ≡ None
        → channel.switch < switch_count fabric → DependsWhile fabric old new Rows channel next }
    ensures at_once_unowned { (fabric : FabricOf) (old new : TablesOf) (lid : ℕ) (channel next : Channel)
        → MayTakeBoth fabric old new lid channel next → owner_of fabric lid ≡ None
        → channel.switch < switch_count fabric → channel.switch ≢ next.switch
        → (mixed : TablesOf) × IsMixture old new mixed × DependsOn fabric mixed Rows channel next }
{}

/// Rows may be taken out first. Tables and what is left of them make together no more than they make alone, so no
/// channels lead round if none do by the tables alone.
pub fn emptied_rows_add_nothing()
    ensures follows { (fabric : FabricOf) (old emptied : TablesOf) (channel next : Channel)
        → IsEmptied old emptied → MayBeFollowed fabric old emptied channel next
        → MayBeFollowed fabric old old channel next }
    ensures no_loop { (fabric : FabricOf) (old emptied : TablesOf)
        → HasNoCycle (MayBeFollowed fabric old old) → IsEmptied old emptied
        → HasNoCycle (MayBeFollowed fabric old emptied) }
{}

/// Some packet can move while rows change. Let no channels that may follow one another lead round, as ranks of the
/// channels show, and let each channel have at least one place. Let each packet stand in a channel that one of the tables
/// gave for its LID, and let each switch have looked its next port up in some mixture, each in its own. From each channel
/// that is not empty, each time to the channel for which its first packet waits, one comes to a channel whose first packet
/// leaves or has room ahead.
pub fn some_packet_can_move()
    ensures { (fabric : FabricOf) (old new : TablesOf) (ranks : List ℕ) (looked_up : Channel → TablesOf)
        (room : Channel → ℕ) (queue : QueuesOf) (channel : Channel) → HasRanks fabric old new ranks
        → ((each : Channel) → IsMixture old new (looked_up each)) → ((each : Channel) → 1 ≤ room each)
        → AllStandWhile fabric old new queue → queue channel ≢ [] → ComesFree fabric looked_up room queue channel }
{}
