//! What the switches do whatever happens to their frames, and what holds if nothing is under way.

ghost use Rattle.std.specs.Prelude.{◌≡◌, ◌<◌, ◌≤◌, ℕ, Contains, List, None, Some, false, length, true};
ghost use Rattle.an_base.specs.Values.{EndId, EntryOf, LifeId, TopoOf};
ghost use Rattle.epoch_game.specs.Slice.{IsJoinedBy};
ghost use Rattle.epoch_game.specs.Game.{Game, HasFinished, Play, begins, slice};
ghost use Rattle.switch_core.specs.Switch.{finish_of, good_links, good_peer, is_unacked};
ghost use Rattle.switch_core.specs.Steps.{peer_among};
ghost use Rattle.switch_game.specs.Network.{Happens, Network, PowerOn, dark};
ghost use Rattle.switch_game.specs.Playing.{Agrees, FarHasAll, FarHasSome, HasStayed, IsQuietLink, IsSettledLink};
ghost use Rattle.switch_game.specs.Quiet.{HasSettled, IsQuiet};

/// Whatever the wires do, what the switches do are moves of the game of all epochs, from whatever epochs the lives
/// are powered on in, and the game has of each life what its switch has. What happens later are further moves; they
/// do not change what a life did in an epoch below its present one.
pub fn switches_play_the_game()
    ensures plays { (lives : List LifeId) (on : PowerOn) (network : Network) (game : Game)
        → Happens lives (dark on) (begins on.epoch) network game → Play lives (begins on.epoch) game }
    ensures agrees { (lives : List LifeId) (on : PowerOn) (network : Network) (game : Game) (life : LifeId)
        → Happens lives (dark on) (begins on.epoch) network game → Agrees life (network.switches life) game }
    ensures later { (lives : List LifeId) (on : PowerOn) (network later : Network) (game later_game : Game)
        → Happens lives (dark on) (begins on.epoch) network game → Happens lives network game later later_game
        → Play lives game later_game }
    ensures left { (lives : List LifeId) (on : PowerOn) (network later : Network) (game later_game : Game)
        (life : LifeId) (epoch : ℕ)
        → Happens lives (dark on) (begins on.epoch) network game → Happens lives network game later later_game
        → epoch < (network.switches life).epoch → HasStayed life epoch game later_game }
{}

/// The links with which a life joined its epoch are its good links for as long as it is in the epoch and its epochs
/// are not spent. Before it has joined an epoch it has no good links.
pub fn the_links_are_the_good_ones()
    ensures life { (lives : List LifeId) (on : PowerOn) (network : Network) (game : Game) (life : LifeId)
        → Happens lives (dark on) (begins on.epoch) network game → (network.switches life).life ≡ life }
    ensures links { (lives : List LifeId) (on : PowerOn) (network : Network) (game : Game) (life : LifeId)
        → Happens lives (dark on) (begins on.epoch) network game → (network.switches life).joined ≡ true
        → (network.switches life).spent ≡ false
        → (network.switches life).card.links ≡ good_links (network.switches life) }
    ensures peers { (lives : List LifeId) (on : PowerOn) (network : Network) (game : Game) (life : LifeId)
        (port : ℕ)
        → Happens lives (dark on) (begins on.epoch) network game → (network.switches life).joined ≡ true
        → (network.switches life).spent ≡ false
        → 1 ≤ port → port ≤ 12
        → peer_among (network.switches life).card.links port ≡ good_peer (network.switches life) port }
    ensures unjoined { (lives : List LifeId) (on : PowerOn) (network : Network) (game : Game) (life : LifeId)
        (port : ℕ)
        → Happens lives (dark on) (begins on.epoch) network game → (network.switches life).joined ≡ false
        → (network.switches life).spent ≡ false
        → good_peer (network.switches life) port ≡ None }
{}

/// If a life has joined, and some body that it sent on a link is acknowledged, the far end of the link has joined
/// that epoch, names the link, and has accepted at least as many bodies as are acknowledged; if all are
/// acknowledged, it has accepted all that was sent on the link. This holds even if the far end has left the epoch
/// since.
pub fn what_is_acknowledged_is_accepted()
    ensures some { (lives : List LifeId) (on : PowerOn) (network : Network) (game : Game) (life : LifeId)
        (port : ℕ) (far : EndId)
        → Happens lives (dark on) (begins on.epoch) network game → (network.switches life).joined ≡ true
        → peer_among (network.switches life).card.links port ≡ Some far
        → 1 ≤ ((network.switches life).sendings port).acked
        → FarHasSome game life port (network.switches life) far }
    ensures all { (lives : List LifeId) (on : PowerOn) (network : Network) (game : Game) (life : LifeId)
        (port : ℕ) (far : EndId)
        → Happens lives (dark on) (begins on.epoch) network game → (network.switches life).joined ≡ true
        → peer_among (network.switches life).card.links port ≡ Some far
        → is_unacked ((network.switches life).sendings port) ≡ false
        → FarHasAll game life port (network.switches life) far }
{}

/// If two lives are good peers of each other and nothing waits or is unacknowledged at either end, both are in one
/// epoch, and each has accepted all that the other sent on their link.
pub fn a_quiet_link_is_settled()
    ensures { (lives : List LifeId) (on : PowerOn) (network : Network) (game : Game) (life other : LifeId)
        (port other_port : ℕ)
        → Happens lives (dark on) (begins on.epoch) network game
        → (network.switches life).spent ≡ false → (network.switches other).spent ≡ false
        → 1 ≤ port → port ≤ 12 → 1 ≤ other_port → other_port ≤ 12
        → IsQuietLink (network.switches life) (network.switches other) port other_port
        → IsSettledLink (network.switches life) (network.switches other) port other_port }
{}

/// At most 126 lives have joined the epoch of `life`, however many there are in total. If each life that is reached
/// from it over good ports has joined, its good ports are good at both ends, and nothing waits or is
/// unacknowledged, then all of them are in that epoch, each has its place in the spanning tree of exactly these
/// lives, and each has finished with one topology, which has the entries of these lives with their good links and
/// no other.
pub fn a_quiet_component_has_finished()
    ensures { (lives members : List LifeId) (on : PowerOn) (network : Network) (game : Game) (life : LifeId)
        → length members ≤ 126 → Happens lives (dark on) (begins on.epoch) network game
        → IsJoinedBy members (slice (network.switches life).epoch game)
        → IsQuiet network life → HasSettled members network game life }
{}

/// If a life has finished in an epoch that at most 126 lives have joined, even if it has left it since, each life
/// of its topology is in that epoch or in a higher one.
pub fn no_member_is_behind()
    ensures finished { (lives members : List LifeId) (on : PowerOn) (network : Network) (game : Game)
        (life : LifeId) (epoch : ℕ) (finished : HasFinished game life epoch) (entry : EntryOf)
        → length members ≤ 126 → Happens lives (dark on) (begins on.epoch) network game
        → IsJoinedBy members (slice epoch game)
        → Contains finished.topology.entries entry → epoch ≤ (network.switches entry.life).epoch }
    ensures present { (lives members : List LifeId) (on : PowerOn) (network : Network) (game : Game)
        (life : LifeId) (topology : TopoOf) (entry : EntryOf)
        → length members ≤ 126 → Happens lives (dark on) (begins on.epoch) network game
        → IsJoinedBy members (slice (network.switches life).epoch game)
        → finish_of (network.switches life) ≡ Some topology → Contains topology.entries entry
        → (network.switches life).epoch ≤ (network.switches entry.life).epoch }
{}
