//! Theorems about the world as a run of the game of all epochs: what holds at each point in time of a history, and
//! of a history that ends settled.

ghost use Rattle.std.specs.Prelude.{◌≡◌, ◌<◌, ◌≤◌, ◌++◌, ℕ, Contains, List, Some, length};
ghost use Rattle.an_base.specs.Values.{EndId};
ghost use Rattle.an_base.specs.declared.event.Event.{Event};
ghost use Rattle.net_script.specs.Scripts.{IsScript, ScriptOf};
ghost use Rattle.epoch_game.specs.Game.{Play};
ghost use Rattle.switch_core.specs.Switch.{good_peer};
ghost use Rattle.switch_game.specs.Playing.{Agrees};
ghost use Rattle.net_state.specs.Fabric.{life_of};
ghost use Rattle.net_world.specs.World.{world_after};
ghost use Rattle.net_world.specs.Clauses.{AreAllRouted, AreOnePicture, AreOwnTables, AreTopologies, HoldsAtEachMoment, HoldsThroughout, IfSettled, NoneIsOlder};
ghost use Rattle.net_world.specs.Traces.{AreDelivered, AreHopsByTables, AreLegalRoutes};
ghost use Rattle.net_world.specs.Heard.{IsHeard};
ghost use Rattle.net_game.specs.Embedding.{IsEmbedded};
ghost use Rattle.net_game.specs.Histories.{OfEachHistory};
ghost use Rattle.net_game.specs.Meeting.{Met};
ghost use Rattle.net_game.specs.Lives.{all_lives};
ghost use Rattle.net_game.specs.Moves.{HasRested, first_game, game_after};

/// A script has at most 126 lives, and each switch is always in one of them.
pub fn a_script_has_few_lives()
    ensures few { (script : ScriptOf) → IsScript script → length (all_lives script) ≤ 126 }
    ensures present { (script : ScriptOf) → IsScript script → (history : List Event) (place : ℕ)
        → place < length script.wires.switches
        → Contains (all_lives script) ((world_after script history).switches place).life }
{}

/// The moves of a history are a run of the game of all epochs, which continues as the history does. The game has of
/// each present life what its switch has, and a life that is gone makes no further move.
pub fn a_history_plays_the_game()
    ensures run { (script : ScriptOf) → IsScript script → (history : List Event)
        → Play (all_lives script) (first_game script) (game_after script history) }
    ensures later { (script : ScriptOf) → IsScript script → (before more : List Event)
        → Play (all_lives script) (game_after script before) (game_after script (before ++ more)) }
    ensures agrees { (script : ScriptOf) → IsScript script → (history : List Event) (place : ℕ)
        → place < length script.wires.switches
        → Agrees ((world_after script history).switches place).life
        ((world_after script history).switches place)
        (game_after script history) }
    ensures gone { (script : ScriptOf) → IsScript script → (before more : List Event) (place boot : ℕ)
        → place < length script.wires.switches
        → boot < ((world_after script before).switches place).life.boot
        → HasRested (life_of script place boot) (game_after script before)
        (game_after script (before ++ more)) }
{}

/// Each history is a history of a network of all its lives, of which nothing is known but which frames were sent,
/// and which plays the game of the history. At each point in time the present lives are the switches at their
/// indices.
pub fn a_history_happens_in_a_network()
    ensures { (script : ScriptOf) → IsScript script → (history : List Event)
        → IsEmbedded script (all_lives script) history }
{}

/// Each frame that a switch handles was sent by some switch before.
pub fn what_is_heard_was_sent()
    ensures { OfEachHistory IsHeard }
{}

/// Lives that finished one epoch under one root hold one topology, now or at any point in time. It is a tree of
/// exactly the lives that its links join, includes the life, and has the numbers of its numbering. The rows that
/// the definition gives it join all of them by the script's legal routes, and no channel leads back to itself. A
/// table in use is the routing table of what its life finished with in the table's epoch. After a load of a
/// topology in an epoch, none of its members uses a table of a lower epoch, in every history.
pub fn what_is_finished_is_one_picture()
    ensures picture { OfEachHistory AreOnePicture }
    ensures topologies { OfEachHistory AreTopologies }
    ensures routed { OfEachHistory AreAllRouted }
    ensures tables { OfEachHistory AreOwnTables }
    ensures older { OfEachHistory NoneIsOlder }
    ensures moments { OfEachHistory HoldsAtEachMoment }
{}

/// States what the moves of a packet say. Each of its hops to another switch is by the lowest exit of the row that
/// serves it, in the routing table in use, which is the one of what the present life has finished with in its
/// epoch. Consecutive hops under tables of one epoch and root lead over the links of that one topology, from life
/// to life, along a legal route. A packet is delivered at the host to which it was sent.
pub fn what_moves_say()
    ensures hops { OfEachHistory AreHopsByTables }
    ensures routes { OfEachHistory AreLegalRoutes }
    ensures delivered { OfEachHistory AreDelivered }
{}

/// A good link leads to the far end of its wire: if a life shows a port as good, the other end that it names is the
/// port at the far side by the wiring, of a life that was at that index at a point in time at which this life was
/// at its own.
pub fn a_good_link_leads_to_who_was_there()
    ensures { (script : ScriptOf) → IsScript script → (history : List Event) (place port : ℕ) (far : EndId)
        → place < length script.wires.switches
        → good_peer ((world_after script history).switches place) port ≡ Some far
        → Met script history place ((world_after script history).switches place).life port far }
{}

/// If a history ends settled, each component of present lives is in one epoch and has finished it under its lowest
/// life with one topology, whose entries are the members with their good links in their places in the tree, and
/// each member uses the table of that topology.
pub fn a_settled_history_has_finished()
    ensures { OfEachHistory IfSettled }
{}

/// All that is claimed of a history holds of every history: at each point in time, and at its end if it ends
/// settled.
pub fn what_is_claimed_holds()
    ensures { OfEachHistory HoldsThroughout }
{}
