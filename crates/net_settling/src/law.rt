//! Theorems about how soon a network settles: without a pace, counted from the last command or the last commanded
//! loss.

ghost use Rattle.std.specs.Prelude.{◌≡◌, ◌≢◌, ◌≤◌, ◌<◌, ◌+◌, ◌++◌, ℕ, suc, Bool, List, None, Some, true, false};
ghost use Rattle.an_base.specs.declared.event.Event.{Event};
ghost use Rattle.net_graph.specs.Wires.{far_at};
ghost use Rattle.net_graph.specs.declared.wiring.Far.TheVariants.{Switch};
ghost use Rattle.net_script.specs.Scripts.{IsScript, ScriptOf};
ghost use Rattle.wire_set.specs.declared.side.Loss.{Loss};
ghost use Rattle.ordered_link.specs.Sending.{highest};
ghost use Rattle.switch_core.specs.Switch.{port_of};
ghost use Rattle.link_settling.specs.Measures.{Knows};
ghost use Rattle.link_settling.specs.Links.{Ticks};
ghost use Rattle.link_settling.specs.Moments.{TickEnds};
ghost use Rattle.link_settling.specs.Directions.{IsStill};
ghost use Rattle.net_state.specs.declared.ending.Ending.TheVariants as ending;
ghost use Rattle.net_state.specs.Fabric.{is_some_spent, is_up};
ghost use Rattle.net_world.specs.World.{WorldOf, step, world_after};
ghost use Rattle.net_world.specs.Histories.{IsLawful, end_of};
ghost use Rattle.net_settling.specs.Views.{IsCut, IsRun, LinkOf, end_here, end_there, here, is_session, there, turned, view, way};
ghost use Rattle.net_settling.specs.Disturbances.{is_either, last_disturbance};
ghost use Rattle.net_settling.specs.Settling.{AreBodiesThrough, ArePortsFinal, HasTime, IfUnpacedAndRoomy, PortsSettle, Settles};
ghost use Rattle.net_settling.specs.Claims.{HoldsAndSettles};

/// The clock never goes back; the last disturbance is no later than the clock, and no earlier in a longer history.
pub fn a_disturbance_is_not_later()
    ensures clock { (world : WorldOf) (event : Event) → world.fabric.tick ≤ (step world event).fabric.tick }
    ensures past { (test : Loss → Bool) (script : ScriptOf) (history : List Event)
        → last_disturbance test script history ≤ (world_after script history).fabric.tick }
    ensures grows { (test : Loss → Bool) (script : ScriptOf) (history more : List Event)
        → last_disturbance test script history ≤ last_disturbance test script (history ++ more) }
{}

/// A link settles, if it was cut into ticks. At the end of a tick there is one more; 259 ticks after the last
/// disturbance its ends know each other; and three ticks later each body on it is acknowledged, if both ends have a
/// session in which each sent a body, and nothing is under way.
pub fn a_link_settles()
    ensures ends { (last : ℕ) (world : WorldOf) (link : LinkOf) → (cut : IsCut last world link)
        → TickEnds (view world link) → TickEnds (view world (turned link))
        → Ticks (end_here world link) (end_there world link) (suc cut.ticks)
        ((here world link).ports link.port) ((there world link).ports link.far_port) }
    ensures knows { (last : ℕ) (world : WorldOf) (link : LinkOf) → IsCut last world link
        → last + 259 ≤ world.fabric.tick
        → Knows (end_here world link) (end_there world link) (port_of (here world link) link.port)
        × Knows (end_there world link) (end_here world link) (port_of (there world link) link.far_port) }
    ensures acknowledged { (base : ℕ) (world : WorldOf) (link : LinkOf) → IsRun base world link
        → IsRun base world (turned link)
        → is_session world link ≡ true → is_session world (turned link) ≡ true
        → 1 ≤ highest ((here world link).sendings link.port)
        → 1 ≤ highest ((there world link).sendings link.far_port)
        → IsStill (way world link) → IsStill (way world (turned link)) → base + 3 ≤ world.fabric.tick
        → ((here world link).epoch ≡ (there world link).epoch)
        × (((here world link).sendings link.port).acked ≡ highest ((here world link).sendings link.port))
        × (((there world link).sendings link.far_port).acked
        ≡ highest ((there world link).sendings link.far_port)) }
{}

/// Without a pace, while no switch is spent, each link that is up was cut into ticks since the last disturbance.
/// Each direction of each link between two switches is a run since the lives at its ends began, in which no frame
/// was lost from 259 ticks after the last disturbance on.
pub fn each_link_is_cut()
    ensures cut { (script : ScriptOf) → IsScript script → script.pace ≡ None → (history : List Event)
        → is_some_spent (world_after script history).fabric ≡ false
        → last_disturbance is_either script history < (world_after script history).fabric.tick
        → (link : LinkOf)
        → far_at script.wires link.place link.port ≡ Some (Switch link.far_place link.far_port)
        → is_up (world_after script history).fabric link.place link.port ≡ true
        → IsCut (last_disturbance is_either script history) (world_after script history) link }
    ensures run { (script : ScriptOf) → IsScript script → script.pace ≡ None → (history : List Event)
        → is_some_spent (world_after script history).fabric ≡ false → (link : LinkOf)
        → far_at script.wires link.place link.port ≡ Some (Switch link.far_place link.far_port)
        → link.place ≢ link.far_place
        → IsRun (last_disturbance is_either script history + 259) (world_after script history) link }
{}

/// Without a pace, 259 ticks after the last disturbance the network agrees, no switch is spent, and only a
/// disturbance changes a port. So more than 512 ticks after the last command or commanded loss it agrees for ever,
/// if no frame and no copy was lost because space ran out.
pub fn the_ports_are_final()
    ensures fixed { (script : ScriptOf) → IsScript script → script.pace ≡ None → ArePortsFinal script }
    ensures settle { (script : ScriptOf) → IsScript script → (history : List Event) → IsLawful script history
        → IfUnpacedAndRoomy script PortsSettle history }
{}

/// Without a pace, three ticks after the ports are final each body that was pushed is acknowledged, if nothing is
/// left to do. So once all commands are done, and if no frame and no copy was lost because space ran out, the clock
/// is at most 1,024 ticks after the last command or commanded loss. At that tick, if nothing is left to do, the
/// history is settled.
pub fn all_settles()
    ensures through { (script : ScriptOf) → IsScript script → script.pace ≡ None → AreBodiesThrough script }
    ensures settles { (script : ScriptOf) → IsScript script → (history : List Event) → IsLawful script history
        → IfUnpacedAndRoomy script Settles history }
{}

/// No lawful history that had the time to settle ends unsettled: without a pace, without a frame or a copy lost
/// because space ran out, and with a limit on ticks that is 1,024 or more above the times of all commands and the
/// last commanded loss.
pub fn none_with_time_ends_unsettled()
    ensures { (script : ScriptOf) → IsScript script → (history : List Event) → IsLawful script history
        → HasTime script history → end_of script history ≢ Some ending.Unsettled }
{}

/// All that is claimed of a lawful history holds of every one: at each point in time, at its end if it ends
/// settled, and how soon it settles.
pub fn what_is_claimed_holds()
    ensures { (script : ScriptOf) → IsScript script → (history : List Event) → IsLawful script history
        → HoldsAndSettles script history }
{}
