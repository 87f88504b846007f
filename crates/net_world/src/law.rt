//! Theorems about the world: the invariant of every world that is reached, which events are lawful next, and what
//! the events of others leave unchanged. They hold after any events, lawful or not, because an event that is not
//! lawful changes nothing. The last one has whole histories, one for each ending.

ghost use Rattle.std.specs.Prelude.{◌≡◌, ◌≢◌, ◌+◌, ◌==◌, ◌<◌, ◌≤◌, ℕ, List, [], ◌++◌, All, filter, length, map, is_some, ◌∷◌, Some, None, true, false};
ghost use Rattle.an_base.specs.Values.{TopoOf};
ghost use Rattle.an_base.specs.declared.event.Event.{Event};
ghost use Rattle.an_base.specs.declared.event.Event.TheVariants.{Handle, Load};
ghost use Rattle.net_script.specs.Scripts.{ScriptOf, IsScript, restarts_of};
ghost use Rattle.switch_core.specs.Sound.{IsSound};
ghost use Rattle.switch_core.specs.Switch.{finish_of};
ghost use Rattle.wire_set.specs.WireState.{hand_of};
ghost use Rattle.net_world.specs.declared.ask.Ask.{Ask};
ghost use Rattle.net_state.specs.declared.ending.Ending.{Ending};
ghost use Rattle.net_state.specs.declared.ending.Ending.TheVariants as ending;
ghost use Rattle.net_state.specs.Fabric.{is_full_at, load_due_at, station, table_at};
ghost use Rattle.net_state.specs.Agree.{ending_of};
ghost use Rattle.net_state.specs.Lawful.{is_lawful, is_barred};
ghost use Rattle.net_world.specs.World.{begun, world_after};
ghost use Rattle.net_world.specs.Lines.{all_lines};
ghost use Rattle.net_world.specs.Traces.{moved_line, tells_of_hop, trace_of};
ghost use Rattle.net_world.specs.Histories.{IsLawful, IsLegal, owner_of};
ghost use Rattle.net_state.specs.Choices.{next_work, event_of_work, next_drive, event_of_drive};
ghost use Rattle.net_world.specs.Turns.{IsFit};
ghost use Rattle.net_world.specs.Solo.{IsSolo};
ghost use Rattle.net_world.specs.Sound.{IsSoundWorld, HasNext, AllMayCome, TopoFits};
ghost use Rattle.net_world.specs.Examples.{IsWorkedOut};
ghost use Rattle.net_world.specs.Examples.{restart_script, restart_history, restart_lines};
ghost use Rattle.net_world.specs.Examples.{packets_script, packets_history, packets_lines};
ghost use Rattle.net_world.specs.Examples.{spent_script, spent_history, spent_lines};
ghost use Rattle.net_world.specs.Examples.{full_script, full_history, full_lines};
ghost use Rattle.net_world.specs.Examples.{unsettled_script, unsettled_history, unsettled_lines};
ghost use Rattle.net_world.specs.Examples.{told_script, told_history, told_lines};
ghost use Rattle.net_world.specs.Examples.{first_table, second_table};
ghost use Rattle.net_world.specs.Examples.{routed_script, routed_history, routed_lines};
ghost use Rattle.net_state.specs.declared.line.Line.TheVariants as line;

/// After any events of a valid script, the world is sound.
pub fn a_world_is_sound()
    ensures sound { (script : ScriptOf) → IsScript script → (history : List Event)
        → IsSoundWorld script (world_after script history) }
{}

/// No switch has more lives than the script gives it, and no two switches have the same life.
pub fn lives_differ()
    ensures boots { (script : ScriptOf) (history : List Event) (place : ℕ)
        → ((world_after script history).switches place).life.boot ≤ 1 + restarts_of script.commands }
    ensures apart { (script : ScriptOf) → IsScript script → (history : List Event) (one other : ℕ)
        → one < length script.wires.switches → other < length script.wires.switches
        → ((world_after script history).switches one).life
        ≡ ((world_after script history).switches other).life
        → one ≡ other }
{}

/// Each switch is sound, after at most as many clock events and frames as there were events.
///
/// A topology that it finishes with has one number for each entry, each from 1 to 126.
pub fn a_switch_is_sound()
    ensures sound { (script : ScriptOf) → IsScript script → (history : List Event) (place : ℕ)
        → place < length script.wires.switches
        → IsSound (world_after script history).fabric.events ((world_after script history).switches place) }
    ensures finish { (script : ScriptOf) → IsScript script → (history : List Event) (place : ℕ)
        (topo : TopoOf) → place < length script.wires.switches
        → finish_of ((world_after script history).switches place) ≡ Some topo → TopoFits topo }
{}

/// If the history has not ended, some event is lawful next.
pub fn some_event_may_come_next()
    ensures next { (script : ScriptOf) → IsScript script → (history : List Event)
        → is_some (ending_of (world_after script history).fabric) ≡ false
        → HasNext (world_after script history).fabric }
{}

/// The event that a turn appends is lawful.
///
/// It is the work of a switch that holds nothing, the handling of what a switch holds, a load that is due if nothing
/// bars it, or the next action of the driver.
pub fn what_a_turn_appends_is_lawful()
    ensures work { (script : ScriptOf) (history : List Event) (place last : ℕ)
        → place < length script.wires.switches → is_full_at (world_after script history).fabric place ≡ false
        → AllMayCome (world_after script history).fabric
        (event_of_work place (next_work (world_after script history).fabric place last)) }
    ensures handle { (script : ScriptOf) (history : List Event) (place : ℕ)
        → place < length script.wires.switches → is_full_at (world_after script history).fabric place ≡ true
        → is_lawful (world_after script history).fabric (Handle place) ≡ true }
    ensures load { (script : ScriptOf) (history : List Event) (place : ℕ)
        → place < length script.wires.switches → is_barred (world_after script history).fabric ≡ false
        → is_full_at (world_after script history).fabric place ≡ false
        → load_due_at (world_after script history).fabric place ≡ true
        → is_lawful (world_after script history).fabric (Load place) ≡ true }
    ensures drive { (script : ScriptOf) → IsScript script → (history : List Event)
        → AllMayCome (world_after script history).fabric
        (event_of_drive (next_drive (world_after script history).fabric)) }
{}

/// Events that belong to others do not change the station of a switch, the switch, or the bytes that it holds.
///
/// So a request that was valid remains valid after them.
pub fn others_change_nothing_here()
    ensures place { (script : ScriptOf) (history more : List Event) (place : ℕ)
        → All (λ event. owner_of event ≢ place + 1) more
        → station (world_after script (history ++ more)).fabric place
        ≡ station (world_after script history).fabric place }
    ensures switch { (script : ScriptOf) (history more : List Event) (place : ℕ)
        → All (λ event. owner_of event ≢ place + 1) more
        → (world_after script (history ++ more)).switches place
        ≡ (world_after script history).switches place }
    ensures hand { (script : ScriptOf) → IsScript script → (history more : List Event) (place : ℕ)
        → All (λ event. owner_of event ≢ place + 1) more
        → hand_of (world_after script (history ++ more)).fabric.wires place
        ≡ hand_of (world_after script history).fabric.wires place }
    ensures fit { (script : ScriptOf) (history : List Event) (caller : ℕ) (ask : Ask) (more : List Event)
        → IsFit script history caller ask → filter (λ event. owner_of event == caller) more ≡ []
        → IsFit script (history ++ more) caller ask }
{}

/// The fabric has counted every event of a lawful history.
pub fn each_lawful_event_counts()
    ensures { (script : ScriptOf) → IsScript script → (history : List Event) → IsLawful script history
        → (world_after script history).fabric.events ≡ length history }
{}

/// One thread makes only one history of a script, with one ending.
pub fn one_run_on_one_thread()
    ensures { (script : ScriptOf) (one other : List Event) (end last : Ending)
        → IsSolo script one end → IsSolo script other last → (one ≡ other) × (end ≡ last) }
{}

/// The history that one thread makes is lawful, and has its ending.
pub fn a_run_on_one_thread_is_legal()
    ensures { (script : ScriptOf) → IsScript script → (history : List Event) (end : Ending)
        → IsSolo script history end → IsLegal script history end }
{}

/// In a lawful history, the lines that report the hops of a packet to other switches are its trace.
pub fn what_is_told_of_hops_is_the_trace()
    ensures { (script : ScriptOf) (history : List Event) (number : ℕ) → IsLawful script history
        → filter (tells_of_hop number) (all_lines (begun script) history)
        ≡ map (moved_line number) (trace_of script history number) }
{}

/// These histories of these scripts are lawful, have these endings, and are reported by these lines.
///
/// They contain a restart; packets; an ending of each of the four kinds; frames that are lost, copied and exchanged on
/// a link, whose two switches then use these tables; and packets over a link, the first of which has this trace.
pub fn some_histories_are_worked_out()
    ensures restart { IsWorkedOut restart_script restart_history ending.Settled restart_lines }
    ensures packets { IsWorkedOut packets_script packets_history ending.Settled packets_lines }
    ensures spent { IsWorkedOut spent_script spent_history
        (ending.Spent (record { uid = 1; boot = 1 })) spent_lines }
    ensures full { IsWorkedOut full_script full_history ending.Full full_lines }
    ensures unsettled { IsWorkedOut unsettled_script unsettled_history ending.Unsettled unsettled_lines }
    ensures told { IsWorkedOut told_script told_history ending.Settled told_lines }
    ensures routed { IsWorkedOut routed_script routed_history ending.Settled routed_lines }
    ensures traced { map (moved_line 1) (trace_of routed_script routed_history 1)
        ≡ line.Moved 1 0 2 11 1 None ∷ [] }
    ensures first { table_at (world_after told_script told_history).fabric 0 ≡ Some first_table }
    ensures second { table_at (world_after told_script told_history).fabric 1 ≡ Some second_table }
{}
