//! A theorem about histories that were worked out apart from the definitions, with one event changed.

ghost use Rattle.std.specs.Prelude.{◌≡◌, take, None};
ghost use Rattle.an_base.specs.declared.event.Event.TheVariants.{Tick, Clock, Take, Handle, Load, Move};
ghost use Rattle.net_world.specs.Histories.{end_of};
ghost use Rattle.net_world.specs.Changes.{IsRefusedAfter, with_added, with_left_out};
ghost use Rattle.net_world.specs.Examples.{restart_script, restart_history};
ghost use Rattle.net_world.specs.Examples.{packets_script, packets_history};
ghost use Rattle.net_world.specs.Examples.{spent_script, spent_history};
ghost use Rattle.net_world.specs.Examples.{told_script, told_history};

/// With one event added or removed, these lawful histories are lawful for a given number of events, and the next
/// event is not lawful.
///
/// The added event is: a load before anything is finished, or a second load; a clock event that is not due; a second
/// clock event, or a restart, while the switch holds something; handling by a switch that holds nothing; taking a
/// frame that nobody sent; a load in an epoch that was joined and not finished; moving a packet after it was
/// delivered; a tick while a packet is in flight; or a tick after the end. If the last load is left out, the
/// history has not ended.
pub fn some_changes_are_refused()
    ensures early { IsRefusedAfter 0 restart_script (with_added 0 (Load 0) restart_history) }
    ensures twice { IsRefusedAfter 3 restart_script (with_added 3 (Load 0) restart_history) }
    ensures clock { IsRefusedAfter 6 restart_script (with_added 6 (Clock 0) restart_history) }
    ensures full { IsRefusedAfter 8 restart_script (with_added 8 (Clock 0) restart_history) }
    ensures restart { IsRefusedAfter 11 restart_script (with_added 10 (Clock 0) restart_history) }
    ensures empty { IsRefusedAfter 2 restart_script (with_added 2 (Handle 0) restart_history) }
    ensures unsent { IsRefusedAfter 4 told_script (with_added 4 (Take 0 1) told_history) }
    ensures joined { IsRefusedAfter 22 told_script (with_added 22 (Load 0) told_history) }
    ensures delivered { IsRefusedAfter 11 packets_script (with_added 11 (Move 1) packets_history) }
    ensures under_way { IsRefusedAfter 10 packets_script (with_left_out 10 packets_history) }
    ensures spent { IsRefusedAfter 2 spent_script (with_added 2 Tick spent_history) }
    ensures settled { IsRefusedAfter 14 restart_script (with_added 14 Tick restart_history) }
    ensures unfinished { end_of restart_script (take 13 restart_history) ≡ None }
{}
