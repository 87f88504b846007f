//! The replay of a journal.

ghost use Rattle.std.specs.Prelude.{◌≡◌, ◌∷◌, ◌++◌, [], List, ℕ, false, IfErr, IfOk, OnOk};
ghost use Rattle.an_base.specs.declared.event.Event.{Event};
ghost use Rattle.net_script.specs.Scripts.{IsScript, ScriptOf};
ghost use Rattle.journal.specs.Reading.{HasRead};
ghost use Rattle.net_world.specs.Histories.{IsLawful, IsLegal, world_of};
ghost use Rattle.net_world.specs.Lines.{lines_of};
ghost use Rattle.net_settling.specs.Claims.{HoldsAndSettles};
ghost use Rattle.fabric_book.specs.Nets.{history_of, with_step};
ghost use Rattle.replay.specs.Replays.{HasMade, HasNoEnd, IfIllegal, IsNoReplay, IsRefusal, IsUnlawfulNext, line_after};

use crate::refusal::ReplayRefusal;
use an_base::event::{Event, Journal};
use fabric_book::lines::Lines;
use fabric_book::net::{Net, StepRefusal};
use journal::reader::Reader;
use journal_cause::cause::JournalCause;
use net_script::script::Script;
use net_state::ending::Ending;
use std::alloc::Global;
use std::marker::Model;

/// What a journal came to.
#[derive(Drop)]
pub struct World {
    end: Ending,
}

impl Model for World {
    ghost use Rattle.net_state.specs.declared.ending.Ending.{Ending};

    ghost Value = { Ending };

    ghost view = { λ w. w.end };
}

impl World {
    /// Returns the end.
    pub fn end(&self) -> Ending
        ensures { result ≡ self.now }
    {
        self.end
    }
}

// Returns the line of the next event in the text of a journal, or of the `end` after all events.
fn next_line(net: &Net) -> u32
    requires { IsLawful net.now.script net.now.events }
    ensures line { result ≡ line_after net.now.events }
    ensures kept { IsScript net.now.script }
{
    net.fabric().events() + 2
}

/// Makes the next event of a journal, and replaces `lines` by the lines that report it. The network must not be
/// marked as lost, and its history must be lawful.
///
/// # Errors
/// `Illegal` with `NotLawful`, if the event is not lawful, and its line in the text of the journal; or
/// `OutOfMemory`. The network can then only be dropped.
pub fn step(net: &mut Net, event: &Event, lines: &mut Lines) -> Result<(), ReplayRefusal>
    requires here { net.old.lost ≡ false }
    requires lawful { IsLawful net.old.script net.old.events }
    ensures stepped { OnOk result (net.new ≡ with_step event.now net.old) }
    ensures lawful { OnOk result (IsLawful net.new.script net.new.events) }
    ensures told { OnOk result (lines.new ≡ lines_of (world_of (history_of net.old)) event.now) }
    ensures refused { IfErr result (λ refused.
        IfIllegal refused (IsUnlawfulNext (history_of net.old) event.now)) }
{
    let line = next_line(net);
    lines.clear();
    match net.step(event, lines) {
        Ok(()) => Ok(()),
        Err(StepRefusal::NotLawful) => Err(ReplayRefusal::Illegal {
            line,
            cause: JournalCause::NotLawful,
        }),
        Err(StepRefusal::OutOfMemory) => Err(ReplayRefusal::OutOfMemory),
    }
}

/// Returns the end to which a journal has come. All that is claimed of a lawful history holds of the journal, which
/// must be lawful.
///
/// # Errors
/// `Illegal` with `Unfinished` and the last line of the text, if the journal has come to no end.
pub fn end_of(net: &Net) -> Result<Ending, ReplayRefusal>
    requires lawful { IsLawful net.now.script net.now.events }
    ensures legal { IfOk result (IsLegal net.now.script net.now.events) }
    ensures claims { HoldsAndSettles net.now.script net.now.events }
    ensures unended { IfErr result (λ refused. IfIllegal refused (HasNoEnd (history_of net.now))) }
{
    let line = next_line(net);
    match net.end() {
        Some(end) => Ok(end),
        None => Err(ReplayRefusal::Illegal {
            line,
            cause: JournalCause::Unfinished,
        }),
    }
}

/// Returns why the journal of a text is rejected after `why`, by which an event was rejected, if `reader` has read
/// up to that event: for the first error after the event, if there is one, otherwise for the event. The rest of the
/// text is read, but not kept.
pub fn refused(reader: &mut Reader, why: ReplayRefusal) -> ReplayRefusal
    ensures { (script : ScriptOf) (bytes : List ℕ) (before : List Event) (event : Event)
        → HasRead script bytes (before ++ event ∷ []) reader.old → IsLawful script before
        → IfIllegal why (IsUnlawfulNext (record { script = script; events = before }) event)
        → IfIllegal result (IsNoReplay script bytes) }
{
    if let ReplayRefusal::OutOfMemory = why {
        return why;
    }
    match reader.check_rest() {
        Ok(()) => why,
        Err(fault) => ReplayRefusal::from(fault),
    }
}

// Makes the events of a journal over a network that has made none yet, and returns what they come to.
fn make_all(net: &mut Net, lines: &mut Lines, journal: &Journal) -> Result<World, ReplayRefusal>
    requires { HasMade net.old.script [] net.old }
    ensures legal { IfOk result (IsLegal net.old.script journal.now) }
    ensures claims { OnOk result (HoldsAndSettles net.old.script journal.now) }
    ensures refused { IfErr result (IsRefusal net.old.script journal.now) }
{
    let events = journal.as_slice();
    'events: for event in events {
        step(net, event, lines)?;
    }
    Ok(World { end: end_of(net)? })
}

/// Replays a journal over the network of `script`, and returns what it comes to. Each event must be lawful after
/// those before it, and the last one must lead to an end. All that is claimed of a lawful history then holds of the
/// journal: at each point in time, at its end if it ends settled, and how soon it settles.
///
/// # Errors
/// `Illegal` with the line of the first event that is not lawful, or with the last line if the journal comes to no
/// end; or `OutOfMemory`, which says nothing about the journal.
pub fn replay(alloc: Global, script: &Script, journal: &Journal) -> Result<World, ReplayRefusal>
    ensures legal { IfOk result (IsLegal script.now journal.now) }
    ensures claims { OnOk result (HoldsAndSettles script.now journal.now) }
    ensures refused { IfErr result (IsRefusal script.now journal.now) }
{
    let mut net = Net::begin(alloc, script)?;
    let mut lines = Lines::new(alloc);
    make_all(&mut net, &mut lines, journal)
}
