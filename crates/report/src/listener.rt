//! What follows the events of a journal, and prints them, while a network makes them.

ghost use Rattle.std.specs.Prelude.{◌≡◌, ◌<◌, ◌-◌, ◌^◌, ◌∷◌, ◌++◌, [], List, ℕ, length, IfErr, IfOk, OnOk};
ghost use Rattle.an_base.specs.declared.event.Event.{Event};
ghost use Rattle.net_script.specs.Scripts.{ScriptOf};
ghost use Rattle.journal.specs.Reading.{HasRead};
ghost use Rattle.net_state.specs.declared.ending.Ending.{Ending};
ghost use Rattle.fabric_book.specs.Nets.{history_of};
ghost use Rattle.replay.specs.Replays.{HasMade, IfIllegal, IsNoReplay, IsRefusal, IsUnlawfulNext};
ghost use Rattle.report.specs.Moments.{IsHeard, IsTold, IsToldOf, Moment};

use an_base::event::{Event, Journal};
use common_values::memory::OutOfMemory;
use fabric_book::lines::Lines;
use fabric_book::net::Net;
use journal::reader::Reader;
use net_script::script::Script;
use net_state::ending::Ending;
use net_state::line::Line;
use replay::refusal::ReplayRefusal;
use replay::world::{end_of, refused, step};
use std::alloc::Global;

/// Follows the events of a journal, and prints them.
pub(crate) trait Listener {
    /// The beginning of the text.
    ghost first: { List ℕ };

    /// What is printed of the event of a `Moment`.
    ghost told: { ScriptOf → Moment → List ℕ };

    /// The last line, if a history has come to an end.
    ghost last: { ScriptOf → List Event → Ending → List ℕ };

    /// What the listener keeps belongs to these events.
    ghost stands: { Self → ScriptOf → List Event → Type 0 };

    /// Follows an event that has come in a network, which `lines` report, and prints it.
    fn hear(
        &mut self,
        net: &Net,
        event: &Event,
        lines: &[Line],
        text: &mut Vec<u8>,
    ) -> Result<(), OutOfMemory>
        requires { (before : List Event) × IsHeard before event.now net.now lines.now
            × stands self.old net.now.script before }
        ensures stands { (before : List Event) → IsHeard before event.now net.now lines.now
            → stands self.old net.now.script before
            → OnOk result (stands self.new net.now.script (before ++ event.now ∷ [])) }
        ensures text { (before : List Event) → IsHeard before event.now net.now lines.now
            → stands self.old net.now.script before → OnOk result (text.new.items ≡ text.old.items
            ++ told net.now.script (record { before = before; event = event.now })) };

    /// Prints the last line.
    fn finish(&self, net: &Net, end: &Ending, text: &mut Vec<u8>) -> Result<(), OutOfMemory>
        requires made { HasMade net.now.script net.now.events net.now }
        requires stands { stands self.now net.now.script net.now.events }
        ensures { OnOk result (text.new.items ≡ text.old.items
            ++ last net.now.script net.now.events end.now) };
}

// Makes the next event of a journal, and passes it to the listener.
fn hear_next<L: Listener>(
    net: &mut Net,
    lines: &mut Lines,
    event: &Event,
    listener: &mut L,
    text: &mut Vec<u8>,
) -> Result<(), ReplayRefusal>
    requires made { HasMade net.old.script net.old.events net.old }
    requires stands { L.stands listener.old net.old.script net.old.events }
    ensures made { OnOk result (HasMade net.old.script (net.old.events ++ event.now ∷ []) net.new) }
    ensures stands { OnOk result (L.stands listener.new net.old.script (net.old.events ++ event.now ∷ [])) }
    ensures text { OnOk result (text.new.items ≡ text.old.items
        ++ L.told net.old.script (record { before = net.old.events; event = event.now })) }
    ensures refused { IfErr result (λ why.
        IfIllegal why (IsUnlawfulNext (history_of net.old) event.now)) }
{
    step(net, event, lines)?;
    listener.hear(net, event, lines.as_slice(), text)?;
    Ok(())
}

// Makes the events of a journal, of which a reader has read none yet, and passes them and their end to the
// listener.
fn hear_read<L: Listener>(
    reader: &mut Reader,
    net: &mut Net,
    lines: &mut Lines,
    listener: &mut L,
    text: &mut Vec<u8>,
) -> Result<Ending, ReplayRefusal>
    requires made { HasMade net.old.script [] net.old }
    requires first { text.old.items ≡ L.first }
    requires stands { L.stands listener.old net.old.script [] }
    ensures told { (bytes : List ℕ) → HasRead net.old.script bytes [] reader.old
        → IfOk result (λ end. IsToldOf net.old.script bytes L.first (L.told net.old.script)
        (L.last net.old.script) (L.stands listener.new net.old.script) end text.new.items) }
    ensures refused { (bytes : List ℕ) → HasRead net.old.script bytes [] reader.old
        → IfErr result (λ why. IfIllegal why (IsNoReplay net.old.script bytes)) }
{
    'events: while let Some(event) = reader.next()? {
        if let Err(why) = hear_next(net, lines, &event, listener, text) {
            return Err(refused(reader, why));
        }
    }
    let end = end_of(net)?;
    listener.finish(net, &end, text)?;
    Ok(end)
}

// As `hear_read`, for a journal in memory.
fn hear_all<L: Listener>(
    journal: &Journal,
    net: &mut Net,
    lines: &mut Lines,
    listener: &mut L,
    text: &mut Vec<u8>,
) -> Result<Ending, ReplayRefusal>
    requires made { HasMade net.old.script [] net.old }
    requires first { text.old.items ≡ L.first }
    requires stands { L.stands listener.old net.old.script [] }
    ensures told { IfOk result (λ end. IsTold net.old.script journal.now L.first
        (L.told net.old.script) (L.last net.old.script) end text.new.items) }
    ensures stands { OnOk result (L.stands listener.new net.old.script journal.now) }
    ensures refused { IfErr result (IsRefusal net.old.script journal.now) }
{
    let events = journal.as_slice();
    'events: for event in events {
        hear_next(net, lines, event, listener, text)?;
    }
    let end = end_of(net)?;
    listener.finish(net, &end, text)?;
    Ok(end)
}

// Prints the journal of a reader, in a network of the script.
fn tell_read<L: Listener>(
    alloc: Global,
    script: &Script,
    reader: &mut Reader,
    listener: &mut L,
    text: &mut Vec<u8>,
) -> Result<Ending, ReplayRefusal>
    requires first { text.old.items ≡ L.first }
    requires stands { L.stands listener.old script.now [] }
    ensures told { (bytes : List ℕ) → HasRead script.now bytes [] reader.old
        → IfOk result (λ end. IsToldOf script.now bytes L.first (L.told script.now)
        (L.last script.now) (L.stands listener.new script.now) end text.new.items) }
    ensures refused { (bytes : List ℕ) → HasRead script.now bytes [] reader.old
        → IfErr result (λ why. IfIllegal why (IsNoReplay script.now bytes)) }
{
    match Net::begin(alloc, script) {
        Ok(mut net) => hear_read(reader, &mut net, &mut Lines::new(alloc), listener, text),
        Err(OutOfMemory) => Err(ReplayRefusal::OutOfMemory),
    }
}

/// Prints the journal with whose text `bytes` begins, if it is legal, and returns its end. Its events are made as
/// they are read.
pub(crate) fn tell<L: Listener>(
    alloc: Global,
    script: &Script,
    bytes: &[u8],
    listener: &mut L,
    text: &mut Vec<u8>,
) -> Result<Ending, ReplayRefusal>
    requires few { length bytes.now < 2 ^ 32 - 1 }
    requires first { text.old.items ≡ L.first }
    requires stands { L.stands listener.old script.now [] }
    ensures told { IfOk result (λ end. IsToldOf script.now bytes.now L.first (L.told script.now)
        (L.last script.now) (L.stands listener.new script.now) end text.new.items) }
    ensures refused { IfErr result (λ why. IfIllegal why (IsNoReplay script.now bytes.now)) }
{
    let mut reader = Reader::begin(alloc, script, bytes)?;
    tell_read(alloc, script, &mut reader, listener, text)
}

/// Prints a journal, if it is legal, and returns its end.
pub(crate) fn tell_journal<L: Listener>(
    alloc: Global,
    script: &Script,
    journal: &Journal,
    listener: &mut L,
    text: &mut Vec<u8>,
) -> Result<Ending, ReplayRefusal>
    requires first { text.old.items ≡ L.first }
    requires stands { L.stands listener.old script.now [] }
    ensures told { IfOk result (λ end. IsTold script.now journal.now L.first (L.told script.now)
        (L.last script.now) end text.new.items) }
    ensures stands { OnOk result (L.stands listener.new script.now journal.now) }
    ensures refused { IfErr result (IsRefusal script.now journal.now) }
{
    match Net::begin(alloc, script) {
        Ok(mut net) => hear_all(journal, &mut net, &mut Lines::new(alloc), listener, text),
        Err(OutOfMemory) => Err(ReplayRefusal::OutOfMemory),
    }
}
