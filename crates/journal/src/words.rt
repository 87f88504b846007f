//! The words of a line of a journal: their event, or their error.

ghost use Rattle.std.specs.Prelude.{◌≡◌, ◌≢◌, ◌<◌, ◌≤◌, [], ◌∷◌, map, IfSome, IfNone};
ghost use Rattle.std.specs.Fmt.{decimal};
ghost use Rattle.common_lines.specs.Faults.{IsGoodField};
ghost use Rattle.journal.specs.declared.kind.SwitchEvent.{SwitchEvent};
ghost use Rattle.journal.specs.declared.kind.PortEvent.{PortEvent};
ghost use Rattle.journal.specs.Lines.{Moves, OnSwitch, OnPort, OnWire, Sends, switch_word, port_word};
ghost use Rattle.journal.specs.Events.{IsSwitch, IsHost, switch_name, host_name};
ghost use Rattle.journal.specs.Rules.{name_cause, number_cause};
ghost use Rattle.journal.specs.Steps.{ReadsForm, ReadsWords};

use crate::kind::{PortEvent, SwitchEvent};
use an_base::event::Event;
use an_base::place::Place;
use an_base::port::Port;
use common_lines::word::{is, number_between};
use journal_cause::cause::JournalCause;
use net_script::command::WireChange;
use net_script::script::Script;

/// Returns the event that `words` describe.
///
/// # Errors
/// The error of the words: `UnknownWord`, `NoSuchName` or `BadNumber`.
pub fn read_words(script: &Script, words: &[&[u8]]) -> Result<Event, JournalCause>
    ensures { ReadsWords script.now (map (λ w. w.now) words.now) result }
{
    match words {
        [a] => read_one(script, a),
        [a, b] => read_two(script, a, b),
        [a, b, c] => read_three(script, a, b, c),
        [a, b, c, d] => read_four(script, a, b, c, d),
        _ => Err(JournalCause::UnknownWord),
    }
}

fn read_one(_script: &Script, a: &[u8]) -> Result<Event, JournalCause>
    ensures { ReadsWords _script.now (a.now ∷ []) result }
{
    if is(a, "tick") {
        return Ok(Event::Tick);
    }
    Err(JournalCause::UnknownWord)
}

fn read_two(script: &Script, a: &[u8], b: &[u8]) -> Result<Event, JournalCause>
    ensures { ReadsWords script.now (a.now ∷ b.now ∷ []) result }
{
    if is(a, "move") {
        return read_move(script, b);
    }
    match switch_event_of(a) {
        Some(event) => read_on_switch(script, event, b),
        None => Err(JournalCause::UnknownWord),
    }
}

fn read_three(script: &Script, a: &[u8], b: &[u8], c: &[u8]) -> Result<Event, JournalCause>
    ensures { ReadsWords script.now (a.now ∷ b.now ∷ c.now ∷ []) result }
{
    if is(a, "send") {
        return read_send(script, b, c);
    }
    match port_event_of(a) {
        Some(event) => read_on_port(script, event, b, c),
        None => Err(JournalCause::UnknownWord),
    }
}

fn read_four(script: &Script, a: &[u8], b: &[u8], c: &[u8], d: &[u8]) -> Result<Event, JournalCause>
    ensures { ReadsWords script.now (a.now ∷ b.now ∷ c.now ∷ d.now ∷ []) result }
{
    match WireChange::of(a) {
        Some(change) => read_on_wire(script, change, b, c, d),
        None => Err(JournalCause::UnknownWord),
    }
}

fn read_move(_script: &Script, packet: &[u8]) -> Result<Event, JournalCause>
    ensures { ReadsForm _script.now (Moves packet.now) result }
{
    let packet = number_in(packet, 1, u64::from(u32::MAX))?;
    let packet = packet as u32;
    Ok(Event::Move { packet })
}

fn read_on_switch(script: &Script, event: SwitchEvent, name: &[u8]) -> Result<Event, JournalCause>
    ensures { ReadsForm script.now (OnSwitch event name.now) result }
{
    let s = switch_at(script, name)?;
    Ok(event.at(s))
}

fn read_on_port(
    script: &Script,
    event: PortEvent,
    name: &[u8],
    port: &[u8],
) -> Result<Event, JournalCause>
    ensures { ReadsForm script.now (OnPort event name.now port.now) result }
{
    let s = switch_at(script, name)?;
    let port = number_in(port, 1, 12)?;
    Ok(event.at(s, Port(port as u8)))
}

fn read_on_wire(
    script: &Script,
    change: WireChange,
    name: &[u8],
    port: &[u8],
    n: &[u8],
) -> Result<Event, JournalCause>
    ensures { ReadsForm script.now (OnWire change name.now port.now n.now) result }
{
    let s = switch_at(script, name)?;
    let port = number_in(port, 1, 12)?;
    let n = number_in(n, 1, change.most())?;
    Ok(change.event(s, Port(port as u8), n as u32))
}

fn read_send(script: &Script, host: &[u8], to: &[u8]) -> Result<Event, JournalCause>
    ensures { ReadsForm script.now (Sends host.now to.now) result }
{
    let host = host_at(script, host)?;
    let to = host_at(script, to)?;
    Ok(Event::Send { host, to })
}

fn switch_event_of(word: &[u8]) -> Option<SwitchEvent>
    ensures some { IfSome result (λ k. word.now ≡ switch_word k) }
    ensures none { IfNone result ((k : SwitchEvent) → word.now ≢ switch_word k) }
{
    match word {
        b"clock" => Some(SwitchEvent::Clock),
        b"handle" => Some(SwitchEvent::Handle),
        b"load" => Some(SwitchEvent::Load),
        b"restart" => Some(SwitchEvent::Restart),
        _ => None,
    }
}

fn port_event_of(word: &[u8]) -> Option<PortEvent>
    ensures some { IfSome result (λ k. word.now ≡ port_word k) }
    ensures none { IfNone result ((k : PortEvent) → word.now ≢ port_word k) }
{
    match word {
        b"take" => Some(PortEvent::Take),
        b"fail" => Some(PortEvent::Fail),
        b"repair" => Some(PortEvent::Repair),
        _ => None,
    }
}

// The switch that a word names.
fn switch_at(script: &Script, word: &[u8]) -> Result<Place, JournalCause>
    ensures { IsGoodField result (name_cause script.now.switch_names word.now)
        (λ s. IsSwitch script.now s × (word.now ≡ switch_name script.now s)) }
{
    script.place_of_switch(word).ok_or(JournalCause::NoSuchName)
}

// The host that a word names.
fn host_at(script: &Script, word: &[u8]) -> Result<u16, JournalCause>
    ensures { IsGoodField result (name_cause script.now.names_of_hosts word.now)
        (λ h. IsHost script.now h × (word.now ≡ host_name script.now h)) }
{
    script.place_of_host(word).ok_or(JournalCause::NoSuchName)
}

// The value of a word that is a number from `least` to `most`.
fn number_in(word: &[u8], least: u64, most: u64) -> Result<u64, JournalCause>
    ensures { IsGoodField result (number_cause least most word.now)
        (λ n. (word.now ≡ decimal n) × (least ≤ n) × (n ≤ most)) }
{
    number_between(word, least, most).ok_or(JournalCause::BadNumber)
}
