//! The printer of journals.

ghost use Rattle.std.specs.Prelude.{◌≡◌, ◌≤◌, ◌++◌, ℕ, [], ◌∷◌, codes, All, IfOk, IfSome, OnOk};
ghost use Rattle.std.specs.Fmt.{decimal};
ghost use Rattle.an_base.specs.declared.event.Event.TheVariants.{Take};
ghost use Rattle.common_lines.specs.Lines.{line_text};
ghost use Rattle.net_script.specs.Scripts.{ScriptOf};
ghost use Rattle.journal.specs.Events.{CanSpell, IsSwitch, event_words, events_text, journal_text};
ghost use Rattle.journal.specs.Ready.{AreLinesOf, AreReady, AreTakesOf};

use an_base::event::{Event, Journal};
use an_base::limits::LAST_PORT;
use an_base::place::Place;
use an_base::port::Port;
use common_lines::spelling::push_line;
use common_values::memory::OutOfMemory;
use itoa::Buffer;
use net_script::script::Script;
use script_text::printer::{push_at, push_send};
use std::alloc::Global;

// The lines of the events of a switch that come most often.
#[derive(Drop)]
struct ReadyLines {
    clock: Vec<u8>,
    handle: Vec<u8>,
    load: Vec<u8>,
    // By port, from 1.
    takes: Vec<Vec<u8>>,
}

// Most lines have no more bytes.
const LINE: usize = 16;

// The making of a switch's lines pays if there are about so many events for each switch.
const WORTH_LINES: usize = 128;

/// Returns the text of `journal`: the first line, a line for each event, and the last line.
///
/// The caller must pass events whose names and numbers `script` allows (`CanSpell`).
///
/// # Errors
/// `OutOfMemory` if an allocation fails.
pub fn print(alloc: Global, script: &Script, journal: &Journal) -> Result<Vec<u8>, OutOfMemory>
    requires spelled { All (CanSpell script.now) journal.now }
    ensures { IfOk result (λ text. text.items ≡ journal_text script.now journal.now) }
{
    let events = journal.as_slice();
    let mut text = Vec::with_capacity(alloc, LINE * events.len())?;
    push_line(&mut text, &[b"journal", b"1"])?;
    let ready = ready_lines(alloc, script, events.len() / WORTH_LINES)?;
    push_events(&mut text, script, &ready, events)?;
    push_line(&mut text, &[b"end"])?;
    Ok(text)
}

// The lines of the first switches, of at most so many.
fn ready_lines(alloc: Global, script: &Script, most: usize) -> Result<Vec<ReadyLines>, OutOfMemory>
    ensures { IfOk result (λ ready. AreReady script.now ready.items) }
{
    let count = script.wiring().switches().len().min(most);
    let mut ready = Vec::new(alloc);
    'switches: for s in 0..count as u8 {
        let lines = lines_of(alloc, script, Place(s))?;
        ready.push(lines)?;
    }
    Ok(ready)
}

// The lines of the most frequent events of a switch.
fn lines_of(alloc: Global, script: &Script, s: Place) -> Result<ReadyLines, OutOfMemory>
    requires { IsSwitch script.now s }
    ensures { IfOk result (AreLinesOf script.now s) }
{
    Ok(ReadyLines {
        clock: line_of(alloc, script, Event::Clock { s })?,
        handle: line_of(alloc, script, Event::Handle { s })?,
        load: line_of(alloc, script, Event::Load { s })?,
        takes: lines_of_takes(alloc, script, s)?,
    })
}

// The lines of its takes, by port.
fn lines_of_takes(alloc: Global, script: &Script, s: Place) -> Result<Vec<Vec<u8>>, OutOfMemory>
    requires { IsSwitch script.now s }
    ensures { IfOk result (λ takes. AreTakesOf script.now s takes.items) }
{
    let mut takes = Vec::new(alloc);
    'ports: for port in 1..LAST_PORT + 1 {
        let port = Port(port);
        let line = line_of(alloc, script, Event::Take { s, port })?;
        takes.push(line)?;
    }
    Ok(takes)
}

// The line of an event.
fn line_of(alloc: Global, script: &Script, event: Event) -> Result<Vec<u8>, OutOfMemory>
    requires spelled { CanSpell script.now event }
    ensures { IfOk result (λ line. line.items ≡ line_text (event_words script.now event)) }
{
    let mut line = Vec::new(alloc);
    push_event(&mut line, script, event)?;
    Ok(line)
}

// Appends the lines of events.
fn push_events(
    text: &mut Vec<u8>,
    script: &Script,
    ready: &[ReadyLines],
    events: &[Event],
) -> Result<(), OutOfMemory>
    requires spelled { All (CanSpell script.now) events.now }
    requires ready { AreReady script.now ready.now }
    ensures { OnOk result (text.new.items ≡ text.old.items ++ events_text script.now events.now) }
{
    'events: for event in events {
        push_ready(text, script, ready, *event)?;
    }
    Ok(())
}

// Appends the line of an event: the ready one, if there is one.
fn push_ready(
    text: &mut Vec<u8>,
    script: &Script,
    ready: &[ReadyLines],
    event: Event,
) -> Result<(), OutOfMemory>
    requires spelled { CanSpell script.now event }
    requires ready { AreReady script.now ready.now }
    ensures { OnOk result
        (text.new.items ≡ text.old.items ++ line_text (event_words script.now event)) }
{
    match ready_line(ready, &event) {
        Some(line) => text.extend_from_slice(line)?,
        None => push_event(text, script, event)?,
    }
    Ok(())
}

// The line of an event, if it is ready.
fn ready_line<'a>(ready: &'a [ReadyLines], event: &Event) -> Option<&'a [u8]>
    ensures { (script : ScriptOf) → AreReady script ready.now → CanSpell script event.now
        → IfSome result (λ line. line.now ≡ line_text (event_words script event.now)) }
{
    match *event {
        Event::Clock { s } => Some(ready.get(usize::from(s))?.clock.as_slice()),
        Event::Take { s, port } => ready_take(ready.get(usize::from(s))?, port),
        Event::Handle { s } => Some(ready.get(usize::from(s))?.handle.as_slice()),
        Event::Load { s } => Some(ready.get(usize::from(s))?.load.as_slice()),
        _ => None,
    }
}

// The line of a take from a port, if it is ready.
fn ready_take(lines: &ReadyLines, port: Port) -> Option<&[u8]>
    ensures { (script : ScriptOf) (node : ℕ) → AreLinesOf script node lines.now → 1 ≤ port
        → IfSome result (λ line. line.now ≡ line_text (event_words script (Take node port))) }
{
    let line = lines.takes.get(usize::from(port).saturating_sub(1))?;
    Some(line.as_slice())
}

// Appends the line of an event.
fn push_event(text: &mut Vec<u8>, script: &Script, event: Event) -> Result<(), OutOfMemory>
    requires spelled { CanSpell script.now event }
    ensures { OnOk result
        (text.new.items ≡ text.old.items ++ line_text (event_words script.now event)) }
{
    let names = script.switch_names();
    match event {
        Event::Tick => push_line(text, &[b"tick"]),
        Event::Clock { s } => push_at(text, names, b"clock", s, &[]),
        Event::Take { s, port } => push_at(text, names, b"take", s, &[u32::from(port)]),
        Event::Handle { s } => push_at(text, names, b"handle", s, &[]),
        Event::Load { s } => push_at(text, names, b"load", s, &[]),
        Event::Fail { s, port } => push_at(text, names, b"fail", s, &[u32::from(port)]),
        Event::Repair { s, port } => push_at(text, names, b"repair", s, &[u32::from(port)]),
        Event::Lose { s, port, n } => push_at(text, names, b"lose", s, &[u32::from(port), n]),
        Event::Again { s, port, n } => push_at(text, names, b"again", s, &[u32::from(port), n]),
        Event::Swap { s, port, n } => push_at(text, names, b"swap", s, &[u32::from(port), n]),
        Event::Noise { s, port, n } => push_at(text, names, b"noise", s, &[u32::from(port), n]),
        Event::Send { host, to } => push_send(text, script.names_of_hosts(), host, to),
        Event::Move { packet } => push_move(text, packet),
        Event::Restart { s } => push_at(text, names, b"restart", s, &[]),
    }
}

// Appends the line of a packet's hop.
fn push_move(text: &mut Vec<u8>, packet: u32) -> Result<(), OutOfMemory>
    ensures { OnOk result (text.new.items ≡ text.old.items
        ++ line_text (codes "move" ∷ decimal packet ∷ [])) }
{
    push_line(text, &[b"move", Buffer::new().format(packet).as_bytes()])
}
