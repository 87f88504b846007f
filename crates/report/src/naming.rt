//! What hosts believe about where others are.

ghost use Rattle.std.specs.Prelude.{◌≡◌, ◌<◌, ◌≤◌, ◌+◌, ◌-◌, ◌^◌, ◌∷◌, ◌++◌, [], List, IfErr, IfOk, OnOk, None, length, replicate, slice_index_or, if◌then◌else◌};
ghost use Rattle.an_base.specs.declared.event.Event.{Event};
ghost use Rattle.net_script.specs.Scripts.{ScriptOf};
ghost use Rattle.replay.specs.Replays.{IfIllegal, IsNoReplay};
ghost use Rattle.common_lines.specs.Lines.{line_text};
ghost use Rattle.report.specs.Beliefs.{AreNamesIn, address_in, belief_line, belief_text, counts_by, host_in, is_known};
ghost use Rattle.report.specs.Remembering.{CameUntil, KeepBeliefs, Meets, arrival_in, choice_at, delivery_in};
ghost use Rattle.report.specs.Remembering.{own_address, source_with, with_arrival_at, with_delivery, with_source};

use crate::listener::{Listener, tell};
use an_base::event::Event;
use common_lines::spelling::{decimal, push_line};
use common_values::memory::OutOfMemory;
use fabric_book::net::Net;
use host_names::cache::Cache;
use host_names::choice::Choice;
use net_graph::wiring::HostOn;
use net_names::names::Names;
use net_script::script::Script;
use net_state::ending::Ending;
use net_state::fabric::Fabric;
use net_state::host::host_at;
use net_state::line::Line;
use replay::refusal::ReplayRefusal;
use std::alloc::Global;

// A packet that was sent: the index of the host that sent it, and the address from which it comes, once it has
// moved.
#[derive(Clone, Copy)]
struct Traced {
    host: u16,
    source: Option<u16>,
}

// Returns the host at an index.
fn host_in(script: &Script, host: u16) -> HostOn
    ensures { result ≡ host_in script.now host }
{
    host_at(script.wiring().hosts(), host)
}

// Returns the name of the host at an index.
fn host_name(names: &Names, host: u16) -> &[u8]
    ensures { result.now ≡ slice_index_or names.now host [] }
{
    let place = usize::from(host);
    if place < names.len() {
        return names.get(place);
    }
    &[]
}

// Returns the address of a host by the table in use at its switch.
fn address_in(fabric: &Fabric, host: &HostOn) -> u16
    ensures { result ≡ address_in fabric.now host.now }
{
    match fabric.table(host.s) {
        Some(table) => u16::from(table.number()) * 16 + u16::from(host.port.as_u8()),
        None => 0,
    }
}

// Returns the host to which a packet is delivered, given the lines that report its hop.
fn delivery_in(lines: &[Line]) -> Option<u16>
    ensures { result ≡ delivery_in lines.now }
{
    match lines.first() {
        Some(Line::Moved { host, .. }) => *host,
        _ => None,
    }
}

// Returns `count` empty caches, one for each host.
fn caches(alloc: Global, count: usize) -> Result<Vec<Cache>, OutOfMemory>
    ensures { IfOk result (λ caches. caches.items ≡ replicate count []) }
{
    let mut all = Vec::with_capacity(alloc, count)?;
    'hosts: for _ in 0..count {
        all.push(Cache::new(alloc)?)?;
    }
    Ok(all)
}

// Notes that a packet moves: if it has not moved before, it comes from `address`. Returns the address from which it
// comes.
fn note(packets: &mut Vec<Traced>, place: usize, address: u16) -> u16
    requires { place < length packets.old.items }
    ensures packets { packets.new.items ≡ with_source packets.old.items place address }
    ensures source { result ≡ source_with packets.old.items place address }
{
    let source = packets[place].source.unwrap_or(address);
    packets[place].source = Some(source);
    source
}

// Records that a packet arrives at a host.
fn arrive(caches: &mut Vec<Cache>, host: u16, uid: u64, address: u16, now: u32)
    requires { CameUntil now caches.old.items }
    ensures caches { caches.new.items
        ≡ with_arrival_at (record { uid = uid; address = address; tick = now }) host caches.old.items }
    ensures ticks { CameUntil now caches.new.items }
{
    let place = usize::from(host);
    if place < caches.len() {
        caches[place].arrived(uid, address, now);
    }
}

// Reports whether the address is known.
fn is_known(choice: Choice) -> bool
    ensures { result ≡ is_known choice }
{
    matches!(choice, Choice::Known { .. })
}

// Appends the line of a host that sends.
fn push_belief(
    alloc: Global,
    text: &mut Vec<u8>,
    script: &Script,
    place: u32,
    from: u16,
    to: u16,
    choice: Choice,
) -> Result<(), OutOfMemory>
    ensures { OnOk result (text.new.items ≡ text.old.items ++ belief_line script.now
        (record { place = place; from = from; to = to; choice = choice })) }
{
    let names = script.names_of_hosts();
    let place = decimal(alloc, u64::from(place))?;
    let from = host_name(names, from);
    let to = host_name(names, to);
    match choice {
        Choice::Known { address } => {
            let address = decimal(alloc, u64::from(address))?;
            push_line(text, &[&place, from, b"to", to, b"known", &address])
        }
        Choice::Broadcast => push_line(text, &[&place, from, b"to", to, b"broadcast"]),
    }
}

// Appends the last line.
fn push_counts(
    alloc: Global,
    text: &mut Vec<u8>,
    sent: u64,
    known: u64,
    broadcast: u64,
) -> Result<(), OutOfMemory>
    ensures { OnOk result (text.new.items
        ≡ text.old.items ++ line_text (counts_by sent known broadcast)) }
{
    let sent = decimal(alloc, sent)?;
    let known = decimal(alloc, known)?;
    let broadcast = decimal(alloc, broadcast)?;
    push_line(
        text,
        &[
            b"end",
            b"names",
            &sent,
            b"known",
            &known,
            b"broadcast",
            &broadcast,
        ],
    )
}

// What is kept of packets and hosts while a journal is printed.
#[derive(Drop)]
struct Believing<'a> {
    alloc: Global,
    script: &'a Script,
    packets: Vec<Traced>,
    caches: Vec<Cache>,
    known: usize,
}

impl<'a> Believing<'a> {
    // Creates what is kept at the beginning.
    fn begin(alloc: Global, script: &'a Script) -> Result<Self, OutOfMemory>
        ensures { IfOk result (λ new.
            KeepBeliefs script.now [] new.script.now new.packets.items new.caches.items new.known) }
    {
        Ok(Believing {
            alloc,
            script,
            packets: Vec::new(alloc),
            caches: caches(alloc, script.wiring().hosts().len())?,
            known: 0,
        })
    }

    // Returns where a host sends.
    fn choice(&self, from: u16, to: u16, now: u32) -> Choice
        requires within { from < length self.now.caches.items }
        requires ticks { CameUntil now self.now.caches.items }
        ensures { result ≡ choice_at self.now.script.now self.now.caches.items from to now }
    {
        let uid = host_in(self.script, to).uid;
        self.caches[usize::from(from)].choose(uid, now)
    }

    // Records that a host has sent a packet, by the event at this position.
    fn send(
        &mut self,
        place: u32,
        now: u32,
        from: u16,
        to: u16,
        text: &mut Vec<u8>,
    ) -> Result<(), OutOfMemory>
        requires within { from < length self.old.caches.items }
        requires ticks { CameUntil now self.old.caches.items }
        requires few { self.old.known ≤ length self.old.packets.items }
        ensures script { self.new.script.now ≡ self.old.script.now }
        ensures caches { self.new.caches.items ≡ self.old.caches.items }
        ensures packets { OnOk result (self.new.packets.items
            ≡ self.old.packets.items ++ record { host = from; source = None } ∷ []) }
        ensures known { OnOk result (self.new.known ≡ self.old.known
            + (if is_known (choice_at self.old.script.now self.old.caches.items from to now)
            then 1 else 0)) }
        ensures text { OnOk result (text.new.items ≡ text.old.items
            ++ belief_line self.old.script.now (record {
              place = place;
              from = from;
              to = to;
              choice = choice_at self.old.script.now self.old.caches.items from to now;
            })) }
    {
        let choice = self.choice(from, to, now);
        push_belief(self.alloc, text, self.script, place, from, to, choice)?;
        self.packets.push(Traced {
            host: from,
            source: None,
        })?;
        if is_known(choice) {
            self.known += 1;
        }
        Ok(())
    }

    // Records that a packet has made a hop, and to which host it was delivered, if it was.
    fn hop(&mut self, fabric: &Fabric, packet: u32, delivered: Option<u16>)
        requires least { 1 ≤ packet }
        requires most { packet ≤ length self.old.packets.items }
        requires ticks { CameUntil fabric.now.tick self.old.caches.items }
        ensures script { self.new.script.now ≡ self.old.script.now }
        ensures known { self.new.known ≡ self.old.known }
        ensures packets { self.new.packets.items ≡ with_source self.old.packets.items (packet - 1)
            (own_address self.old.script.now fabric.now self.old.packets.items (packet - 1)) }
        ensures caches { self.new.caches.items ≡ with_delivery
            (arrival_in self.old.script.now fabric.now self.old.packets.items (packet - 1))
            delivered self.old.caches.items }
        ensures ticks { CameUntil fabric.now.tick self.new.caches.items }
    {
        let place = packet as usize - 1;
        let sender = host_in(self.script, self.packets[place].host);
        let address = note(&mut self.packets, place, address_in(fabric, &sender));
        if let Some(host) = delivered {
            arrive(&mut self.caches, host, sender.uid, address, fabric.now());
        }
    }

    // Follows the event at this position, which `lines` report.
    fn meet(
        &mut self,
        fabric: &Fabric,
        place: u32,
        event: &Event,
        lines: &[Line],
        text: &mut Vec<u8>,
    ) -> Result<(), OutOfMemory>
        requires { (script : ScriptOf) × (before : List Event) × Meets script before event.now fabric.now
            place lines.now self.old.script.now self.old.packets.items self.old.caches.items
            self.old.known }
        ensures keep { (script : ScriptOf) (before : List Event) → Meets script before event.now fabric.now
            place lines.now self.old.script.now self.old.packets.items self.old.caches.items
            self.old.known → OnOk result (KeepBeliefs script (before ++ event.now ∷ []) self.new.script.now
            self.new.packets.items self.new.caches.items self.new.known) }
        ensures text { (script : ScriptOf) (before : List Event) → Meets script before event.now fabric.now
            place lines.now self.old.script.now self.old.packets.items self.old.caches.items
            self.old.known → OnOk result (text.new.items ≡ text.old.items
            ++ belief_text script (record { before = before; event = event.now })) }
    {
        match *event {
            Event::Send { host, to } => {
                self.send(place, fabric.now(), host, to, text)?;
                Ok(())
            }
            Event::Move { packet } => {
                self.hop(fabric, packet, delivery_in(lines));
                Ok(())
            }
            _ => Ok(()),
        }
    }
}

impl Listener for Believing<'_> {
    ghost use Rattle.std.specs.Prelude.{[]};
    ghost use Rattle.common_lines.specs.Lines.{line_text};
    ghost use Rattle.report.specs.Beliefs.{belief_text, beliefs_of, counts_words};
    ghost use Rattle.report.specs.Remembering.{KeepBeliefs};

    ghost first = { [] };

    ghost told = { belief_text };

    ghost last = { λ script history _. line_text (counts_words (beliefs_of script history)) };

    ghost stands = { λ b script history.
        KeepBeliefs script history b.script.now b.packets.items b.caches.items b.known };

    fn hear(
        &mut self,
        net: &Net,
        event: &Event,
        lines: &[Line],
        text: &mut Vec<u8>,
    ) -> Result<(), OutOfMemory> {
        let fabric = net.fabric();
        self.meet(fabric, fabric.events(), event, lines, text)
    }

    fn finish(&self, _net: &Net, _end: &Ending, text: &mut Vec<u8>) -> Result<(), OutOfMemory> {
        let sent = self.packets.len();
        let broadcast = sent - self.known;
        push_counts(
            self.alloc,
            text,
            sent as u64,
            self.known as u64,
            broadcast as u64,
        )
    }
}

/// Returns what hosts believe in the journal with whose text `bytes` begins: for each packet that a host sends,
/// where it would send it, given what came to it before; and last the numbers of these. The caller must pass fewer
/// than 2^32 - 1 bytes.
///
/// # Errors
/// `Illegal` with the first error of a text that is not a journal, or why the journal is not legal; or
/// `OutOfMemory`, which says nothing about `bytes`.
pub fn names(alloc: Global, script: &Script, bytes: &[u8]) -> Result<Vec<u8>, ReplayRefusal>
    requires few { length bytes.now < 2 ^ 32 - 1 }
    ensures names { IfOk result (λ text. AreNamesIn script.now bytes.now text.items) }
    ensures refused { IfErr result (λ why. IfIllegal why (IsNoReplay script.now bytes.now)) }
{
    let mut believing = Believing::begin(alloc, script)?;
    let mut text = Vec::new(alloc);
    tell(alloc, script, bytes, &mut believing, &mut text)?;
    Ok(text)
}
