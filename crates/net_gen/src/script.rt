//! The script made from a seed.

ghost use Rattle.std.specs.Prelude.{◌≡◌, ◌≢◌, ◌<◌, ◌≤◌, ◌+◌, ◌-◌, [], ◌∷◌, find, length, IfOk, IfSome, OnOk};
ghost use Rattle.std.specs.Fmt.{decimal};
ghost use Rattle.std.specs.List.{range_with_len};
ghost use Rattle.net_script.specs.Scripts.{empty_script};
ghost use Rattle.net_gen.specs.Generated.{all_joined, failure, from_on, generated, grown, has_free, is_free, joined};
ghost use Rattle.net_gen.specs.Generated.{lowest_free, made_of, sends_at, tree_of, with_link};
ghost use Rattle.net_gen.specs.Made.{AreLow, CanSend, HasFirst, IsMade, drawn_of, with_commands, with_links};

use crate::draw::Draw;
use an_base::event::Event;
use an_base::place::Place;
use an_base::port::Port;
use common_values::memory::OutOfMemory;
use common_values::text::{Word, push_decimal};
use net_graph::wiring::{HostOn, LinkAt, SwitchAt};
use net_script::script::Script;
use std::alloc::Global;

// Returns a letter with the number of an index, counted from 1.
fn name(alloc: Global, letter: u8, place: u8) -> Result<Word, OutOfMemory>
    ensures { IfOk result (λ name. name ≡ letter ∷ decimal (place + 1)) }
{
    let mut name = Vec::new(alloc);
    name.push(letter)?;
    push_decimal(alloc, &mut name, u64::from(place) + 1)?;
    Ok(Word::new(name))
}

// Adds `count` switches.
fn add_switches(alloc: Global, script: &mut Script, count: u8) -> Result<(), OutOfMemory>
    requires empty { script.old ≡ empty_script }
    requires most { count ≤ 100 }
    ensures { OnOk result (script.new ≡ made_of count [] 0 []) }
{
    'places: for place in 0..count {
        let switch = SwitchAt {
            uid: u64::from(place) + 1,
            had: 1,
        };
        script.add_switch(name(alloc, b'S', place)?, switch)?;
    }
    Ok(())
}

// Adds a host at port 12 of each of `count` switches. Its identifier is 2^40 above that of the switch.
fn add_hosts(alloc: Global, script: &mut Script, count: u8) -> Result<(), OutOfMemory>
    requires made { script.old ≡ made_of count script.old.wires.links 0 [] }
    requires low { AreLow script.old.wires.links }
    requires most { count ≤ 100 }
    ensures { OnOk result (script.new ≡ made_of count script.old.wires.links count []) }
{
    'places: for place in 0..count {
        let host = HostOn {
            uid: (1 << 40) + (u64::from(place) + 1),
            s: Place(place),
            port: Port(12),
        };
        script.add_host(name(alloc, b'H', place)?, host)?;
    }
    Ok(())
}

// Reports whether no link uses a port.
fn is_free(script: &Script, place: Place, port: Port) -> bool
    requires none { script.now.wires.hosts ≡ [] }
    ensures { result ≡ is_free script.now.wires.links place port }
{
    script.wiring().far(place, port).is_none()
}

// Returns the lowest of the first ports of a switch that no link uses.
fn lowest_free(script: &Script, place: Place) -> Option<Port>
    requires none { script.now.wires.hosts ≡ [] }
    ensures { result ≡ lowest_free script.now.wires.links place }
{
    'ports: for port in 1..9u8 {
        if is_free(script, place, Port(port)) {
            return Some(Port(port));
        }
    }
    None
}

// Links two switches by their lowest free ports, if both have one.
fn link(script: &mut Script, a: Place, b: Place) -> Result<(), OutOfMemory>
    requires none { script.old.wires.hosts ≡ [] }
    requires a { a < length script.old.wires.switches }
    requires b { b < length script.old.wires.switches }
    requires apart { a ≢ b }
    ensures { OnOk result (script.new ≡ with_links (with_link script.old.wires.links a b) script.old) }
{
    match (lowest_free(script, a), lowest_free(script, b)) {
        (Some(a_port), Some(b_port)) => script.add_link(LinkAt {
            a,
            a_port,
            b,
            b_port,
        }),
        _ => Ok(()),
    }
}

// Returns the first switch of a range with a free port.
fn free_among(script: &Script, first: u8, end: u8) -> Option<u8>
    requires none { script.now.wires.hosts ≡ [] }
    requires range { first ≤ end }
    ensures found { result ≡ find (has_free script.now.wires.links) (range_with_len first (end - first)) }
    ensures below { IfSome result (λ place. place < end) }
{
    'places: for place in first..end {
        if lowest_free(script, Place(place)).is_some() {
            return Some(place);
        }
    }
    None
}

// Returns the first switch with a free port, searching upwards from `first` and then from the lowest.
fn first_with_free(script: &Script, first: u8, end: u8) -> Option<u8>
    requires none { script.now.wires.hosts ≡ [] }
    requires within { first < end }
    ensures found { result ≡ find (has_free script.now.wires.links) (from_on first end) }
    ensures below { IfSome result (λ place. place < end) }
{
    match free_among(script, first, end) {
        Some(place) => Some(place),
        None => free_among(script, 0, first),
    }
}

// Links a switch to one of those before it.
fn grow(script: &mut Script, draw: &mut Draw, place: u8) -> Result<(), OutOfMemory>
    requires none { script.old.wires.hosts ≡ [] }
    requires least { 1 ≤ place }
    requires within { place < length script.old.wires.switches }
    ensures links { OnOk result
        (script.new ≡ with_links (grown (drawn_of script.old draw.old) place).links script.old) }
    ensures seed { OnOk result (draw.new ≡ (grown (drawn_of script.old draw.old) place).seed) }
{
    let first = draw.below(place);
    match first_with_free(script, first, place) {
        Some(before) => link(script, Place(before), Place(place)),
        None => Ok(()),
    }
}

// Links each of `count` switches, except the first, to one of those before it.
fn add_tree(script: &mut Script, draw: &mut Draw, count: u8) -> Result<(), OutOfMemory>
    requires made { script.old ≡ made_of count [] 0 [] }
    requires least { 1 ≤ count }
    ensures links { OnOk result (script.new ≡ made_of count (tree_of draw.old count).links 0 []) }
    ensures seed { OnOk result (draw.new ≡ (tree_of draw.old count).seed) }
{
    'places: for place in 1..count {
        grow(script, draw, place)?;
    }
    Ok(())
}

// Draws two of `count` switches, and links them if they are different.
fn join(script: &mut Script, draw: &mut Draw, count: u8) -> Result<(), OutOfMemory>
    requires none { script.old.wires.hosts ≡ [] }
    requires least { 1 ≤ count }
    requires within { count ≤ length script.old.wires.switches }
    ensures links { OnOk result
        (script.new ≡ with_links (joined count (drawn_of script.old draw.old)).links script.old) }
    ensures seed { OnOk result (draw.new ≡ (joined count (drawn_of script.old draw.old)).seed) }
{
    let a = draw.below(count);
    let b = draw.below(count);
    if a == b {
        return Ok(());
    }
    link(script, Place(a), Place(b))
}

// Links two drawn switches, as many times as there are switches.
fn add_links(script: &mut Script, draw: &mut Draw, count: u8) -> Result<(), OutOfMemory>
    requires least { 1 ≤ count }
    requires made { script.old ≡ made_of count script.old.wires.links 0 [] }
    ensures { OnOk result (script.new
        ≡ made_of count (all_joined count (drawn_of script.old draw.old) count).links 0 []) }
{
    'times: for _time in 0..count {
        join(script, draw, count)?;
    }
    Ok(())
}

// Makes each host send to the next one, and the last to the first.
fn add_sends(script: &mut Script, count: u8, time: u32) -> Result<(), OutOfMemory>
    requires made { IsMade script.old count }
    requires most { count ≤ 100 }
    requires can { CanSend script.old.commands time }
    ensures { OnOk result (script.new ≡ with_commands (sends_at count time) script.old) }
{
    'places: for place in 0..count {
        let event = Event::Send {
            host: u16::from(place),
            to: u16::from((place + 1) % count),
        };
        script.add_command(time, event)?;
    }
    Ok(())
}

// Makes the first link fail at tick 20 and come back at tick 60, if there is a link.
fn add_failure(script: &mut Script, count: u8) -> Result<(), OutOfMemory>
    requires made { IsMade script.old count }
    requires can { CanSend script.old.commands 20 }
    requires first { HasFirst count script.old.wires.links }
    ensures { OnOk result (script.new ≡ with_commands (failure count) script.old) }
{
    if count < 2 {
        return Ok(());
    }
    let s = Place(0);
    let port = Port(1);
    script.add_command(20, Event::Fail { s, port })?;
    script.add_command(60, Event::Repair { s, port })
}

// Turns an empty script into the one that is drawn from a seed.
fn fill(alloc: Global, script: &mut Script, seed: u64, count: u8) -> Result<(), OutOfMemory>
    requires empty { script.old ≡ empty_script }
    requires least { 1 ≤ count }
    requires most { count ≤ 100 }
    ensures { OnOk result (script.new ≡ generated seed count) }
{
    let mut draw = Draw::new(seed);
    add_switches(alloc, script, count)?;
    add_tree(script, &mut draw, count)?;
    add_links(script, &mut draw, count)?;
    add_hosts(alloc, script, count)?;
    add_sends(script, count, 10)?;
    add_failure(script, count)?;
    add_sends(script, count, 80)
}

/// Returns the script that is drawn from `seed`: a tree of `count` switches (1 to 100) with some more links, a host
/// at each switch, and packets, at ticks 10 and 80, before and after a failure of the first link and its repair.
///
/// # Errors
/// `OutOfMemory` if an allocation fails.
pub fn script_of(alloc: Global, seed: u64, count: u8) -> Result<Script, OutOfMemory>
    requires least { 1 ≤ count }
    requires most { count ≤ 100 }
    ensures { IfOk result (λ script. script ≡ generated seed count) }
{
    let mut script = Script::new(alloc);
    fill(alloc, &mut script, seed, count)?;
    Ok(script)
}
