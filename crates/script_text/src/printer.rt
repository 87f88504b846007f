//! The printer of scripts.

ghost use Rattle.std.specs.Prelude.{◌≡◌, ◌<◌, ◌++◌, [], ◌∷◌, codes, decimal, length, map, OnOk, IfOk, slice_index_or};
ghost use Rattle.common_lines.specs.Lines.{line_text};
ghost use Rattle.net_script.specs.Forms.{form_words};
ghost use Rattle.net_script.specs.Scripts.{IsScript};
ghost use Rattle.net_script.specs.Texts.{IsText};
ghost use Rattle.net_script.specs.Commands.{IsCommand};
ghost use Rattle.script_text.specs.Canonical.{canonical_text, setting_forms, setting_form, pace_form, routes_form, switch_form, switch_forms, link_form, link_forms, host_form, host_forms, command_form, command_forms, forms_text, spaced_numbers};

use an_base::event::Event;
use an_base::place::Place;
use common_lines::spelling::push_line;
use common_values::memory::OutOfMemory;
use itoa::Buffer;
use net_graph::wiring::{HostOn, LinkAt, SwitchAt};
use net_names::names::Names;
use net_names::spelling::identifier;
use net_script::command::Command;
use net_script::script::Script;
use net_script::setting::{DEFAULT_BLOCKS, DEFAULT_EVENTS, DEFAULT_TICKS, Setting};
use std::alloc::Global;

/// Returns the canonical text of `script`.
///
/// It has the first line; the settings that differ from their defaults, in the order `limit ticks`,
/// `limit events`, `limit blocks`, `epoch`, `pace`, `routes any`; the switches, links, hosts and
/// commands, each in order; and the last line.
///
/// # Errors
/// `OutOfMemory` if an allocation fails.
pub fn print(alloc: Global, script: &Script) -> Result<Vec<u8>, OutOfMemory>
    ensures canonical { IfOk result (λ text. text.items ≡ canonical_text script.now) }
    ensures text { IfOk result (λ text. IsText text.items script.now) }
{
    let mut text = Vec::new(alloc);
    push_line(&mut text, &[b"autonet", b"1"])?;
    push_settings(&mut text, script)?;
    push_switches(alloc, &mut text, script)?;
    push_links(&mut text, script)?;
    push_hosts(alloc, &mut text, script)?;
    push_commands(&mut text, script)?;
    push_line(&mut text, &[b"end"])?;
    Ok(text)
}

// Appends the settings that differ from their defaults.
fn push_settings(text: &mut Vec<u8>, script: &Script) -> Result<(), OutOfMemory>
    ensures lines { OnOk result
        (text.new.items ≡ text.old.items ++ forms_text (setting_forms script.now)) }
    ensures kept { IsScript script.now }
{
    let limits = script.limits();
    push_setting(
        text,
        Setting::Ticks,
        u64::from(limits.ticks),
        u64::from(DEFAULT_TICKS),
    )?;
    push_setting(
        text,
        Setting::Events,
        u64::from(limits.events),
        u64::from(DEFAULT_EVENTS),
    )?;
    push_setting(
        text,
        Setting::Blocks,
        u64::from(limits.blocks),
        u64::from(DEFAULT_BLOCKS),
    )?;
    push_setting(text, Setting::Epoch, script.epoch(), 0)?;
    push_pace(text, script.pace())?;
    push_any_routes(text, script.any_routes())
}

fn push_setting(
    text: &mut Vec<u8>,
    setting: Setting,
    number: u64,
    default: u64,
) -> Result<(), OutOfMemory>
    ensures { OnOk result
        (text.new.items ≡ text.old.items ++ forms_text (setting_form setting number default)) }
{
    if number == default {
        return Ok(());
    }
    let mut digits = Buffer::new();
    let number = digits.format(number).as_bytes();
    match setting {
        Setting::Ticks => push_line(text, &[b"limit", b"ticks", number]),
        Setting::Events => push_line(text, &[b"limit", b"events", number]),
        Setting::Blocks => push_line(text, &[b"limit", b"blocks", number]),
        Setting::Epoch => push_line(text, &[b"epoch", number]),
        Setting::Pace => push_line(text, &[b"pace", number]),
    }
}

fn push_pace(text: &mut Vec<u8>, pace: Option<u32>) -> Result<(), OutOfMemory>
    ensures { OnOk result (text.new.items ≡ text.old.items ++ forms_text (pace_form pace)) }
{
    match pace {
        None => Ok(()),
        Some(pace) => push_line(text, &[b"pace", Buffer::new().format(pace).as_bytes()]),
    }
}

fn push_any_routes(text: &mut Vec<u8>, any_routes: bool) -> Result<(), OutOfMemory>
    ensures { OnOk result (text.new.items ≡ text.old.items ++ forms_text (routes_form any_routes)) }
{
    if any_routes {
        return push_line(text, &[b"routes", b"any"]);
    }
    Ok(())
}

fn push_switches(alloc: Global, text: &mut Vec<u8>, script: &Script) -> Result<(), OutOfMemory>
    ensures { OnOk result (text.new.items ≡ text.old.items ++ forms_text (switch_forms script.now)) }
{
    let names = script.switch_names();
    let switches = script.wiring().switches();
    'switches: for (s, switch) in switches.iter().enumerate() {
        push_switch(alloc, text, names.get(s), *switch)?;
    }
    Ok(())
}

fn push_switch(
    alloc: Global,
    text: &mut Vec<u8>,
    name: &[u8],
    switch: SwitchAt,
) -> Result<(), OutOfMemory>
    ensures { OnOk result (text.new.items ≡ text.old.items
        ++ line_text (form_words (switch_form (name.now, switch)))) }
{
    let uid = identifier(alloc, switch.uid)?;
    if switch.had == 1 {
        return push_line(text, &[b"switch", name, &uid]);
    }
    let mut digits = Buffer::new();
    let had = digits.format(switch.had).as_bytes();
    push_line(text, &[b"switch", name, &uid, b"had", had])
}

fn push_links(text: &mut Vec<u8>, script: &Script) -> Result<(), OutOfMemory>
    ensures { OnOk result (text.new.items ≡ text.old.items ++ forms_text (link_forms script.now)) }
{
    let names = script.switch_names();
    let links = script.wiring().links();
    'links: for link in links {
        push_link(text, names, *link)?;
    }
    Ok(())
}

fn push_link(text: &mut Vec<u8>, names: &Names, link: LinkAt) -> Result<(), OutOfMemory>
    requires a { link.a < length names.now }
    requires b { link.b < length names.now }
    ensures { OnOk result
        (text.new.items ≡ text.old.items ++ line_text (form_words (link_form names.now link))) }
{
    let a = names.get(usize::from(link.a));
    let b = names.get(usize::from(link.b));
    let (mut a_digits, mut b_digits) = (Buffer::new(), Buffer::new());
    let a_port = a_digits.format(link.a_port.as_u8()).as_bytes();
    let b_port = b_digits.format(link.b_port.as_u8()).as_bytes();
    push_line(text, &[b"link", a, a_port, b, b_port])
}

fn push_hosts(alloc: Global, text: &mut Vec<u8>, script: &Script) -> Result<(), OutOfMemory>
    ensures { OnOk result (text.new.items ≡ text.old.items ++ forms_text (host_forms script.now)) }
{
    let names = script.switch_names();
    let names_of_hosts = script.names_of_hosts();
    let hosts = script.wiring().hosts();
    'hosts: for (h, host) in hosts.iter().enumerate() {
        push_host(alloc, text, names, names_of_hosts.get(h), *host)?;
    }
    Ok(())
}

fn push_host<'a>(
    alloc: Global,
    text: &mut Vec<u8>,
    names: &'a Names,
    name: &'a [u8],
    host: HostOn,
) -> Result<(), OutOfMemory>
    requires { host.s < length names.now }
    ensures { OnOk result (text.new.items ≡ text.old.items
        ++ line_text (form_words (host_form names.now (name.now, host)))) }
{
    let uid = identifier(alloc, host.uid)?;
    let switch = names.get(usize::from(host.s));
    let mut digits = Buffer::new();
    let port = digits.format(host.port.as_u8()).as_bytes();
    push_line(text, &[b"host", name, &uid, switch, port])
}

fn push_commands(text: &mut Vec<u8>, script: &Script) -> Result<(), OutOfMemory>
    ensures { OnOk result (text.new.items ≡ text.old.items ++ forms_text (command_forms script.now)) }
{
    let commands = script.commands();
    'commands: for command in commands {
        push_command(text, script, command)?;
    }
    Ok(())
}

fn push_command(text: &mut Vec<u8>, script: &Script, command: &Command) -> Result<(), OutOfMemory>
    requires { IsCommand script.now.wires command.now }
    ensures { OnOk result (text.new.items ≡ text.old.items
        ++ line_text (form_words (command_form script.now command.now))) }
{
    push_time(text, command.time)?;
    let names = script.switch_names();
    match command.event {
        Event::Fail { s, port } => push_at(text, names, b"fail", s, &[u32::from(port)]),
        Event::Repair { s, port } => push_at(text, names, b"repair", s, &[u32::from(port)]),
        Event::Lose { s, port, n } => push_at(text, names, b"lose", s, &[u32::from(port), n]),
        Event::Again { s, port, n } => push_at(text, names, b"again", s, &[u32::from(port), n]),
        Event::Swap { s, port, n } => push_at(text, names, b"swap", s, &[u32::from(port), n]),
        Event::Noise { s, port, n } => push_at(text, names, b"noise", s, &[u32::from(port), n]),
        Event::Send { host, to } => push_send(text, script.names_of_hosts(), host, to),
        Event::Restart { s } => push_at(text, names, b"restart", s, &[]),
        _ => Ok(()),
    }
}

// Appends `at` and the time, each with a space after it.
fn push_time(text: &mut Vec<u8>, time: u32) -> Result<(), OutOfMemory>
    ensures { OnOk result (text.new.items ≡ text.old.items ++ (codes "at " ++ (decimal time ++ 32 ∷ []))) }
{
    text.extend_from_slice(b"at ")?;
    text.extend_from_slice(Buffer::new().format(time).as_bytes())?;
    text.push(b' ')?;
    Ok(())
}

/// Appends `word`, the name of the switch `s` and `numbers`, and ends the line.
///
/// The caller must pass the index of a switch with a name.
///
/// # Errors
/// `OutOfMemory` if an allocation fails. The contract then says nothing about `text`.
pub fn push_at(
    text: &mut Vec<u8>,
    names: &Names,
    word: &[u8],
    s: Place,
    numbers: &[u32],
) -> Result<(), OutOfMemory>
    requires { s < length names.now }
    ensures { OnOk result (text.new.items ≡ text.old.items
        ++ line_text (word.now ∷ slice_index_or names.now s [] ∷ map decimal numbers.now)) }
{
    text.extend_from_slice(word)?;
    text.push(b' ')?;
    text.extend_from_slice(names.get(usize::from(s)))?;
    push_numbers(text, numbers)?;
    text.push(b'\n')?;
    Ok(())
}

// Appends numbers, each after a space.
fn push_numbers(text: &mut Vec<u8>, numbers: &[u32]) -> Result<(), OutOfMemory>
    ensures { OnOk result (text.new.items ≡ text.old.items ++ spaced_numbers numbers.now) }
{
    'numbers: for number in numbers {
        text.push(b' ')?;
        text.extend_from_slice(Buffer::new().format(*number).as_bytes())?;
    }
    Ok(())
}

/// Appends `send` and the names of the hosts `host` and `to`, and ends the line.
///
/// The caller must pass the indices of hosts with names; they can be the same.
///
/// # Errors
/// `OutOfMemory` if an allocation fails. The contract then says nothing about `text`.
pub fn push_send(text: &mut Vec<u8>, hosts: &Names, host: u16, to: u16) -> Result<(), OutOfMemory>
    requires host { host < length hosts.now }
    requires to { to < length hosts.now }
    ensures { OnOk result (text.new.items ≡ text.old.items
        ++ line_text (codes "send" ∷ slice_index_or hosts.now host []
        ∷ slice_index_or hosts.now to [] ∷ [])) }
{
    let host = hosts.get(usize::from(host));
    let to = hosts.get(usize::from(to));
    push_line(text, &[b"send", host, to])
}
