//! The forms of lines: what the words of a line add to the lines before it.

ghost use Rattle.std.specs.Prelude.{◌≡◌, ◌≢◌, [], ◌∷◌, None, map, codes, IfOk, IfSome, IfNone};
ghost use Rattle.std.specs.Option.{option_map};
ghost use Rattle.common_lines.specs.declared.stop.Stop.TheVariants.{Fault};
ghost use Rattle.net_script.specs.Settings.{setting_words};
ghost use Rattle.net_script.specs.Commands.{link_word};
ghost use Rattle.net_script.specs.Scripts.{CanAddSwitch, CanAddLink, CanAddHost, CanAddCommand};
ghost use Rattle.net_script.specs.Forms.{Number, AnyRoutes, SwitchLine, LinkLine, HostLine, ChangesLink, ChangesWire, Sends, Restarts};
ghost use Rattle.net_script.specs.Rules.{switch_of, link_of, host_of, link_command, wire_command, send_command, restart_command, switch_cause, link_cause, host_cause, link_change_cause, wire_change_cause, send_cause, restart_cause};
ghost use Rattle.net_script.specs.declared.setting.Setting.{Setting};
ghost use Rattle.net_script.specs.declared.command.LinkChange.{LinkChange};
ghost use Rattle.net_script.specs.Texts.{AddsForm, IsFaultyForm};
ghost use Rattle.common_lines.specs.Faults.{IsField};
ghost use Rattle.common_lines.specs.Stops.{IsStep};
ghost use Rattle.net_script.specs.Steps.{ReadsForm, IsWrong};

use crate::cause::ScriptCause;
use crate::command::{Command, LinkChange, WireChange};
use crate::draft::{Draft, Part};
use crate::field::{
    free_link, free_port, had_in, known_host, known_switch, linked_port, new_name, new_uid,
    number_in, port_in, room_for_command, room_for_life, time_in, used_port,
};
use crate::script::Script;
use crate::setting::Setting;
use an_base::event::Event;
use common_lines::stop::Stop;
use common_lines::word::is;
use common_values::text::Word;
use net_graph::wiring::{HostOn, LinkAt, MOST_HOSTS, SwitchAt};
use std::alloc::Global;

/// The reason why a line of a script adds nothing.
pub type ScriptStop = Stop<ScriptCause>;

impl From<ScriptCause> for Stop<ScriptCause> {
    ghost from_gives = { λ cause stop. stop ≡ Fault cause };

    fn from(cause: ScriptCause) -> Stop<ScriptCause> {
        Stop::Fault(cause)
    }
}

/// Adds what a line of `words` says.
///
/// # Errors
/// `Fault` with the first error of the words, or `OutOfMemory`. The contract then says nothing about `draft`.
pub fn read_form(draft: &mut Draft, alloc: Global, words: &[&[u8]]) -> Result<(), ScriptStop>
    ensures { IsStep result (AddsForm draft.old (map (λ w. w.now) words.now) draft.new)
        (IsFaultyForm draft.old (map (λ w. w.now) words.now)) }
{
    match words {
        [a] => read_one(draft, a),
        [a, b] => read_two(draft, a, b),
        [a, b, c] => read_three(draft, alloc, a, b, c),
        [a, b, c, d] => read_four(draft, a, b, c, d),
        [a, b, c, d, e] => read_five(draft, alloc, a, b, c, d, e),
        [a, b, c, d, e, f] => read_six(draft, a, b, c, d, e, f),
        _ => Err(Stop::Fault(ScriptCause::UnknownWord)),
    }
}

fn read_one(draft: &mut Draft, a: &[u8]) -> Result<(), ScriptStop>
    ensures { IsStep result (AddsForm draft.old (a.now ∷ []) draft.new)
        (IsFaultyForm draft.old (a.now ∷ [])) }
{
    if is(a, "end") {
        draft.part = Part::After;
        return Ok(());
    }
    Err(Stop::Fault(ScriptCause::UnknownWord))
}

fn read_two(draft: &mut Draft, a: &[u8], b: &[u8]) -> Result<(), ScriptStop>
    ensures { IsStep result (AddsForm draft.old (a.now ∷ b.now ∷ []) draft.new)
        (IsFaultyForm draft.old (a.now ∷ b.now ∷ [])) }
{
    if is(a, "epoch") {
        return read_setting(draft, Setting::Epoch, b);
    }
    if is(a, "pace") {
        return read_setting(draft, Setting::Pace, b);
    }
    if is(a, "routes") && is(b, "any") {
        return read_any_routes(draft);
    }
    Err(Stop::Fault(ScriptCause::UnknownWord))
}

fn read_three(
    draft: &mut Draft,
    alloc: Global,
    a: &[u8],
    b: &[u8],
    c: &[u8],
) -> Result<(), ScriptStop>
    ensures { IsStep result (AddsForm draft.old (a.now ∷ b.now ∷ c.now ∷ []) draft.new)
        (IsFaultyForm draft.old (a.now ∷ b.now ∷ c.now ∷ [])) }
{
    if is(a, "switch") {
        return read_switch(draft, alloc, b, c, None);
    }
    if is(a, "limit") {
        return match limit_of(b) {
            Some(setting) => read_setting(draft, setting, c),
            None => Err(Stop::Fault(ScriptCause::UnknownWord)),
        };
    }
    Err(Stop::Fault(ScriptCause::UnknownWord))
}

fn read_four(draft: &mut Draft, a: &[u8], b: &[u8], c: &[u8], d: &[u8]) -> Result<(), ScriptStop>
    ensures { IsStep result (AddsForm draft.old (a.now ∷ b.now ∷ c.now ∷ d.now ∷ []) draft.new)
        (IsFaultyForm draft.old (a.now ∷ b.now ∷ c.now ∷ d.now ∷ [])) }
{
    if is(a, "at") && is(c, "restart") {
        return read_restart(draft, b, d);
    }
    Err(Stop::Fault(ScriptCause::UnknownWord))
}

fn read_five(
    draft: &mut Draft,
    alloc: Global,
    a: &[u8],
    b: &[u8],
    c: &[u8],
    d: &[u8],
    e: &[u8],
) -> Result<(), ScriptStop>
    ensures { IsStep result (AddsForm draft.old (a.now ∷ b.now ∷ c.now ∷ d.now ∷ e.now ∷ []) draft.new)
        (IsFaultyForm draft.old (a.now ∷ b.now ∷ c.now ∷ d.now ∷ e.now ∷ [])) }
{
    if is(a, "switch") && is(d, "had") {
        return read_switch(draft, alloc, b, c, Some(e));
    }
    if is(a, "link") {
        return read_link(draft, b, c, d, e);
    }
    if is(a, "host") {
        return read_host(draft, alloc, b, c, d, e);
    }
    if is(a, "at") && is(c, "send") {
        return read_send(draft, b, d, e);
    }
    if is(a, "at") {
        return match link_change_of(c) {
            Some(change) => read_link_change(draft, change, b, d, e),
            None => Err(Stop::Fault(ScriptCause::UnknownWord)),
        };
    }
    Err(Stop::Fault(ScriptCause::UnknownWord))
}

fn read_six(
    draft: &mut Draft,
    a: &[u8],
    b: &[u8],
    c: &[u8],
    d: &[u8],
    e: &[u8],
    f: &[u8],
) -> Result<(), ScriptStop>
    ensures { IsStep result (AddsForm draft.old (a.now ∷ b.now ∷ c.now ∷ d.now ∷ e.now ∷ f.now
        ∷ []) draft.new)
        (IsFaultyForm draft.old (a.now ∷ b.now ∷ c.now ∷ d.now ∷ e.now ∷ f.now ∷ [])) }
{
    if is(a, "at") {
        return match WireChange::of(c) {
            Some(change) => read_wire_change(draft, change, b, d, e, f),
            None => Err(Stop::Fault(ScriptCause::UnknownWord)),
        };
    }
    Err(Stop::Fault(ScriptCause::UnknownWord))
}

fn limit_of(word: &[u8]) -> Option<Setting>
    ensures some { IfSome result (λ k. codes "limit" ∷ word.now ∷ [] ≡ setting_words k) }
    ensures none { IfNone result ((k : Setting) →
        codes "limit" ∷ word.now ∷ [] ≢ setting_words k) }
{
    match word {
        b"ticks" => Some(Setting::Ticks),
        b"events" => Some(Setting::Events),
        b"blocks" => Some(Setting::Blocks),
        _ => None,
    }
}

fn link_change_of(word: &[u8]) -> Option<LinkChange>
    ensures some { IfSome result (λ k. word.now ≡ link_word k) }
    ensures none { IfNone result ((k : LinkChange) → word.now ≢ link_word k) }
{
    match word {
        b"fail" => Some(LinkChange::Fail),
        b"repair" => Some(LinkChange::Repair),
        _ => None,
    }
}

#[tactic(auto, unfolding(crate::specs::Rules::setting_cause))]
fn read_setting(draft: &mut Draft, setting: Setting, n: &[u8]) -> Result<(), ScriptStop>
    ensures { IsStep result (ReadsForm draft.old (Number setting n.now) draft.new)
        (IsWrong draft.old (Number setting n.now)) }
{
    let number = number_in(n, setting.least(), setting.most())?;
    if draft.came.has(setting) {
        return Err(Stop::Fault(ScriptCause::NameTwice));
    }
    draft.script.set(setting, number);
    draft.came = draft.came.with(setting);
    Ok(())
}

fn read_any_routes(draft: &mut Draft) -> Result<(), ScriptStop>
    ensures { IsStep result (ReadsForm draft.old (AnyRoutes) draft.new)
        (IsWrong draft.old (AnyRoutes)) }
{
    if draft.came.routes {
        return Err(Stop::Fault(ScriptCause::NameTwice));
    }
    draft.script.set_any_routes();
    draft.came.routes = true;
    Ok(())
}

#[tactic(auto, unfolding(crate::specs::Rules::switch_cause))]
fn switch_in(
    script: &Script,
    name: &[u8],
    uid: &[u8],
    had: Option<&[u8]>,
) -> Result<SwitchAt, ScriptCause>
    ensures switch { IsField result
        (switch_cause script.now name.now uid.now (option_map (λ w. w.now) had.entry))
        (switch_of uid.now (option_map (λ w. w.now) had.entry)) }
    ensures can { IfOk result (CanAddSwitch script.now name.now) }
{
    new_name(script, name)?;
    let uid = new_uid(script, uid)?;
    let had = had_in(had)?;
    room_for_life(script)?;
    Ok(SwitchAt { uid, had })
}

fn read_switch(
    draft: &mut Draft,
    alloc: Global,
    name: &[u8],
    uid: &[u8],
    had: Option<&[u8]>,
) -> Result<(), ScriptStop>
    ensures { IsStep result (ReadsForm draft.old (SwitchLine name.now uid.now (option_map (λ w. w.now) had.entry)) draft.new)
        (IsWrong draft.old (SwitchLine name.now uid.now (option_map (λ w. w.now) had.entry))) }
{
    let switch = switch_in(&draft.script, name, uid, had)?;
    let name = Word::of(alloc, name)?;
    draft.script.add_switch(name, switch)?;
    Ok(())
}

#[tactic(auto, unfolding(crate::specs::Rules::link_cause))]
fn link_in(
    script: &Script,
    a: &[u8],
    a_port: &[u8],
    b: &[u8],
    b_port: &[u8],
) -> Result<LinkAt, ScriptCause>
    ensures link { IsField result (link_cause script.now a.now a_port.now b.now b_port.now)
        (link_of script.now a.now a_port.now b.now b_port.now) }
    ensures can { IfOk result (CanAddLink script.now) }
{
    let a = known_switch(script, a)?;
    let a_port = port_in(a_port)?;
    let b = known_switch(script, b)?;
    let b_port = port_in(b_port)?;
    let link = LinkAt {
        a,
        a_port,
        b,
        b_port,
    };
    free_link(script.wiring(), &link)?;
    Ok(link)
}

fn read_link(
    draft: &mut Draft,
    a: &[u8],
    a_port: &[u8],
    b: &[u8],
    b_port: &[u8],
) -> Result<(), ScriptStop>
    ensures { IsStep result (ReadsForm draft.old (LinkLine a.now a_port.now b.now b_port.now) draft.new)
        (IsWrong draft.old (LinkLine a.now a_port.now b.now b_port.now)) }
{
    let link = link_in(&draft.script, a, a_port, b, b_port)?;
    draft.script.add_link(link)?;
    Ok(())
}

#[tactic(auto, unfolding(crate::specs::Rules::host_cause))]
fn host_in(
    script: &Script,
    name: &[u8],
    uid: &[u8],
    switch: &[u8],
    port: &[u8],
) -> Result<HostOn, ScriptCause>
    ensures host { IsField result (host_cause script.now name.now uid.now switch.now port.now)
        (host_of script.now uid.now switch.now port.now) }
    ensures can { IfOk result (CanAddHost script.now name.now) }
{
    new_name(script, name)?;
    let uid = new_uid(script, uid)?;
    let s = known_switch(script, switch)?;
    let port = port_in(port)?;
    free_port(script.wiring(), s, port)?;
    if script.wiring().hosts().len() >= MOST_HOSTS {
        return Err(ScriptCause::TooMany);
    }
    Ok(HostOn { uid, s, port })
}

fn read_host(
    draft: &mut Draft,
    alloc: Global,
    name: &[u8],
    uid: &[u8],
    switch: &[u8],
    port: &[u8],
) -> Result<(), ScriptStop>
    ensures { IsStep result (ReadsForm draft.old (HostLine name.now uid.now switch.now port.now) draft.new)
        (IsWrong draft.old (HostLine name.now uid.now switch.now port.now)) }
{
    let host = host_in(&draft.script, name, uid, switch, port)?;
    let name = Word::of(alloc, name)?;
    draft.script.add_host(name, host)?;
    Ok(())
}

#[tactic(auto, unfolding(crate::specs::Rules::link_change_cause))]
fn link_command_in(
    script: &Script,
    change: LinkChange,
    time: &[u8],
    name: &[u8],
    port: &[u8],
) -> Result<Command, ScriptCause>
    ensures command { IsField result (link_change_cause script.now time.now name.now port.now)
        (link_command script.now change time.now name.now port.now) }
    ensures can { IfOk result (CanAddCommand script.now) }
{
    let time = time_in(script, time)?;
    let s = known_switch(script, name)?;
    let port = port_in(port)?;
    used_port(script.wiring(), s, port)?;
    room_for_command(script)?;
    let event = change.event(s, port);
    Ok(Command { time, event })
}

fn read_link_change(
    draft: &mut Draft,
    change: LinkChange,
    time: &[u8],
    name: &[u8],
    port: &[u8],
) -> Result<(), ScriptStop>
    ensures { IsStep result (ReadsForm draft.old (ChangesLink change time.now name.now port.now) draft.new)
        (IsWrong draft.old (ChangesLink change time.now name.now port.now)) }
{
    let command = link_command_in(&draft.script, change, time, name, port)?;
    draft.script.add_command(command.time, command.event)?;
    Ok(())
}

#[tactic(auto, unfolding(crate::specs::Rules::wire_change_cause))]
fn wire_command_in(
    script: &Script,
    change: WireChange,
    time: &[u8],
    name: &[u8],
    port: &[u8],
    n: &[u8],
) -> Result<Command, ScriptCause>
    ensures command { IsField result
        (wire_change_cause script.now change time.now name.now port.now n.now)
        (wire_command script.now change time.now name.now port.now n.now) }
    ensures can { IfOk result (CanAddCommand script.now) }
{
    let time = time_in(script, time)?;
    let s = known_switch(script, name)?;
    let port = port_in(port)?;
    let n = number_in(n, 1, change.most())?;
    linked_port(script.wiring(), s, port)?;
    room_for_command(script)?;
    let event = change.event(s, port, n as u32);
    Ok(Command { time, event })
}

fn read_wire_change(
    draft: &mut Draft,
    change: WireChange,
    time: &[u8],
    name: &[u8],
    port: &[u8],
    n: &[u8],
) -> Result<(), ScriptStop>
    ensures { IsStep result (ReadsForm draft.old (ChangesWire change time.now name.now port.now n.now) draft.new)
        (IsWrong draft.old (ChangesWire change time.now name.now port.now n.now)) }
{
    let command = wire_command_in(&draft.script, change, time, name, port, n)?;
    draft.script.add_command(command.time, command.event)?;
    Ok(())
}

#[tactic(auto, unfolding(crate::specs::Rules::send_cause))]
fn send_in(script: &Script, time: &[u8], host: &[u8], to: &[u8]) -> Result<Command, ScriptCause>
    ensures command { IsField result (send_cause script.now time.now host.now to.now)
        (send_command script.now time.now host.now to.now) }
    ensures can { IfOk result (CanAddCommand script.now) }
{
    let time = time_in(script, time)?;
    let host = known_host(script, host)?;
    let to = known_host(script, to)?;
    room_for_command(script)?;
    let event = Event::Send { host, to };
    Ok(Command { time, event })
}

fn read_send(draft: &mut Draft, time: &[u8], host: &[u8], to: &[u8]) -> Result<(), ScriptStop>
    ensures { IsStep result (ReadsForm draft.old (Sends time.now host.now to.now) draft.new)
        (IsWrong draft.old (Sends time.now host.now to.now)) }
{
    let command = send_in(&draft.script, time, host, to)?;
    draft.script.add_command(command.time, command.event)?;
    Ok(())
}

#[tactic(auto, unfolding(crate::specs::Rules::restart_cause))]
fn restart_in(script: &Script, time: &[u8], name: &[u8]) -> Result<Command, ScriptCause>
    ensures command { IsField result (restart_cause script.now time.now name.now)
        (restart_command script.now time.now name.now) }
    ensures can { IfOk result (CanAddCommand script.now) }
{
    let time = time_in(script, time)?;
    let s = known_switch(script, name)?;
    room_for_life(script)?;
    room_for_command(script)?;
    let event = Event::Restart { s };
    Ok(Command { time, event })
}

fn read_restart(draft: &mut Draft, time: &[u8], name: &[u8]) -> Result<(), ScriptStop>
    ensures { IsStep result (ReadsForm draft.old (Restarts time.now name.now) draft.new)
        (IsWrong draft.old (Restarts time.now name.now)) }
{
    let command = restart_in(&draft.script, time, name)?;
    draft.script.add_command(command.time, command.event)?;
    Ok(())
}
