//! The fields of lines: the value of a word, or its error.

ghost use Rattle.std.specs.Prelude.{◌≡◌, ◌≢◌, ◌<◌, ◌≤◌, ◌^◌, [], ◌∷◌, Some, not, true, false, is_some, length, Contains, IfOk, OnOk};
ghost use Rattle.std.specs.Option.{option_map};
ghost use Rattle.an_base.specs.declared.limits.TheConstants.{LAST_PORT, MOST_NUMBER, MOST_SWITCHES};
ghost use Rattle.net_graph.specs.Wires.{uids, used_ports, a_end, b_end};
ghost use Rattle.net_script.specs.declared.cause.ScriptCause.TheVariants.{BadName, NoSuchName, PortUsed, NoLink};
ghost use Rattle.common_lines.specs.Words.{number_value};
ghost use Rattle.net_names.specs.Words.{is_name, uid_value};
ghost use Rattle.common_lines.specs.Faults.{first_of, unless};
ghost use Rattle.net_script.specs.Commands.{is_used, is_linked, last_time};
ghost use Rattle.net_script.specs.Scripts.{IsNewName, lives_of};
ghost use Rattle.net_script.specs.Rules.{number_cause, port_cause, new_name_cause, new_uid_cause, known_cause, had_cause, time_cause, lives_cause, commands_cause, is_taken, is_free, place, had_of};
ghost use Rattle.common_lines.specs.Faults.{IsField, IsGoodField, IsTest};

use crate::cause::ScriptCause;
use crate::script::Script;
use an_base::limits::MOST_SWITCHES;
use an_base::place::Place;
use an_base::port::Port;
use common_lines::word::{is_number, number_between, number_of};
use net_graph::wiring::{Far, LinkAt, Wiring};
use net_names::word::{is_name, uid_of};

// The most commands.
const MOST_COMMANDS: usize = 10_000;

// The latest time of a command.
const MOST_TIME: u64 = 1_000_000;

/// Returns the value of `word`, a number from `least` to `most`.
///
/// # Errors
/// `BadNumber` if it is not such a number.
pub fn number_in(word: &[u8], least: u64, most: u64) -> Result<u64, ScriptCause>
    ensures number { IsField result (number_cause least most word.now) (number_value word.now) }
    ensures range { IfOk result (λ n. (least ≤ n) × (n ≤ most)) }
{
    number_between(word, least, most).ok_or(ScriptCause::BadNumber)
}

/// Returns the port, 1 to 12, that `word` names.
///
/// # Errors
/// `BadNumber` if it is not a number, and `PortRange` if the number is not a port.
pub fn port_in(word: &[u8]) -> Result<Port, ScriptCause>
    ensures port { IsField result (port_cause word.now) (number_value word.now) }
    ensures range { IfOk result (λ p. (1 ≤ p) × (p ≤ LAST_PORT)) }
{
    if !is_number(word) {
        return Err(ScriptCause::BadNumber);
    }
    match number_of(word) {
        Some(port) if 1 <= port && port <= 12 => Ok(Port(port as u8)),
        _ => Err(ScriptCause::PortRange),
    }
}

/// Checks that `word` is a name that no switch or host has.
///
/// # Errors
/// `BadName` if it is not a name, and `NameTwice` if a switch or a host has it.
pub fn new_name(script: &Script, word: &[u8]) -> Result<(), ScriptCause>
    ensures test { IsTest result (new_name_cause script.now word.now) }
    ensures is_new { OnOk result (IsNewName script.now word.now) }
{
    if !is_name(word) {
        return Err(ScriptCause::BadName);
    }
    if is_taken(script, word) {
        return Err(ScriptCause::NameTwice);
    }
    Ok(())
}

// Whether a switch or a host has this name.
fn is_taken(script: &Script, name: &[u8]) -> bool
    ensures { result ≡ is_taken script.now name.now }
{
    script.place_of_switch(name).is_some() || script.place_of_host(name).is_some()
}

/// Returns the value of `word`, an identifier below 2^48 that no switch or host has.
///
/// # Errors
/// `BadNumber` if it is not an identifier, and `UidTwice` if a switch or a host has it.
pub fn new_uid(script: &Script, word: &[u8]) -> Result<u64, ScriptCause>
    ensures uid { IsField result (new_uid_cause script.now word.now) (uid_value word.now) }
    ensures is_new { IfOk result (λ uid. (uid < 2 ^ 48) × ¬ Contains (uids script.now.wires) uid) }
{
    let Some(uid) = uid_of(word) else {
        return Err(ScriptCause::BadNumber);
    };
    if script.wiring().has_uid(uid) {
        return Err(ScriptCause::UidTwice);
    }
    Ok(uid)
}

// The place that a word names; `place` is that at which it was found.
fn known<Found: Copy>(word: &[u8], place: Option<Found>) -> Result<Found, ScriptCause>
    ensures { IsGoodField result
        (first_of (unless (is_name word.now) BadName ∷ unless (is_some place) NoSuchName ∷ []))
        (λ found. place ≡ Some found) }
{
    if !is_name(word) {
        return Err(ScriptCause::BadName);
    }
    place.ok_or(ScriptCause::NoSuchName)
}

/// Returns the index of the switch that `word` names.
///
/// # Errors
/// `BadName` if it is not a name, and `NoSuchName` if no switch has it.
pub fn known_switch(script: &Script, word: &[u8]) -> Result<Place, ScriptCause>
    ensures place { IsField result (known_cause script.now.switch_names word.now)
        (place script.now.switch_names word.now) }
    ensures range { IfOk result (λ s. s < length script.now.wires.switches) }
{
    known(word, script.place_of_switch(word))
}

/// Returns the index of the host that `word` names.
///
/// # Errors
/// `BadName` if it is not a name, and `NoSuchName` if no host has it.
pub fn known_host(script: &Script, word: &[u8]) -> Result<u16, ScriptCause>
    ensures place { IsField result (known_cause script.now.names_of_hosts word.now)
        (place script.now.names_of_hosts word.now) }
    ensures range { IfOk result (λ h. h < length script.now.wires.hosts) }
{
    known(word, script.place_of_host(word))
}

/// Returns the number, 1 to 126, that a switch had last: the value of `word`, or 1 without a word.
///
/// # Errors
/// `BadNumber` if the word is not such a number.
pub fn had_in(word: Option<&[u8]>) -> Result<u8, ScriptCause>
    ensures had { IsField result (had_cause (option_map (λ w. w.now) word.entry))
        (had_of (option_map (λ w. w.now) word.entry)) }
    ensures range { IfOk result (λ n. (1 ≤ n) × (n ≤ MOST_NUMBER)) }
{
    match word {
        None => Ok(1),
        Some(word) => {
            let had = number_in(word, 1, 126)?;
            Ok(had as u8)
        }
    }
}

/// Returns the time of the next command in ticks, up to 1,000,000: the value of `word`.
///
/// # Errors
/// `BadNumber` if it is not such a number, and `TimesFall` if the last command is due later.
pub fn time_in(script: &Script, word: &[u8]) -> Result<u32, ScriptCause>
    ensures time { IsField result (time_cause script.now word.now) (number_value word.now) }
    ensures range { IfOk result (λ t. (last_time script.now.commands ≤ t) × (t ≤ 1000000)) }
{
    let time = number_in(word, 0, MOST_TIME)?;
    if time < u64::from(last_time(script)) {
        return Err(ScriptCause::TimesFall);
    }
    Ok(time as u32)
}

// The time of the last command.
fn last_time(script: &Script) -> u32
    ensures { result ≡ last_time script.now.commands }
{
    script.commands().last().map_or(0, |c| c.time)
}

/// Checks that there are fewer than 126 lives.
///
/// # Errors
/// `TooMany` if there are 126.
pub fn room_for_life(script: &Script) -> Result<(), ScriptCause>
    ensures test { IsTest result (lives_cause script.now) }
    ensures room { OnOk result (lives_of script.now < MOST_SWITCHES) }
{
    if script.lives() < MOST_SWITCHES {
        Ok(())
    } else {
        Err(ScriptCause::TooMany)
    }
}

/// Checks that there are fewer than 10,000 commands.
///
/// # Errors
/// `TooMany` if there are 10,000.
pub fn room_for_command(script: &Script) -> Result<(), ScriptCause>
    ensures test { IsTest result (commands_cause script.now) }
    ensures room { OnOk result (length script.now.commands < 10000) }
{
    if script.commands().len() < MOST_COMMANDS {
        Ok(())
    } else {
        Err(ScriptCause::TooMany)
    }
}

// Whether a port has a link or a host.
fn is_used(wiring: &Wiring, s: Place, port: Port) -> bool
    ensures used { result ≡ is_used wiring.now s port }
    ensures ports { result ≡ false → ¬ Contains (used_ports wiring.now) (s, port) }
{
    wiring.far(s, port).is_some()
}

/// Checks that `link` joins two different ports, both unused.
///
/// # Errors
/// `PortUsed` if it does not.
pub fn free_link(wiring: &Wiring, link: &LinkAt) -> Result<(), ScriptCause>
    ensures test { IsTest result (unless (is_free wiring.now link.now) PortUsed) }
    ensures apart { OnOk result (a_end link.now ≢ b_end link.now) }
    ensures a_free { OnOk result (¬ Contains (used_ports wiring.now) (link.now.a, link.now.a_port)) }
    ensures b_free { OnOk result (¬ Contains (used_ports wiring.now) (link.now.b, link.now.b_port)) }
{
    if is_used(wiring, link.a, link.a_port) {
        return Err(ScriptCause::PortUsed);
    }
    if is_used(wiring, link.b, link.b_port) {
        return Err(ScriptCause::PortUsed);
    }
    if link.a == link.b && link.a_port == link.b_port {
        return Err(ScriptCause::PortUsed);
    }
    Ok(())
}

/// Checks that `port` of the switch `s` is unused.
///
/// # Errors
/// `PortUsed` if it has a link or a host.
pub fn free_port(wiring: &Wiring, s: Place, port: Port) -> Result<(), ScriptCause>
    ensures test { IsTest result (unless (not (is_used wiring.now s port)) PortUsed) }
    ensures free { OnOk result (¬ Contains (used_ports wiring.now) (s, port)) }
{
    if is_used(wiring, s, port) {
        return Err(ScriptCause::PortUsed);
    }
    Ok(())
}

/// Checks that `port` of the switch `s` has a link or a host.
///
/// # Errors
/// `NoLink` if it has neither.
pub fn used_port(wiring: &Wiring, s: Place, port: Port) -> Result<(), ScriptCause>
    ensures test { IsTest result (unless (is_used wiring.now s port) NoLink) }
    ensures used { OnOk result (is_used wiring.now s port ≡ true) }
{
    if is_used(wiring, s, port) {
        Ok(())
    } else {
        Err(ScriptCause::NoLink)
    }
}

/// Checks that `port` of the switch `s` has a link.
///
/// # Errors
/// `NoLink` if it has no link.
pub fn linked_port(wiring: &Wiring, s: Place, port: Port) -> Result<(), ScriptCause>
    ensures test { IsTest result (unless (is_linked wiring.now s port) NoLink) }
    ensures linked { OnOk result (is_linked wiring.now s port ≡ true) }
{
    match wiring.far(s, port) {
        Some(Far::Switch { .. }) => Ok(()),
        _ => Err(ScriptCause::NoLink),
    }
}
