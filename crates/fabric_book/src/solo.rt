//! A run on one thread, in a fixed order.

ghost use Rattle.std.specs.Prelude.{◌≡◌, ◌+◌, ◌<◌, length, IfOk, OnOk};
ghost use Rattle.net_script.specs.Scripts.{IsScript};
ghost use Rattle.net_world.specs.Histories.{IsLegal};
ghost use Rattle.net_world.specs.Solo.{IsSolo};
ghost use Rattle.net_world.specs.World.{begun, world_after};
ghost use Rattle.fabric_book.specs.Nets.{driver_lines};
ghost use Rattle.fabric_book.specs.Rounds.{AreIdleBefore, GoesOn, HasDriven, IsIdleAt, IsTurnOf, IsTurnOfDriver, told_of};

use crate::lines::Lines;
use crate::net::Net;
use an_base::event::Journal;
use an_base::place::Place;
use common_values::memory::OutOfMemory;
use net_script::script::Script;
use net_state::ending::Ending;
use net_state::work::Drive;
use std::alloc::Global;

/// A run: its journal, and its end.
#[derive(Drop)]
pub struct Run {
    /// The events.
    pub journal: Journal,
    /// The end that has come.
    pub end: Ending,
}

/// A run, with the lines that report the events of its driver, and the tick at its end.
#[derive(Drop)]
pub struct ToldRun {
    /// The run.
    pub run: Run,
    /// The lines that report the events of the driver, in order.
    pub told: Lines,
    /// The tick at the end.
    pub tick: u32,
}

// Makes a switch do all that it has to do.
fn work_out(net: &mut Net, s: Place, lines: &mut Lines) -> Result<(), OutOfMemory>
    requires turn { IsTurnOf s net.old }
    requires within { s < length net.old.script.wires.switches }
    ensures turn { OnOk result (IsTurnOf (s + 1) net.new) }
    ensures on { OnOk result (GoesOn net.old net.new) }
    ensures idle { OnOk result (IsIdleAt net.new s) }
    ensures told { OnOk result (told_of net.new ≡ told_of net.old) }
{
    'turns: while net.turn(s, lines)? {
        lines.clear();
    }
    Ok(())
}

// Makes each switch do all that it has to do, in the order of the script.
fn work_all(net: &mut Net, lines: &mut Lines) -> Result<(), OutOfMemory>
    requires { IsTurnOf 0 net.old }
    ensures turn { OnOk result (IsTurnOfDriver net.new) }
    ensures on { OnOk result (GoesOn net.old net.new) }
    ensures idle { OnOk result (AreIdleBefore (length net.new.script.wires.switches) net.old net.new) }
    ensures told { OnOk result (told_of net.new ≡ told_of net.old) }
{
    let count = net.fabric().count();
    'switches: for s in 0..count {
        work_out(net, Place(s), lines)?;
    }
    Ok(())
}

// Makes the driver drive until it waits or an end has come, and adds the lines that report it.
fn drive_all(net: &mut Net, told: &mut Lines) -> Result<Option<Ending>, OutOfMemory>
    requires turn { IsTurnOfDriver net.old }
    requires told { told.old ≡ told_of net.old }
    ensures script { OnOk result (IsScript net.new.script) }
    ensures on { OnOk result (GoesOn net.old net.new) }
    ensures driven { IfOk result (λ end. HasDriven end net.new) }
    ensures told { OnOk result (told.new ≡ told_of net.new) }
{
    'turns: loop {
        match net.drive(told)? {
            Drive::Did(_event) => {}
            Drive::Waits => return Ok(None),
            Drive::Ended(end) => return Ok(Some(end)),
        }
    }
}

// Makes rounds until an end has come: the switches in the order of the script, then the driver. Adds the lines that
// report the driver's events.
fn go_round(net: &mut Net, lines: &mut Lines, told: &mut Lines) -> Result<Ending, OutOfMemory>
    requires turn { IsTurnOf 0 net.old }
    requires told { told.old ≡ told_of net.old }
    ensures script { OnOk result (net.new.script ≡ net.old.script) }
    ensures driven { IfOk result (λ end. HasDriven (Some end) net.new) }
    ensures told { OnOk result (told.new ≡ told_of net.new) }
{
    'rounds: loop {
        work_all(net, lines)?;
        if let Some(end) = drive_all(net, told)? {
            return Ok(end);
        }
    }
}

/// Runs `script` on one thread: the switches in the order of the script, each while it has work; then the driver,
/// until it waits; and again. Also returns the lines that report the driver's events, and the tick at the end.
///
/// # Errors
/// `OutOfMemory` if an allocation fails.
pub fn solo(alloc: Global, script: &Script) -> Result<ToldRun, OutOfMemory>
    ensures solo { IfOk result (λ all. IsSolo script.now all.run.journal all.run.end) }
    ensures legal { IfOk result (λ all. IsLegal script.now all.run.journal all.run.end) }
    ensures told { IfOk result (λ all. all.told ≡ driver_lines (begun script.now) all.run.journal) }
    ensures tick { IfOk result (λ all. all.tick ≡ (world_after script.now all.run.journal).fabric.tick) }
{
    let mut net = Net::begin(alloc, script)?;
    let mut told = Lines::new(alloc);
    let end = go_round(&mut net, &mut Lines::new(alloc), &mut told)?;
    let tick = net.now();
    let run = Run {
        journal: net.into_journal(),
        end,
    };
    Ok(ToldRun { run, told, tick })
}
