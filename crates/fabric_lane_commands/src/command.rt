//! The call of a command: a topology, tables, lanes and service levels are read, the command gives a text for them, the
//! text is written, and the status is told.

ghost use Rattle.std.specs.Prelude.{◌≡◌, IfErr, IfOk};
ghost use Rattle.fabric_call.specs.declared.status.Status.TheVariants.{OutOfMemory as Wanting};
ghost use Rattle.fabric_lane_commands.specs.Asked.{HasLowLevels};
ghost use Rattle.fabric_lane_commands.specs.Inputs.{HasPlaces, IsStop, lane_sources, told_in};
ghost use Rattle.fabric_lane_commands.specs.LaneCall.{IsGiven, IsLaneAnswer, LaneGives};
ghost use Rattle.fabric_print_lanes.specs.declared.answer.Asked.{Asked};

use crate::input::{Input, read_inputs};
use common_values::memory::OutOfMemory;
use fabric_call::command::{Given, tell_found};
use fabric_call::status::Status;
use fabric_print_lanes::answer::Asked;
use outside::sink::Sink;
use outside::source::Source;
use std::alloc::Global;

/// A command that judges tables with lanes.
pub trait LaneCommand {
    /// For the levels that were asked for and what the sources tell, the status with which the command ends and what it
    /// writes.
    ghost gives: { Self → Asked → LaneGives };

    /// What the command gives for what was read.
    fn given(&self, alloc: Global, input: &Input, asked: Asked) -> Result<Given, OutOfMemory>
        requires { HasPlaces input.now }
        ensures { IfOk result (λ given. gives self.now asked (told_in input.now) given.status given.text.items) };
}

// What the command gives for what the sources give, or why there is nothing.
fn found<C: LaneCommand, T: Source, S: Source, L: Source, P: Source>(
    command: &C,
    alloc: Global,
    topology: &mut T,
    tables: &mut S,
    lanes: &mut L,
    levels: &mut P,
    asked: Asked,
) -> Result<Given, Status>
    requires { HasLowLevels asked }
    ensures given { IfOk result (λ given. IsGiven (C.gives command.now asked) asked
        (lane_sources (T.seen topology.old) (S.seen tables.old) (L.seen lanes.old) (P.seen levels.old))
        (lane_sources (T.seen topology.new) (S.seen tables.new) (L.seen lanes.new) (P.seen levels.new))
        given.status given.text.items) }
    ensures stopped { IfErr result (IsStop asked
        (lane_sources (T.seen topology.old) (S.seen tables.old) (L.seen lanes.old) (P.seen levels.old))
        (lane_sources (T.seen topology.new) (S.seen tables.new) (L.seen lanes.new) (P.seen levels.new))) }
{
    match read_inputs(alloc, topology, tables, lanes, levels, asked) {
        Ok(input) => given_of(command, alloc, &input, asked),
        Err(status) => Err(status),
    }
}

// The same of what was read.
fn given_of<C: LaneCommand>(
    command: &C,
    alloc: Global,
    input: &Input,
    asked: Asked,
) -> Result<Given, Status>
    requires { HasPlaces input.now }
    ensures given { IfOk result (λ given.
        C.gives command.now asked (told_in input.now) given.status given.text.items) }
    ensures wanting { IfErr result (λ status. status ≡ Wanting) }
{
    Ok(command.given(alloc, input, asked)?)
}

/// Answers a command: reads a topology, tables, lanes and, if they are asked for, service levels from the sources, in
/// this order, writes what the command gives for them to out, and tells the status. The answer is the number of the
/// status, whose line goes to err. If a source is wrong, those after it are left alone, and so is out.
pub fn answer<C: LaneCommand, T: Source, S: Source, L: Source, P: Source, O: Sink, E: Sink>(
    command: &C,
    alloc: Global,
    topology: &mut T,
    tables: &mut S,
    lanes: &mut L,
    levels: &mut P,
    asked: Asked,
    out: &mut O,
    err: &mut E,
) -> u8
    requires { HasLowLevels asked }
    ensures { IsLaneAnswer (C.gives command.now asked) asked
        (lane_sources (T.seen topology.old) (S.seen tables.old) (L.seen lanes.old) (P.seen levels.old))
        (lane_sources (T.seen topology.new) (S.seen tables.new) (L.seen lanes.new) (P.seen levels.new))
        (O.seen out.old) (O.seen out.new) (E.seen err.old) (E.seen err.new) result }
{
    let found = found(command, alloc, topology, tables, lanes, levels, asked);
    tell_found(out, err, found)
}
