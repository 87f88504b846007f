//! The call of a command: a topology and tables are read, the command gives a text for them, the text is written, and
//! the status is told.

ghost use Rattle.std.specs.Prelude.{IfOk, IfErr};
ghost use Rattle.fabric_read_tables.specs.Reads.{HasCells};
ghost use Rattle.outside.specs.Told.{Seen};
ghost use Rattle.fabric_call.specs.Answer.{sources, streams, GaveFabric, Gives, IsAnswer, IsAnswerBy, IsCause, IsEnding, IsGiven, IsStop, WasFound, WasNone};

use crate::input::{Topology, read_topology};
use crate::status::{Status, finish};
use common_values::memory::OutOfMemory;
use fabric_read_tables::reader::{Tables, read_tables};
use outside::all::write_all;
use outside::sink::Sink;
use outside::source::Source;
use std::alloc::Global;

/// What a command gives for tables of a fabric.
#[derive(Drop)]
pub struct Given {
    /// The status with which the call ends once the text is written.
    pub status: Status,
    /// The text for out.
    pub text: Vec<u8>,
}

/// A command that judges tables of a fabric.
pub trait Command {
    /// For the text of a topology, its fabric and tables, the status with which the command ends and what it writes.
    ghost gives: { Self → Gives };

    /// What the command gives for tables of a fabric.
    fn given(
        &self,
        alloc: Global,
        topology: &Topology,
        tables: &Tables,
    ) -> Result<Given, OutOfMemory>
        requires { HasCells topology.now.fabric tables.now }
        ensures given { IfOk result (λ given.
            gives self.now topology.now.text.items topology.now.fabric tables.now given.status given.text.items) }
        ensures ends { IfOk result (λ given. IsEnding given.status) };
}

// What the command gives for what the sources give, or why there is nothing.
fn found<C: Command, T: Source, S: Source>(
    command: &C,
    alloc: Global,
    topology: &mut T,
    tables: &mut S,
) -> Result<Given, Status>
    ensures given { IfOk result (λ given. IsGiven (C.gives command.now)
        (sources (T.seen topology.old) (S.seen tables.old))
        (sources (T.seen topology.new) (S.seen tables.new)) given.status given.text.items) }
    ensures stopped { IfErr result (IsStop
        (sources (T.seen topology.old) (S.seen tables.old))
        (sources (T.seen topology.new) (S.seen tables.new))) }
{
    match read_topology(alloc, topology) {
        Ok(topology) => found_for(command, alloc, &topology, tables),
        Err(status) => Err(status),
    }
}

// The same of a topology that was read.
fn found_for<C: Command, S: Source>(
    command: &C,
    alloc: Global,
    topology: &Topology,
    tables: &mut S,
) -> Result<Given, Status>
    ensures given { (old new : Seen) → GaveFabric old new topology.now.text.items topology.now.fabric
        → IfOk result (λ given. IsGiven (C.gives command.now) (sources old (S.seen tables.old))
        (sources new (S.seen tables.new)) given.status given.text.items) }
    ensures stopped { (old new : Seen) → GaveFabric old new topology.now.text.items topology.now.fabric
        → IfErr result (IsStop (sources old (S.seen tables.old)) (sources new (S.seen tables.new))) }
{
    let tables = read_tables(alloc, tables, &topology.fabric)?;
    Ok(command.given(alloc, topology, &tables)?)
}

// Writes the text to out, or answers why there is none.
fn status_of<O: Sink>(out: &mut O, found: Result<Given, Status>) -> Status
    ensures { IsCause (WasFound found) (WasNone found) (O.seen out.old) (O.seen out.new) result }
{
    let given = match found {
        Ok(given) => given,
        Err(status) => return status,
    };
    match write_all(out, &given.text) {
        Ok(()) => given.status,
        Err(_fault) => Status::WriteFault,
    }
}

/// Writes the text that is found to out, or nothing if there is none, and tells the status, that of a write fault if out
/// did not take the whole text. The answer is the number of the status, whose line goes to err.
pub fn tell_found<O: Sink, E: Sink>(out: &mut O, err: &mut E, found: Result<Given, Status>) -> u8
    ensures { IsAnswerBy (WasFound found) (WasNone found) (O.seen out.old) (O.seen out.new)
        (E.seen err.old) (E.seen err.new) result }
{
    let status = status_of(out, found);
    finish(err, status)
}

/// Answers a command: reads a topology and tables from the sources, writes what the command gives for them to out, and
/// tells the status. The answer is the number of a status, whose line goes to err.
pub fn answer<C: Command, T: Source, S: Source, O: Sink, E: Sink>(
    command: &C,
    alloc: Global,
    topology: &mut T,
    tables: &mut S,
    out: &mut O,
    err: &mut E,
) -> u8
    ensures { IsAnswer (C.gives command.now)
        (streams (T.seen topology.old) (S.seen tables.old) (O.seen out.old) (E.seen err.old))
        (streams (T.seen topology.new) (S.seen tables.new) (O.seen out.new) (E.seen err.new)) result }
{
    tell_found(out, err, found(command, alloc, topology, tables))
}
