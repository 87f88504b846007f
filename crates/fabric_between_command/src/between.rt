//! The call of `between`.

ghost use Rattle.std.specs.Prelude.{◌≡◌, IfErr, IfOk};
ghost use Rattle.outside.specs.Told.{Seen};
ghost use Rattle.fabric_read_tables.specs.Reads.{GaveTables, HasCells};
ghost use Rattle.fabric_call.specs.Answer.{GaveFabric};
ghost use Rattle.fabric_between_command.specs.Answer.{IsBetweenAnswer, IsGiven, IsStop, new_refused, sources};

use crate::answer::given_for;
use fabric_call::command::{Given, tell_found};
use fabric_call::input::{Topology, read_topology};
use fabric_call::status::Status;
use fabric_read_lines::reader::TextRefusal;
use fabric_read_tables::reader::{Tables, TablesRefusal, read_tables};
use outside::sink::Sink;
use outside::source::Source;
use std::alloc::Global;

/// Answers `between`: reads a topology, its old and its new tables from their sources to the ends, in this order, and
/// writes to out whether channels that may follow one another while rows change lead round. The answer is the number of
/// a status, whose line goes to err. If a source is wrong, those after it are left alone, and so is out.
pub fn between<T: Source, S: Source, N: Source, O: Sink, E: Sink>(
    alloc: Global,
    topology: &mut T,
    old: &mut S,
    new: &mut N,
    out: &mut O,
    err: &mut E,
) -> u8
    ensures { IsBetweenAnswer
        (sources (T.seen topology.old) (S.seen old.old) (N.seen new.old))
        (sources (T.seen topology.new) (S.seen old.new) (N.seen new.new))
        (O.seen out.old) (O.seen out.new) (E.seen err.old) (E.seen err.new) result }
{
    tell_found(out, err, found(alloc, topology, old, new))
}

// What is given for what the sources give, or why there is nothing.
fn found<T: Source, S: Source, N: Source>(
    alloc: Global,
    topology: &mut T,
    old: &mut S,
    new: &mut N,
) -> Result<Given, Status>
    ensures given { IfOk result (λ given. IsGiven
        (sources (T.seen topology.old) (S.seen old.old) (N.seen new.old))
        (sources (T.seen topology.new) (S.seen old.new) (N.seen new.new)) given.status given.text.items) }
    ensures stopped { IfErr result (IsStop
        (sources (T.seen topology.old) (S.seen old.old) (N.seen new.old))
        (sources (T.seen topology.new) (S.seen old.new) (N.seen new.new))) }
{
    match read_topology(alloc, topology) {
        Ok(topology) => found_for(alloc, &topology, old, new),
        Err(status) => Err(status),
    }
}

// The same of a topology that was read.
fn found_for<S: Source, N: Source>(
    alloc: Global,
    topology: &Topology,
    old: &mut S,
    new: &mut N,
) -> Result<Given, Status>
    ensures given { (was is : Seen) → GaveFabric was is topology.now.text.items topology.now.fabric
        → IfOk result (λ given. IsGiven (sources was (S.seen old.old) (N.seen new.old))
        (sources is (S.seen old.new) (N.seen new.new)) given.status given.text.items) }
    ensures stopped { (was is : Seen) → GaveFabric was is topology.now.text.items topology.now.fabric
        → IfErr result (IsStop (sources was (S.seen old.old) (N.seen new.old))
        (sources is (S.seen old.new) (N.seen new.new))) }
{
    match read_tables(alloc, old, &topology.fabric) {
        Ok(tables) => found_with(alloc, topology, &tables, new),
        Err(refusal) => Err(Status::from(refusal)),
    }
}

// The same of old tables that were read.
fn found_with<N: Source>(
    alloc: Global,
    topology: &Topology,
    old: &Tables,
    new: &mut N,
) -> Result<Given, Status>
    requires { HasCells topology.now.fabric old.now }
    ensures given { (was is was_old is_old : Seen) → GaveFabric was is topology.now.text.items topology.now.fabric
        → GaveTables topology.now.fabric was_old is_old old.now
        → IfOk result (λ given. IsGiven (sources was was_old (N.seen new.old))
        (sources is is_old (N.seen new.new)) given.status given.text.items) }
    ensures stopped { (was is was_old is_old : Seen) → GaveFabric was is topology.now.text.items topology.now.fabric
        → GaveTables topology.now.fabric was_old is_old old.now
        → IfErr result (IsStop (sources was was_old (N.seen new.old)) (sources is is_old (N.seen new.new))) }
{
    match read_tables(alloc, new, &topology.fabric) {
        Ok(tables) => Ok(given_for(alloc, topology, old, &tables)?),
        Err(refusal) => Err(new_refused(refusal)),
    }
}

// The status of new tables that are refused.
fn new_refused(refusal: TablesRefusal) -> Status
    ensures { result ≡ new_refused refusal }
{
    match refusal {
        TextRefusal::Fault { line, cause } => Status::NewTablesRefused { line, cause },
        TextRefusal::ReadFault => Status::ReadFault,
        TextRefusal::OutOfMemory => Status::OutOfMemory,
    }
}
