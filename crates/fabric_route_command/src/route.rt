//! The call of `route`.

ghost use Rattle.std.specs.Prelude.{◌≡◌, ◌≢◌, ℕ, List, true, false, IfOk, IfErr, MatchOption};
ghost use Rattle.common_graph.specs.Cycles.{HasNoCycle};
ghost use Rattle.fabric_tables.specs.Cells.{TablesOf};
ghost use Rattle.fabric_engine.specs.Made.{AreTablesFor};
ghost use Rattle.fabric_model.specs.Fabric.{FabricOf, IsFabric, switch_count};
ghost use Rattle.fabric_routes.specs.Routes.{DependsOn};
ghost use Rattle.fabric_model.specs.declared.traffic.Traffic.{Traffic};
ghost use Rattle.fabric_verdict.specs.Judgements.{IsJudgement};
ghost use Rattle.fabric_verdict.specs.Verdict.{AllArrive, Passes};
ghost use Rattle.fabric_call.specs.Answer.{IsNoFabric};
ghost use Rattle.fabric_route_command.specs.declared.end.End.{End};
ghost use Rattle.fabric_route_command.specs.Joined.{AllJoined, IsApart};
ghost use Rattle.fabric_route_command.specs.Routed.{IsGiven, IsGivenFor, IsRouteAnswer};

use crate::apart::{Pair, find_apart};
use crate::end::{End, apart_line, measure_line, none_line};
use crate::measured::measure;
use common_call::end::tell;
use common_values::memory::OutOfMemory;
use fabric_call::input::read_topology;
use fabric_call::status::{Status, finish};
use fabric_engine::choice::{Made, lay_tables};
use fabric_model::fabric::Fabric;
use fabric_model::traffic::Traffic;
use fabric_print_tables::printer::print;
use fabric_tables::cells::Cells;
use fabric_verdict::judge::{Judgement, judge};
use fabric_verdict::law::one_answer;
use fabric_verdict::verdict::Verdict;
use outside::all::write_all;
use outside::sink::Sink;
use outside::source::Source;
use std::alloc::Global;

/// What `route` gives for a fabric.
#[derive(Drop)]
pub struct Given {
    /// How the call ends once all is written.
    pub end: End,
    /// The text for out.
    pub text: Vec<u8>,
    /// The line for err.
    pub line: Vec<u8>,
}

/// Answers `route`: reads a topology from its source to the end and makes tables for its fabric.
///
/// Tables that pass for the traffic are written to out, with a line on err that says how good they are: empty ones if
/// there are no switches. If none were found, out gains nothing, and the line says who is not joined to whom, or that all
/// are joined. If the source is wrong, out is left alone, and the line says why. The answer is the number of how the
/// call ended.
pub fn route<T: Source, O: Sink, E: Sink>(
    alloc: Global,
    topology: &mut T,
    out: &mut O,
    err: &mut E,
    traffic: Traffic,
) -> u8
    ensures { IsRouteAnswer traffic (T.seen topology.old) (T.seen topology.new) (O.seen out.old) (O.seen out.new)
        (E.seen err.old) (E.seen err.new) result }
{
    let given = match found(alloc, topology, traffic) {
        Ok(given) => given,
        Err(status) => return finish(err, status),
    };
    match write_all(out, &given.text) {
        Ok(()) => tell(err, given.end.code(), &[&given.line]),
        Err(_fault) => finish(err, Status::WriteFault),
    }
}

// What is given for the fabric whose text a source gives, or why there is none.
fn found<T: Source>(alloc: Global, topology: &mut T, traffic: Traffic) -> Result<Given, Status>
    ensures given { IfOk result (λ given. IsGivenFor traffic (T.seen topology.old) (T.seen topology.new)
        given.end given.text.items given.line.items) }
    ensures none { IfErr result (IsNoFabric (T.seen topology.old) (T.seen topology.new)) }
{
    let topology = match read_topology(alloc, topology) {
        Ok(topology) => topology,
        Err(status) => return Err(status),
    };
    Ok(given_for(alloc, &topology.fabric, traffic)?)
}

/// What `route` gives for a fabric: tables that pass, or why there are none.
pub fn given_for(alloc: Global, fabric: &Fabric, traffic: Traffic) -> Result<Given, OutOfMemory>
    ensures { IfOk result (λ given. IsGiven traffic fabric.now given.end given.text.items given.line.items) }
{
    match find_apart(alloc, fabric, traffic)? {
        Some(pair) => given_apart(alloc, fabric, traffic, pair),
        None => match make_tables(alloc, fabric, traffic)? {
            Some(cells) => given_made(alloc, fabric, traffic, &cells),
            None => given_none(alloc, fabric, traffic),
        },
    }
}

// Tables for a fabric, if some are found. If there are no switches they are empty.
fn make_tables(
    alloc: Global,
    fabric: &Fabric,
    traffic: Traffic,
) -> Result<Option<Cells>, OutOfMemory>
    ensures made { IfOk result (λ found. MatchOption found (switch_count fabric.now ≢ 0) (AreTablesFor fabric.now)) }
    ensures fabric { IfOk result (λ _. IsFabric fabric.now) }
{
    if fabric.switches() > 0 {
        return match lay_tables(alloc, fabric, traffic)? {
            Some(Made { cells, measures: _ }) => Ok(Some(cells)),
            None => Ok(None),
        };
    }
    Ok(Some(Cells::new(alloc, 0, fabric.lids())?))
}

// What is given if links do not join an end port to a LID.
fn given_apart(
    alloc: Global,
    fabric: &Fabric,
    traffic: Traffic,
    pair: Pair,
) -> Result<Given, OutOfMemory>
    requires { IsApart fabric.now traffic pair.lid pair.source }
    ensures { IfOk result (λ given. IsGiven traffic fabric.now given.end given.text.items given.line.items) }
{
    Ok(Given {
        end: End::NotJoined,
        text: Vec::new(alloc),
        line: apart_line(alloc, fabric.guid(pair.source), pair.lid)?,
    })
}

// What is given if no tables were found.
fn given_none(alloc: Global, fabric: &Fabric, traffic: Traffic) -> Result<Given, OutOfMemory>
    requires joined { AllJoined fabric.now traffic }
    requires some { switch_count fabric.now ≢ 0 }
    ensures { IfOk result (λ given. IsGiven traffic fabric.now given.end given.text.items given.line.items) }
{
    Ok(Given {
        end: End::NoTables,
        text: Vec::new(alloc),
        line: none_line(alloc)?,
    })
}

// What is given if tables were made: these, if they pass, as those of a fabric without switches do.
fn given_made(
    alloc: Global,
    fabric: &Fabric,
    traffic: Traffic,
    cells: &Cells,
) -> Result<Given, OutOfMemory>
    requires joined { AllJoined fabric.now traffic }
    requires tables { AreTablesFor fabric.now cells.now }
    requires fabric { IsFabric fabric.now }
    ensures { IfOk result (λ given. IsGiven traffic fabric.now given.end given.text.items given.line.items) }
{
    let judged = judge(alloc, fabric, cells, traffic)?;
    if !passes(&judged) {
        return given_none(alloc, fabric, traffic);
    }
    Ok(Given {
        end: End::Routed,
        text: print(alloc, fabric, cells)?,
        line: measure_line(alloc, measure(alloc, fabric, cells)?)?,
    })
}

// Whether tables pass that were judged.
fn passes(judged: &Judgement) -> bool
    ensures yes { (fabric : FabricOf) (tables : TablesOf) (traffic : Traffic)
        → IsJudgement fabric tables traffic judged.now → result ≡ true
        → (ranks : List ℕ) × Passes fabric tables traffic ranks }
    ensures no { (fabric : FabricOf) (tables : TablesOf) (traffic : Traffic)
        → IsJudgement fabric tables traffic judged.now → result ≡ false
        → HasNoCycle (DependsOn fabric tables traffic) → ¬ AllArrive fabric tables traffic }
{
    one_answer();
    match &judged.verdict {
        Verdict::Ranks { ranks: _ } => !judged.stops,
        Verdict::Cycle { channels: _ } => false,
    }
}
