//! The output for a fabric and its tables.

ghost use Rattle.std.specs.Prelude.{◌≡◌, IfOk};
ghost use Rattle.fabric_tables.specs.Cells.{TablesOf, tables_of};
ghost use Rattle.fabric_model.specs.Fabric.{FabricOf};
ghost use Rattle.fabric_model.specs.declared.traffic.Traffic.{Traffic};
ghost use Rattle.fabric_read_tables.specs.Reads.{HasCells};
ghost use Rattle.fabric_verdict.specs.Count.{IsChannelCount, IsLinkCount};
ghost use Rattle.fabric_verdict.specs.Judgements.{IsJudgement};
ghost use Rattle.fabric_judge_commands.specs.Judged.{IsAnswerFor, IsEndOf, IsLoop, IsRead, routes_of, unowned_told};

use crate::losses::{losses_of, lost_of};
use crate::names::names_in;
use crate::steps::steps_of;
use crate::words::word_of;
use common_values::memory::OutOfMemory;
use fabric_call::input::Topology;
use fabric_call::status::Status;
use fabric_counts::count::count_routes;
use fabric_counts::counts::Counts;
use fabric_model::fabric::Fabric;
use fabric_model::traffic::Traffic;
use fabric_print::answer::{Answer, Read, Routes};
use fabric_read_tables::reader::Tables;
use fabric_verdict::judge::Judgement;
use fabric_verdict::links::count_links;
use fabric_verdict::verdict::{LoopChannel, Verdict};
use std::alloc::Global;

/// Returns how a call ends after its output was written.
pub fn status_of(judged: &Judgement) -> Status
    ensures { (fabric : FabricOf) (tables : TablesOf) (traffic : Traffic)
        → IsJudgement fabric tables traffic judged.now → IsEndOf fabric tables traffic result }
{
    match &judged.verdict {
        Verdict::Cycle { channels: _ } => Status::Cycle,
        Verdict::Ranks { ranks: _ } => {
            if judged.stops {
                return Status::RoutesLost;
            }
            Status::Ok
        }
    }
}

/// Builds the output for `tables`, of which `judged` is the judgement. The caller must pass tables and a judgement of
/// this fabric.
///
/// # Errors
/// `OutOfMemory`.
pub fn answer_for(
    alloc: Global,
    topology: &Topology,
    tables: &Tables,
    traffic: Traffic,
    judged: &Judgement,
) -> Result<Answer, OutOfMemory>
    requires cells { HasCells topology.now.fabric tables.now }
    requires judged { IsJudgement topology.now.fabric (tables_of tables.now.cells) traffic judged.now }
    ensures { IfOk result (IsAnswerFor traffic topology.now.text.items topology.now.fabric tables.now) }
{
    let fabric = &topology.fabric;
    let counts = count_routes(alloc, fabric, &tables.cells, traffic)?;
    let cycle = steps_of(alloc, fabric, cycle_of(judged))?;
    let lost = lost_of(alloc, fabric, counts.lost)?;
    let names = names_in(alloc, &topology.text, &cycle, &lost)?;
    let links = count_links(fabric);
    Ok(Answer {
        read: read_of(fabric, tables, links.links),
        traffic: word_of(traffic),
        routes: routes_of(traffic, counts),
        channels: links.channels,
        dependencies: judged.dependencies,
        cycle,
        losses: losses_of(counts),
        lost,
        unset: topology.unset as u64,
        names,
    })
}

/// Returns the channels of the credit loop, or none if there is no loop.
pub fn cycle_of(judged: &Judgement) -> &[LoopChannel]
    ensures { (fabric : FabricOf) (tables : TablesOf) (traffic : Traffic)
        → IsJudgement fabric tables traffic judged.now → IsLoop fabric tables traffic result.now }
{
    match &judged.verdict {
        Verdict::Ranks { ranks: _ } => &[],
        Verdict::Cycle { channels } => channels,
    }
}

/// Returns what was read, if `links` is the number of links between switches.
pub fn read_of(fabric: &Fabric, tables: &Tables, links: u64) -> Read
    ensures { IsLinkCount fabric.now links → IsRead fabric.now tables.now result }
{
    Read {
        switches: fabric.switches() as u64,
        ends: fabric.ends() as u64,
        links,
        rows: tables.rows,
        unowned: tables.unowned,
    }
}

fn routes_of(traffic: Traffic, counts: Counts) -> Routes
    ensures { result ≡ routes_of traffic counts }
{
    Routes {
        routes: counts.routes,
        arrived: counts.arrived,
        hops: u64::from(counts.hops),
        unowned: unowned_told(traffic, counts.unowned),
    }
}

/// Returns `many`, the number of routes that arrive at LIDs that nobody owns, if the traffic has such routes.
pub fn unowned_told(traffic: Traffic, many: u64) -> Option<u64>
    ensures { result ≡ unowned_told traffic many }
{
    match traffic {
        Traffic::Hosts => None,
        Traffic::Lids => None,
        Traffic::Managed => None,
        Traffic::All => None,
        Traffic::Rows => Some(many),
    }
}
