//! Tables that were repaired and pass.

ghost use Rattle.std.specs.Prelude.{◌≡◌, ◌≢◌, ◌≤◌, ◌*◌, length, IfErr, IfOk, IfSome};
ghost use Rattle.fabric_tables.specs.Cells.{tables_of};
ghost use Rattle.fabric_model.specs.Fabric.{switch_count};
ghost use Rattle.fabric_call.specs.declared.status.Status.TheVariants as ended;
ghost use Rattle.fabric_judge_commands.specs.Judged.{IsEndOf};
ghost use Rattle.fabric_repair.specs.Repaired.{AreRepairedOf};
ghost use Rattle.fabric_repair_commands.specs.Repairs.{rows_set};
ghost use Rattle.fabric_repair_commands.specs.SetRows.{with_rows};
ghost use Rattle.fabric_repair_commands.specs.Given.{WereMadeOf};

use common_values::memory::OutOfMemory;
use fabric_call::status::Status;
use fabric_judge_commands::answer::status_of;
use fabric_model::fabric::Fabric;
use fabric_model::traffic::Traffic;
use fabric_repair::repair::{keep, repair};
use fabric_tables::cells::Cells;
use fabric_verdict::judge::judge;
use std::alloc::Global;

/// Given tables with rows set, or with none if they pass and no others were found, which pass for a traffic. If none
/// were found, the inner error is the status with which the given ones end, which do not pass. The outer error is out of
/// memory alone.
pub fn find_repaired(
    alloc: Global,
    fabric: &Fabric,
    cells: &Cells,
    traffic: Traffic,
) -> Result<Result<Cells, Status>, OutOfMemory>
    requires switches { cells.now.switches ≡ switch_count fabric.now }
    requires lids { length fabric.now.owners ≤ 64 * cells.now.blocks }
    requires low { 64 * cells.now.blocks ≤ 0xC000 }
    ensures made { IfOk result (λ found. IfOk found (WereMadeOf traffic fabric.now cells.now)) }
    ensures ends { IfOk result (λ found. IfErr found (IsEndOf fabric.now (tables_of cells.now) traffic)) }
    ensures fails { IfOk result (λ found. IfErr found (λ status. status ≢ ended.Ok)) }
{
    if let Some(made) = find_better(alloc, fabric, cells, traffic)? {
        return Ok(Ok(made));
    }
    match end_of(alloc, fabric, cells, traffic)? {
        Status::Ok => {
            let made = keep(alloc, fabric, cells)?;
            see_set(fabric, cells, &made);
            Ok(Ok(made))
        }
        status => Ok(Err(status)),
    }
}

// Given tables with rows set, which pass; none if none were found.
fn find_better(
    alloc: Global,
    fabric: &Fabric,
    cells: &Cells,
    traffic: Traffic,
) -> Result<Option<Cells>, OutOfMemory>
    requires switches { cells.now.switches ≡ switch_count fabric.now }
    requires lids { length fabric.now.owners ≤ 64 * cells.now.blocks }
    requires low { 64 * cells.now.blocks ≤ 0xC000 }
    ensures { IfOk result (λ found. IfSome found (WereMadeOf traffic fabric.now cells.now)) }
{
    let Some(made) = repair(alloc, fabric, cells, traffic)? else {
        return Ok(None);
    };
    match end_of(alloc, fabric, &made, traffic)? {
        Status::Ok => {
            see_set(fabric, cells, &made);
            Ok(Some(made))
        }
        _ => Ok(None),
    }
}

// That given tables, with the rows set in which those that were made differ, are these. Nothing is done.
fn see_set(fabric: &Fabric, given: &Cells, made: &Cells)
    requires switches { given.now.switches ≡ switch_count fabric.now }
    requires shape { AreRepairedOf fabric.now given.now made.now }
    ensures { with_rows fabric.now (tables_of given.now)
        (rows_set fabric.now (tables_of given.now) (tables_of made.now)) ≡ tables_of made.now }
{
    let _switches = fabric.switches();
}

// The status with which tables end.
fn end_of(
    alloc: Global,
    fabric: &Fabric,
    cells: &Cells,
    traffic: Traffic,
) -> Result<Status, OutOfMemory>
    requires switches { cells.now.switches ≡ switch_count fabric.now }
    requires lids { length fabric.now.owners ≤ 64 * cells.now.blocks }
    ensures { IfOk result (IsEndOf fabric.now (tables_of cells.now) traffic) }
{
    let judged = judge(alloc, fabric, cells, traffic)?;
    Ok(status_of(&judged))
}
