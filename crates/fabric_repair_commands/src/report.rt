//! What `repair` tells, as a text.

ghost use Rattle.std.specs.Prelude.{◌≡◌, ◌++◌, map, IfOk, OnOk};
ghost use Rattle.common_lines.specs.Lines.{line_text, lines_text};
ghost use Rattle.fabric_repair_commands.specs.Reports.{apart_row, better_rows, counts_row, had_word, measures_row, none_text, repaired_row, report_text, set_row};

use crate::rows::SetRow;
use common_lines::spelling::{decimal, push_line};
use common_values::memory::OutOfMemory;
use common_values::text::Word;
use fabric_model::fabric::Fabric;
use fabric_print_tables::printer::guid_word;
use fabric_route_command::apart::Pair;
use fabric_route_command::measured::Measured;
use std::alloc::Global;

/// What `repair` tells of tables that were repaired.
#[derive(Drop)]
pub struct Report {
    /// The word of the traffic.
    pub traffic: Word,
    /// How many cells the tables have: one for each switch and each LID that has an owner.
    pub cells: u64,
    /// For how many LIDs rows are set.
    pub lids: u64,
    /// How good the given tables are.
    pub before: Measured,
    /// How good they are once the rows are set.
    pub after: Measured,
    /// The rows.
    pub rows: Vec<SetRow>,
}

/// The text of a report.
pub fn print_report(alloc: Global, report: &Report) -> Result<Vec<u8>, OutOfMemory>
    ensures { IfOk result (λ text. text.items ≡ report_text report.now) }
{
    let mut text = Vec::new(alloc);
    push_line(&mut text, &[b"fabric", b"1"])?;
    push_repaired(&mut text, report.traffic.as_bytes())?;
    push_counts(alloc, &mut text, report)?;
    push_measures(alloc, &mut text, b"before", report.before)?;
    push_measures(alloc, &mut text, b"after", report.after)?;
    push_better(&mut text, report)?;
    push_set(alloc, &mut text, &report.rows)?;
    Ok(text)
}

/// The text if no tables were found that pass, with an end port and a LID that no links join, if there are
/// such.
pub fn print_none(
    alloc: Global,
    fabric: &Fabric,
    apart: Option<Pair>,
) -> Result<Vec<u8>, OutOfMemory>
    ensures { IfOk result (λ text. text.items ≡ none_text fabric.now apart) }
{
    let mut text = Vec::new(alloc);
    push_line(&mut text, &[b"fabric", b"1"])?;
    push_line(&mut text, &[b"repaired", b"none"])?;
    if let Some(pair) = apart {
        push_apart(alloc, &mut text, fabric.guid(pair.source), pair.lid)?;
    }
    Ok(text)
}

// That no links join an end port to a LID.
fn push_apart(alloc: Global, text: &mut Vec<u8>, guid: u64, lid: u16) -> Result<(), OutOfMemory>
    ensures { OnOk result (text.new.items ≡ text.old.items ++ line_text (apart_row guid lid)) }
{
    let guid = guid_word(alloc, guid)?;
    let lid = decimal(alloc, u64::from(lid))?;
    push_line(text, &[b"apart", &guid, b"lid", &lid])
}

// For which routes.
fn push_repaired(text: &mut Vec<u8>, traffic: &[u8]) -> Result<(), OutOfMemory>
    ensures { OnOk result (text.new.items ≡ text.old.items ++ line_text (repaired_row traffic.now)) }
{
    push_line(text, &[b"repaired", b"traffic", traffic, b"lanes", b"one"])
}

// How many rows are set, of how many, and for how many LIDs.
fn push_counts(alloc: Global, text: &mut Vec<u8>, report: &Report) -> Result<(), OutOfMemory>
    ensures { OnOk result (text.new.items ≡ text.old.items ++ line_text (counts_row report.now)) }
{
    let rows = decimal(alloc, report.rows.len() as u64)?;
    let cells = decimal(alloc, report.cells)?;
    let lids = decimal(alloc, report.lids)?;
    push_line(text, &[b"rows", &rows, b"cells", &cells, b"lids", &lids])
}

// How good tables are.
fn push_measures(
    alloc: Global,
    text: &mut Vec<u8>,
    when: &[u8],
    of: Measured,
) -> Result<(), OutOfMemory>
    ensures { OnOk result (text.new.items ≡ text.old.items ++ line_text (measures_row when.now of)) }
{
    let routes = decimal(alloc, of.routes)?;
    let hops = decimal(alloc, of.hops)?;
    let longest = decimal(alloc, u64::from(of.longest))?;
    let greatest = decimal(alloc, of.greatest)?;
    push_line(
        text,
        &[
            when,
            b"routes",
            &routes,
            b"hops",
            &hops,
            b"longest",
            &longest,
            b"greatest",
            &greatest,
        ],
    )
}

// If more than a twentieth of the rows are set, that `route` is likely to make better tables.
fn push_better(text: &mut Vec<u8>, report: &Report) -> Result<(), OutOfMemory>
    ensures { OnOk result (text.new.items ≡ text.old.items ++ lines_text (better_rows report.now)) }
{
    if report.rows.len() as u64 > report.cells / 20 {
        return push_line(text, &[b"better", b"route"]);
    }
    Ok(())
}

// The rows that are set.
fn push_set(alloc: Global, text: &mut Vec<u8>, rows: &[SetRow]) -> Result<(), OutOfMemory>
    ensures { OnOk result (text.new.items ≡ text.old.items ++ lines_text (map set_row rows.now)) }
{
    'rows: for row in rows {
        push_row(alloc, text, *row)?;
    }
    Ok(())
}

fn push_row(alloc: Global, text: &mut Vec<u8>, row: SetRow) -> Result<(), OutOfMemory>
    ensures { OnOk result (text.new.items ≡ text.old.items ++ line_text (set_row row)) }
{
    let guid = guid_word(alloc, row.guid)?;
    let lid = decimal(alloc, u64::from(row.lid))?;
    let port = decimal(alloc, u64::from(row.port))?;
    let had = had_word(alloc, row.had)?;
    push_line(
        text,
        &[b"set", &guid, b"lid", &lid, b"port", &port, b"was", &had],
    )
}

// The port that was had.
fn had_word(alloc: Global, had: Option<u8>) -> Result<Vec<u8>, OutOfMemory>
    ensures { IfOk result (λ word. word.items ≡ had_word had) }
{
    match had {
        Some(port) => decimal(alloc, u64::from(port)),
        None => Ok(Vec::from_slice(alloc, b"none")?),
    }
}
