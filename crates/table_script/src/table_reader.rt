//! The reader of scripts with tables.

ghost use Rattle.std.specs.Prelude.{◌≡◌, ◌≢◌, ◌<◌, ◌-◌, ◌^◌, ◌∷◌, length, map, IfOk, IfErr, OnOk};
ghost use Rattle.std.specs.List.{range_with_len};
ghost use Rattle.net_script.specs.declared.draft.Part.TheVariants.{After};
ghost use Rattle.table_script.specs.Tables.{AreTablesOf};
ghost use Rattle.table_script.specs.TableRules.{IsKept, number_of, tables_of};
ghost use Rattle.common_lines.specs.Chains.{LeadsBy};
ghost use Rattle.common_lines.specs.Lines.{lines_of, parts_of, words_of};
ghost use Rattle.table_script.specs.TableTexts.{AddsTable, IsFaultyTable, AddsTableWords, IsFaultyTableWords};
ghost use Rattle.table_script.specs.TableTexts.{AddsTold, IsFaultyTold, AreEnded, IsTextWith, none_told};
ghost use Rattle.net_script.specs.Texts.{Adds, IsFaulty};
ghost use Rattle.common_lines.specs.Stops.{IsStep};
ghost use Rattle.table_script.specs.TableSteps.{told_of, IsReady, IsRefusalWith};

use crate::component::{Network, labels_of};
use crate::table_draft::TableDraft;
use crate::table_form::{read_row_words, read_table_form};
use crate::table_words::{before_comment, next_word};
use crate::tables::Tables;
use an_base::place::Place;
use common_lines::line::{are_line_bytes, first_line, words};
use common_lines::stop::{Refusal, Stop};
use common_lines::word::is;
use common_values::memory::OutOfMemory;
use net_script::cause::ScriptCause;
use net_script::draft::{Draft, Part};
use net_script::form::ScriptStop;
use net_script::reader::{ReadRefusal, read_line};
use net_script::script::Script;
use std::alloc::Global;

/// The largest length of a line of tables in bytes, without the bytes that end the line.
pub const MOST_TABLE_LINE: usize = 4_000;

// The content of the lines of a script and of tables read so far and, after the script's `end`, the labels of the
// components.
#[derive(Drop)]
struct Reading {
    script: Draft,
    tables: TableDraft,
    labels: Vec<u8>,
}

/// Reads a script, lines of tables, and a second `end` from `bytes`, fewer than 2^32 - 1 of them.
///
/// By design, but not proved, the time is linear in the bytes, apart from looking up names,
/// identifiers, numbers and entries.
///
/// # Errors
/// The first faulty line with its first reason; or `OutOfMemory`, which says nothing about the bytes.
pub fn read_with_tables(alloc: Global, bytes: &[u8]) -> Result<(Script, Tables), ReadRefusal>
    requires few { length bytes.now < 2 ^ 32 - 1 }
    ensures text { IfOk result (λ r. IsTextWith bytes.now r.0 r.1) }
    ensures fault { IfErr result (IsRefusalWith bytes.now) }
    ensures network { IfOk result (λ r. AreTablesOf r.0.wires r.1) }
{
    let mut reading = Reading {
        script: Draft::new(alloc),
        tables: TableDraft::new(alloc),
        labels: Vec::new(alloc),
    };
    read_all(&mut reading, alloc, bytes)?;
    let count = reading.script.script.wiring().count();
    let numbers = numbers_of(alloc, &reading.tables, count)?;
    Ok(finished(reading, numbers))
}

// Reads all lines of a text into a reading of no lines.
fn read_all(reading: &mut Reading, alloc: Global, bytes: &[u8]) -> Result<(), ReadRefusal>
    requires few { length bytes.now < 2 ^ 32 - 1 }
    requires none { told_of reading.old ≡ none_told }
    requires ready { IsReady reading.old }
    ensures good { OnOk result (LeadsBy AddsTold none_told (lines_of bytes.now) (told_of reading.new)) }
    ensures ended { OnOk result (AreEnded (told_of reading.new)) }
    ensures ready { OnOk result (IsReady reading.new) }
    ensures fault { IfErr result (IsRefusalWith bytes.now) }
{
    let mut rest = bytes;
    let mut line = 1u32;
    'lines: while let Some((first, after)) = first_line(rest) {
        if let Err(stop) = read_told(reading, alloc, first) {
            return Err(stop.at(line));
        }
        line += 1;
        rest = after;
    }
    if !reading.tables.is_ended() {
        return Err(Refusal::Fault {
            line,
            cause: ScriptCause::NoEnd,
        });
    }
    Ok(())
}

// Reads a line of the script or of tables, and adds it.
fn read_told(reading: &mut Reading, alloc: Global, line: &[u8]) -> Result<(), ScriptStop>
    requires { IsReady reading.old }
    ensures step { IsStep result (AddsTold (told_of reading.old) line.now (told_of reading.new))
        (IsFaultyTold (told_of reading.old) line.now) }
    ensures ready { OnOk result (IsReady reading.new) }
{
    match reading.script.part {
        Part::Header => read_script_line(reading, alloc, line),
        Part::Items => read_script_line(reading, alloc, line),
        Part::After => {
            let network = Network {
                script: &reading.script.script,
                labels: &reading.labels,
            };
            read_table_line(&mut reading.tables, alloc, &network, line)
        }
    }
}

// Reads a line of the script, and adds it.
fn read_script_line(reading: &mut Reading, alloc: Global, line: &[u8]) -> Result<(), ScriptStop>
    requires ready { IsReady reading.old }
    requires before { reading.old.script.part ≢ After }
    ensures step { IsStep result (Adds reading.old.script line.now reading.new.script) (IsFaulty reading.old.script line.now) }
    ensures tables { reading.new.tables ≡ reading.old.tables }
    ensures ready { OnOk result (IsReady reading.new) }
{
    read_line(&mut reading.script, alloc, line)?;
    if reading.script.part == Part::After {
        let wiring = reading.script.script.wiring();
        reading.labels = labels_of(alloc, wiring.count(), wiring.links())?;
    }
    Ok(())
}

// Reads a line of tables, and adds it.
fn read_table_line(
    draft: &mut TableDraft,
    alloc: Global,
    network: &Network,
    line: &[u8],
) -> Result<(), ScriptStop>
    requires kept { IsKept network.now.script.now draft.old }
    ensures step { IsStep result (AddsTable network.now.script.now draft.old line.now draft.new) (IsFaultyTable network.now.script.now draft.old line.now) }
    ensures kept { OnOk result (IsKept network.now.script.now draft.new) }
{
    if line.len() > MOST_TABLE_LINE {
        return Err(Stop::Fault(ScriptCause::LineTooLong));
    }
    if !are_line_bytes(line) {
        return Err(Stop::Fault(ScriptCause::NotAscii));
    }
    match next_word(before_comment(line)) {
        Some((first, rest)) => read_table_words(draft, alloc, network, line, first, rest),
        None => Ok(()),
    }
}

// Reads the words of a line of tables, the first and those of the rest, and adds them.
fn read_table_words(
    draft: &mut TableDraft,
    alloc: Global,
    network: &Network,
    line: &[u8],
    first: &[u8],
    rest: &[u8],
) -> Result<(), ScriptStop>
    requires kept { IsKept network.now.script.now draft.old }
    requires words { words_of line.now ≡ first.now ∷ parts_of rest.now }
    ensures step { IsStep result
        (AddsTableWords draft.old.ended network.now.script.now draft.old (words_of line.now) draft.new)
        (IsFaultyTableWords draft.old.ended network.now.script.now draft.old (words_of line.now)) }
    ensures kept { OnOk result (IsKept network.now.script.now draft.new) }
{
    if draft.is_ended() {
        return Err(Stop::Fault(ScriptCause::AfterEnd));
    }
    if is(first, "row") {
        return read_row_words(draft, network.script, rest);
    }
    let words = words(alloc, line)?;
    read_table_form(draft, network, &words)
}

// The script and the tables that were read, if these are the numbers of the switches.
fn finished(reading: Reading, numbers: Vec<u8>) -> (Script, Tables)
    requires ready { IsReady reading }
    requires ended { AreEnded (told_of reading) }
    requires numbers { numbers.items
        ≡ map (number_of reading.tables) (range_with_len 0 (length reading.script.script.wires.switches)) }
    ensures script { result.0 ≡ reading.script.script }
    ensures tables { result.1 ≡ tables_of (length reading.script.script.wires.switches) reading.tables }
    ensures network { AreTablesOf result.0.wires result.1 }
{
    let Reading {
        script: draft,
        tables,
        labels: _,
    } = reading;
    let tables = Tables::new(numbers, tables.into_rows());
    (draft.script, tables)
}

// The numbers of `count` switches, by index.
fn numbers_of(alloc: Global, draft: &TableDraft, count: u8) -> Result<Vec<u8>, OutOfMemory>
    ensures { IfOk result (λ v. v.items ≡ map (number_of draft.now) (range_with_len 0 count)) }
{
    let mut numbers = Vec::new(alloc);
    'switches: for s in 0..count {
        numbers.push(draft.number_of(Place(s)))?;
    }
    Ok(numbers)
}
