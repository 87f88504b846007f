//! Tables with rows set otherwise than in given ones.

ghost use Rattle.std.specs.Prelude.{◌≡◌, ◌≢◌, ◌<◌, ◌≤◌, ◌*◌, ℕ, length, None, Some, IfOk};
ghost use Rattle.fabric_model.specs.Fabric.{switch_count};
ghost use Rattle.fabric_tables.specs.Cells.{TablesOf, tables_of};
ghost use Rattle.fabric_engine.specs.Made.{AreTablesFor};
ghost use Rattle.fabric_repair.specs.Repaired.{AllKept, AreFilledFrom, AreRepairedOf, HasKept};

use crate::changes::Row;
use common_values::memory::OutOfMemory;
use fabric_engine::writing::put_port;
use fabric_model::fabric::Fabric;
use fabric_tables::cells::Cells;
use std::alloc::Global;

// Puts a row, if the LID has an owner, and the switch no port for it yet.
fn put_row(fabric: &Fabric, made: &mut Cells, row: Row)
    requires { AreTablesFor fabric.now made.old }
    ensures tables { AreTablesFor fabric.now made.new }
    ensures blocks { made.new.blocks ≡ made.old.blocks }
{
    let switch = row.switch as usize;
    if switch < fabric.switches() {
        put_port(fabric, made, switch, usize::from(row.lid), row.port);
    }
}

// Puts rows.
fn put_rows(fabric: &Fabric, made: &mut Cells, rows: &[Row])
    requires { AreTablesFor fabric.now made.old }
    ensures tables { AreTablesFor fabric.now made.new }
    ensures blocks { made.new.blocks ≡ made.old.blocks }
{
    'rows: for row in rows {
        put_row(fabric, made, *row);
    }
}

// The port of a switch for a LID. Blocks have 64 LIDs.
fn port_of(cells: &Cells, switch: usize, lid: usize) -> Option<u8>
    requires switch { switch < cells.now.switches }
    requires lid { lid < 64 * cells.now.blocks }
    ensures { result ≡ tables_of cells.now switch lid }
{
    cells.port(switch, lid / 64, lid % 64)
}

// Puts a port that given tables have, if there is none yet.
fn put_given(made: &mut Cells, switch: usize, lid: usize, port: u8)
    requires switch { switch < made.old.switches }
    requires lid { lid < 64 * made.old.blocks }
    requires port { port < 255 }
    ensures switches { made.new.switches ≡ made.old.switches }
    ensures blocks { made.new.blocks ≡ made.old.blocks }
    ensures kept { AllKept (tables_of made.old) (tables_of made.new) }
    ensures put { tables_of made.new switch lid ≢ None }
    ensures filled { (given : TablesOf) → given switch lid ≡ Some port
        → AreFilledFrom given (tables_of made.old) (tables_of made.new) }
{
    let _ = made.put(switch, lid, port);
}

// Copies a cell, if there is no port yet.
fn copy_cell(given: &Cells, made: &mut Cells, switch: usize, lid: usize)
    requires switches { made.old.switches ≡ given.now.switches }
    requires blocks { made.old.blocks ≡ given.now.blocks }
    requires switch { switch < given.now.switches }
    requires lid { lid < 64 * given.now.blocks }
    ensures switches { made.new.switches ≡ made.old.switches }
    ensures blocks { made.new.blocks ≡ made.old.blocks }
    ensures kept { AllKept (tables_of made.old) (tables_of made.new) }
    ensures here { HasKept (tables_of given.now) (tables_of made.new) switch lid }
    ensures filled { AreFilledFrom (tables_of given.now) (tables_of made.old) (tables_of made.new) }
{
    if let Some(port) = port_of(given, switch, lid) {
        put_given(made, switch, lid, port);
    }
}

// Copies the table of a switch.
fn copy_switch(given: &Cells, made: &mut Cells, switch: usize)
    requires switches { made.old.switches ≡ given.now.switches }
    requires blocks { made.old.blocks ≡ given.now.blocks }
    requires switch { switch < given.now.switches }
    ensures switches { made.new.switches ≡ made.old.switches }
    ensures blocks { made.new.blocks ≡ made.old.blocks }
    ensures kept { AllKept (tables_of made.old) (tables_of made.new) }
    ensures here { (lid : ℕ) → HasKept (tables_of given.now) (tables_of made.new) switch lid }
    ensures filled { AreFilledFrom (tables_of given.now) (tables_of made.old) (tables_of made.new) }
{
    'lids: for lid in 0..64 * given.blocks() {
        copy_cell(given, made, switch, lid);
    }
}

// Copies the tables of all switches.
fn copy_switches(given: &Cells, made: &mut Cells)
    requires switches { made.old.switches ≡ given.now.switches }
    requires blocks { made.old.blocks ≡ given.now.blocks }
    ensures switches { made.new.switches ≡ made.old.switches }
    ensures blocks { made.new.blocks ≡ made.old.blocks }
    ensures kept { AllKept (tables_of given.now) (tables_of made.new) }
    ensures filled { AreFilledFrom (tables_of given.now) (tables_of made.old) (tables_of made.new) }
{
    'switches: for switch in 0..given.switches() {
        copy_switch(given, made, switch);
    }
}

// Tables for as many switches and LIDs as given ones, without ports.
fn no_ports(alloc: Global, given: &Cells) -> Result<Cells, OutOfMemory>
    ensures switches { IfOk result (λ made. made.switches ≡ given.now.switches) }
    ensures blocks { IfOk result (λ made. made.blocks ≡ given.now.blocks) }
    ensures none { IfOk result (λ made. (switch lid : ℕ) → tables_of made switch lid ≡ None) }
{
    Cells::new(alloc, given.switches(), 64 * given.blocks())
}

/// Given tables with rows set: the rows, so far as their LIDs have owners, and in all other cells what the given tables
/// have.
pub fn write_tables(
    alloc: Global,
    fabric: &Fabric,
    given: &Cells,
    rows: &[Row],
) -> Result<Cells, OutOfMemory>
    requires switches { given.now.switches ≡ switch_count fabric.now }
    requires lids { length fabric.now.owners ≤ 64 * given.now.blocks }
    requires low { 64 * given.now.blocks ≤ 0xC000 }
    ensures { IfOk result (AreRepairedOf fabric.now given.now) }
{
    let mut made = no_ports(alloc, given)?;
    put_rows(fabric, &mut made, rows);
    copy_switches(given, &mut made);
    Ok(made)
}

/// Given tables with no row set.
pub fn copy_tables(alloc: Global, fabric: &Fabric, given: &Cells) -> Result<Cells, OutOfMemory>
    requires { given.now.switches ≡ switch_count fabric.now }
    ensures made { IfOk result (AreRepairedOf fabric.now given.now) }
    ensures same { IfOk result (λ made. tables_of made ≡ tables_of given.now) }
{
    let mut made = no_ports(alloc, given)?;
    copy_switches(given, &mut made);
    Ok(made)
}
