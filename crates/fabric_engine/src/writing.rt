//! Rows of exits written as tables.

ghost use Rattle.std.specs.Prelude.{◌≡◌, ◌<◌, IfOk};
ghost use Rattle.fabric_model.specs.Fabric.{switch_count};
ghost use Rattle.fabric_engine.specs.Made.{AreTablesFor};

use common_values::memory::OutOfMemory;
use fabric_engine_channels::channels::Channels;
use fabric_engine_channels::demand::{Demand, Target};
use fabric_engine_channels::table::narrow;
use fabric_engine_rising::rows::Rows;
use fabric_model::fabric::Fabric;
use fabric_tables::cells::Cells;
use std::alloc::Global;

// The port of a switch for a target: the owner's, or that of the exit in a row.
fn port_of(channels: &Channels, rows: &Rows, row: u32, target: Target, switch: u32) -> Option<u8> {
    if switch == target.switch {
        return Some(target.port);
    }
    let exit = rows.exit(channels, row, switch)?;
    Some(channels.port(exit))
}

/// Sets the port of `switch` for `lid`, if the LID has an owner and the switch no port for it yet. 255 is not a port.
/// The caller must pass a switch of the fabric, and tables for it.
pub fn put_port(fabric: &Fabric, cells: &mut Cells, switch: usize, lid: usize, port: u8)
    requires switch { switch < switch_count fabric.now }
    requires tables { AreTablesFor fabric.now cells.old }
    ensures tables { AreTablesFor fabric.now cells.new }
    ensures blocks { cells.new.blocks ≡ cells.old.blocks }
{
    if port < u8::MAX && lid < fabric.lids() && fabric.owner(lid).is_some() {
        let _ = cells.put(switch, lid, port);
    }
}

// Writes the row of a target into the tables.
fn write_row(
    fabric: &Fabric,
    channels: &Channels,
    rows: &Rows,
    row: u32,
    target: Target,
    cells: &mut Cells,
)
    requires { AreTablesFor fabric.now cells.old }
    ensures { AreTablesFor fabric.now cells.new }
{
    'switches: for switch in 0..fabric.switches() {
        let port = port_of(channels, rows, row, target, narrow(switch)).unwrap_or(u8::MAX);
        put_port(fabric, cells, switch, usize::from(target.lid), port);
    }
}

/// Returns the tables for all targets.
///
/// # Errors
/// `OutOfMemory`.
pub fn write_tables(
    alloc: Global,
    fabric: &Fabric,
    channels: &Channels,
    demand: &Demand,
    rows: &Rows,
) -> Result<Cells, OutOfMemory>
    ensures { IfOk result (AreTablesFor fabric.now) }
{
    let mut cells = Cells::new(alloc, fabric.switches(), fabric.lids())?;
    'targets: for (row, target) in demand.targets().iter().enumerate() {
        write_row(fabric, channels, rows, narrow(row), *target, &mut cells);
    }
    Ok(cells)
}
