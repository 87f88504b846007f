//! The reader of tables.

ghost use Rattle.std.specs.Prelude.{IfErr, IfOk};
ghost use Rattle.outside.specs.Told.{IsNoLess};
ghost use Rattle.fabric_read_tables.specs.Reads.{GaveTables, HasCells, IsRefusedBy};

use crate::cause::TablesCause;
use crate::reading::Reading;
use fabric_model::fabric::Fabric;
use fabric_read_lines::reader::{TextRefusal, read_text};
use fabric_tables::cells::Cells;
use outside::source::Source;
use std::alloc::Global;

/// The tables of a fabric.
#[derive(Drop)]
pub struct Tables {
    /// The port of each switch for each LID, whether it has an owner or not, but for LID 0, which is reserved. Cells are
    /// there for all LIDs that have an owner, and for all that a row names.
    pub cells: Cells,
    /// How many rows named a port, but for LID 0.
    pub rows: u64,
    /// How many of these rows are for LIDs that nobody owns.
    pub unowned: u64,
}

/// Why there are no tables: the bytes have a fault, a read failed, or no memory was found.
pub type TablesRefusal = TextRefusal<TablesCause>;

/// Reads the tables of a fabric from a source, to its end, a piece at a time. Of the text only the cells
/// are kept. As the code is written, and by no clause, the time is linear in the bytes.
pub fn read_tables<S: Source>(
    alloc: Global,
    source: &mut S,
    fabric: &Fabric,
) -> Result<Tables, TablesRefusal>
    ensures text { IfOk result (GaveTables fabric.now (S.seen source.old) (S.seen source.new)) }
    ensures cells { IfOk result (HasCells fabric.now) }
    ensures refused { IfErr result (IsRefusedBy fabric.now (S.seen source.old) (S.seen source.new)) }
    ensures kept { IsNoLess (S.seen source.old) (S.seen source.new) }
{
    let mut reading = Reading::new(alloc, fabric)?;
    read_text(&mut reading, alloc, source, fabric)?;
    Ok(Tables {
        cells: reading.cells,
        rows: reading.rows,
        unowned: reading.unowned,
    })
}
