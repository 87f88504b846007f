//! The rows in which tables differ from given ones.

ghost use Rattle.std.specs.Prelude.{◌≡◌, ◌<◌, ◌≤◌, ◌+◌, ◌*◌, ◌^◌, ◌++◌, ◌∷◌, [], ℕ, List, false, length, replicate, IfOk, OnOk};
ghost use Rattle.fabric_tables.specs.Cells.{tables_of};
ghost use Rattle.fabric_model.specs.declared.node.EndPort.TheVariants.{Switch};
ghost use Rattle.fabric_model.specs.Fabric.{IsFabric, guid_of, switch_count};
ghost use Rattle.fabric_repair.specs.Repaired.{AreRepairedOf};
ghost use Rattle.fabric_routes.specs.Counting.{IsCountOf};
ghost use Rattle.fabric_repair_commands.specs.declared.rows.SetRow.{SetRow};
ghost use Rattle.fabric_repair_commands.specs.Flags.{AreFlagged};
ghost use Rattle.fabric_repair_commands.specs.Repairs.{IsSetFor, differs, row_at, rows_for, rows_set};

use common_values::memory::OutOfMemory;
use fabric_model::fabric::Fabric;
use fabric_model::node::EndPort;
use fabric_tables::cells::Cells;
use std::alloc::Global;

/// A row that is set: the port of a switch for a LID.
#[derive(Clone, Copy)]
pub struct SetRow {
    /// The GUID of the switch.
    pub guid: u64,
    /// The LID.
    pub lid: u16,
    /// The port that the switch has for it once the row is set ..
    pub port: u8,
    /// .. and the one that it had, if it had one.
    pub had: Option<u8>,
}

// How many LIDs there are, with those that are for multicast.
const LIDS: usize = 1 << 16;

/// For how many LIDs rows are set.
pub fn count_lids(alloc: Global, rows: &[SetRow]) -> Result<u64, OutOfMemory>
    ensures { IfOk result (λ count. IsCountOf (IsSetFor rows.now) count) }
{
    let mut flags = no_flags(alloc)?;
    Ok(flag_all(&mut flags, rows))
}

// Flags the LIDs of rows. Answers how many there are.
fn flag_all(flags: &mut [bool], rows: &[SetRow]) -> u64
    requires { flags.old ≡ replicate (2 ^ 16) false }
    ensures { IsCountOf (IsSetFor rows.now) result }
{
    let mut count = 0u64;
    'rows: for row in rows {
        count += flag(flags, *row);
    }
    count
}

// A flag for each LID, none of which is set.
fn no_flags(alloc: Global) -> Result<Vec<bool>, OutOfMemory>
    ensures { IfOk result (λ flags. flags.items ≡ replicate (2 ^ 16) false) }
{
    let flags = vec![in alloc; false; LIDS]?;
    Ok(flags)
}

// Flags the LID of a row. Answers 1 if it was not flagged before, else 0.
fn flag(flags: &mut [bool], row: SetRow) -> u64
    requires { length flags.old ≡ 2 ^ 16 }
    ensures flagged { (rows : List SetRow) (count : ℕ) → AreFlagged rows flags.old count
        → AreFlagged (rows ++ row ∷ []) flags.new (count + result) }
    ensures few { result ≤ 1 }
{
    let lid = usize::from(row.lid);
    if flags[lid] {
        return 0;
    }
    flags[lid] = true;
    1
}

/// The rows that are set: by switch, and those of a switch by LID.
pub fn rows_set(
    alloc: Global,
    fabric: &Fabric,
    given: &Cells,
    made: &Cells,
) -> Result<Vec<SetRow>, OutOfMemory>
    requires switches { given.now.switches ≡ switch_count fabric.now }
    requires lids { length fabric.now.owners ≤ 64 * given.now.blocks }
    requires made { AreRepairedOf fabric.now given.now made.now }
    ensures { IfOk result (λ rows. rows.items
        ≡ rows_set fabric.now (tables_of given.now) (tables_of made.now)) }
{
    let mut rows = Vec::new(alloc);
    'switches: for switch in 0..fabric.switches() {
        push_rows(&mut rows, fabric, given, made, switch)?;
    }
    Ok(rows)
}

// Appends the rows of a switch.
fn push_rows(
    rows: &mut Vec<SetRow>,
    fabric: &Fabric,
    given: &Cells,
    made: &Cells,
    switch: usize,
) -> Result<(), OutOfMemory>
    requires switches { given.now.switches ≡ switch_count fabric.now }
    requires lids { length fabric.now.owners ≤ 64 * given.now.blocks }
    requires made { AreRepairedOf fabric.now given.now made.now }
    requires fabric { IsFabric fabric.now }
    requires switch { switch < switch_count fabric.now }
    ensures { OnOk result (rows.new.items ≡ rows.old.items
        ++ rows_for fabric.now (tables_of given.now) (tables_of made.now) switch) }
{
    'lids: for lid in 0..fabric.lids() {
        push_row(rows, fabric, given, made, switch, lid)?;
    }
    Ok(())
}

// Appends the row of a switch for a LID, if it is set.
fn push_row(
    rows: &mut Vec<SetRow>,
    fabric: &Fabric,
    given: &Cells,
    made: &Cells,
    switch: usize,
    lid: usize,
) -> Result<(), OutOfMemory>
    requires switches { given.now.switches ≡ switch_count fabric.now }
    requires lids { length fabric.now.owners ≤ 64 * given.now.blocks }
    requires made { AreRepairedOf fabric.now given.now made.now }
    requires fabric { IsFabric fabric.now }
    requires switch { switch < switch_count fabric.now }
    requires lid { lid < length fabric.now.owners }
    ensures { OnOk result (rows.new.items ≡ rows.old.items
        ++ row_at fabric.now (tables_of given.now) (tables_of made.now) switch lid) }
{
    let had = port_of(given, switch, lid);
    let Some(port) = port_of(made, switch, lid) else {
        return Ok(());
    };
    if differs(had, port) {
        let guid = fabric.guid(EndPort::Switch(switch as u32));
        let lid = lid as u16;
        rows.push(SetRow {
            guid,
            lid,
            port,
            had,
        })?;
    }
    Ok(())
}

// The port of a switch for a LID. Blocks have 64 LIDs.
fn port_of(cells: &Cells, switch: usize, lid: usize) -> Option<u8>
    requires switch { switch < cells.now.switches }
    requires lid { lid < 64 * cells.now.blocks }
    ensures { result ≡ tables_of cells.now switch lid }
{
    cells.port(switch, lid / 64, lid % 64)
}

// Whether a port is another than the one that was had, if one was.
fn differs(had: Option<u8>, port: u8) -> bool
    ensures { result ≡ differs had port }
{
    match had {
        Some(had) => had != port,
        None => true,
    }
}
