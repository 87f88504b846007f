//! The exits of rows, as a set of ports for each spot. Rows for the same spot are merged; rows for none are ignored.

ghost use Rattle.std.specs.Prelude.{◌≡◌, ◌<◌, ℕ, List, Option, None, length, IfOk, ◌+◌};
ghost use Rattle.an_base.specs.Rows.{RowOf};
ghost use Rattle.dep_check.specs.Ports.{HasOnlyPorts};
ghost use Rattle.dep_check.specs.Tables.{AreExitsBelow, Counts, has_at, has_port, IsSpot, row_at};

use crate::channel::Channel;
use crate::ports::{has, only_ports, with};
use crate::spot::{SPOTS, place_of};
use an_base::limits::{LAST_PORT, MOST_NUMBER};
use an_base::row::Row;
use common_values::memory::OutOfMemory;
use std::alloc::Global;

/// Reports whether `table` has the exit `exit`, a port from 0 to 12, for packets that arrive at `spot`.
pub fn has_exit(table: &[u16], spot: Channel, exit: u8) -> bool
    requires spot { IsSpot spot }
    requires exit { exit < 13 }
    ensures { result ≡ has_at table.now spot exit }
{
    has(table.get(place_of(spot)).copied().unwrap_or(0), exit)
}

/// Returns the exits that `table` has for packets that arrive at `spot`, as a set.
pub fn exits_at(table: &[u16], spot: Channel) -> u16
    requires { IsSpot spot }
    ensures ports { HasOnlyPorts result }
    ensures exits { (p : ℕ) → p < 13 → has_port result p ≡ has_at table.now spot p }
{
    only_ports(table.get(place_of(spot)).copied().unwrap_or(0))
}

/// Creates a table without exits.
///
/// # Errors
/// `OutOfMemory` if the allocation fails.
pub fn no_exits(alloc: Global) -> Result<Vec<u16>, OutOfMemory>
    ensures { IfOk result (λ table. (rows : List RowOf) (to : Option ℕ)
        → AreExitsBelow rows to 0 table.items) }
{
    Ok(vec![in alloc; 0u16; usize::from(SPOTS)]?)
}

/// Adds the exits of `row` to `table`. The caller must pass a table of all 1,651 spots.
pub fn add_row(table: &mut Vec<u16>, row: &Row)
    requires { length table.old.items ≡ 1651 }
    ensures { (rows : List RowOf) (to : Option ℕ) (k : ℕ) → row_at rows k ≡ row.now → Counts to row.now
        → AreExitsBelow rows to k table.old.items → AreExitsBelow rows to (k + 1) table.new.items }
{
    if row.at > MOST_NUMBER || row.entry > LAST_PORT {
        return;
    }
    let place = place_of(Channel {
        at: row.at,
        port: row.entry,
    });
    table[place] = with(table[place], row.exits.as_set());
}

/// Returns a table with the exits of all `rows` for each spot.
///
/// # Errors
/// `OutOfMemory` if the allocation fails.
pub fn all_exits(alloc: Global, rows: &[Row]) -> Result<Vec<u16>, OutOfMemory>
    ensures { IfOk result (λ table. AreExitsBelow rows.now None (length rows.now) table.items) }
{
    let mut table = no_exits(alloc)?;
    'rows: for row in rows {
        add_row(&mut table, row);
    }
    Ok(table)
}
