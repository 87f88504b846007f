//! Rows are separated by target once, so that steps turn to a target by copying one table.

ghost use Rattle.std.specs.Prelude.{◌≡◌, ◌<◌, ◌+◌, ◌↔◌, ℕ, List, Option, length, Contains, IfOk, IsTrue, Some};
ghost use Rattle.an_base.specs.Numbers.{AreNumbers};
ghost use Rattle.an_base.specs.Rows.{RowOf};
ghost use Rattle.dep_check.specs.Tables.{AreExitsBelow, row_at};
ghost use Rattle.dep_check.specs.Targets.{AreByTarget, AreTablesBelow, HasTable, IsTableBelow, table_of};

use crate::exits::{add_row, no_exits};
use crate::spot::SPOTS;
use crate::wires::place_in;
use an_base::limits::MOST_NUMBER;
use an_base::numbers::Numbers;
use an_base::row::Row;
use common_values::memory::OutOfMemory;
use std::alloc::Global;

/// The exits of rows by target: for each number of a topology a table of all spots with the exits of the
/// rows towards it, and for each other number an empty table.
#[derive(Drop)]
pub struct ByTarget {
    /// The table of each number.
    pub tables: Vec<Vec<u16>>,
}

// The table of a number before any row, a copy of one without exits.
fn first_table(
    alloc: Global,
    blank: &[u16],
    numbers: &Numbers,
    number: u8,
) -> Result<Vec<u16>, OutOfMemory>
    requires { (rows : List RowOf) (to : Option ℕ) → AreExitsBelow rows to 0 blank.now }
    ensures { IfOk result (λ table. (rows : List RowOf) → IsTableBelow rows numbers.now 0 number table.items) }
{
    match place_in(numbers, number) {
        None => Ok(Vec::new(alloc)),
        Some(_place) => {
            let table = Vec::from_slice(alloc, blank)?;
            Ok(table)
        }
    }
}

// The tables before any row, one for each number, 0 to 126.
fn first_tables(alloc: Global, numbers: &Numbers) -> Result<Vec<Vec<u16>>, OutOfMemory>
    ensures { IfOk result (λ tables. (rows : List RowOf) → AreTablesBelow rows numbers.now 0 tables.items) }
{
    let blank = no_exits(alloc)?;
    let mut tables = Vec::with_capacity(alloc, 127)?;
    'numbers: for number in 0..127u8 {
        let table = first_table(alloc, &blank, numbers, number)?;
        tables.push(table)?;
    }
    Ok(tables)
}

// Adds the exits of a row to the table of its target, if that is a number of the topology.
fn add_to_target(tables: &mut Vec<Vec<u16>>, row: &Row)
    requires { length tables.old.items ≡ 127 }
    ensures { (rows : List RowOf) (numbers : List ℕ) (k : ℕ) → row_at rows k ≡ row.now
        → AreTablesBelow rows numbers k tables.old.items → AreTablesBelow rows numbers (k + 1) tables.new.items }
{
    if row.to > MOST_NUMBER {
        return;
    }
    let to = usize::from(row.to);
    if tables[to].as_slice().len() != usize::from(SPOTS) {
        return;
    }
    add_row(&mut tables[to], row);
}

impl ByTarget {
    /// Creates the tables of `rows`. It visits each row once.
    ///
    /// # Errors
    /// `OutOfMemory` if an allocation fails.
    pub fn of(alloc: Global, numbers: &Numbers, rows: &[Row]) -> Result<ByTarget, OutOfMemory>
        ensures { IfOk result (AreByTarget rows.now numbers.now) }
    {
        let mut tables = first_tables(alloc, numbers)?;
        'rows: for row in rows {
            add_to_target(&mut tables, row);
        }
        Ok(ByTarget { tables })
    }

    /// Returns the table of `number`; it is empty if the number is not in the topology.
    pub fn table(&self, number: u8) -> &[u16]
        requires { number < length self.now.tables.items }
        ensures { result.now ≡ table_of self.now.tables.items number }
    {
        self.tables[usize::from(number)].as_slice()
    }

    /// Reports whether `number` has a table, as the numbers of the topology do.
    pub fn has(&self, number: u8) -> bool
        requires { number < length self.now.tables.items }
        ensures { IsTrue result ↔ HasTable self.now number }
    {
        !self.table(number).is_empty()
    }
}
