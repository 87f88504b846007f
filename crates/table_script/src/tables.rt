//! The numbers of switches, and the rows of their routing tables.

ghost use Rattle.std.specs.Prelude.{◌≡◌, map, slice_index_or};
ghost use Rattle.table_script.specs.Tables.{IsTables, with_number_at};

use an_base::row::Row;
use std::marker::Model;

// Replaces the index of a row's switch by its number.
fn set_number(numbers: &[u8], row: &mut Row)
    ensures { row.new ≡ with_number_at numbers.now row.old }
{
    row.at = numbers.get(usize::from(row.at)).copied().unwrap_or(0);
}

/// A number for each switch, by the switch's index, and rows of routing tables.
///
/// A row names its switch by index, and its target by number. Numbers are 1 to 126, entries are 0 to
/// 12, and no two rows have the same switch, entry and target.
#[derive(Drop)]
pub struct Tables {
    numbers: Vec<u8>,
    rows: Vec<Row>,
}

impl Model for Tables {
    ghost use Rattle.table_script.specs.Tables.{TablesOf, IsTables};

    ghost Value = { TablesOf };

    ghost view = { λ t. record { numbers = t.numbers.items; rows = t.rows.items } };

    ghost invariant = { λ t. IsTables (record { numbers = t.numbers.items; rows = t.rows.items }) };
}

impl Tables {
    /// Creates the tables of these `numbers` and `rows`, without allocating.
    ///
    /// The caller must pass numbers and rows in range, and no two rows with the same switch, entry and target.
    pub fn new(numbers: Vec<u8>, rows: Vec<Row>) -> Self
        requires { IsTables (record { numbers = numbers.items; rows = rows.items }) }
        ensures { result ≡ record { numbers = numbers.items; rows = rows.items } }
    {
        Tables { numbers, rows }
    }

    /// Returns the numbers, by the switch's index.
    pub fn numbers(&self) -> &[u8]
        ensures all { result.now ≡ self.now.numbers }
        ensures kept { IsTables self.now }
    {
        &self.numbers
    }

    /// Returns the rows, with the switch's number in `at`, without allocating.
    pub fn into_numbered(self) -> Vec<Row>
        ensures { result.items ≡ map (with_number_at self.numbers) self.rows }
    {
        let Tables { numbers, rows } = self;
        let mut rows = rows;
        let mut i = 0usize;
        'rows: while i < rows.len() {
            set_number(&numbers, &mut rows[i]);
            i += 1;
        }
        rows
    }

    /// Returns the rows in the order of the text, with the switch's index in `at`.
    pub fn rows(&self) -> &[Row]
        ensures all { result.now ≡ self.now.rows }
        ensures kept { IsTables self.now }
    {
        &self.rows
    }
}
