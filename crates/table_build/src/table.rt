//! The table of one member. Its rows are in ascending order, so a binary search finds exits.

ghost use Rattle.std.specs.Prelude.{◌≡◌, ◌<◌, ◌≤◌, ◌++◌, [], Any, length, map, IfOk, OnOk};
ghost use Rattle.an_base.specs.declared.limits.TheConstants.{MOST_NUMBER};
ghost use Rattle.table_build.specs.Routing.{IsRouting, row_of};
ghost use Rattle.table_build.specs.Tables.{AreRowsBelow, AreWays, exits_of, IsTable, IsTableOf};

use crate::exit::{is_entry, may_go_up};
use crate::routing::Routing;
use crate::way::{Way, ways_of};
use an_base::life::Life;
use an_base::numbers::Numbers;
use an_base::row::{Exits, Row};
use common_values::memory::OutOfMemory;
use std::alloc::Global;
use std::marker::Model;
use topo_graph::graph::Graph;

// The row of an entry towards another member.
fn row_of(at: u8, entry: u8, up: bool, way: &Way) -> Row
    ensures { result ≡ row_of at entry up way.now }
{
    let exits = if up { way.up.copy() } else { way.down.copy() };
    Row {
        at,
        entry,
        to: way.number,
        exits,
    }
}

// Adds the rows of an entry, one towards each other member.
fn push_rows(
    rows: &mut Vec<Row>,
    at: u8,
    entry: u8,
    up: bool,
    ways: &[Way],
) -> Result<(), OutOfMemory>
    ensures { OnOk result (rows.new.items ≡ rows.old.items ++ map (row_of at entry up) ways.now) }
{
    'ways: for way in ways {
        rows.push(row_of(at, entry, up, way))?;
    }
    Ok(())
}

// Adds to none the rows of all entries.
fn push_all(
    rows: &mut Vec<Row>,
    graph: &Graph,
    numbers: &Numbers,
    x: u8,
    any: bool,
    ways: &[Way],
) -> Result<(), OutOfMemory>
    requires none { rows.old.items ≡ [] }
    requires count { length numbers.now ≡ length graph.now }
    requires within { x < length graph.now }
    requires ways { AreWays graph.now numbers.now any x 127 ways.now }
    ensures { OnOk result (AreRowsBelow graph.now numbers.now any x 13 rows.new.items) }
{
    let at = numbers.as_slice()[usize::from(x)];
    'entries: for entry in 0..13u8 {
        if is_entry(graph, x, entry) {
            push_rows(rows, at, entry, may_go_up(graph, x, entry), ways)?;
        }
    }
    Ok(())
}

fn rows_of(
    alloc: Global,
    graph: &Graph,
    numbers: &Numbers,
    x: u8,
    any: bool,
    ways: &[Way],
) -> Result<Vec<Row>, OutOfMemory>
    requires count { length numbers.now ≡ length graph.now }
    requires within { x < length graph.now }
    requires ways { AreWays graph.now numbers.now any x 127 ways.now }
    ensures { IfOk result (λ rows. AreRowsBelow graph.now numbers.now any x 13 rows.items) }
{
    let mut rows = Vec::with_capacity(alloc, 13 * ways.len().min(126))?;
    push_all(&mut rows, graph, numbers, x, any, ways)?;
    Ok(rows)
}

/// The routing table of one member of a topology: rows in ascending order of ingress port, then of number.
#[derive(Drop)]
pub struct Table {
    number: u8,
    rows: Vec<Row>,
}

impl Model for Table {
    ghost use Rattle.std.specs.Prelude.{◌≤◌, AllPairs};
    ghost use Rattle.table_build.specs.Tables.{IsBefore, TableOf};
    ghost use Rattle.an_base.specs.declared.limits.TheConstants.{MOST_NUMBER};

    ghost Value = { TableOf };

    ghost view = { λ t. record { number = t.number; rows = t.rows.items } };

    ghost invariant = { λ t. (1 ≤ t.number) × (t.number ≤ MOST_NUMBER) × AllPairs IsBefore t.rows.items };
}

impl Table {
    /// Computes the table of the member `me` of `graph`.
    ///
    /// It has a row for each ingress port (0 and the ports with a link) and each number of another
    /// member, with the ports that begin a shortest legal route there, or, if `any`, a legal route of
    /// any length. The caller must pass a life of the graph, and one number for each of its entries.
    ///
    /// # Errors
    /// `OutOfMemory` if an allocation fails.
    pub fn build(
        alloc: Global,
        graph: &Graph,
        numbers: &Numbers,
        me: Life,
        any: bool,
    ) -> Result<Table, OutOfMemory>
        requires member { Any (λ e. e.life ≡ me) graph.now }
        requires count { length numbers.now ≡ length graph.now }
        ensures { IfOk result (IsTableOf graph.now numbers.now any me) }
    {
        let x = graph.place(me).unwrap();
        let routing = Routing::of(alloc, graph, numbers)?;
        Table::of(alloc, graph, numbers, &routing, x, any)
    }

    /// Computes the table of the member at index `x` from the data that all tables share.
    ///
    /// The caller must pass the `routing` of `graph` and `numbers`, one number for each entry of the
    /// graph, and an index of a member.
    ///
    /// # Errors
    /// `OutOfMemory` if an allocation fails.
    pub fn of(
        alloc: Global,
        graph: &Graph,
        numbers: &Numbers,
        routing: &Routing,
        x: u8,
        any: bool,
    ) -> Result<Table, OutOfMemory>
        requires routing { IsRouting graph.now numbers.now routing.now }
        requires count { length numbers.now ≡ length graph.now }
        requires within { x < length graph.now }
        ensures { IfOk result (IsTable graph.now numbers.now any x) }
    {
        let ways = ways_of(alloc, graph, numbers, routing, x, any)?;
        let rows = rows_of(alloc, graph, numbers, x, any, &ways)?;
        let number = numbers.as_slice()[usize::from(x)];
        Ok(Table { number, rows })
    }

    /// Returns the number, 1 to 126, of the member that the table belongs to.
    pub fn number(&self) -> u8
        ensures number { result ≡ self.now.number }
        ensures least { 1 ≤ self.now.number }
        ensures most { self.now.number ≤ MOST_NUMBER }
    {
        self.number
    }

    /// Returns the exits, in ascending order, for packets to `number` that arrive at `entry`.
    ///
    /// There are none if the table has no such row.
    pub fn exits(&self, entry: u8, number: u8) -> Exits
        ensures { result ≡ exits_of self.now entry number }
    {
        let found = self
            .rows
            .binary_search_by(|r| r.entry.cmp(&entry).then(r.to.cmp(&number)));
        match found {
            Ok(i) => {
                let row = &self.rows[i];
                row.exits.copy()
            }
            Err(_) => Exits::new(),
        }
    }

    /// Returns the rows in ascending order of ingress port, then of number.
    pub fn as_slice(&self) -> &[Row]
        ensures { result.now ≡ self.now.rows }
    {
        &self.rows
    }

    /// Returns the rows as a vector without allocating.
    pub fn into_rows(self) -> Vec<Row>
        ensures { result.items ≡ self.rows }
    {
        self.rows
    }
}
