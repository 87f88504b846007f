//! Exits by spot and number. A member's ingress ports share two lists of exits: one for packets that may go up, and one
//! for the rest.

ghost use Rattle.std.specs.Prelude.{◌≡◌, ◌<◌, ◌↔◌, ◌++◌, ◌∷◌, ℕ, [], All, Contains, IfOk, List, length};
ghost use Rattle.std.specs.Prelude.{if◌then◌else◌};
ghost use Rattle.std.specs.Int.{bit_at};
ghost use Rattle.table_build.specs.Exits.{may_go_up};
ghost use Rattle.an_base.specs.Rows.{RowOf};
ghost use Rattle.flow_channels.specs.Exits.{AreExitsOf};
ghost use Rattle.flow_channels.specs.Sets.{AreInTurn, AreSetsOf, AreStartsBelow};

use an_base::limits::{LAST_PORT, MOST_NUMBER};
use an_base::numbers::Numbers;
use an_base::row::Row;
use common_values::memory::OutOfMemory;
use dep_check::channel::Channel;
use dep_check::ports::with;
use dep_check::spot::{SPOTS, place_of};
use std::alloc::Global;
use std::marker::Model;
use table_build::exit::{is_entry, may_go_up};
use table_build::routing::Routing;
use table_build::way::{Way, ways_of};
use topo_graph::graph::Graph;

/// The length of a table by number, for the numbers 0 to 126.
pub const NUMBERS: u8 = 127;

/// The set of exits for packets that arrive at each spot and go to each number.
///
/// Spots can share their sets. Contracts see all sets, by spot, then by number.
#[derive(Drop)]
pub struct ExitTable {
    // For each spot where its sets start.
    starts: Vec<u32>,
    sets: Vec<u16>,
}

impl Model for ExitTable {
    ghost use Rattle.std.specs.Prelude.{ℕ, List};
    ghost use Rattle.flow_channels.specs.Sets.{AreStarts, all_sets};

    ghost Value = { List ℕ };

    ghost view = { λ e. all_sets e.starts.items e.sets.items };

    ghost invariant = { λ e. AreStarts e.starts.items e.sets.items };
}

// The set of the exits of a way: of what may go on upward, or of what may not.
fn set_of(way: &Way, up: bool) -> u16
    ensures { (port : ℕ) → ((bit_at result port ≡ 1) ↔ Contains (if up then way.now.up else way.now.down) port) }
{
    if up {
        way.up.as_set()
    } else {
        way.down.as_set()
    }
}

// The sets of ways by number.
fn sets_of(ways: &[Way], up: bool) -> [u16; 127]
    requires { All (λ way. way.number < 127) ways.now }
    ensures { AreSetsOf ways.now up result }
{
    let mut sets = [0u16; 127];
    'ways: for way in ways {
        let number = usize::from(way.number);
        sets[number] = with(sets[number], set_of(way, up));
    }
    sets
}

// Where the sets of an entry start, of those of what may go on upward and of what may not.
fn start_of(graph: &Graph, x: u8, entry: u8, up: u32, down: u32) -> u32
    ensures { result ≡ (if may_go_up graph.now x entry then up else down) }
{
    if may_go_up(graph, x, entry) {
        return up;
    }
    down
}

// Writes where the sets of the entries of a member start.
fn write_starts(starts: &mut Vec<u32>, graph: &Graph, x: u8, at: u8, up: u32, down: u32)
    requires count { length starts.old.items ≡ 1651 }
    requires at { at < 127 }
    ensures { AreStartsBelow graph.now x at up down 13 starts.old.items starts.new.items }
{
    'entries: for entry in 0..13u8 {
        if is_entry(graph, x, entry) {
            let came = Channel { at, port: entry };
            starts[place_of(came)] = start_of(graph, x, entry, up, down);
        }
    }
}

// Starts by which the sets of each spot come after those of the one before.
fn starts_in_turn(alloc: Global) -> Result<Vec<u32>, OutOfMemory>
    ensures { IfOk result (λ starts. AreInTurn 1651 starts.items) }
{
    let mut starts = Vec::with_capacity(alloc, usize::from(SPOTS))?;
    'spots: for place in 0..u32::from(SPOTS) {
        starts.push(place * 127)?;
    }
    Ok(starts)
}

// Adds the exits of a row to sets that stand by spot and then by number: 1,651 times 127 are 209,677.
fn add_row(sets: &mut Vec<u16>, row: &Row)
    requires { length sets.old.items ≡ 209677 }
    ensures count { length sets.new.items ≡ length sets.old.items }
    ensures exits { (rows : List RowOf) → AreExitsOf rows sets.old.items
        → AreExitsOf (rows ++ row.now ∷ []) sets.new.items }
{
    let exits = row.exits.as_set();
    if row.at > MOST_NUMBER || row.entry > LAST_PORT || row.to > MOST_NUMBER {
        return;
    }
    let came = Channel {
        at: row.at,
        port: row.entry,
    };
    let place = place_of(came) * 127 + usize::from(row.to);
    sets[place] = with(sets[place], exits);
}

impl ExitTable {
    ghost use Rattle.std.specs.Prelude.{IfOk, List};
    ghost use Rattle.an_base.specs.Rows.{RowOf};
    ghost use Rattle.dep_check.specs.Laws.{AreTables};
    ghost use Rattle.dep_check.specs.Tables.{IsSpot};
    ghost use Rattle.flow_channels.specs.Board.{exit_set};
    ghost use Rattle.flow_channels.specs.Exits.{AreExitsOf};

    /// Computes the exits of the tables of all members of `graph`.
    ///
    /// If `any`, routes of any length are allowed. The caller must pass one number for each entry of the graph.
    ///
    /// # Errors
    /// `OutOfMemory` if an allocation fails.
    pub fn of(
        alloc: Global,
        graph: &Graph,
        numbers: &Numbers,
        any: bool,
    ) -> Result<Self, OutOfMemory>
        requires { length numbers.now ≡ length graph.now }
        ensures { IfOk result (λ sets. (rows : List RowOf) → AreTables graph.now numbers.now any rows
            → AreExitsOf rows sets) }
    {
        let routing = Routing::of(alloc, graph, numbers)?;
        let named = numbers.as_slice();
        let mut starts = vec![in alloc; 0u32; usize::from(SPOTS)]?;
        let mut sets = Vec::with_capacity(alloc, 127 * (2 * usize::from(graph.count()) + 1))?;
        sets.extend_from_slice(&[0u16; 127])?;
        'members: for x in 0..graph.count() {
            let ways = ways_of(alloc, graph, numbers, &routing, x, any)?;
            let up = sets.len() as u32;
            sets.extend_from_slice(&sets_of(&ways, true))?;
            let down = sets.len() as u32;
            sets.extend_from_slice(&sets_of(&ways, false))?;
            write_starts(&mut starts, graph, x, named[usize::from(x)], up, down);
        }
        Ok(ExitTable { starts, sets })
    }

    /// Collects the exits of `rows`, which can be in any order.
    ///
    /// The exits of rows for the same switch, ingress port and number count together. A row whose spot is not
    /// valid, or whose number is not from 0 to 126, is ignored.
    ///
    /// # Errors
    /// `OutOfMemory` if an allocation fails.
    pub fn of_rows(alloc: Global, rows: &[Row]) -> Result<Self, OutOfMemory>
        ensures { IfOk result (AreExitsOf rows.now) }
    {
        let starts = starts_in_turn(alloc)?;
        // A set for each of the 1,651 spots and each of the 127 numbers.
        let mut sets = vec![in alloc; 0u16; 209_677]?;
        'rows: for row in rows {
            add_row(&mut sets, row);
        }
        Ok(ExitTable { starts, sets })
    }

    /// Returns the exits, as a set, for packets that arrive at `came` and go to the number `to`, at most 126.
    pub fn get(&self, came: Channel, to: u8) -> u16
        requires spot { IsSpot came }
        requires to { to < 127 }
        ensures { result ≡ exit_set self.now came to }
    {
        let start = self.starts[place_of(came)] as usize;
        self.sets[start + usize::from(to)]
    }
}
