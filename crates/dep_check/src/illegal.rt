//! The least illegal exit. Exits by spot are checked first; single rows are visited only if these do not pass.

ghost use Rattle.std.specs.Prelude.{◌≡◌, ◌↔◌, ◌+◌, ℕ, List, Option, IsTrue, MatchOption, None, IfOk, length, true};
ghost use Rattle.std.specs.Int.{bit_at};
ghost use Rattle.std.specs.List.{list_all};
ghost use Rattle.an_base.specs.Rows.{RowOf};
ghost use Rattle.an_base.specs.Values.{EntryOf};
ghost use Rattle.dep_check.specs.Channels.{far_at};
ghost use Rattle.dep_check.specs.Illegal.{AllAreLegal, IsLeastIllegal, LeadsUp};
ghost use Rattle.dep_check.specs.Tables.{AreExitsBelow, AreWires, row_at, wire_at};
ghost use Rattle.dep_check.specs.Worst.{AreLegalBy, AreSides, AreUpBelow, FirstBad, IsBadExit, IsNotAfter, LeadsUpAt, LeastBelow};
ghost use Rattle.dep_check.specs.Worst.{is_at_spot, up_at};

use crate::channel::Channel;
use crate::exits::exits_at;
use crate::spot::{SPOTS, place_of, spot_at};
use crate::steps::Steps;
use crate::wires::place_in;
use an_base::limits::{LAST_PORT, MOST_NUMBER};
use an_base::numbers::Numbers;
use an_base::port_set::{lowest, without};
use an_base::row::Row;
use common_values::memory::OutOfMemory;
use std::alloc::Global;
use topo_graph::graph::Graph;
use updown::route::is_up_end;

/// An exit of a row.
#[derive(Clone, Copy, PartialEq, Eq, PartialOrd, Ord)]
pub struct RowExit {
    /// The number of the row's switch.
    pub at: u8,
    /// The row's ingress port.
    pub entry: u8,
    /// The number that its packets go to.
    pub to: u8,
    /// The exit.
    pub exit: u8,
}

// Whether a port of the switch at a place has a link whose far end is its up end.
fn leads_up(graph: &Graph, place: u8, port: u8) -> bool
    ensures { IsTrue result ↔ LeadsUp graph.now place port }
{
    match graph.far_place(place, port) {
        Some((far, _)) => is_up_end(graph, far, place),
        None => false,
    }
}

// Whether a port of the switch that has a number leads up.
fn leads_up_at(graph: &Graph, numbers: &Numbers, spot: Channel) -> bool
    ensures { IsTrue result ↔ LeadsUpAt graph.now numbers.now spot }
{
    match place_in(numbers, spot.at) {
        Some(place) => leads_up(graph, place, spot.port),
        None => false,
    }
}

// Whether each spot leads up, by place.
fn all_up(alloc: Global, graph: &Graph, numbers: &Numbers) -> Result<Vec<bool>, OutOfMemory>
    ensures { IfOk result (λ up. AreUpBelow graph.now numbers.now 1651 up.items) }
{
    let mut up = Vec::with_capacity(alloc, usize::from(SPOTS))?;
    'spots: for place in 0..SPOTS {
        up.push(leads_up_at(graph, numbers, spot_at(place)))?;
    }
    Ok(up)
}

// What is known of the ports of switches, by their numbers.
#[derive(Drop)]
struct Sides<'a> {
    // The far side of each spot.
    wires: &'a [Option<Channel>],
    // Whether each leads up.
    up: &'a [bool],
}

impl Sides<'_> {
    // Whether a port of a switch has no link.
    fn is_loose(&self, at: u8, port: u8) -> bool
        ensures { IsTrue result ↔ (wire_at self.now.wires.now (record { at = at; port = port }) ≡ None) }
    {
        if at > MOST_NUMBER || port > LAST_PORT {
            return true;
        }
        let place = place_of(Channel { at, port });
        self.wires.get(place).copied().flatten().is_none()
    }

    fn is_up(&self, at: u8, port: u8) -> bool
        ensures { result ≡ up_at self.now.up.now (record { at = at; port = port }) }
    {
        if at > MOST_NUMBER || port > LAST_PORT {
            return false;
        }
        let place = place_of(Channel { at, port });
        self.up.get(place).copied().unwrap_or(false)
    }

    // Whether an exit is illegal for what came in there, which came downward or not.
    fn is_illegal(&self, at: u8, came_down: bool, exit: u8) -> bool
        ensures { IsTrue result ↔ IsBadExit self.now.wires.now self.now.up.now at came_down exit }
    {
        if self.is_loose(at, exit) {
            return true;
        }
        came_down && self.is_up(at, exit)
    }
}

// Whether an exit is not after another.
fn is_up_to(first: RowExit, second: RowExit) -> bool
    ensures { IsTrue result ↔ IsNotAfter first second }
{
    first.cmp(&second).is_le()
}

// The lesser of the best so far and of the first illegal exit of a row.
fn lesser(best: Option<RowExit>, next: Option<RowExit>) -> Option<RowExit>
    ensures { (es : List EntryOf) (numbers : List ℕ) (rows : List RowOf) (k : ℕ)
        → LeastBelow es numbers rows k best → FirstBad es numbers (row_at rows k) next
        → LeastBelow es numbers rows (k + 1) result }
{
    let Some(next) = next else {
        return best;
    };
    let Some(found) = best else {
        return Some(next);
    };
    if is_up_to(found, next) {
        best
    } else {
        Some(next)
    }
}

fn first_illegal(sides: &Sides<'_>, row: &Row) -> Option<RowExit>
    ensures { (es : List EntryOf) (numbers : List ℕ) → AreSides es numbers sides.now.wires.now sides.now.up.now
        → FirstBad es numbers row.now result }
{
    let came_down = sides.is_up(row.at, row.entry);
    let ports = row.exits.list();
    'exits: for exit in ports.as_slice() {
        if sides.is_illegal(row.at, came_down, *exit) {
            return Some(RowExit {
                at: row.at,
                entry: row.entry,
                to: row.to,
                exit: *exit,
            });
        }
    }
    None
}

// The least illegal exit of rows between these sides.
fn least_between(sides: &Sides<'_>, rows: &[Row]) -> Option<RowExit>
    ensures { (es : List EntryOf) (numbers : List ℕ) → AreSides es numbers sides.now.wires.now sides.now.up.now
        → MatchOption result (AllAreLegal es numbers rows.now)
        (λ i. IsLeastIllegal es numbers rows.now i.at i.entry i.to i.exit) }
{
    let mut best = None;
    'rows: for row in rows {
        best = lesser(best, first_illegal(sides, row));
    }
    best
}

// Whether none of some exits is illegal for what came in at a spot.
fn are_legal_at(sides: &Sides<'_>, spot: Channel, exits: u16) -> bool
    ensures { result ≡ true → (p : ℕ) → bit_at exits p ≡ 1
        → IsBadExit sides.now.wires.now sides.now.up.now spot.at (up_at sides.now.up.now spot) p → ⊥ }
{
    let came_down = sides.is_up(spot.at, spot.port);
    let mut left = exits;
    'exits: while left > 0 {
        let exit = lowest(left);
        left = without(left, exit);
        if sides.is_illegal(spot.at, came_down, exit) {
            return false;
        }
    }
    true
}

fn are_all_legal(sides: &Sides<'_>, exits: &[u16]) -> bool
    ensures { result ≡ true → AreLegalBy sides.now.wires.now sides.now.up.now exits.now }
{
    'spots: for place in 0..SPOTS {
        let spot = spot_at(place);
        if !are_legal_at(sides, spot, exits_at(exits, spot)) {
            return false;
        }
    }
    true
}

// Whether a row is for what came in at a spot.
fn is_at_spot(row: &Row) -> bool
    ensures { result ≡ is_at_spot row.now }
{
    row.at < 127 && row.entry < 13
}

fn are_at_spots(rows: &[Row]) -> bool
    ensures { result ≡ list_all is_at_spot rows.now }
{
    rows.iter().all(|row| is_at_spot(row))
}

// Whether no exit is illegal, if the table has those of the rows. It looks once at each row, and at none
// of their exits.
fn are_legal(sides: &Sides<'_>, exits: &[u16], rows: &[Row]) -> bool
    ensures { (es : List EntryOf) (numbers : List ℕ) → result ≡ true
        → AreSides es numbers sides.now.wires.now sides.now.up.now
        → AreExitsBelow rows.now None (length rows.now) exits.now → AllAreLegal es numbers rows.now }
{
    if !are_at_spots(rows) {
        return false;
    }
    are_all_legal(sides, exits)
}

/// Returns the least illegal exit of `rows`, if there is one.
///
/// By design, not proved, it visits the exits of single rows, each once, only if there is one. The caller must
/// pass the far sides of all spots, and steps that have the exits of all rows.
///
/// # Errors
/// `OutOfMemory` if an allocation fails.
pub fn least_illegal(
    alloc: Global,
    graph: &Graph,
    numbers: &Numbers,
    wires: &[Option<Channel>],
    steps: &Steps,
    rows: &[Row],
) -> Result<Option<RowExit>, OutOfMemory>
    requires wires { AreWires (far_at graph.now numbers.now) wires.now }
    requires exits { AreExitsBelow rows.now None (length rows.now) steps.now.exits.items }
    ensures { IfOk result (λ found. MatchOption found (AllAreLegal graph.now numbers.now rows.now)
        (λ i. IsLeastIllegal graph.now numbers.now rows.now i.at i.entry i.to i.exit)) }
{
    let up = all_up(alloc, graph, numbers)?;
    let sides = Sides { wires, up: &up };
    if are_legal(&sides, &steps.exits, rows) {
        return Ok(None);
    }
    Ok(least_between(&sides, rows))
}
