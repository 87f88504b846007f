//! The graph of a topology. Its links are computed once, as a table of far sides. Lower indices are lower lives.

ghost use Rattle.std.specs.Prelude.{◌≡◌, ◌↔◌, ◌<◌, ◌≤◌, length, ℕ, Any, IsTrue, IsSome, IfOk, IfSome};
ghost use Rattle.std.specs.Prelude.{MatchOption};
ghost use Rattle.an_base.specs.Values.{EndId};
ghost use Rattle.an_base.specs.declared.limits.TheConstants.{MOST_LEVEL, MOST_SWITCHES};
ghost use Rattle.an_base.specs.Order.{LivesRise, PortsRise};
ghost use Rattle.topo_graph.specs.Topology.{AreWithin, entry_at, far_of, is_to, IsLink, joined, level_at};
ghost use Rattle.topo_graph.specs.Topology.{life_at, place_of};
ghost use Rattle.topo_graph.specs.Table.{AreRows, cell_at, HasLinks, LinksAreWithin};
ghost use Rattle.std.specs.List.{list_any};

use an_base::entry::{Entries, Entry};
use an_base::life::{End, Life};
use an_base::links::PortLink;
use an_base::position::Position;
use common_values::memory::OutOfMemory;
use std::alloc::Global;
use std::marker::Model;

// The far place and port of each port; nothing is at port 0.
#[derive(Clone, Copy)]
struct PortRow {
    cells: [Option<(u8, u8)>; 13],
}

// What the table has at a port.
fn cell(rows: &[PortRow], x: u8, port: u8) -> Option<(u8, u8)>
    ensures { result ≡ cell_at rows.now x port }
{
    let row = rows.get(usize::from(x))?;
    row.cells.get(usize::from(port)).copied().flatten()
}

// The place of the entry of a life.
fn place(entries: &[Entry], life: Life) -> Option<u8>
    requires rising { LivesRise entries.now }
    requires most { length entries.now ≤ MOST_SWITCHES }
    ensures { result ≡ place_of entries.now life }
{
    match entries.binary_search_by(|e| e.life.cmp(&life)) {
        Ok(x) => Some(x as u8),
        Err(_) => None,
    }
}

// Whether one of the links has this port and this other end.
fn names(links: &[PortLink], port: u8, end: End) -> bool
    ensures { result ≡ list_any (is_to port end) links.now }
{
    links.iter().any(|l| l.port() == port && l.peer() == end)
}

// The far place and port of a link that the entry at x names, if the far entry names it too.
fn far_end(entries: &[Entry], x: u8, link: &PortLink) -> Option<(u8, u8)>
    requires rising { LivesRise entries.now }
    requires most { length entries.now ≤ MOST_SWITCHES }
    requires within { x < length entries.now }
    ensures far { result ≡ joined entries.now x link.now }
    ensures range { IfSome result (AreWithin entries.now x link.now.port) }
{
    let peer = link.peer();
    let y = place(entries, peer.life())?;
    if y == x {
        return None;
    }
    let near = &entries[usize::from(x)];
    let far = &entries[usize::from(y)];
    let end = End::new(near.life, link.port());
    if !names(far.links.as_slice(), peer.port(), end) {
        return None;
    }
    Some((y, peer.port()))
}

// What is at the far side of each port of the entry at x.
fn row_of(entries: &[Entry], x: u8) -> PortRow
    requires rising { LivesRise entries.now }
    requires most { length entries.now ≤ MOST_SWITCHES }
    requires within { x < length entries.now }
    ensures links { HasLinks entries.now x (entry_at entries.now x).links result.cells }
    ensures range { LinksAreWithin entries.now x result.cells }
    ensures ports { PortsRise (entry_at entries.now x).links }
{
    let mut cells = [None; 13];
    let entry = &entries[usize::from(x)];
    'links: for link in entry.links.as_slice() {
        cells[usize::from(link.port())] = far_end(entries, x, link);
    }
    PortRow { cells }
}

// What is at the far side of each port of each entry.
fn rows_of(alloc: Global, entries: &[Entry]) -> Result<Vec<PortRow>, OutOfMemory>
    requires rising { LivesRise entries.now }
    requires most { length entries.now ≤ MOST_SWITCHES }
    ensures { IfOk result (λ rows. AreRows entries.now rows.items (length entries.now)) }
{
    let count = entries.len() as u8;
    let mut rows = Vec::with_capacity(alloc, entries.len())?;
    'rows: for x in 0..count {
        rows.push(row_of(entries, x))?;
    }
    Ok(rows)
}

// Whether this is where the root stands.
fn is_at_root(place: &Position, root: Life) -> bool
    ensures { IsTrue result ↔ (place.now.level ≡ 0) × (place.now.parent ≡ root) × (place.now.port ≡ 0) }
{
    place.level == 0 && place.parent == root && place.port == 0
}

/// The entries of a topology and the links that both ends name.
///
/// Contracts see it as the list of the entries. Code names an entry by its index in that list.
#[derive(Drop)]
pub struct Graph {
    entries: Entries,
    rows: Vec<PortRow>,
}

impl Model for Graph {
    ghost use Rattle.std.specs.Prelude.{List};
    ghost use Rattle.an_base.specs.Values.{EntryOf};
    ghost use Rattle.topo_graph.specs.Table.{IsKept};

    ghost Value = { List EntryOf };

    ghost view = { λ g. g.entries };

    ghost invariant = { λ g. IsKept g.entries g.rows.items };
}

impl Graph {
    ghost use Rattle.topo_graph.specs.Topology.{IsGraph, IsTree};
    ghost use Rattle.topo_graph.specs.Stands.{IsAfter, IsNextBelow, IsParent, Stands};

    /// Creates the graph of `entries`. Its links are those that are named at both ends and join two lives.
    ///
    /// # Errors
    /// `OutOfMemory` if an allocation fails.
    pub fn of(alloc: Global, entries: &Entries) -> Result<Graph, OutOfMemory>
        ensures { IfOk result (λ graph. graph ≡ entries.now) }
    {
        let rows = rows_of(alloc, entries.as_slice())?;
        let entries = entries.copy(alloc)?;
        Ok(Graph { entries, rows })
    }

    /// Returns the entries that the graph was made from.
    pub fn entries(&self) -> &Entries
        ensures all { result.now ≡ self.now }
        ensures graph { IsGraph self.now }
    {
        &self.entries
    }

    /// Returns the number of entries, 1 to 126.
    pub fn count(&self) -> u8
        ensures count { result ≡ length self.now }
        ensures graph { IsGraph self.now }
    {
        self.entries.len() as u8
    }

    /// Returns the index of the entry of `life`, if it has one.
    pub fn place(&self, life: Life) -> Option<u8>
        ensures place { result ≡ place_of self.now life }
        ensures found { IsSome result ↔ Any (λ e. e.life ≡ life) self.now }
        ensures graph { IsGraph self.now }
    {
        place(self.entries().as_slice(), life)
    }

    /// Returns the life of the entry at index `x`, which must be below the number of entries.
    pub fn life(&self, x: u8) -> Life
        requires { x < length self.now }
        ensures { result ≡ life_at self.now x }
    {
        let entry = &self.entries.as_slice()[usize::from(x)];
        entry.life
    }

    /// Returns the position that the entry at index `x` states. The index must be below the number of entries.
    pub fn position(&self, x: u8) -> Position
        requires { x < length self.now }
        ensures { result ≡ (entry_at self.now x).position }
    {
        let entry = &self.entries.as_slice()[usize::from(x)];
        entry.position
    }

    /// Returns the level, 0 to 125, that the entry at index `x` states.
    ///
    /// The caller must pass an index below the number of entries.
    pub fn level(&self, x: u8) -> u8
        requires { x < length self.now }
        ensures level { result ≡ level_at self.now x }
        ensures most { result ≤ MOST_LEVEL }
    {
        let entry = &self.entries.as_slice()[usize::from(x)];
        entry.position.level
    }

    /// Returns the index and the port at the far side of `port` of the entry at index `x`, if the graph
    /// has a link there. It accepts all values.
    pub fn far_place(&self, x: u8, port: u8) -> Option<(u8, u8)>
        ensures far { result ≡ far_of self.now x port }
        ensures graph { IsGraph self.now }
    {
        cell(&self.rows, x, port)
    }

    /// Returns the other end of the link at `port` of `life`, or `None` if and only if the graph has no
    /// link there.
    pub fn far(&self, life: Life, port: u8) -> Option<End>
        ensures { MatchOption result
            ((b : EndId) → ¬ IsLink self.now (record { life = life; port = port }) b)
            (IsLink self.now (record { life = life; port = port })) }
    {
        let x = self.place(life)?;
        let (y, q) = self.far_place(x, port)?;
        Some(End::new(self.life(y), q))
    }

    // Whether what a port leads to comes after the parent.
    fn is_after(&self, x: u8, parent: u8, place: &Position, port: u8) -> bool
        ensures { IsTrue result ↔ IsAfter self.now x parent place.now port }
    {
        let Some((y, _)) = self.far_place(x, port) else {
            return true;
        };
        let next = self.level(y) + 1;
        if next == place.level {
            return parent < y || (parent == y && place.port <= port);
        }
        place.level < next
    }

    // The parent of the entry at x, if it is at the port of its position, one level nearer.
    fn parent_of(&self, x: u8, place: &Position) -> Option<u8>
        ensures parent { MatchOption result
            ((y : ℕ) → ¬ IsParent self.now x y place.now)
            (λ y. IsParent self.now x y place.now) }
        ensures graph { IsGraph self.now }
    {
        let (y, _) = self.far_place(x, place.port)?;
        if self.level(y) + 1 != place.level || self.life(y) != place.parent {
            return None;
        }
        Some(y)
    }

    // Whether the entry at x, which is not the first, stands where its neighbours put it.
    fn is_next_below(&self, x: u8, place: &Position) -> bool
        ensures { IsTrue result ↔ ((y : ℕ) × IsNextBelow self.now x y place.now) }
    {
        let Some(parent) = self.parent_of(x, place) else {
            return false;
        };
        'ports: for port in 1..13u8 {
            if !self.is_after(x, parent, place, port) {
                return false;
            }
        }
        true
    }

    // Whether the entry at x stands where its neighbours put it.
    fn stands(&self, x: u8, place: &Position) -> bool
        ensures { IsTrue result ↔ Stands self.now x place.now }
    {
        let _count = self.count();
        let root = self.life(0);
        if place.root != root {
            return false;
        }
        if x > 0 {
            return self.is_next_below(x, place);
        }
        is_at_root(place, root)
    }

    /// Reports whether the entries are one component of the links, each with its position in the tree
    /// of shortest walks to the lowest life.
    pub fn tree_ok(&self) -> bool
        ensures { IsTrue result ↔ IsTree self.now }
    {
        let count = self.count();
        'entries: for x in 0..count {
            if !self.stands(x, &self.position(x)) {
                return false;
            }
        }
        true
    }
}
