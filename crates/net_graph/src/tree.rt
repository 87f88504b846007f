//! The entries of one component in ascending order of identifier: each switch's place in the tree and its links.

ghost use Rattle.std.specs.Prelude.{◌≡◌, ◌≢◌, ℕ, ◌+◌, ◌-◌, ◌<◌, ◌≤◌, ◌↔◌, length, Some, None, IsTrue, IfSome, IfNone, IfOk};
ghost use Rattle.an_base.specs.Tree.{IsPlace};
ghost use Rattle.net_graph.specs.Wires.{IsWired, network};
ghost use Rattle.net_graph.specs.Levels.{level_at, AreDistances};
ghost use Rattle.net_graph.specs.Parents.{IsBest};
ghost use Rattle.net_graph.specs.Entry.{AreLinks, AreLinksBelow};
ghost use Rattle.net_graph.specs.Forest.{IsEntry, IsComponent};
ghost use Rattle.net_graph.specs.Next.{IsNext};

use crate::level::{has_level, level_of};
use crate::next::next_from;
use crate::wiring::Wiring;
use an_base::entry::{Entries, Entry};
use an_base::life::End;
use an_base::links::{Links, PortLink};
use an_base::place::Place;
use an_base::port::Port;
use an_base::position::Position;
use common_values::memory::OutOfMemory;
use std::alloc::Global;

// The better of the best so far and what a port leads to.
fn better(
    wiring: &Wiring,
    levels: &[Option<u8>],
    level: u8,
    x: Place,
    best: Option<(Place, Port)>,
    port: Port,
) -> Option<(Place, Port)>
    requires count { length levels.now ≡ length wiring.now.switches }
    requires before { IsBest (network wiring.now) levels.now level x port best }
    ensures { IsBest (network wiring.now) levels.now level x (port + 1) result }
{
    let Some((y, _)) = &wiring.link_end(x, port) else {
        return best;
    };
    if level == 0 || !has_level(levels, level - 1, *y) {
        return best;
    }
    let Some((b, _)) = &best else {
        return Some((*y, port));
    };
    if wiring.uid(*b) <= wiring.uid(*y) {
        best
    } else {
        Some((*y, port))
    }
}

// The parent of x and the port to it: the least of the nodes one level nearer, by the least port.
fn parent_of(wiring: &Wiring, levels: &[Option<u8>], level: u8, x: Place) -> Option<(Place, Port)>
    requires { length levels.now ≡ length wiring.now.switches }
    ensures { IsBest (network wiring.now) levels.now level x 13 result }
{
    let mut best = None;
    'ports: for port in 0..13u8 {
        best = better(wiring, levels, level, x, best, Port(port));
    }
    best
}

// The place of x in the tree of the root.
fn place_of(wiring: &Wiring, levels: &[Option<u8>], root: Place, x: Place, level: u8) -> Position
    requires wired { IsWired wiring.now }
    requires count { length levels.now ≡ length wiring.now.switches }
    requires root { root < length wiring.now.switches }
    requires distances { AreDistances (network wiring.now) root levels.now }
    requires level { level_at levels.now x ≡ Some level }
    ensures { IsPlace (network wiring.now) root x result }
{
    let top = wiring.life(root);
    match &parent_of(wiring, levels, level, x) {
        None => Position::new(top, level, top, 0),
        Some((parent, port)) => Position::new(top, level, wiring.life(*parent), port.as_u8()),
    }
}

// Adds the link at a port, if it leads to another switch.
fn push_link(wiring: &Wiring, links: &mut Links, x: Place, port: Port)
    requires { AreLinksBelow (network wiring.now) x port links.old }
    ensures { AreLinksBelow (network wiring.now) x (port + 1) links.new }
{
    let Some((y, q)) = &wiring.link_end(x, port) else {
        return;
    };
    if *y == x {
        return;
    }
    links.push(PortLink::new(port.as_u8(), End::new(wiring.life(*y), q.as_u8())));
}

// The links of x to other switches, by rising port.
fn links_of(wiring: &Wiring, x: Place) -> Links
    requires { IsWired wiring.now }
    ensures { AreLinks (network wiring.now) x result }
{
    let mut links = Links::new();
    'ports: for port in 1..13u8 {
        push_link(wiring, &mut links, x, Port(port));
    }
    links
}

// The entry of x in the tree of the root.
fn entry_of(wiring: &Wiring, levels: &[Option<u8>], root: Place, x: Place, level: u8) -> Entry
    requires wired { IsWired wiring.now }
    requires count { length levels.now ≡ length wiring.now.switches }
    requires root { root < length wiring.now.switches }
    requires within { x < length wiring.now.switches }
    requires distances { AreDistances (network wiring.now) root levels.now }
    requires level { level_at levels.now x ≡ Some level }
    ensures { IsEntry wiring.now root x result }
{
    Entry {
        life: wiring.life(x),
        position: place_of(wiring, levels, root, x, level),
        proposed: wiring.had(x),
        links: links_of(wiring, x),
    }
}

/// Returns the component of `root`, with its tree.
///
/// The caller must pass the distances to `root` as `levels`, and the switch with the lowest identifier
/// of the component as `root`.
///
/// # Errors
/// `OutOfMemory` if an allocation fails.
pub fn component_of(
    alloc: Global,
    wiring: &Wiring,
    levels: &[Option<u8>],
    root: Place,
) -> Result<Entries, OutOfMemory>
    requires wired { IsWired wiring.now }
    requires count { length levels.now ≡ length wiring.now.switches }
    requires root { root < length wiring.now.switches }
    requires distances { AreDistances (network wiring.now) root levels.now }
    requires first { IsNext wiring.now levels.now 0 (length wiring.now.switches) root }
    ensures { IfOk result (IsComponent wiring.now root) }
{
    let mut from = wiring.uid(root) + 1;
    let mut entries = Entries::of(alloc, entry_of(wiring, levels, root, root, 0))?;
    'members: while let Some(x) = next_from(wiring, levels, from) {
        let level = level_of(levels, x).unwrap();
        entries.push(entry_of(wiring, levels, root, x, level))?;
        from = wiring.uid(x) + 1;
    }
    Ok(entries)
}
