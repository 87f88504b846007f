//! Distances to a root, level by level: each pass over the switches finds the next level, until a pass finds none.

ghost use Rattle.std.specs.Prelude.{◌≡◌, ℕ, ◌+◌, ◌<◌, ◌≤◌, ◌↔◌, length, Some, None, IsTrue, IsSome, is_some, count_by, IfOk, slice_set};
ghost use Rattle.std.specs.Bool.{OnTrue, OnFalse};
ghost use Rattle.net_graph.specs.Wires.{IsWired, network};
ghost use Rattle.net_graph.specs.Levels.{level_at, HasNeighbourAt, IsRound, IsReached, AreDistances};

use crate::wiring::Wiring;
use an_base::place::Place;
use an_base::port::Port;
use common_values::memory::OutOfMemory;
use std::alloc::Global;

/// Returns the level of `x`, if it has one.
pub fn level_of(levels: &[Option<u8>], x: Place) -> Option<u8>
    ensures { result ≡ level_at levels.now x }
{
    levels.get(usize::from(x)).copied().flatten()
}

/// Reports whether `x` has the level `level`.
pub fn has_level(levels: &[Option<u8>], level: u8, x: Place) -> bool
    ensures { IsTrue result ↔ (level_at levels.now x ≡ Some level) }
{
    level_of(levels, x) == Some(level)
}

// Whether a neighbour of x has this level.
fn has_neighbour_at(wiring: &Wiring, levels: &[Option<u8>], d: u8, x: Place) -> bool
    requires { IsWired wiring.now }
    ensures { IsTrue result ↔ HasNeighbourAt (network wiring.now) levels.now d x }
{
    'ports: for port in 1..13u8 {
        if let Some((y, _)) = wiring.link_end(x, Port(port)) {
            if has_level(levels, d, y) {
                return true;
            }
        }
    }
    false
}

// Gives the level d + 1 to x if it has no level and has a neighbour at level d, and says whether
// it did.
fn settle(wiring: &Wiring, levels: &mut Vec<Option<u8>>, d: u8, x: Place) -> bool
    requires wired { IsWired wiring.now }
    requires within { x < length levels.old.items }
    requires fits { d < 255 }
    ensures settled { OnTrue result ((levels.new.items ≡ slice_set levels.old.items x (Some (d + 1)))
        × (level_at levels.old.items x ≡ None)
        × HasNeighbourAt (network wiring.now) levels.old.items d x) }
    ensures same { OnFalse result ((levels.new.items ≡ levels.old.items)
        × (level_at levels.old.items x ≡ None
        → HasNeighbourAt (network wiring.now) levels.old.items d x → ⊥)) }
{
    if levels[usize::from(x)].is_some() || !has_neighbour_at(wiring, levels, d, x) {
        return false;
    }
    levels[usize::from(x)] = Some(d + 1);
    true
}

// Gives the level d + 1 to each node without a level that has a neighbour at level d, and says to
// how many.
fn add_level(wiring: &Wiring, levels: &mut Vec<Option<u8>>, d: u8) -> u8
    requires count { length levels.old.items ≡ length wiring.now.switches }
    requires fits { d < 255 }
    ensures round { IsRound (network wiring.now) levels.old.items levels.new.items d }
    ensures count { length levels.new.items ≡ length levels.old.items }
    ensures added { count_by is_some levels.new.items ≡ count_by is_some levels.old.items + result }
    ensures none { result ≡ 0 → levels.new.items ≡ levels.old.items }
{
    let mut added = 0u8;
    let count = wiring.count();
    'nodes: for x in 0..count {
        if settle(wiring, levels, d, Place(x)) {
            added += 1;
        }
    }
    added
}

// So many nodes without a level.
fn no_levels(alloc: Global, count: u8) -> Result<Vec<Option<u8>>, OutOfMemory>
    ensures count { IfOk result (λ levels. length levels.items ≡ count) }
    ensures none { IfOk result (λ levels. (x : ℕ) → level_at levels.items x ≡ None) }
{
    let mut levels = Vec::new(alloc);
    'nodes: for _ in 0..count {
        levels.push(None)?;
    }
    Ok(levels)
}

/// Returns the distance of each switch to `root`, or `None` for a switch without a walk there.
///
/// The caller must pass a switch of `wiring`.
///
/// # Errors
/// `OutOfMemory` if an allocation fails.
pub fn distances_to(
    alloc: Global,
    wiring: &Wiring,
    root: Place,
) -> Result<Vec<Option<u8>>, OutOfMemory>
    requires { root < length wiring.now.switches }
    ensures count { IfOk result (λ levels. length levels.items ≡ length wiring.now.switches) }
    ensures distances { IfOk result (λ levels. AreDistances (network wiring.now) root levels.items) }
{
    let count = wiring.count();
    let mut levels = no_levels(alloc, count)?;
    levels[usize::from(root)] = Some(0);
    let mut d = 0u8;
    'levels: loop {
        if add_level(wiring, &mut levels, d) == 0 {
            return Ok(levels);
        }
        d += 1;
    }
}
