//! Iterates over switches in ascending order of identifier, though they are ordered by index: it searches for each.

ghost use Rattle.std.specs.Prelude.{◌≡◌, ℕ, ◌+◌, ◌<◌, ◌≤◌, ◌↔◌, length, Some, None, IsTrue, is_some};
ghost use Rattle.net_graph.specs.Levels.{level_at};
ghost use Rattle.net_graph.specs.Next.{IsLeft, IsNextOf};

use crate::level::level_of;
use crate::wiring::Wiring;
use an_base::place::Place;

// Whether x has a level, and an identifier of at least from.
fn is_left(wiring: &Wiring, levels: &[Option<u8>], from: u64, x: Place) -> bool
    requires { x < length wiring.now.switches }
    ensures { IsTrue result ↔ IsLeft wiring.now levels.now from x }
{
    match level_of(levels, x) {
        None => false,
        Some(_) => from <= wiring.uid(x),
    }
}

// The lesser of the best so far and x.
fn lesser(
    wiring: &Wiring,
    levels: &[Option<u8>],
    from: u64,
    best: Option<Place>,
    x: Place,
) -> Option<Place>
    requires within { x < length wiring.now.switches }
    requires before { IsNextOf wiring.now levels.now from x best }
    ensures { IsNextOf wiring.now levels.now from (x + 1) result }
{
    if !is_left(wiring, levels, from, x) {
        return best;
    }
    let Some(b) = best else {
        return Some(x);
    };
    if wiring.uid(b) <= wiring.uid(x) {
        best
    } else {
        Some(x)
    }
}

/// Returns the switch with the lowest identifier, from `from` on, among those that have a level.
pub fn next_from(wiring: &Wiring, levels: &[Option<u8>], from: u64) -> Option<Place>
    ensures { IsNextOf wiring.now levels.now from (length wiring.now.switches) result }
{
    let mut best = None;
    let count = wiring.count();
    'nodes: for x in 0..count {
        best = lesser(wiring, levels, from, best, Place(x));
    }
    best
}
