//! Through how many switches the routes to a LID go, past each switch once, as long as all arrive.

ghost use Rattle.std.specs.Prelude.{◌≡◌, ◌<◌, ◌≤◌, ◌+◌, ◌*◌, ◌%◌, ◌^◌, ℕ, length, replicate, IfSome};
ghost use Rattle.fabric_tables.specs.Cells.{tables_of};
ghost use Rattle.fabric_counts.specs.Counts.{hop_for};
ghost use Rattle.fabric_counts.specs.Heights.{AreHeights, AreLow, IsLonger, IsWay};
ghost use Rattle.fabric_model.specs.Fabric.{switch_count};
ghost use Rattle.fabric_routes.specs.declared.hop.Hop.{Hop};
ghost use Rattle.fabric_routes.specs.declared.hop.Outcome.TheVariants.{Arrives};
ghost use Rattle.fabric_routes.specs.Routes.{EndsAs};

use fabric_model::fabric::Fabric;
use fabric_routes::hop::{Hop, hop_at};
use fabric_routes::word::has_bit;
use fabric_tables::cells::Cells;

/// Makes all heights unknown.
pub fn clear(heights: &mut [u32])
    ensures { heights.new ≡ replicate (length heights.old) 0 }
{
    heights.fill(0);
}

// How a route goes until its end is known.
#[derive(Clone, Copy)]
struct Way {
    // By so many switches of a path ..
    count: usize,
    // .. and then through so many more; by 0, it arrives at the last one of the path.
    beyond: u32,
}

// Follows the route to a LID from a switch, by switches without a height, to one that has one or to its end.
// None if it does not arrive.
fn find_way(
    fabric: &Fabric,
    cells: &Cells,
    lid: u16,
    heights: &[u32],
    path: &mut [u32],
    start: usize,
) -> Option<Way>
    requires same { switch_count fabric.now ≡ cells.now.switches }
    requires few { switch_count fabric.now ≤ 2 ^ 14 }
    requires lid { lid < 64 * cells.now.blocks }
    requires start { start < switch_count fabric.now }
    requires size { length heights.now ≡ switch_count fabric.now }
    requires heights { AreHeights (hop_for fabric.now (tables_of cells.now) lid) heights.now }
    ensures way { IfSome result (IsWay (hop_for fabric.now (tables_of cells.now) lid)
        (switch_count fabric.now) start path.new) }
    ensures room { IfSome result (λ way. way.count ≤ length path.old) }
{
    let mut at = start;
    let mut count = 0usize;
    'hops: while count < path.len() {
        let beyond = heights[at];
        if beyond > 0 {
            return Some(Way { count, beyond });
        }
        path[count] = at as u32;
        count += 1;
        match hop_at(fabric, cells, at, lid as usize) {
            Hop::On(_, next) => at = next as usize,
            Hop::Arrive => return Some(Way { count, beyond: 0 }),
            Hop::Stop(_) => return None,
        }
    }
    None
}

// Puts the heights of the switches of a path, from the last one on. Answers that of the first.
fn settle(heights: &mut [u32], path: &[u32], way: Way) -> u32
    requires low { AreLow (length heights.old) path.now way.count }
    requires room { way.count ≤ length path.now }
    requires few { way.count + way.beyond ≤ 2 ^ 14 }
    ensures { (hop_at : ℕ → Hop) (switches start : ℕ) → IsWay hop_at switches start path.now way
        → AreHeights hop_at heights.old
        → AreHeights hop_at heights.new × EndsAs hop_at start (Arrives result) }
{
    let mut left = way.count;
    let mut height = way.beyond;
    'path: while left > 0 {
        left -= 1;
        height += 1;
        heights[path[left] as usize] = height;
    }
    height
}

// Through how many switches the route to a LID from a switch goes, if it arrives. The path is a room for as many switches
// as there are.
fn height_of(
    fabric: &Fabric,
    cells: &Cells,
    lid: u16,
    heights: &mut [u32],
    path: &mut [u32],
    start: usize,
) -> Option<u32>
    requires same { switch_count fabric.now ≡ cells.now.switches }
    requires few { switch_count fabric.now ≤ 2 ^ 14 }
    requires lid { lid < 64 * cells.now.blocks }
    requires start { start < switch_count fabric.now }
    requires size { length heights.old ≡ switch_count fabric.now }
    requires room { length path.old ≡ switch_count fabric.now }
    requires heights { AreHeights (hop_for fabric.now (tables_of cells.now) lid) heights.old }
    ensures heights { IfSome result (λ _. AreHeights (hop_for fabric.now (tables_of cells.now) lid) heights.new) }
    ensures ends { IfSome result (λ switches. EndsAs (hop_for fabric.now (tables_of cells.now) lid) start
        (Arrives switches)) }
{
    let way = find_way(fabric, cells, lid, heights, path, start)?;
    // never so, but then the heights would not be known to fit
    if way.count + way.beyond as usize > heights.len() {
        return None;
    }
    Some(settle(heights, path, way))
}

/// The greater number of switches with the route to a LID from a switch, if the switch has the bit of the LID; None
/// if that route does not arrive.
pub fn longer_from(
    fabric: &Fabric,
    cells: &Cells,
    lid: u16,
    starts: &[u64],
    heights: &mut [u32],
    path: &mut [u32],
    switch: usize,
    hops: u32,
) -> Option<u32>
    requires same { switch_count fabric.now ≡ cells.now.switches }
    requires few { switch_count fabric.now ≤ 2 ^ 14 }
    requires lid { lid < 64 * cells.now.blocks }
    requires switch { switch < switch_count fabric.now }
    requires starts { length starts.now ≡ switch_count fabric.now }
    requires size { length heights.old ≡ switch_count fabric.now }
    requires room { length path.old ≡ switch_count fabric.now }
    requires heights { AreHeights (hop_for fabric.now (tables_of cells.now) lid) heights.old }
    ensures heights { IfSome result (λ _. AreHeights (hop_for fabric.now (tables_of cells.now) lid) heights.new) }
    ensures longer { IfSome result (IsLonger (hop_for fabric.now (tables_of cells.now) lid) starts.now (lid % 64) switch
        hops) }
{
    if !has_bit(starts[switch], lid as usize % 64) {
        return Some(hops);
    }
    let height = height_of(fabric, cells, lid, heights, path, switch)?;
    Some(hops.max(height))
}
