//! Depth-first walks, with their path on the heap. `tier` walks along the steps, then back from the spot left last.

ghost use Rattle.std.specs.Prelude.{◌≡◌, ◌<◌, length, All, IfOk, IfSome, None, OnOk};
ghost use Rattle.dep_check.specs.Deep.{AreVisits, HasVisited, IsLonger};
ghost use Rattle.dep_check.specs.Tables.{IsSpot};

use crate::channel::Channel;
use crate::ports::has;
use crate::spot::{SPOTS, place_of, spot_at};
use crate::steps::Steps;
use crate::walk::none_seen;
use common_values::memory::OutOfMemory;
use std::alloc::Global;

/// A spot that a walk reaches or leaves.
#[derive(Clone, Copy)]
pub struct Visit {
    /// The spot.
    pub spot: Channel,
    /// Whether the walk leaves it, after reaching all spots that it leads to.
    pub leaves: bool,
}

// Adds a visit, if there is a spot to come to.
fn come_to(path: &mut Vec<Visit>, spot: Option<Channel>) -> Result<(), OutOfMemory>
    requires path { AreVisits path.old.items }
    requires spot { IfSome spot IsSpot }
    ensures { OnOk result (IsLonger 1 path.old.items path.new.items) }
{
    if let Some(spot) = spot {
        path.push(Visit {
            spot,
            leaves: false,
        })?;
    }
    Ok(())
}

// Comes to the spot to which the step by an exit leads, if it is one of some exits.
fn come_by(
    steps: &Steps,
    path: &mut Vec<Visit>,
    spot: Channel,
    exits: u16,
    exit: u8,
) -> Result<(), OutOfMemory>
    requires path { AreVisits path.old.items }
    requires spot { IsSpot spot }
    requires exit { exit < 13 }
    ensures { OnOk result (IsLonger 1 path.old.items path.new.items) }
{
    if !has(exits, exit) {
        return Ok(());
    }
    come_to(path, steps.next(spot, exit))
}

// Comes to all that the steps from a spot lead to.
fn come_to_next(steps: &Steps, path: &mut Vec<Visit>, spot: Channel) -> Result<(), OutOfMemory>
    requires path { AreVisits path.old.items }
    requires spot { IsSpot spot }
    ensures { OnOk result (IsLonger 13 path.old.items path.new.items) }
{
    let exits = steps.exits_from(spot);
    'exits: for exit in 0..13u8 {
        come_by(steps, path, spot, exits, exit)?;
    }
    Ok(())
}

// Comes to all channels that lead to one.
fn come_to_before(steps: &Steps, path: &mut Vec<Visit>, spot: Channel) -> Result<(), OutOfMemory>
    requires channels { steps.now.to ≡ None }
    requires path { AreVisits path.old.items }
    requires spot { IsSpot spot }
    ensures { OnOk result (IsLonger 13 path.old.items path.new.items) }
{
    'entries: for entry in 0..13u8 {
        come_to(path, steps.before(spot, entry))?;
    }
    Ok(())
}

// Comes to all channels that lead to a spot, if it walks back, or else to all that steps from it lead to.
fn come_to_all(
    steps: &Steps,
    back: bool,
    path: &mut Vec<Visit>,
    spot: Channel,
) -> Result<(), OutOfMemory>
    requires channels { steps.now.to ≡ None }
    requires path { AreVisits path.old.items }
    requires spot { IsSpot spot }
    ensures { OnOk result (IsLonger 13 path.old.items path.new.items) }
{
    if back {
        return come_to_before(steps, path, spot);
    }
    come_to_next(steps, path, spot)
}

// Makes a visit: leaves the spot; or, if it was not seen, comes to all to which it leads, and will then
// leave it.
fn make_visit(
    steps: &Steps,
    back: bool,
    seen: &mut Vec<bool>,
    path: &mut Vec<Visit>,
    left: &mut Vec<Channel>,
    at: Visit,
) -> Result<(), OutOfMemory>
    requires channels { steps.now.to ≡ None }
    requires count { length seen.old.items ≡ 1651 }
    requires path { AreVisits path.old.items }
    requires left { All IsSpot left.old.items }
    requires spot { IsSpot at.spot }
    ensures { OnOk result (HasVisited seen.old.items path.old.items
        seen.new.items path.new.items left.new.items) }
{
    if at.leaves {
        left.push(at.spot)?;
        return Ok(());
    }
    let place = place_of(at.spot);
    if !seen[place] {
        seen[place] = true;
        path.push(Visit {
            spot: at.spot,
            leaves: true,
        })?;
        come_to_all(steps, back, path, at.spot)?;
    }
    Ok(())
}

/// Walks depth-first along the steps from `start`, or, if `back`, back along them.
///
/// It marks the unseen spots that it reaches in `seen`, and adds them to `left` in the order in which it
/// leaves them. It visits each step from them, or to them, once. Only lengths and ranges are proved. The
/// caller must pass the steps of channels, a flag for each of the 1,651 spots, and valid spots.
///
/// # Errors
/// `OutOfMemory` if an allocation fails. The contract then says nothing about `seen` and `left`.
pub fn walk_deep(
    alloc: Global,
    steps: &Steps,
    back: bool,
    seen: &mut Vec<bool>,
    left: &mut Vec<Channel>,
    start: Channel,
) -> Result<(), OutOfMemory>
    requires channels { steps.now.to ≡ None }
    requires count { length seen.old.items ≡ 1651 }
    requires left { All IsSpot left.old.items }
    requires start { IsSpot start }
    ensures count { OnOk result (length seen.new.items ≡ 1651) }
    ensures left { OnOk result (All IsSpot left.new.items) }
{
    let mut path = Vec::new(alloc);
    path.push(Visit {
        spot: start,
        leaves: false,
    })?;
    'path: while let Some(at) = path.pop() {
        make_visit(steps, back, seen, &mut path, left, at)?;
    }
    Ok(())
}

/// Returns all spots, in the order in which depth-first walks leave them. The caller must pass the steps of channels.
///
/// # Errors
/// `OutOfMemory` if an allocation fails.
pub fn leave_all(alloc: Global, steps: &Steps) -> Result<Vec<Channel>, OutOfMemory>
    requires { steps.now.to ≡ None }
    ensures { IfOk result (λ left. All IsSpot left.items) }
{
    let mut seen = none_seen(alloc)?;
    let mut left = Vec::with_capacity(alloc, usize::from(SPOTS))?;
    'spots: for place in 0..SPOTS {
        walk_deep(alloc, steps, false, &mut seen, &mut left, spot_at(place))?;
    }
    Ok(left)
}
