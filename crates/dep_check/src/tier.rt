//! Tiers of channels: found by depth-first walks, checked by a pass over all steps. A cycle stays within one tier.

ghost use Rattle.std.specs.Prelude.{◌≡◌, ◌≤◌, ◌<◌, ◌↔◌, length, All, IfOk, IsTrue, None};
ghost use Rattle.dep_check.specs.Tables.{IsSpot};
ghost use Rattle.dep_check.specs.Tiers.{AreTiers, HasPeer, HasPeerBy, RisesFrom, SinksBy, tier_at};

use crate::channel::Channel;
use crate::deep::{leave_all, walk_deep};
use crate::spot::{SPOTS, place_of, spot_at};
use crate::steps::Steps;
use crate::walk::{is_seen, none_seen};
use an_base::port_set::{lowest, without};
use common_values::memory::OutOfMemory;
use std::alloc::Global;

// The tier of a spot, 0 in an empty table, by which all spots have one tier.
fn tier_of(tiers: &[usize], spot: Channel) -> usize
    requires { IsSpot spot }
    ensures { result ≡ tier_at tiers.now spot }
{
    tiers.get(place_of(spot)).copied().unwrap_or(0)
}

fn give_tier(tiers: &mut Vec<usize>, spots: &[Channel], tier: usize)
    requires count { length tiers.old.items ≡ 1651 }
    requires spots { All IsSpot spots.now }
    ensures { length tiers.new.items ≡ 1651 }
{
    'spots: for spot in spots {
        tiers[place_of(*spot)] = tier;
    }
}

// Tiers for spots in the order in which walks in depth leave them: from the last to the first, each with
// all that lead to it and have none gets the next one.
fn tiers_by(alloc: Global, steps: &Steps, left: &[Channel]) -> Result<Vec<usize>, OutOfMemory>
    requires channels { steps.now.to ≡ None }
    requires left { All IsSpot left.now }
    ensures { IfOk result (λ tiers. length tiers.items ≡ 1651) }
{
    let mut seen = none_seen(alloc)?;
    let mut tiers = vec![in alloc; 0usize; usize::from(SPOTS)]?;
    let mut place = left.len();
    'places: while place > 0 {
        place -= 1;
        let spot = left[place];
        if !is_seen(&seen, spot) {
            let mut part = Vec::new(alloc);
            walk_deep(alloc, steps, true, &mut seen, &mut part, spot)?;
            give_tier(&mut tiers, &part, left.len() - place);
        }
    }
    Ok(tiers)
}

// Whether the step by an exit leads to a lower tier.
fn sinks_by(steps: &Steps, tiers: &[usize], spot: Channel, exit: u8) -> bool
    requires spot { IsSpot spot }
    requires exit { exit < 13 }
    ensures { IsTrue result ↔ SinksBy steps.now tiers.now spot exit }
{
    match steps.next(spot, exit) {
        Some(next) => tier_of(tiers, next) < tier_of(tiers, spot),
        None => false,
    }
}

// Whether no step from a spot leads to a lower tier.
fn rises_from(steps: &Steps, tiers: &[usize], spot: Channel) -> bool
    requires { IsSpot spot }
    ensures { IsTrue result ↔ RisesFrom steps.now tiers.now spot }
{
    let mut left = steps.exits_from(spot);
    'exits: while left > 0 {
        let exit = lowest(left);
        left = without(left, exit);
        if sinks_by(steps, tiers, spot, exit) {
            return false;
        }
    }
    true
}

// Whether no step leads to a lower tier.
fn are_tiers(steps: &Steps, tiers: &[usize]) -> bool
    requires { steps.now.to ≡ None }
    ensures { IsTrue result ↔ AreTiers steps.now tiers.now }
{
    'spots: for place in 0..SPOTS {
        if !rises_from(steps, tiers, spot_at(place)) {
            return false;
        }
    }
    true
}

/// Returns a tier for each spot, so that no step leads to a lower tier. The caller must pass the steps of channels.
///
/// By design, not proved, channels that lead to one another share a tier, and no others do. If the tiers found
/// do not pass the check, all spots share one instead. It visits each step a few times.
///
/// # Errors
/// `OutOfMemory` if an allocation fails.
pub fn tiers_of(alloc: Global, steps: &Steps) -> Result<Vec<usize>, OutOfMemory>
    requires { steps.now.to ≡ None }
    ensures { IfOk result (λ tiers. AreTiers steps.now tiers.items) }
{
    let left = leave_all(alloc, steps)?;
    let tiers = tiers_by(alloc, steps, &left)?;
    if are_tiers(steps, &tiers) {
        return Ok(tiers);
    }
    Ok(Vec::new(alloc))
}

// Whether the step by an exit leads to a spot's own tier.
fn has_peer_by(steps: &Steps, tiers: &[usize], spot: Channel, exit: u8) -> bool
    requires spot { IsSpot spot }
    requires exit { exit < 13 }
    ensures { IsTrue result ↔ HasPeerBy steps.now tiers.now spot exit }
{
    match steps.next(spot, exit) {
        Some(next) => tier_of(tiers, next) == tier_of(tiers, spot),
        None => false,
    }
}

/// Reports whether some step from `spot` leads to its own tier.
pub fn has_peer(steps: &Steps, tiers: &[usize], spot: Channel) -> bool
    requires { IsSpot spot }
    ensures { IsTrue result ↔ HasPeer steps.now tiers.now spot }
{
    let mut left = steps.exits_from(spot);
    'exits: while left > 0 {
        let exit = lowest(left);
        left = without(left, exit);
        if has_peer_by(steps, tiers, spot, exit) {
            return true;
        }
    }
    false
}
