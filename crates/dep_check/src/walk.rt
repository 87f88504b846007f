//! The spots that steps lead to from a spot, by walks whose order does not matter, unlike those of `deep`.

ghost use Rattle.std.specs.Prelude.{◌≡◌, ◌<◌, ◌↔◌, [], length, true, false, Contains, IfOk, IsTrue, OnOk};
ghost use Rattle.dep_check.specs.declared.channel.Channel.{Channel};
ghost use Rattle.dep_check.specs.Tables.{IsSpot};
ghost use Rattle.dep_check.specs.Search.{IsStep, IsStuck, Step};
ghost use Rattle.dep_check.specs.Walks.{IsWalked, seen_at, Sees};

use crate::channel::Channel;
use crate::spot::{SPOTS, place_of};
use crate::steps::Steps;
use an_base::port_set::{lowest, without};
use common_values::memory::OutOfMemory;
use std::alloc::Global;

/// Creates a table in which no spot is seen.
///
/// # Errors
/// `OutOfMemory` if the allocation fails.
pub fn none_seen(alloc: Global) -> Result<Vec<bool>, OutOfMemory>
    ensures none { IfOk result (λ seen. (s : Channel) → seen_at seen.items s ≡ false) }
    ensures count { IfOk result (λ seen. length seen.items ≡ 1651) }
{
    Ok(vec![in alloc; false; usize::from(SPOTS)]?)
}

/// Reports whether `spot` is seen.
pub fn is_seen(seen: &[bool], spot: Channel) -> bool
    requires { IsSpot spot }
    ensures { result ≡ seen_at seen.now spot }
{
    seen.get(place_of(spot)).copied().unwrap_or(false)
}

// Adds a spot to those that are seen, and if it was none, to those that are still to be looked at.
fn see(seen: &mut Vec<bool>, ahead: &mut Vec<Channel>, spot: Channel) -> Result<(), OutOfMemory>
    requires count { length seen.old.items ≡ 1651 }
    requires spot { IsSpot spot }
    ensures { OnOk result (Sees (λ s. s ≡ spot) seen.old.items ahead.old.items
        seen.new.items ahead.new.items) }
{
    let place = place_of(spot);
    if !seen[place] {
        ahead.push(spot)?;
        seen[place] = true;
    }
    Ok(())
}

// The same of the spot to which the step by an exit leads. Answers whether there is one.
fn see_exit(
    steps: &Steps,
    seen: &mut Vec<bool>,
    ahead: &mut Vec<Channel>,
    spot: Channel,
    exit: u8,
) -> Result<bool, OutOfMemory>
    requires count { length seen.old.items ≡ 1651 }
    requires spot { IsSpot spot }
    requires exit { exit < 13 }
    ensures sees { OnOk result (Sees (IsStep steps.now spot exit) seen.old.items ahead.old.items
        seen.new.items ahead.new.items) }
    ensures leads { IfOk result (λ leads. leads ≡ true → (b : Channel) × IsStep steps.now spot exit b) }
{
    let Some(next) = steps.next(spot, exit) else {
        return Ok(false);
    };
    see(seen, ahead, next)?;
    Ok(true)
}

// The same of all that the steps from a spot lead to. Answers whether a step leads on by each exit there, and
// there is some: then no packets get stuck there.
fn see_next(
    steps: &Steps,
    seen: &mut Vec<bool>,
    ahead: &mut Vec<Channel>,
    spot: Channel,
) -> Result<bool, OutOfMemory>
    requires count { length seen.old.items ≡ 1651 }
    requires spot { IsSpot spot }
    ensures sees { OnOk result (Sees (Step steps.now spot) seen.old.items ahead.old.items
        seen.new.items ahead.new.items) }
    ensures clear { IfOk result (λ clear. clear ≡ true → IsStuck steps.now spot → ⊥) }
{
    let exits = steps.exits_from(spot);
    let mut left = exits;
    let mut clear = exits > 0;
    'exits: while left > 0 {
        let exit = lowest(left);
        left = without(left, exit);
        let leads = see_exit(steps, seen, ahead, spot, exit)?;
        clear = clear & leads;
    }
    Ok(clear)
}

// Whether packets get stuck at a spot. If it is clear they do not.
fn is_stuck_at(steps: &Steps, spot: Channel, clear: bool) -> bool
    requires spot { IsSpot spot }
    requires clear { clear ≡ true → IsStuck steps.now spot → ⊥ }
    ensures { IsTrue result ↔ IsStuck steps.now spot }
{
    if clear {
        return false;
    }
    steps.is_stuck(spot)
}

/// Adds all spots that steps lead to from `start` to `seen`, and reports whether packets get stuck at one of
/// the spots added.
///
/// It visits each step from a spot that it adds once. The buffer `ahead` holds the spots that it must still
/// visit; it is empty before and after a walk, so that many walks can share it. The caller must pass a flag
/// for each of the 1,651 spots and an empty `ahead`.
///
/// # Errors
/// `OutOfMemory` if an allocation fails. The contract then says nothing about `seen` and `ahead`.
pub fn walk(
    steps: &Steps,
    seen: &mut Vec<bool>,
    ahead: &mut Vec<Channel>,
    start: Channel,
) -> Result<bool, OutOfMemory>
    requires count { length seen.old.items ≡ 1651 }
    requires ahead { ahead.old.items ≡ [] }
    requires start { IsSpot start }
    ensures walked { IfOk result (λ stuck. IsWalked steps.now start seen.old.items seen.new.items stuck) }
    ensures ahead { OnOk result (ahead.new.items ≡ []) }
{
    see(seen, ahead, start)?;
    let mut stuck = false;
    'ahead: while let Some(spot) = ahead.pop() {
        let clear = see_next(steps, seen, ahead, spot)?;
        if is_stuck_at(steps, spot, clear) {
            stuck = true;
        }
    }
    Ok(stuck)
}
