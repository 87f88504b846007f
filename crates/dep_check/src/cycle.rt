//! The least cycle. It starts at the least channel on any cycle, and follows levels that fall to that channel.

ghost use Rattle.std.specs.Prelude.{◌≡◌, ◌<◌, ◌+◌, IfOk, MatchOption, IfSome, Some, None, ◌∷◌};
ghost use Rattle.common_graph.specs.Cycles.{HasNoCycle, IsLeastCycle};
ghost use Rattle.dep_check.specs.Channels.{channel_cmp};
ghost use Rattle.dep_check.specs.Tables.{IsSpot};
ghost use Rattle.dep_check.specs.Search.{AreNearest, HasNextAt, IsNextAt, LeastAfter, Step, IsLeastCycleFrom};

use crate::channel::{Channel, Channels};
use crate::level::{level_of, nearest_to};
use crate::spot::{SPOTS, spot_at};
use crate::steps::Steps;
use crate::tier::{has_peer, tiers_of};
use common_values::memory::OutOfMemory;
use std::alloc::Global;

// The least channel of a level to which a channel leads.
fn next_at(steps: &Steps, levels: &[Option<u16>], channel: Channel, level: u16) -> Option<Channel>
    requires spot { IsSpot channel }
    requires channels { steps.now.to ≡ None }
    ensures next { MatchOption result (HasNextAt steps.now levels.now channel level → ⊥)
        (IsNextAt steps.now levels.now channel level) }
    ensures spot { IfSome result IsSpot }
{
    'exits: for exit in 0..13u8 {
        if let Some(next) = steps.next(channel, exit) {
            if level_of(levels, next) == Some(level) {
                return Some(next);
            }
        }
    }
    None
}

// The lesser of the best so far and of the level of the channel to which the step by an exit leads.
fn lesser(
    steps: &Steps,
    levels: &[Option<u16>],
    channel: Channel,
    best: Option<u16>,
    exit: u8,
) -> Option<u16>
    requires spot { IsSpot channel }
    requires exit { exit < 13 }
    requires before { LeastAfter steps.now levels.now channel exit best }
    ensures { LeastAfter steps.now levels.now channel (exit + 1) result }
{
    let Some(next) = steps.next(channel, exit) else {
        return best;
    };
    let Some(level) = level_of(levels, next) else {
        return best;
    };
    match best {
        Some(best) => Some(best.min(level)),
        None => Some(level),
    }
}

// The least level of the channels to which one leads.
fn least_after(steps: &Steps, levels: &[Option<u16>], channel: Channel) -> Option<u16>
    requires { IsSpot channel }
    ensures { LeastAfter steps.now levels.now channel 13 result }
{
    let mut best = None;
    'exits: for exit in 0..13u8 {
        best = lesser(steps, levels, channel, best, exit);
    }
    best
}

// The least shortest cycle from a channel, of which the next one has this level.
fn cycle_from(
    alloc: Global,
    steps: &Steps,
    levels: &[Option<u16>],
    start: Channel,
    length: u16,
) -> Result<Channels, OutOfMemory>
    requires spot { IsSpot start }
    requires channels { steps.now.to ≡ None }
    requires nearest { AreNearest steps.now (λ s. s ≡ start) levels.now }
    requires length { LeastAfter steps.now levels.now start 13 (Some length) }
    ensures { IfOk result (IsLeastCycleFrom (Step steps.now) start) }
{
    let mut channels = Vec::new(alloc);
    channels.push(start)?;
    let mut channel = start;
    let mut level = length;
    'levels: while level > 0 {
        channel = next_at(steps, levels, channel, level).unwrap();
        channels.push(channel)?;
        level -= 1;
    }
    Ok(Channels::of(channels))
}

/// Returns the least cycle, if there is one. The caller must pass the steps of channels.
///
/// By design, not proved, it visits each step a few times for each channel that leads to its own tier,
/// up to the least one on a cycle; with the tiers as computed, this is only that channel.
///
/// # Errors
/// `OutOfMemory` if an allocation fails.
pub fn least_cycle(alloc: Global, steps: &Steps) -> Result<Option<Channels>, OutOfMemory>
    requires { steps.now.to ≡ None }
    ensures { IfOk result (λ found. MatchOption found (HasNoCycle (Step steps.now))
        (IsLeastCycle channel_cmp (Step steps.now))) }
{
    let tiers = tiers_of(alloc, steps)?;
    'spots: for place in 0..SPOTS {
        let start = spot_at(place);
        if has_peer(steps, &tiers, start) {
            let levels = nearest_to(alloc, steps, start)?;
            if let Some(length) = least_after(steps, &levels, start) {
                return Ok(Some(cycle_from(alloc, steps, &levels, start, length)?));
            }
        }
    }
    Ok(None)
}
