//! The least pair that rows do not join. All walks towards a target share the spots that they have seen.

ghost use Rattle.std.specs.Prelude.{◌≡◌, ◌<◌, ◌+◌, ℕ, List, Option, [], length, IfOk, OnOk, MatchBool, MatchOption};
ghost use Rattle.an_base.specs.Rows.{RowOf};
ghost use Rattle.dep_check.specs.declared.channel.Channel.{Channel};
ghost use Rattle.dep_check.specs.Tables.{AreLinks, IsSpot, wire_at};
ghost use Rattle.dep_check.specs.Search.{AreBetween};
ghost use Rattle.dep_check.specs.Targets.{AreByTarget, AreFor};
ghost use Rattle.dep_check.specs.Packets.{AllAreJoined, IsLeastGap};
ghost use Rattle.dep_check.specs.Pairs.{FirstOf, FirstStuck, IsLeastEnd, IsLeastPair, IsStuckFrom};
ghost use Rattle.dep_check.specs.Pairs.{StaysClear};
ghost use Rattle.dep_check.specs.Walks.{IsClear};

use crate::channel::Channel;
use crate::spot::{SPOTS, spot_at};
use crate::steps::Steps;
use crate::targets::ByTarget;
use crate::walk::{is_seen, none_seen, walk};
use an_base::numbers::Numbers;
use an_base::row::Row;
use common_values::memory::OutOfMemory;
use std::alloc::Global;

/// A pair of numbers that is not joined, and the place where packets between them get stuck.
#[derive(Clone, Copy)]
pub struct Gap {
    /// The number of the switch where they start.
    pub from: u8,
    /// The number of the switch that they go to.
    pub to: u8,
    /// The number of the switch where they get stuck.
    pub at: u8,
    /// The port where they arrived there.
    pub entry: u8,
}

// The numbers of two switches.
#[derive(Clone, Copy)]
struct Pair {
    from: u8,
    to: u8,
}

// Whether packets may get stuck that start at the switch that has a number, if it is another one. At what
// was seen before none get stuck; if the answer is no, at what is seen now none do either.
fn is_stuck_from(
    steps: &Steps,
    numbers: &Numbers,
    by_target: &ByTarget,
    seen: &mut Vec<bool>,
    ahead: &mut Vec<Channel>,
    to: u8,
    from: u8,
) -> Result<bool, OutOfMemory>
    requires numbers { AreFor numbers.now by_target.now }
    requires count { length seen.old.items ≡ 1651 }
    requires ahead { ahead.old.items ≡ [] }
    requires clear { IsClear steps.now seen.old.items }
    requires from { from < 127 }
    ensures ahead { OnOk result (ahead.new.items ≡ []) }
    ensures stuck { IfOk result (λ stuck. MatchBool stuck (IsStuckFrom numbers.now steps.now to from)
        (StaysClear numbers.now steps.now to from seen.new.items)) }
{
    if from == to {
        return Ok(false);
    }
    if !by_target.has(from) {
        return Ok(false);
    }
    let stuck = walk(steps, seen, ahead, Channel { at: from, port: 0 })?;
    Ok(stuck)
}

// The least other switch from which packets may get stuck.
fn first_stuck(
    alloc: Global,
    steps: &Steps,
    numbers: &Numbers,
    by_target: &ByTarget,
    to: u8,
) -> Result<Option<u8>, OutOfMemory>
    requires { AreFor numbers.now by_target.now }
    ensures { IfOk result (FirstStuck numbers.now steps.now to 127) }
{
    let mut seen = none_seen(alloc)?;
    let mut ahead = Vec::new(alloc);
    'numbers: for from in 0..127u8 {
        if is_stuck_from(steps, numbers, by_target, &mut seen, &mut ahead, to, from)? {
            return Ok(Some(from));
        }
    }
    Ok(None)
}

// The least other switch from which packets to a number may get stuck.
fn stuck_towards(
    alloc: Global,
    steps: &mut Steps,
    numbers: &Numbers,
    rows: &[Row],
    by_target: &ByTarget,
    to: u8,
) -> Result<Option<u8>, OutOfMemory>
    requires count { length steps.old.exits.items ≡ 1651 }
    requires rows { AreByTarget rows.now numbers.now by_target.now }
    requires to { to < 127 }
    ensures first { IfOk result (FirstOf (wire_at steps.old.wires.items) numbers.now rows.now to) }
    ensures kept { OnOk result (AreBetween steps.old.wires.items steps.new) }
{
    let _names = numbers.as_slice();
    if !by_target.has(to) {
        return Ok(None);
    }
    steps.turn(rows, numbers, by_target, to);
    let first = first_stuck(alloc, steps, numbers, by_target, to)?;
    Ok(first)
}

// The lesser of the best pair so far and of one with a later target.
fn lesser(best: Option<Pair>, from: Option<u8>, to: u8) -> Option<Pair>
    ensures { (far : Channel → Option Channel) (numbers : List ℕ) (rows : List RowOf)
        → IsLeastPair far numbers rows to best → FirstOf far numbers rows to from
        → IsLeastPair far numbers rows (to + 1) result }
{
    let Some(from) = from else {
        return best;
    };
    match best {
        Some(pair) if pair.from <= from => best,
        _ => Some(Pair { from, to }),
    }
}

// The least pair that is not joined. For each target it looks once at each step that packets may take.
fn least_pair(
    alloc: Global,
    steps: &mut Steps,
    numbers: &Numbers,
    rows: &[Row],
    by_target: &ByTarget,
) -> Result<Option<Pair>, OutOfMemory>
    requires count { length steps.old.exits.items ≡ 1651 }
    requires rows { AreByTarget rows.now numbers.now by_target.now }
    ensures least { IfOk result (IsLeastPair (wire_at steps.old.wires.items) numbers.now rows.now 127) }
    ensures kept { OnOk result (AreBetween steps.old.wires.items steps.new) }
{
    let mut best = None;
    'numbers: for to in 0..127u8 {
        let from = stuck_towards(alloc, steps, numbers, rows, by_target, to)?;
        best = lesser(best, from, to);
    }
    Ok(best)
}

// The least spot at which packets from one may get stuck.
fn least_end(alloc: Global, steps: &Steps, start: Channel) -> Result<Option<Channel>, OutOfMemory>
    requires { IsSpot start }
    ensures { IfOk result (IsLeastEnd steps.now start) }
{
    let mut seen = none_seen(alloc)?;
    let mut ahead = Vec::new(alloc);
    walk(steps, &mut seen, &mut ahead, start)?;
    'spots: for place in 0..SPOTS {
        let end = spot_at(place);
        if is_seen(&seen, end) && steps.is_stuck(end) {
            return Ok(Some(end));
        }
    }
    Ok(None)
}

/// Returns the least pair that is not joined, with the least place where its packets get stuck, if there
/// is one.
///
/// The caller must pass far sides in `wires` that are symmetric, as links are.
///
/// # Errors
/// `OutOfMemory` if an allocation fails.
pub fn least_gap(
    alloc: Global,
    wires: &[Option<Channel>],
    numbers: &Numbers,
    rows: &[Row],
) -> Result<Option<Gap>, OutOfMemory>
    requires { AreLinks wires.now }
    ensures { IfOk result (λ gap. MatchOption gap (AllAreJoined (wire_at wires.now) numbers.now rows.now)
        (λ g. IsLeastGap (wire_at wires.now) numbers.now rows.now g.from g.to g.at g.entry)) }
{
    let _names = numbers.as_slice();
    let by_target = ByTarget::of(alloc, numbers, rows)?;
    let mut steps = Steps::between(alloc, wires)?;
    let Some(pair) = least_pair(alloc, &mut steps, numbers, rows, &by_target)? else {
        return Ok(None);
    };
    steps.turn(rows, numbers, &by_target, pair.to);
    let start = Channel {
        at: pair.from,
        port: 0,
    };
    let end = least_end(alloc, &steps, start)?.unwrap();
    Ok(Some(Gap {
        from: pair.from,
        to: pair.to,
        at: end.at,
        entry: end.port,
    }))
}
