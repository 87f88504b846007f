//! Follows the routes to a LID, passing each switch once.

ghost use Rattle.std.specs.Prelude.{◌≡◌, ◌<◌, ◌≤◌, ◌^◌, ℕ, length, count_by, take};
ghost use Rattle.fabric_model.specs.Fabric.{switch_count};
ghost use Rattle.fabric_tables.specs.Cells.{tables_of};
ghost use Rattle.fabric_routes.specs.declared.hop.Hop.{Hop};
ghost use Rattle.fabric_routes.specs.declared.trace.Mark.TheVariants.{New};
ghost use Rattle.fabric_routes.specs.Routes.{EndsAs};
ghost use Rattle.fabric_routes.specs.Trace.{AreShort, IsAfter, IsFollowed, IsOpenPath, IsReady, IsShort, LandsWithin};
ghost use Rattle.fabric_routes.specs.Trace.{hop_to, is_known, longer, mark_at, not_there};

use crate::hop::{Cause, Hop, Outcome, find_hop};
use fabric_model::fabric::Fabric;
use fabric_tables::cells::Cells;

/// The LID to which routes are followed, and where they end.
#[derive(Clone, Copy)]
pub struct Target {
    /// The block of the LID: the LID divided by 64, rounded down.
    pub block: usize,
    /// The bit of the LID in the block, from 0 to 63.
    pub bit: usize,
    /// If set, each route that comes to this switch counts as arrived there, and a route that would arrive at another
    /// switch stops there, as `Wrong`.
    pub until: Option<u32>,
}

/// What is known of a switch, for one target.
#[derive(Clone, Copy)]
pub enum Mark {
    /// Nothing.
    New,
    /// The route that is being followed came through it.
    Open,
    /// How the routes from it end.
    Known(Outcome),
}

// The hop of a switch on the way to a target.
#[inline]
fn hop_to(fabric: &Fabric, cells: &Cells, target: Target, at: usize) -> Hop
    requires same { switch_count fabric.now ≡ cells.now.switches }
    requires at { at < switch_count fabric.now }
    requires block { target.block < cells.now.blocks }
    requires bit { target.bit < 64 }
    ensures hop { result ≡ hop_to fabric.now (tables_of cells.now) target at }
    ensures within { LandsWithin (switch_count fabric.now) result }
{
    let does = find_hop(fabric, cells, at, target.block, target.bit);
    match target.until {
        None => does,
        Some(until) => {
            if until as usize == at {
                Hop::Arrive
            } else {
                not_there(does)
            }
        }
    }
}

// The hop where routes arrive at another switch alone.
#[inline]
fn not_there(does: Hop) -> Hop
    ensures { result ≡ not_there does }
{
    match does {
        Hop::On(port, next) => Hop::On(port, next),
        Hop::Arrive => Hop::Stop(Cause::Wrong),
        Hop::Stop(cause) => Hop::Stop(cause),
    }
}

// How a route goes on after a hop: to a switch that is new, or it ends so.
#[derive(Clone, Copy)]
enum After {
    Goes(usize),
    Ends(Outcome),
}

// How a route goes on after a hop, by what is known of the switch to which it leads.
#[inline]
fn go_on(marks: &[Mark], does: Hop) -> After
    requires { LandsWithin (length marks.now) does }
    ensures { IsAfter marks.now does result }
{
    match does {
        Hop::Arrive => After::Ends(Outcome::Arrives(0)),
        Hop::Stop(cause) => After::Ends(Outcome::Stops(cause)),
        Hop::On(_, next) => match marks[next as usize] {
            Mark::Known(outcome) => After::Ends(outcome),
            Mark::Open => After::Ends(Outcome::Loops),
            Mark::New => After::Goes(next as usize),
        },
    }
}

// A path along which a route was followed.
#[derive(Clone, Copy)]
struct Followed {
    // How many switches it has.
    count: usize,
    // How the route ends after the last one.
    beyond: Outcome,
}

// Follows the route from a switch that is new until it ends or comes to a switch that is not. Puts the switches by which
// it came into the path, and answers how it ends there.
fn follow(
    fabric: &Fabric,
    cells: &Cells,
    target: Target,
    marks: &mut [Mark],
    path: &mut [u32],
    start: usize,
) -> Followed
    requires same { switch_count fabric.now ≡ cells.now.switches }
    requires few { switch_count fabric.now ≤ 2 ^ 14 }
    requires start { start < switch_count fabric.now }
    requires block { target.block < cells.now.blocks }
    requires bit { target.bit < 64 }
    requires room { switch_count fabric.now ≤ length path.old }
    requires new { mark_at marks.old start ≡ New }
    requires ready { IsReady (hop_to fabric.now (tables_of cells.now) target) (switch_count fabric.now) marks.old }
    ensures followed { IsFollowed (hop_to fabric.now (tables_of cells.now) target) start
        marks.new (take result.count path.new) result.beyond }
    ensures low { result.count ≤ length path.new }
{
    let mut at = start;
    let mut count = 0usize;
    'hops: loop {
        marks[at] = Mark::Open;
        path[count] = at as u32;
        count += 1;
        let does = hop_to(fabric, cells, target, at);
        match go_on(marks, does) {
            After::Goes(next) => at = next,
            After::Ends(beyond) => return Followed { count, beyond },
        }
    }
}

// One switch more.
#[inline]
fn longer(outcome: Outcome) -> Outcome
    requires { IsShort (2 ^ 31) outcome }
    ensures { result ≡ longer outcome }
{
    match outcome {
        Outcome::Arrives(switches) => Outcome::Arrives(switches + 1),
        Outcome::Stops(cause) => Outcome::Stops(cause),
        Outcome::Loops => Outcome::Loops,
    }
}

// Marks the switches of a path, from the last on, with how the routes from them end. Answers that of the first.
fn settle(marks: &mut [Mark], path: &[u32], followed: Followed) -> Outcome
    requires few { length marks.old < 2 ^ 31 }
    requires low { followed.count ≤ length path.now }
    requires opened { IsOpenPath marks.old (take followed.count path.now) }
    requires short { AreShort marks.old }
    requires beyond { IsShort (count_by is_known marks.old) followed.beyond }
    ensures { (hop_at : ℕ → Hop) (start : ℕ)
        → IsFollowed hop_at start marks.old (take followed.count path.now) followed.beyond
        → IsReady hop_at (length marks.old) marks.new × EndsAs hop_at start result }
{
    let mut left = followed.count;
    let mut outcome = followed.beyond;
    'path: while left > 0 {
        left -= 1;
        outcome = longer(outcome);
        marks[path[left] as usize] = Mark::Known(outcome);
    }
    outcome
}

/// Returns how the route from `start` to `target` ends, and records in `marks` what it learns.
///
/// The caller must pass marks of the same target, in `path` a place for each switch as working space, and numbers in
/// range.
pub fn trace(
    fabric: &Fabric,
    cells: &Cells,
    target: Target,
    marks: &mut [Mark],
    path: &mut [u32],
    start: usize,
) -> Outcome
    requires same { switch_count fabric.now ≡ cells.now.switches }
    requires few { switch_count fabric.now ≤ 2 ^ 14 }
    requires start { start < switch_count fabric.now }
    requires block { target.block < cells.now.blocks }
    requires bit { target.bit < 64 }
    requires room { switch_count fabric.now ≤ length path.old }
    requires ready { IsReady (hop_to fabric.now (tables_of cells.now) target) (switch_count fabric.now) marks.old }
    ensures ready { IsReady (hop_to fabric.now (tables_of cells.now) target) (switch_count fabric.now) marks.new }
    ensures ends { EndsAs (hop_to fabric.now (tables_of cells.now) target) start result }
{
    match marks[start] {
        Mark::Known(outcome) => outcome,
        Mark::Open => Outcome::Loops,
        Mark::New => {
            let followed = follow(fabric, cells, target, marks, path, start);
            settle(marks, path, followed)
        }
    }
}
