//! The check: it ranks the channels, which only a cycle prevents, then searches for a pair and for an exit to reject.

ghost use Rattle.std.specs.Prelude.{◌≡◌, ◌<◌, length, Some, None, IfOk, IfErr, MatchBool};
ghost use Rattle.dep_check.specs.declared.channel.Channel.{Channel};
ghost use Rattle.dep_check.specs.Channels.{far_at};
ghost use Rattle.dep_check.specs.Tables.{AreExitsBelow, AreWires, IsSpot, level_at};
ghost use Rattle.dep_check.specs.Answer.{HasAllRanks, IsRefusal, Passes};
ghost use Rattle.dep_check.specs.Search.{IsLinked};

use crate::channel::Channel;
use crate::cycle::least_cycle;
use crate::gap::least_gap;
use crate::illegal::least_illegal;
use crate::level::{level_of, ranks_of};
use crate::refusal::CheckRefusal;
use crate::spot::{SPOTS, spot_at};
use crate::steps::Steps;
use crate::wires::wires_of;
use an_base::limits::{LAST_PORT, MOST_NUMBER};
use an_base::numbers::Numbers;
use an_base::row::Row;
use common_values::memory::OutOfMemory;
use std::alloc::Global;
use std::marker::Model;
use topo_graph::graph::Graph;

/// The ranks of the channels: each is above the ranks that its channel leads to. Contracts see them
/// as a list over all switches and ports.
#[derive(Drop)]
pub struct Ranks {
    levels: Vec<Option<u16>>,
}

impl Model for Ranks {
    ghost use Rattle.std.specs.Prelude.{ℕ, List, Option};

    ghost Value = { List (Option ℕ) };

    ghost view = { λ ranks. ranks.levels.items };
}

impl Ranks {
    ghost use Rattle.dep_check.specs.Tables.{rank_at};

    /// Returns the rank of the channel at `port` of the switch with the number `at`.
    ///
    /// It is 0 if the channel leads nowhere, otherwise one more than the highest rank that it leads to;
    /// and `None` if and only if this is not a channel. It does not allocate.
    pub fn rank(&self, at: u8, port: u8) -> Option<u16>
        ensures { result ≡ rank_at self.now (record { at = at; port = port }) }
    {
        if at > MOST_NUMBER || port > LAST_PORT {
            return None;
        }
        level_of(&self.levels, Channel { at, port })
    }
}

fn are_all_ranked(steps: &Steps, levels: &[Option<u16>]) -> bool
    ensures { MatchBool result
        ((spot : Channel) → IsSpot spot → IsLinked steps.now spot → level_at levels.now spot ≡ None → ⊥)
        ((spot : Channel) × IsSpot spot × IsLinked steps.now spot × (level_at levels.now spot ≡ None)) }
{
    'spots: for place in 0..SPOTS {
        let spot = spot_at(place);
        if steps.far(spot).is_some() && level_of(levels, spot).is_none() {
            return false;
        }
    }
    true
}

// The far sides of the spots, the steps of channels between them, and the ranks of the channels.
#[derive(Drop)]
struct RankedSteps {
    wires: Vec<Option<Channel>>,
    steps: Steps,
    levels: Vec<Option<u16>>,
}

// The ranked steps of rows, unless the rows let some channels lead round.
fn ranked_by(
    alloc: Global,
    graph: &Graph,
    numbers: &Numbers,
    rows: &[Row],
) -> Result<RankedSteps, CheckRefusal>
    requires { length numbers.now ≡ length graph.now }
    ensures wires { IfOk result (λ ranked. AreWires (far_at graph.now numbers.now) ranked.wires.items) }
    ensures exits { IfOk result (λ ranked.
        AreExitsBelow rows.now None (length rows.now) ranked.steps.exits.items) }
    ensures ranked { IfOk result (λ ranked. HasAllRanks graph.now numbers.now rows.now ranked.levels.items) }
    ensures refused { IfErr result (IsRefusal graph.now numbers.now rows.now) }
{
    let wires = wires_of(alloc, graph, numbers)?;
    let steps = Steps::of(alloc, &wires, rows)?;
    let levels = ranks_of(alloc, &steps)?;
    if !are_all_ranked(&steps, &levels) {
        let channels = least_cycle(alloc, &steps)?.unwrap();
        return Err(CheckRefusal::Cycle { channels });
    }
    Ok(RankedSteps {
        wires,
        steps,
        levels,
    })
}

/// Checks the rows of routing tables for `graph`, and returns the ranks of the channels if they pass.
///
/// A row names its switch and its target by number; the caller must pass one number for each entry of the
/// graph. The rows can be in any order. A row without exits counts as a missing row, and the exits of rows
/// for the same switch, ingress port and number count together. If a row's ingress port has no link, or its
/// number is the switch's own or belongs to no switch, the row counts for cycles and illegal exits, but not
/// for pairs. A host's port, and a link from a switch to itself, are exits without a link.
///
/// By design, not proved, the time is linear in the rows and their exits: it visits each row and each step
/// from channel to channel a few times, and each step of packets (by an exit of a row towards their number)
/// once. In addition each number of the topology takes a fixed time, and a least cycle takes one search from
/// each channel that leads to its own tier, up to the least one on a cycle.
///
/// # Errors
/// The least cycle of channels; otherwise the least pair that is not joined; otherwise the least illegal
/// exit. `OutOfMemory` says nothing about the rows.
pub fn check(
    alloc: Global,
    graph: &Graph,
    numbers: &Numbers,
    rows: &[Row],
) -> Result<Ranks, CheckRefusal>
    requires { length numbers.now ≡ length graph.now }
    ensures passes { IfOk result (Passes graph.now numbers.now rows.now) }
    ensures refused { IfErr result (IsRefusal graph.now numbers.now rows.now) }
{
    let ranked = ranked_by(alloc, graph, numbers, rows)?;
    if let Some(gap) = least_gap(alloc, &ranked.wires, numbers, rows)? {
        return Err(CheckRefusal::NotJoined {
            from: gap.from,
            to: gap.to,
            at: gap.at,
            entry: gap.entry,
        });
    }
    if let Some(illegal) = least_illegal(
        alloc,
        graph,
        numbers,
        &ranked.wires,
        &ranked.steps,
        rows,
    )? {
        return Err(CheckRefusal::IllegalExit {
            at: illegal.at,
            entry: illegal.entry,
            to: illegal.to,
            exit: illegal.exit,
        });
    }
    Ok(Ranks {
        levels: ranked.levels,
    })
}
