//! The pairs of an end port and a LID that are given no service level: how many there are, and the first one.

ghost use Rattle.std.specs.Prelude.{◌≡◌, ◌≤◌, ◌*◌, ◌↔◌, IfOk, IsTrue, length};
ghost use Rattle.fabric_model.specs.Fabric.{switch_count};
ghost use Rattle.fabric_tables.specs.Cells.{tables_of};
ghost use Rattle.fabric_lane_tables.specs.InUse.{levels_in_use};
ghost use Rattle.fabric_lane_tables.specs.Lanes.{lanes_of};
ghost use Rattle.fabric_lane_tables.specs.Levels.{levels_of};
ghost use Rattle.fabric_routes.specs.Counting.{IsCountOf};
ghost use Rattle.fabric_lane_counts.specs.LaneCounts.{AreLaneCounts, IsSilent};
ghost use Rattle.fabric_lane_commands.specs.Inputs.{HasPlaces};
ghost use Rattle.fabric_lane_commands.specs.Silence.{IsLeastQuiet, IsLesser, IsMute, IsQuiet};

use crate::input::Input;
use common_values::memory::OutOfMemory;
use fabric_lane_counts::counts::LaneCounts;
use fabric_lane_counts::sums::sum_levels;
use fabric_lane_routes::routing::LaneRouting;
use fabric_lane_tables::levels::Levels;
use fabric_model::fabric::Fabric;
use fabric_model::node::EndPort;
use fabric_model::traffic::Traffic;
use fabric_print_lanes::answer::Mute;
use fabric_routes::audience::{Audience, audience_of, is_heard};
use fabric_tables::cells::Cells;
use std::alloc::Global;

// Whether an end port sends to a LID, and has no level for it.
fn is_quiet(
    fabric: &Fabric,
    levels: &Levels,
    audience: Audience,
    lid: usize,
    source: EndPort,
) -> bool
    ensures { IsTrue result ↔ IsQuiet fabric.now (levels_of levels.now) audience lid source }
{
    if !is_heard(fabric, audience, lid, source) {
        return false;
    }
    levels.levels(source, lid) == 0
}

// Of an end port without a level for a LID, if there is one, and another one that of lesser GUID.
fn lesser(
    fabric: &Fabric,
    levels: &Levels,
    audience: Audience,
    lid: usize,
    first: Option<EndPort>,
    source: EndPort,
) -> Option<EndPort>
    ensures { IsLesser fabric.now (levels_of levels.now) audience lid first source result }
{
    if !is_quiet(fabric, levels, audience, lid, source) {
        return first;
    }
    let Some(one) = first else {
        return Some(source);
    };
    if fabric.guid(one) <= fabric.guid(source) {
        return Some(one);
    }
    Some(source)
}

// The end port of least GUID that sends to a LID, and has no level for it.
fn first_to(fabric: &Fabric, levels: &Levels, audience: Audience, lid: usize) -> Option<EndPort>
    ensures { IsLeastQuiet fabric.now (levels_of levels.now) audience lid (length fabric.now.cables)
        (switch_count fabric.now) result }
{
    let mut first = None;
    'ends: for end in 0..fabric.ends() {
        let source = EndPort::Host(end as u32);
        first = lesser(fabric, levels, audience, lid, first, source);
    }
    'switches: for switch in 0..fabric.switches() {
        let source = EndPort::Switch(switch as u32);
        first = lesser(fabric, levels, audience, lid, first, source);
    }
    first
}

/// Of the pairs of an end port and a LID to which it sends that have none of some levels the first one: to the least LID, and
/// of those to it from the least GUID.
pub fn first_mute(fabric: &Fabric, cells: &Cells, levels: &Levels, traffic: Traffic) -> Option<Mute>
    requires lids { length fabric.now.owners ≤ 64 * cells.now.blocks }
    requires most { 64 * cells.now.blocks ≤ 0xC000 }
    ensures { IsMute fabric.now (tables_of cells.now) traffic (levels_of levels.now) result }
{
    'lids: for lid in 0..64 * cells.blocks() {
        let audience = audience_of(fabric, cells, traffic, lid);
        if let Some(source) = first_to(fabric, levels, audience, lid) {
            return Some(Mute {
                lid: lid as u16,
                source: fabric.guid(source),
            });
        }
    }
    None
}

/// How many pairs are given no service level, if these are the counts by the levels in use. The error is out of memory.
pub fn silent_of(
    alloc: Global,
    input: &Input,
    traffic: Traffic,
    counts: LaneCounts,
) -> Result<u64, OutOfMemory>
    requires places { HasPlaces input.now }
    requires counts { AreLaneCounts input.now.topology.fabric (tables_of input.now.tables.cells)
        (lanes_of input.now.lanes) traffic (levels_in_use input.now.levels) counts }
    ensures { IfOk result (IsCountOf (IsSilent input.now.topology.fabric (tables_of input.now.tables.cells) traffic
        (levels_of input.now.levels.given))) }
{
    if input.levels.replied.is_none() {
        return Ok(counts.silent);
    }
    let routing = LaneRouting {
        fabric: &input.topology.fabric,
        cells: &input.tables.cells,
        lanes: &input.lanes,
        levels: &input.levels.given,
        traffic,
    };
    let sums = sum_levels(alloc, &routing)?;
    Ok(sums.silent)
}

/// The first one if it is known how many there are.
pub fn mute_of(
    silent: u64,
    fabric: &Fabric,
    cells: &Cells,
    levels: &Levels,
    traffic: Traffic,
) -> Option<Mute>
    requires lids { length fabric.now.owners ≤ 64 * cells.now.blocks }
    requires most { 64 * cells.now.blocks ≤ 0xC000 }
    requires silent { IsCountOf (IsSilent fabric.now (tables_of cells.now) traffic (levels_of levels.now)) silent }
    ensures { IsMute fabric.now (tables_of cells.now) traffic (levels_of levels.now) result }
{
    if silent == 0 {
        return None;
    }
    first_mute(fabric, cells, levels, traffic)
}
