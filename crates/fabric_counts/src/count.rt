//! How the routes of a traffic end, and how many do.

ghost use Rattle.std.specs.Prelude.{◌≡◌, ◌<◌, ◌≤◌, ◌+◌, ◌*◌, ◌/◌, ◌%◌, ◌^◌, ℕ, None, length, replicate, IfOk, IfSome};
ghost use Rattle.fabric_model.specs.Fabric.{switch_count};
ghost use Rattle.fabric_tables.specs.Cells.{tables_of};
ghost use Rattle.fabric_routes.specs.declared.trace.Mark.TheVariants.{New};
ghost use Rattle.fabric_routes.specs.Audience.{IsAudience};
ghost use Rattle.fabric_model.specs.declared.traffic.Traffic.{Traffic};
ghost use Rattle.fabric_routes.specs.Routes.{EndsAs};
ghost use Rattle.fabric_routes.specs.Starts.{AreAllSenders};
ghost use Rattle.fabric_routes.specs.Trace.{IsReady, hop_to, whole};
ghost use Rattle.fabric_routes.specs.Waves.{AreStarts};
ghost use Rattle.fabric_counts.specs.Counts.{AreCounts, hop_for, sum_of};
ghost use Rattle.fabric_counts.specs.Steps.{AllArriveWithin, AreCountsUntil, AreHeard, AreRooms, IsEndPort, place_of};

use crate::counts::Counts;
use crate::height::{clear, longer_from};
use crate::room::Rooms;
use crate::source::{Heard, count_heard, count_senders, end_port_at, end_ports};
use common_values::memory::OutOfMemory;
use fabric_model::fabric::Fabric;
use fabric_model::node::EndPort;
use fabric_model::traffic::Traffic;
use fabric_routes::audience::{Audience, audience_of, sender_start};
use fabric_routes::hop::Outcome;
use fabric_routes::sender::{Senders, find_senders, put_starts};
use fabric_routes::trace::{Mark, Target, trace};
use fabric_tables::cells::Cells;
use std::alloc::Global;

/// Marks all switches as new.
pub fn forget(marks: &mut [Mark])
    ensures { marks.new ≡ replicate (length marks.old) New }
{
    marks.fill(Mark::New);
}

/// How the route to a LID from a switch ends. The marks are of the same LID, and the path is a room for the switches of a
/// route. Blocks have 64 LIDs.
pub fn end_from(
    fabric: &Fabric,
    cells: &Cells,
    lid: u16,
    marks: &mut [Mark],
    path: &mut [u32],
    start: usize,
) -> Outcome
    requires same { switch_count fabric.now ≡ cells.now.switches }
    requires few { switch_count fabric.now ≤ 2 ^ 14 }
    requires lid { lid < 64 * cells.now.blocks }
    requires start { start < switch_count fabric.now }
    requires room { switch_count fabric.now ≤ length path.old }
    requires ready { IsReady (hop_to fabric.now (tables_of cells.now) (whole lid)) (switch_count fabric.now)
        marks.old }
    ensures ready { IsReady (hop_to fabric.now (tables_of cells.now) (whole lid)) (switch_count fabric.now) marks.new }
    ensures ends { EndsAs (hop_for fabric.now (tables_of cells.now) lid) start result }
{
    let target = Target {
        block: lid as usize / 64,
        bit: lid as usize % 64,
        until: None,
    };
    trace(fabric, cells, target, marks, path, start)
}

// Through how many switches the longest route to a LID goes, if each arrives that begins at a switch with its bit.
fn longest_to(
    fabric: &Fabric,
    cells: &Cells,
    lid: u16,
    starts: &[u64],
    heights: &mut [u32],
    path: &mut [u32],
) -> Option<u32>
    requires same { switch_count fabric.now ≡ cells.now.switches }
    requires few { switch_count fabric.now ≤ 2 ^ 14 }
    requires lid { lid < 64 * cells.now.blocks }
    requires starts { length starts.now ≡ switch_count fabric.now }
    requires size { length heights.old ≡ switch_count fabric.now }
    requires room { length path.old ≡ switch_count fabric.now }
    ensures { IfSome result (λ hops. (traffic : Traffic)
        → AreStarts fabric.now (tables_of cells.now) traffic (lid / 64) starts.now
        → AllArriveWithin fabric.now (tables_of cells.now) traffic lid hops) }
{
    clear(heights);
    let mut hops = 0;
    'switches: for switch in 0..fabric.switches() {
        hops = longer_from(fabric, cells, lid, starts, heights, path, switch, hops)?;
    }
    Some(hops)
}

impl Counts {
    // The route of an end port, if it sends to the LID, by the audience of the LID.
    fn add_source(
        &mut self,
        fabric: &Fabric,
        cells: &Cells,
        audience: Audience,
        lid: u16,
        marks: &mut [Mark],
        path: &mut [u32],
        source: EndPort,
    )
        requires same { switch_count fabric.now ≡ cells.now.switches }
        requires few { switch_count fabric.now ≤ 2 ^ 14 }
        requires lid { lid < 64 * cells.now.blocks }
        requires room { switch_count fabric.now ≤ length path.old }
        requires ready { IsReady (hop_to fabric.now (tables_of cells.now) (whole lid)) (switch_count fabric.now)
            marks.old }
        requires source { IsEndPort fabric.now source }
        requires all { self.old.routes ≡ self.old.arrived + sum_of self.old.lost }
        requires unowned { self.old.unowned ≤ self.old.arrived }
        requires fits { self.old.routes < 2 ^ 40 }
        ensures ready { IsReady (hop_to fabric.now (tables_of cells.now) (whole lid)) (switch_count fabric.now)
            marks.new }
        ensures counts { (traffic : Traffic) → IsAudience fabric.now (tables_of cells.now) traffic lid audience
            → AreCountsUntil fabric.now (tables_of cells.now) traffic lid (place_of fabric.now source) self.old
            → AreCountsUntil fabric.now (tables_of cells.now) traffic lid (place_of fabric.now source + 1) self.new }
    {
        let Some(start) = sender_start(fabric, audience, lid as usize, source) else {
            return;
        };
        let outcome = end_from(fabric, cells, lid, marks, path, start as usize);
        self.add(fabric, cells, lid, source, start, outcome);
    }

    // The routes of all end ports to a LID, one after the other.
    fn with_sources(
        self,
        fabric: &Fabric,
        cells: &Cells,
        traffic: Traffic,
        lid: u16,
        marks: &mut [Mark],
        path: &mut [u32],
    ) -> Counts
        requires same { switch_count fabric.now ≡ cells.now.switches }
        requires few { switch_count fabric.now ≤ 2 ^ 14 }
        requires lid { lid < 64 * cells.now.blocks }
        requires size { length marks.old ≡ switch_count fabric.now }
        requires room { switch_count fabric.now ≤ length path.old }
        requires counts { AreCountsUntil fabric.now (tables_of cells.now) traffic lid 0 self }
        ensures { AreCountsUntil fabric.now (tables_of cells.now) traffic (lid + 1) 0 result }
    {
        forget(marks);
        let audience = audience_of(fabric, cells, traffic, lid as usize);
        let mut counts = self;
        'places: for place in 0..end_ports(fabric) {
            let source = end_port_at(fabric, place);
            counts.add_source(fabric, cells, audience, lid, marks, path, source);
        }
        counts
    }
}

// The counts with the routes to a LID.
fn count_lid(
    fabric: &Fabric,
    cells: &Cells,
    traffic: Traffic,
    lid: u16,
    heard: Heard,
    starts: &[u64],
    rooms: &mut Rooms,
    counts: Counts,
) -> Counts
    requires same { switch_count fabric.now ≡ cells.now.switches }
    requires switches { switch_count fabric.now ≤ 2 ^ 14 }
    requires lid { lid < 64 * cells.now.blocks }
    requires heard { AreHeard fabric.now heard }
    requires count { length starts.now ≡ switch_count fabric.now }
    requires starts { AreStarts fabric.now (tables_of cells.now) traffic (lid / 64) starts.now }
    requires rooms { AreRooms (switch_count fabric.now) rooms.old }
    requires counts { AreCountsUntil fabric.now (tables_of cells.now) traffic lid 0 counts }
    ensures rooms { AreRooms (switch_count fabric.now) rooms.new }
    ensures counts { AreCountsUntil fabric.now (tables_of cells.now) traffic (lid + 1) 0 result }
{
    let audience = audience_of(fabric, cells, traffic, lid as usize);
    if let Audience::Nobody = audience {
        return counts;
    }
    let Rooms {
        heights,
        marks,
        path,
    } = rooms;
    match longest_to(fabric, cells, lid, starts, heights, path) {
        Some(hops) => {
            let senders = count_senders(fabric, audience, lid as usize, heard);
            counts.with_arrived(fabric, lid, senders, hops)
        }
        None => counts.with_sources(fabric, cells, traffic, lid, marks, path),
    }
}

// The counts with the routes to the LIDs of a block.
fn count_block(
    fabric: &Fabric,
    cells: &Cells,
    traffic: Traffic,
    block: usize,
    heard: Heard,
    starts: &[u64],
    rooms: &mut Rooms,
    counts: Counts,
) -> Counts
    requires same { switch_count fabric.now ≡ cells.now.switches }
    requires switches { switch_count fabric.now ≤ 2 ^ 14 }
    requires block { block < cells.now.blocks }
    requires low { block < 1024 }
    requires heard { AreHeard fabric.now heard }
    requires count { length starts.now ≡ switch_count fabric.now }
    requires starts { AreStarts fabric.now (tables_of cells.now) traffic block starts.now }
    requires rooms { AreRooms (switch_count fabric.now) rooms.old }
    requires counts { AreCountsUntil fabric.now (tables_of cells.now) traffic (64 * block) 0 counts }
    ensures rooms { AreRooms (switch_count fabric.now) rooms.new }
    ensures counts { AreCountsUntil fabric.now (tables_of cells.now) traffic (64 * (block + 1)) 0 result }
{
    let mut counts = counts;
    'bits: for bit in 0..64usize {
        let lid = (64 * block + bit) as u16;
        counts = count_lid(fabric, cells, traffic, lid, heard, starts, rooms, counts);
    }
    counts
}

// The counts of the routes to all LIDs. The words are a room for bits of each switch.
fn count_blocks(
    fabric: &Fabric,
    cells: &Cells,
    traffic: Traffic,
    senders: &[Senders],
    starts: &mut [u64],
    rooms: &mut Rooms,
) -> Counts
    requires same { switch_count fabric.now ≡ cells.now.switches }
    requires switches { switch_count fabric.now ≤ 2 ^ 14 }
    requires senders { AreAllSenders fabric.now senders.now }
    requires starts { length starts.old ≡ switch_count fabric.now }
    requires rooms { AreRooms (switch_count fabric.now) rooms.old }
    ensures counts { AreCountsUntil fabric.now (tables_of cells.now) traffic (64 * cells.now.blocks) 0 result }
    ensures low { cells.now.blocks ≤ 1024 }
    ensures past { (switch lid : ℕ) → 64 * cells.now.blocks ≤ lid → tables_of cells.now switch lid ≡ None }
{
    let heard = count_heard(fabric);
    let mut counts = Counts::none();
    'rounds: for block in 0..cells.blocks() {
        put_starts(fabric, cells, traffic, block, senders, starts);
        counts = count_block(fabric, cells, traffic, block, heard, starts, rooms, counts);
    }
    counts
}

/// How many routes of a traffic there are, how many arrive, how many of these go to a LID that nobody owns, through how many
/// switches the longest of them goes, and those that do not arrive, by cause: of each the least and where it is lost.
pub fn count_routes(
    alloc: Global,
    fabric: &Fabric,
    cells: &Cells,
    traffic: Traffic,
) -> Result<Counts, OutOfMemory>
    requires same { switch_count fabric.now ≡ cells.now.switches }
    requires owners { length fabric.now.owners ≤ 64 * cells.now.blocks }
    ensures counts { IfOk result (AreCounts fabric.now (tables_of cells.now) traffic) }
    ensures few { IfOk result (λ counts. sum_of counts.lost < 2 ^ 64) }
    ensures unowned { IfOk result (λ counts. counts.unowned ≤ counts.arrived) }
    ensures most { IfOk result (λ counts. counts.routes ≤ 2 ^ 40) }
{
    let senders = find_senders(alloc, fabric)?;
    let mut starts = vec![in alloc; 0u64; fabric.switches()]?;
    let mut rooms = Rooms::new(alloc, fabric.switches())?;
    Ok(count_blocks(fabric, cells, traffic, &senders, &mut starts, &mut rooms))
}
