//! The reader of lanes.

ghost use Rattle.std.specs.Prelude.{IfErr, IfOk};
ghost use Rattle.outside.specs.Told.{IsNoLess};
ghost use Rattle.fabric_read_lanes.specs.LaneReads.{GaveLanes, HasRows, IsRefusedBy};

use crate::lane_reading::Reading;
use fabric_lane_tables::lanes::LaneRows;
use fabric_model::fabric::Fabric;
use fabric_read_lines::reader::{TextRefusal, read_text};
use fabric_words::lane_cause::LaneCause;
use outside::source::Source;
use std::alloc::Global;

/// Reads the lanes of a fabric from a source, to its end, a piece at a time. For more than 65,535 different rows
/// of lanes no memory is found. As the code is written, and by no clause, the time is linear in the bytes.
pub fn read_lanes<S: Source>(
    alloc: Global,
    source: &mut S,
    fabric: &Fabric,
) -> Result<LaneRows, TextRefusal<LaneCause>>
    ensures text { IfOk result (GaveLanes fabric.now (S.seen source.old) (S.seen source.new)) }
    ensures rows { IfOk result (HasRows fabric.now) }
    ensures refused { IfErr result (IsRefusedBy fabric.now (S.seen source.old) (S.seen source.new)) }
    ensures kept { IsNoLess (S.seen source.old) (S.seen source.new) }
{
    let mut reading = Reading::new(alloc, fabric)?;
    read_text(&mut reading, alloc, source, fabric)?;
    Ok(reading.rows)
}
