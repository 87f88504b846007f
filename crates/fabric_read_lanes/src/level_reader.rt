//! The reader of levels.

ghost use Rattle.std.specs.Prelude.{IfErr, IfOk};
ghost use Rattle.outside.specs.Told.{IsNoLess};
ghost use Rattle.fabric_read_lanes.specs.LevelReads.{GaveLevels, HasRows, IsRefusedBy};

use crate::level_reading::Reading;
use fabric_lane_tables::levels::LevelRows;
use fabric_model::fabric::Fabric;
use fabric_read_lines::reader::{TextRefusal, read_text};
use fabric_words::lane_cause::LaneCause;
use outside::source::Source;
use std::alloc::Global;

/// Reads the levels of the paths of a fabric from a source, to its end, a piece at a time. As the code is written,
/// and by no clause, the time is linear in the bytes if the paths of each end port stand together.
pub fn read_levels<S: Source>(
    alloc: Global,
    source: &mut S,
    fabric: &Fabric,
) -> Result<LevelRows, TextRefusal<LaneCause>>
    ensures text { IfOk result (GaveLevels fabric.now (S.seen source.old) (S.seen source.new)) }
    ensures rows { IfOk result (HasRows fabric.now) }
    ensures refused { IfErr result (IsRefusedBy fabric.now (S.seen source.old) (S.seen source.new)) }
    ensures kept { IsNoLess (S.seen source.old) (S.seen source.new) }
{
    let mut reading = Reading::new(alloc, fabric)?;
    read_text(&mut reading, alloc, source, fabric)?;
    Ok(reading.rows)
}
