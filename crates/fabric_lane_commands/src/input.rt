//! What a call of `lanes` reads.

ghost use Rattle.std.specs.Prelude.{◌≡◌, IfErr, IfOk};
ghost use Rattle.outside.specs.Told.{Seen};
ghost use Rattle.fabric_call.specs.Answer.{GaveFabric};
ghost use Rattle.fabric_lane_commands.specs.Asked.{HasLowLevels};
ghost use Rattle.fabric_lane_commands.specs.Inputs.{AreLanesRefused, AreRead, HasPlaces, IsStop, lanes_refused, lane_sources, told_in};
ghost use Rattle.fabric_model.specs.Fabric.{FabricOf};
ghost use Rattle.fabric_read_lanes.specs.LaneReads.{GaveLanes, HasRows};

use crate::asked::read_asked;
use fabric_call::input::{Topology, read_topology};
use fabric_call::status::Status;
use fabric_lane_tables::in_use::UsedLevels;
use fabric_lane_tables::lanes::LaneRows;
use fabric_model::fabric::Fabric;
use fabric_print_lanes::answer::Asked;
use fabric_read_lanes::lane_reader::read_lanes;
use fabric_read_lines::reader::TextRefusal;
use fabric_read_tables::reader::{Tables, read_tables};
use fabric_words::lane_cause::LaneCause;
use outside::source::Source;
use std::alloc::Global;

/// What was read.
#[derive(Drop)]
pub struct Input {
    /// The topology, its text and its fabric.
    pub topology: Topology,
    /// The tables of the fabric.
    pub tables: Tables,
    /// The lanes of its switches.
    pub lanes: LaneRows,
    /// The service levels, as they are given and in use.
    pub levels: UsedLevels,
}

// The status of lanes that are refused.
fn lanes_refused(refusal: TextRefusal<LaneCause>) -> Status
    ensures { result ≡ lanes_refused refusal }
{
    match refusal {
        TextRefusal::Fault { line, cause } => Status::LanesRefused { line, cause },
        TextRefusal::ReadFault => Status::ReadFault,
        TextRefusal::OutOfMemory => Status::OutOfMemory,
    }
}

// The lanes of the source, which is read to its end.
fn read_all_lanes<L: Source>(
    alloc: Global,
    source: &mut L,
    fabric: &Fabric,
) -> Result<LaneRows, Status>
    ensures lanes { IfOk result (GaveLanes fabric.now (L.seen source.old) (L.seen source.new)) }
    ensures rows { IfOk result (HasRows fabric.now) }
    ensures refused { IfErr result (AreLanesRefused fabric.now (L.seen source.old) (L.seen source.new)) }
{
    match read_lanes(alloc, source, fabric) {
        Ok(lanes) => Ok(lanes),
        Err(refusal) => Err(lanes_refused(refusal)),
    }
}

/// Reads the sources to their ends, one after the other; or says why one of them is wrong, and those after it are left
/// alone. The source of levels is read only if they are asked for.
pub fn read_inputs<T: Source, S: Source, L: Source, P: Source>(
    alloc: Global,
    topology: &mut T,
    tables: &mut S,
    lanes: &mut L,
    levels: &mut P,
    asked: Asked,
) -> Result<Input, Status>
    requires { HasLowLevels asked }
    ensures read { IfOk result (λ input. AreRead asked
        (lane_sources (T.seen topology.old) (S.seen tables.old) (L.seen lanes.old) (P.seen levels.old))
        (lane_sources (T.seen topology.new) (S.seen tables.new) (L.seen lanes.new) (P.seen levels.new))
        (told_in input)) }
    ensures places { IfOk result HasPlaces }
    ensures stopped { IfErr result (IsStop asked
        (lane_sources (T.seen topology.old) (S.seen tables.old) (L.seen lanes.old) (P.seen levels.old))
        (lane_sources (T.seen topology.new) (S.seen tables.new) (L.seen lanes.new) (P.seen levels.new))) }
{
    match read_topology(alloc, topology) {
        Ok(topology) => read_for(alloc, topology, tables, lanes, levels, asked),
        Err(status) => Err(status),
    }
}

// The same of a topology that was read.
fn read_for<S: Source, L: Source, P: Source>(
    alloc: Global,
    topology: Topology,
    tables: &mut S,
    lanes: &mut L,
    levels: &mut P,
    asked: Asked,
) -> Result<Input, Status>
    requires { HasLowLevels asked }
    ensures read { (old new : Seen) → GaveFabric old new topology.text.items topology.fabric
        → IfOk result (λ input. AreRead asked
        (lane_sources old (S.seen tables.old) (L.seen lanes.old) (P.seen levels.old))
        (lane_sources new (S.seen tables.new) (L.seen lanes.new) (P.seen levels.new)) (told_in input)) }
    ensures places { IfOk result HasPlaces }
    ensures stopped { (old new : Seen) → GaveFabric old new topology.text.items topology.fabric
        → IfErr result (IsStop asked
        (lane_sources old (S.seen tables.old) (L.seen lanes.old) (P.seen levels.old))
        (lane_sources new (S.seen tables.new) (L.seen lanes.new) (P.seen levels.new))) }
{
    let tables = read_tables(alloc, tables, &topology.fabric)?;
    let lanes = read_all_lanes(alloc, lanes, &topology.fabric)?;
    match read_asked(alloc, levels, &topology.fabric, asked) {
        Ok(levels) => Ok(Input {
            topology,
            tables,
            lanes,
            levels,
        }),
        Err(status) => Err(status),
    }
}
