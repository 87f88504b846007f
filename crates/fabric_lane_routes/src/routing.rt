//! What routes on lanes follow from.

ghost use Rattle.std.specs.Prelude.{◌≡◌, ◌≤◌, ◌*◌, length};
ghost use Rattle.fabric_model.specs.Fabric.{switch_count};

use fabric_lane_tables::lanes::LaneRows;
use fabric_lane_tables::levels::Levels;
use fabric_model::fabric::Fabric;
use fabric_model::traffic::Traffic;
use fabric_tables::cells::Cells;

/// What routes on lanes follow from: a fabric, its tables and its lanes, and a traffic with service levels. Tables and
/// lanes have a place for each switch, and tables one for each LID that has an owner; they may have more.
#[derive(Clone, Copy, Drop)]
pub struct LaneRouting<'a> {
    /// The fabric.
    pub fabric: &'a Fabric,
    /// Its tables.
    pub cells: &'a Cells,
    /// Its lanes.
    pub lanes: &'a LaneRows,
    /// With which service levels end ports send.
    pub levels: &'a Levels,
    /// Which end ports send to which LIDs.
    pub traffic: Traffic,
    pub ghost same: { switch_count fabric.now ≡ cells.now.switches },
    pub ghost rows: { switch_count fabric.now ≡ lanes.now.switches },
    pub ghost owners: { length fabric.now.owners ≤ 64 * cells.now.blocks },
}
