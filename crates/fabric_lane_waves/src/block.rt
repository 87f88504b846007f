//! The routes to the LIDs of a block, which go on together.

ghost use Rattle.std.specs.Prelude.{◌<◌};

use fabric_lane_routes::routing::LaneRouting;

/// The routes to the LIDs of a block.
#[derive(Drop)]
pub struct BlockRoutes<'a> {
    /// What they follow from.
    pub routing: LaneRouting<'a>,
    /// The block, by its number: it has 64 LIDs.
    pub block: usize,
    ghost low: { block < routing.cells.now.blocks },
    ghost few: { block < 1024 },
}
