//! The link by which a switch sends what goes to a LID, whatever its lane.

ghost use Rattle.std.specs.Prelude.{◌≡◌, ◌<◌, ◌+◌, ◌*◌, MatchOption};
ghost use Rattle.fabric_tables.specs.Cells.{tables_of};
ghost use Rattle.fabric_model.specs.Fabric.{switch_count};
ghost use Rattle.fabric_lane_routes.specs.LaneWays.{HasNoWay, IsWayByLink};

use crate::hop::{Exit, find_exit};
use crate::routing::LaneRouting;
use fabric_model::node::{Side, Spot};

/// A link by which a switch sends to a switch.
#[derive(Clone, Copy)]
pub struct Way {
    /// The port out of which the switch sends.
    pub port: u8,
    /// The port of a switch to which the link leads.
    pub next: Spot,
}

impl LaneRouting<'_> {
    /// The link by which a switch sends what goes to a LID of a block, if its table has a port for it that leads to a
    /// switch.
    #[inline]
    pub fn find_way(&self, switch: usize, block: usize, bit: usize) -> Option<Way>
        requires switch { switch < switch_count self.now.fabric.now }
        requires block { block < self.now.cells.now.blocks }
        requires bit { bit < 64 }
        ensures { MatchOption result
            (HasNoWay self.now.fabric.now (tables_of self.now.cells.now) (64 * block + bit) switch)
            (λ way. IsWayByLink self.now.fabric.now (tables_of self.now.cells.now) (64 * block + bit) switch
            way.port way.next) }
    {
        match find_exit(self.fabric, self.cells, switch, block, bit) {
            Exit::Nowhere => None,
            Exit::Own => None,
            Exit::By(port, side) => match side {
                Side::Bare => None,
                Side::To(next, entry) => Some(Way {
                    port,
                    next: Spot {
                        switch: next,
                        port: entry,
                    },
                }),
                Side::End(_) => None,
            },
        }
    }
}
