//! The part of a flow that no move changes, separate so that each move can read it while it changes the rest.

ghost use Rattle.std.specs.Prelude.{◌≡◌, List, length, IfOk};
ghost use Rattle.an_base.specs.Numbers.{AreNumbers};
ghost use Rattle.an_base.specs.Rows.{RowOf};
ghost use Rattle.dep_check.specs.Tables.{IsSpot, wire_at, WiresAreWithin};
ghost use Rattle.flow_channels.specs.Board.{AreTablesOf};
ghost use Rattle.flow_channels.specs.Exits.{AreExitsOf};
ghost use Rattle.flow_channels.specs.Layout.{layout_of};

use crate::exits::ExitTable;
use an_base::numbers::Numbers;
use common_values::memory::OutOfMemory;
use dep_check::channel::Channel;
use dep_check::spot::place_of;
use dep_check::wires::wires_of;
use std::alloc::Global;
use topo_graph::graph::Graph;

/// The links and exits of a topology, and the bounds of a flow over it.
#[derive(Drop)]
pub struct Tables {
    /// The far side of each spot.
    pub wires: Vec<Option<Channel>>,
    /// The exits that packets leave by.
    pub exits: ExitTable,
    /// The number of packets that a channel holds.
    pub room: usize,
    /// The number of packets that may enter.
    pub limit: u32,
}

impl Tables {
    /// Creates the tables of a topology. The caller must pass one number for each entry of `graph`.
    ///
    /// # Errors
    /// `OutOfMemory` if an allocation fails.
    pub fn of(
        alloc: Global,
        graph: &Graph,
        numbers: &Numbers,
        exits: ExitTable,
        room: usize,
        limit: u32,
    ) -> Result<Self, OutOfMemory>
        requires { length numbers.now ≡ length graph.now }
        ensures tables { IfOk result (λ tables. (rows : List RowOf) → AreExitsOf rows exits
            → AreTablesOf (layout_of graph.now numbers.now rows room) tables.wires.items tables.exits tables.room) }
        ensures within { IfOk result (λ tables. WiresAreWithin tables.wires.items) }
        ensures limit { IfOk result (λ tables. tables.limit ≡ limit) }
    {
        Ok(Tables {
            wires: wires_of(alloc, graph, numbers)?,
            exits,
            room,
            limit,
        })
    }

    /// Returns the far side of `spot`, if it has a link.
    pub fn far(&self, spot: Channel) -> Option<Channel>
        requires { IsSpot spot }
        ensures { result ≡ wire_at self.now.wires.items spot }
    {
        self.wires.get(place_of(spot)).copied().flatten()
    }
}
