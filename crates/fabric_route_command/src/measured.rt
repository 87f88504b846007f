//! How good tables are.

ghost use Rattle.std.specs.Prelude.{◌≡◌, ◌≤◌, ◌*◌, length, IfOk};
ghost use Rattle.fabric_tables.specs.Cells.{tables_of};
ghost use Rattle.fabric_model.specs.Fabric.{switch_count};
ghost use Rattle.fabric_route_command.specs.Measured.{AreMeasures};

use crate::loads::Loads;
use common_values::memory::OutOfMemory;
use fabric_model::fabric::Fabric;
use fabric_tables::cells::Cells;
use std::alloc::Global;

/// How good tables are, by the routes between end ports of adapters and routers that arrive.
#[derive(Clone, Copy)]
pub struct Measured {
    /// How many there are.
    pub routes: u64,
    /// How many channels they have together.
    pub hops: u64,
    /// The most channels that one of them has.
    pub longest: u32,
    /// The most of them that go over one channel.
    pub greatest: u64,
}

/// How good tables are. The error is out of memory alone.
pub fn measure(alloc: Global, fabric: &Fabric, cells: &Cells) -> Result<Measured, OutOfMemory>
    requires same { switch_count fabric.now ≡ cells.now.switches }
    requires owners { length fabric.now.owners ≤ 64 * cells.now.blocks }
    ensures { IfOk result (AreMeasures fabric.now (tables_of cells.now)) }
{
    let loads = Loads::of(alloc, fabric, cells)?;
    Ok(Measured {
        routes: loads.routes,
        hops: loads.hops,
        longest: loads.longest,
        greatest: loads.greatest(),
    })
}
