//! The commands `repair` and `repaired`.

ghost use Rattle.std.specs.Prelude.{◌≡◌, ℕ, List, IfOk};
ghost use Rattle.fabric_read_tables.specs.Reads.{HasCells};
ghost use Rattle.fabric_call.specs.Answer.{IsEnding};
ghost use Rattle.fabric_repair_commands.specs.Repairs.{cell_count};
ghost use Rattle.fabric_repair_commands.specs.Given.{AreRowsTold, IsNoneTold, WereMadeOf, gives_repair, gives_repaired};

use crate::repaired::find_repaired;
use crate::report::{Report, print_none, print_report};
use crate::rows::{count_lids, rows_set};
use common_values::memory::OutOfMemory;
use common_values::text::Word;
use fabric_call::command::{Command, Given};
use fabric_call::input::Topology;
use fabric_call::status::Status;
use fabric_judge_commands::words::word_of;
use fabric_model::fabric::Fabric;
use fabric_model::traffic::Traffic;
use fabric_print_tables::printer::print;
use fabric_read_tables::reader::Tables;
use fabric_route_command::apart::find_apart;
use fabric_route_command::measured::measure;
use fabric_tables::cells::Cells;
use std::alloc::Global;

/// The command `repair`: the rows of given tables that are to be set so that they pass for a traffic.
#[derive(Clone, Copy)]
pub struct Repair {
    /// The traffic.
    pub traffic: Traffic,
}

impl Command for Repair {
    ghost gives = { λ repair. gives_repair repair.traffic };

    fn given(
        &self,
        alloc: Global,
        topology: &Topology,
        tables: &Tables,
    ) -> Result<Given, OutOfMemory> {
        match find_repaired(alloc, &topology.fabric, &tables.cells, self.traffic)? {
            Ok(made) => given_rows(alloc, &topology.fabric, tables, self.traffic, &made),
            Err(status) => Ok(Given {
                status,
                text: tell_none(alloc, &topology.fabric, self.traffic)?,
            }),
        }
    }
}

// What `repair` gives for tables that were repaired.
fn given_rows(
    alloc: Global,
    fabric: &Fabric,
    tables: &Tables,
    traffic: Traffic,
    made: &Cells,
) -> Result<Given, OutOfMemory>
    requires cells { HasCells fabric.now tables.now }
    requires made { WereMadeOf traffic fabric.now tables.now.cells made.now }
    ensures given { IfOk result (λ given. AreRowsTold traffic fabric.now tables.now given.status given.text.items) }
    ensures ends { IfOk result (λ given. IsEnding given.status) }
{
    let rows = rows_set(alloc, fabric, &tables.cells, made)?;
    let report = Report {
        traffic: Word::of(alloc, word_of(traffic).as_bytes())?,
        cells: count_cells(fabric),
        lids: count_lids(alloc, &rows)?,
        before: measure(alloc, fabric, &tables.cells)?,
        after: measure(alloc, fabric, made)?,
        rows,
    };
    Ok(Given {
        status: Status::Ok,
        text: print_report(alloc, &report)?,
    })
}

// How many cells tables of a fabric have: one for each switch and each LID that has an owner.
fn count_cells(fabric: &Fabric) -> u64
    ensures { result ≡ cell_count fabric.now }
{
    let mut owned = 0u64;
    'lids: for lid in 0..fabric.lids() {
        if fabric.owner(lid).is_some() {
            owned += 1;
        }
    }
    owned * fabric.switches() as u64
}

// The text if there are no tables that pass: who is not joined to whom.
fn tell_none(alloc: Global, fabric: &Fabric, traffic: Traffic) -> Result<Vec<u8>, OutOfMemory>
    ensures { IfOk result (λ text. IsNoneTold traffic fabric.now text.items) }
{
    let apart = find_apart(alloc, fabric, traffic)?;
    print_none(alloc, fabric, apart)
}

/// The command `repaired`: the tables in which these rows are set.
#[derive(Clone, Copy)]
pub struct RepairedTables {
    /// The traffic.
    pub traffic: Traffic,
}

impl Command for RepairedTables {
    ghost gives = { λ repaired. gives_repaired repaired.traffic };

    fn given(
        &self,
        alloc: Global,
        topology: &Topology,
        tables: &Tables,
    ) -> Result<Given, OutOfMemory> {
        match find_repaired(alloc, &topology.fabric, &tables.cells, self.traffic)? {
            Ok(made) => Ok(Given {
                status: Status::Ok,
                text: print(alloc, &topology.fabric, &made)?,
            }),
            Err(status) => Ok(Given {
                status,
                text: tell_none(alloc, &topology.fabric, self.traffic)?,
            }),
        }
    }
}
