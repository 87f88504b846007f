//! What the rows and the tables that are told come to. No function here has code of its own.

ghost use Rattle.std.specs.Prelude.{◌≡◌, ℕ, List};
ghost use Rattle.fabric_tables.specs.Cells.{TablesOf, tables_of};
ghost use Rattle.fabric_read_topology.specs.Fabrics.{IsFabricText};
ghost use Rattle.fabric_model.specs.Fabric.{FabricOf};
ghost use Rattle.fabric_model.specs.declared.traffic.Traffic.{Traffic};
ghost use Rattle.fabric_read_tables.specs.Tables.{IsTablesText};
ghost use Rattle.fabric_read_tables.specs.declared.reader.Tables.{Tables};
ghost use Rattle.fabric_call.specs.declared.status.Status.{Status};
ghost use Rattle.fabric_call.specs.declared.status.Status.TheVariants.{Ok};
ghost use Rattle.fabric_judge_commands.specs.Judged.{IsJudged};
ghost use Rattle.fabric_route_command.specs.Routed.{AreRouted};
ghost use Rattle.fabric_repair_commands.specs.Given.{AreRowsTold, AreTablesTold};
ghost use Rattle.fabric_repair_commands.specs.Repairs.{Pass, rows_set};
ghost use Rattle.fabric_repair_commands.specs.SetRows.{with_rows};

use fabric_read_tables::law::one_text;
use fabric_read_topology::law::one_fabric;
use fabric_verdict::law::one_answer;

/// The rows that `repair` tells suffice: the given tables pass once these are set, one after another, and no others.
pub fn told_rows_suffice()
    ensures { (traffic : Traffic) (fabric : FabricOf) (found : Tables) (status : Status) (written : List ℕ)
        → (told : AreRowsTold traffic fabric found status written)
        → Pass traffic fabric (with_rows fabric (tables_of found.cells) told.report.rows.items) }
{}

/// What `repaired` writes are the given tables with rows set as `repair` tells them: exactly those in which the text has
/// another port than the given tables. So two answers are of the same tables exactly if their rows are the same.
pub fn written_tables_have_the_rows()
    ensures { (traffic : Traffic) (fabric : FabricOf) (found : Tables) (status : Status) (written : List ℕ)
        (tables : TablesOf) (rows unowned : ℕ)
        → (told : AreTablesTold traffic fabric found status written) → IsTablesText fabric written tables rows unowned
        → (with_rows fabric (tables_of found.cells) told.rows ≡ tables)
        × (told.rows ≡ rows_set fabric (tables_of found.cells) tables) }
{
    one_text();
}

/// Tables that `route` or `repaired` writes pass `judge`: read again, as tables of the fabric of the same text, and judged
/// for the same traffic, their status is 0.
pub fn written_tables_pass()
    ensures routed { (traffic : Traffic) (text written answer : List ℕ) (fabric other : FabricOf) (found : Tables)
        (status : Status)
        → IsFabricText text fabric → AreRouted traffic fabric written
        → IsFabricText text other → IsTablesText other written (tables_of found.cells) found.rows found.unowned
        → IsJudged traffic text other found status answer → status ≡ Ok }
    ensures repaired { (traffic : Traffic) (text written answer : List ℕ) (fabric other : FabricOf) (given found : Tables)
        (ended status : Status)
        → IsFabricText text fabric → AreTablesTold traffic fabric given ended written
        → IsFabricText text other → IsTablesText other written (tables_of found.cells) found.rows found.unowned
        → IsJudged traffic text other found status answer → status ≡ Ok }
{
    one_fabric();
    one_text();
    one_answer();
}
