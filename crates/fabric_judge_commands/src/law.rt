//! What the outputs of `ranks` and `verify` mean. No function here has code.

ghost use Rattle.std.specs.Prelude.{◌≡◌, ℕ, List, None};
ghost use Rattle.fabric_tables.specs.Cells.{tables_of};
ghost use Rattle.fabric_model.specs.Fabric.{FabricOf};
ghost use Rattle.fabric_model.specs.declared.traffic.Traffic.{Traffic};
ghost use Rattle.fabric_read_tables.specs.declared.reader.Tables.{Tables};
ghost use Rattle.fabric_print.specs.Ranks.{verified_text};
ghost use Rattle.fabric_call.specs.declared.status.Status.{Status};
ghost use Rattle.fabric_judge_commands.specs.Certified.{AreRanksVerified, IsEndBy, TellsRanks};
ghost use Rattle.fabric_judge_commands.specs.Words.{traffic_word};

/// Proves that `verify` accepts what `ranks` writes if there is no credit loop: it reports that the ranks fall, with
/// the exit status of tables without a credit loop.
pub fn ranks_are_accepted()
    ensures { (traffic : Traffic) (text : List ℕ) (fabric : FabricOf) (found : Tables) (status again : Status)
        (written answer : List ℕ)
        → TellsRanks fabric (tables_of found.cells) traffic status written
        → AreRanksVerified traffic written text fabric found again answer
        → IsEndBy fabric (tables_of found.cells) traffic None again
        × (answer ≡ verified_text (traffic_word traffic) None) }
{}
