//! What holds of all texts of tables.

ghost use Rattle.std.specs.Prelude.{◌≡◌, ◌⊎◌, ℕ, List};
ghost use Rattle.fabric_model.specs.Fabric.{FabricOf};
ghost use Rattle.fabric_tables.specs.Cells.{TablesOf};
ghost use Rattle.fabric_read_tables.specs.declared.cause.TablesCause.{TablesCause};
ghost use Rattle.fabric_read_tables.specs.Tables.{IsTablesText, IsTablesFault};

/// No bytes are the text of two tables of a fabric, nor of other numbers of rows.
pub fn one_text()
    ensures { (fabric : FabricOf) (bytes : List ℕ) (tables others : TablesOf) (rows unowned more other : ℕ) →
        IsTablesText fabric bytes tables rows unowned → IsTablesText fabric bytes others more other →
        (tables ≡ others) × (rows ≡ more) × (unowned ≡ other) }
{}

/// Bytes that are the text of tables of a fabric have no fault.
pub fn no_fault()
    ensures { (fabric : FabricOf) (bytes : List ℕ) (tables : TablesOf) (rows unowned line : ℕ)
        (cause : TablesCause) → IsTablesText fabric bytes tables rows unowned → ¬ IsTablesFault fabric bytes line cause }
{}

/// No bytes have two first faults.
pub fn one_fault()
    ensures { (fabric : FabricOf) (bytes : List ℕ) (line other : ℕ) (cause also : TablesCause) →
        IsTablesFault fabric bytes line cause → IsTablesFault fabric bytes other also →
        (line ≡ other) × (cause ≡ also) }
{}

/// Bytes that are the text of no tables of a fabric have a fault.
pub fn text_or_fault()
    ensures { (fabric : FabricOf) (bytes : List ℕ) →
        ((tables : TablesOf) × (rows : ℕ) × (unowned : ℕ) × IsTablesText fabric bytes tables rows unowned)
        ⊎ ((line : ℕ) × (cause : TablesCause) × IsTablesFault fabric bytes line cause) }
{}
