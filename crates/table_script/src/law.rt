//! Theorems about all texts of scripts with tables.

ghost use Rattle.std.specs.Prelude.{◌≡◌, ◌⊎◌, ◌↔◌, ℕ, List, true};
ghost use Rattle.net_script.specs.declared.cause.ScriptCause.{ScriptCause};
ghost use Rattle.net_script.specs.Scripts.{ScriptOf};
ghost use Rattle.an_base.specs.Tree.{Walk};
ghost use Rattle.net_graph.specs.Wires.{Wires, IsWired, network};
ghost use Rattle.table_script.specs.Tables.{TablesOf, are_joined};
ghost use Rattle.table_script.specs.TableTexts.{IsTextWith, IsFaultWith};

/// No bytes are the text of two different scripts with tables.
pub fn one_script_with_tables()
    ensures { (bytes : List ℕ) (s r : ScriptOf) (t u : TablesOf) → IsTextWith bytes s t →
        IsTextWith bytes r u → (s ≡ r) × (t ≡ u) }
{}

/// Bytes that are the text of a script with tables have no error.
pub fn no_fault_in_tables()
    ensures { (bytes : List ℕ) (s : ScriptOf) (t : TablesOf) (line : ℕ) (c : ScriptCause) →
        IsTextWith bytes s t → ¬ IsFaultWith bytes line c }
{}

/// No bytes have two first errors as a script with tables.
pub fn one_fault_with_tables()
    ensures { (bytes : List ℕ) (line other : ℕ) (c d : ScriptCause) → IsFaultWith bytes line c →
        IsFaultWith bytes other d → (line ≡ other) × (c ≡ d) }
{}

/// Bytes that are not the text of a script with tables have a first error.
pub fn tables_or_fault()
    ensures { (bytes : List ℕ) → ((s : ScriptOf) × (t : TablesOf) × IsTextWith bytes s t)
        ⊎ ((line : ℕ) × (c : ScriptCause) × IsFaultWith bytes line c) }
{}

/// Links join two switches if and only if a walk leads from one to the other.
pub fn joined_by_walks()
    ensures { (w : Wires) (x y : ℕ) → IsWired w → (are_joined w.links x y ≡ true)
        ↔ ((m : ℕ) × Walk (network w) m x y) }
{}
