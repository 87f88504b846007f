//! A theorem about summaries.

ghost use Rattle.std.specs.Prelude.{◌≡◌, ℕ, List};
ghost use Rattle.net_script.specs.Scripts.{ScriptOf};
ghost use Rattle.net_gen.specs.Summary.{IsSummary};

/// A script has one summary, because one thread makes one history.
pub fn one_summary()
    ensures { (script : ScriptOf) (text other : List ℕ) → IsSummary script text → IsSummary script other
        → text ≡ other }
{}
