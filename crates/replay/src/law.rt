//! Theorems about how an input is divided, and how a journal is rejected.

ghost use Rattle.std.specs.Prelude.{◌≡◌, List, ℕ};
ghost use Rattle.an_base.specs.declared.event.Event.{Event};
ghost use Rattle.net_script.specs.Scripts.{ScriptOf};
ghost use Rattle.net_state.specs.declared.ending.Ending.{Ending};
ghost use Rattle.net_world.specs.Histories.{IsLegal};
ghost use Rattle.replay.specs.Division.{IsDivision};
ghost use Rattle.replay.specs.Replays.{IsRefusal};
ghost use Rattle.replay.specs.declared.refusal.ReplayRefusal.{ReplayRefusal};
ghost use Rattle.replay.specs.declared.refusal.ReplayRefusal.TheVariants as refusal;

/// An input has one division into the text of a script and the text of a journal.
pub fn one_division()
    ensures { (bytes script journal front back : List ℕ) → IsDivision bytes script journal
        → IsDivision bytes front back → (script ≡ front) × (journal ≡ back) }
{}

/// A legal journal is rejected only if memory runs out.
pub fn a_legal_journal_is_not_refused()
    ensures { (script : ScriptOf) (journal : List Event) (end : Ending) (why : ReplayRefusal)
        → IsLegal script journal end → IsRefusal script journal why → why ≡ refusal.OutOfMemory }
{}
