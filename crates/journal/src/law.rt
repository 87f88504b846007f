//! Theorems about all journals. No function here has code.

ghost use Rattle.std.specs.Prelude.{◌≡◌, ◌⊎◌, ℕ, List, All};
ghost use Rattle.an_base.specs.declared.event.Event.{Event};
ghost use Rattle.net_script.specs.Scripts.{ScriptOf, IsScript};
ghost use Rattle.journal_cause.specs.declared.cause.JournalCause.{JournalCause};
ghost use Rattle.journal.specs.Events.{CanSpell, journal_text};
ghost use Rattle.journal.specs.Texts.{IsJournal, IsFault};

/// States that the text of a journal is read as that journal.
pub fn text_is_its_journal()
    ensures { (s : ScriptOf) (events : List Event) → All (CanSpell s) events →
        IsJournal s (journal_text s events) events }
{}

/// States that no bytes begin with the text of two journals.
pub fn one_journal()
    ensures { (s : ScriptOf) (bytes : List ℕ) (events others : List Event) → IsScript s →
        IsJournal s bytes events → IsJournal s bytes others → events ≡ others }
{}

/// States that bytes that begin with the text of a journal have no error.
pub fn no_fault_in_journal()
    ensures { (s : ScriptOf) (bytes : List ℕ) (events : List Event) (line : ℕ) (c : JournalCause) →
        IsScript s → IsJournal s bytes events → ¬ IsFault s bytes line c }
{}

/// States that no bytes have two first errors.
pub fn one_fault()
    ensures { (s : ScriptOf) (bytes : List ℕ) (line other : ℕ) (c d : JournalCause) → IsScript s →
        IsFault s bytes line c → IsFault s bytes other d → (line ≡ other) × (c ≡ d) }
{}

/// States that bytes that do not begin with the text of a journal have an error.
pub fn journal_or_fault()
    ensures { (s : ScriptOf) (bytes : List ℕ) → IsScript s →
        ((events : List Event) × IsJournal s bytes events)
        ⊎ ((line : ℕ) × (c : JournalCause) × IsFault s bytes line c) }
{}
