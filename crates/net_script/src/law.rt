//! Theorems about all texts. No function here has code.

ghost use Rattle.std.specs.Prelude.{◌≡◌, ◌⊎◌, ◌↔◌, ℕ, List};
ghost use Rattle.net_script.specs.declared.cause.ScriptCause.{ScriptCause};
ghost use Rattle.net_script.specs.Scripts.{IsScript, ScriptOf};
ghost use Rattle.net_script.specs.Forms.{Form};
ghost use Rattle.net_script.specs.Texts.{IsText, IsFault};
ghost use Rattle.net_script.specs.TextForms.{IsTextOf};

/// States that no bytes are the text of two scripts.
pub fn one_script()
    ensures { (bytes : List ℕ) (s t : ScriptOf) → IsText bytes s → IsText bytes t → s ≡ t }
{}

/// States that a text says a valid script: ranges and limits are kept, every switch and host has a name,
/// names and identifiers differ, no port is used twice, every command fits the wiring, and times
/// never fall.
pub fn a_text_says_a_script()
    ensures { (bytes : List ℕ) (s : ScriptOf) → IsText bytes s → IsScript s }
{}

/// States that bytes are the text of a script if and only if they are a list of forms, one on each line,
/// that say the script: the first line with words is `autonet 1`, the last is `end`, and no form in
/// between is `end`.
pub fn a_text_is_its_forms()
    ensures { (bytes : List ℕ) (s : ScriptOf) → IsText bytes s
        ↔ ((forms : List Form) × IsTextOf bytes forms s) }
{}

/// States that bytes that are the text of a script have no error.
pub fn no_fault_in_text()
    ensures { (bytes : List ℕ) (s : ScriptOf) (line : ℕ) (c : ScriptCause) → IsText bytes s →
        ¬ IsFault bytes line c }
{}

/// States that no bytes have two first errors.
pub fn one_fault()
    ensures { (bytes : List ℕ) (line other : ℕ) (c d : ScriptCause) → IsFault bytes line c →
        IsFault bytes other d → (line ≡ other) × (c ≡ d) }
{}

/// States that bytes that are not the text of a script have an error.
pub fn text_or_fault()
    ensures { (bytes : List ℕ) → ((s : ScriptOf) × IsText bytes s)
        ⊎ ((line : ℕ) × (c : ScriptCause) × IsFault bytes line c) }
{}
