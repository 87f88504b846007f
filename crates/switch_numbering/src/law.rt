//! Theorem about the numbers. No function here has code.

ghost use Rattle.std.specs.Prelude.{ℕ, List, ◌≤◌, length, All};
ghost use Rattle.an_base.specs.Values.{EntryOf};
ghost use Rattle.an_base.specs.Numbers.{AreNumbers};
ghost use Rattle.an_base.specs.declared.limits.TheConstants.{MOST_NUMBER, MOST_SWITCHES};
ghost use Rattle.switch_numbering.specs.Numbering.{numbering};

/// States that the numbers of 1 to 126 entries that propose numbers from 1 to 126 are all different, and from 1 to 126.
pub fn numbers_differ()
    ensures { (entries : List EntryOf) → 1 ≤ length entries → length entries ≤ MOST_SWITCHES
        → All (λ entry. (1 ≤ entry.proposed) × (entry.proposed ≤ MOST_NUMBER)) entries
        → AreNumbers (numbering entries) }
{}
