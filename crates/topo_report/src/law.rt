//! Theorems about reports: neither the order nor the number of merges matters. No function here has code.

ghost use Rattle.std.specs.Prelude.{◌≡◌, ◌++◌, List, Contains};
ghost use Rattle.an_base.specs.Values.{LifeId, EntryOf};
ghost use Rattle.topo_report.specs.Report.{report_of, IsReport, AreLives, Covers, HaveSameMembers};

/// The report that the definition computes is a report of the entries.
///
/// Its lives ascend, it has the least entry of each of its lives, and it leaves out a life only if it
/// keeps 125 other lives that are all lower.
pub fn report_is_report()
    ensures { (me : LifeId) (entries : List EntryOf) → IsReport me entries (report_of me entries) }
{}

/// No other list is the report of the entries.
pub fn one_report()
    ensures { (me : LifeId) (entries report : List EntryOf) → IsReport me entries report
        → report ≡ report_of me entries }
{}

/// Among at most 126 lives, including the life itself, no life is left out.
pub fn report_is_complete()
    ensures { (me : LifeId) (entries : List EntryOf) (lives : List LifeId) → AreLives me entries lives
        → (heard : EntryOf) → Contains entries heard → Covers (report_of me entries) heard }
{}

/// Merging lists one after another gives the same as merging all at once, even if a report was cut.
pub fn merging_in_turn_is_merging_at_once()
    ensures { (me : LifeId) (one other : List EntryOf)
        → report_of me (report_of me one ++ other) ≡ report_of me (one ++ other) }
{}

/// The report depends only on which entries were merged, not on their order or number.
pub fn members_alone_count()
    ensures { (me : LifeId) (one other : List EntryOf) → HaveSameMembers one other
        → report_of me one ≡ report_of me other }
{}

/// Both orders of merging two lists give the same report.
pub fn merging_is_commutative()
    ensures { (me : LifeId) (one other : List EntryOf)
        → report_of me (one ++ other) ≡ report_of me (other ++ one) }
{}

/// The report of a report is the report itself.
pub fn report_is_idempotent()
    ensures { (me : LifeId) (entries : List EntryOf)
        → report_of me (report_of me entries) ≡ report_of me entries }
{}
