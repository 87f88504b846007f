//! What the reader's contract means. No function here has code.

ghost use Rattle.std.specs.Prelude.{◌≡◌, ◌⊎◌, ℕ, List};
ghost use Rattle.fabric_model.specs.Fabric.{FabricOf};
ghost use Rattle.fabric_words.specs.declared.ranks_cause.RanksCause.{RanksCause};
ghost use Rattle.fabric_read_ranks.specs.Ranks.{IsRanksFault, IsRanksText};

/// Proves that bytes are the text of one list of ranks, or have one first error, and not both; and that one of the two
/// holds.
pub fn text_or_fault()
    ensures one_list { (fabric : FabricOf) (bytes one other : List ℕ)
        → IsRanksText fabric bytes one → IsRanksText fabric bytes other → one ≡ other }
    ensures one_fault { (fabric : FabricOf) (bytes : List ℕ) (line other : ℕ) (cause other_cause : RanksCause)
        → IsRanksFault fabric bytes line cause → IsRanksFault fabric bytes other other_cause
        → (line ≡ other) × (cause ≡ other_cause) }
    ensures not_both { (fabric : FabricOf) (bytes ranks : List ℕ) (line : ℕ) (cause : RanksCause)
        → IsRanksText fabric bytes ranks → IsRanksFault fabric bytes line cause → ⊥ }
    ensures either { (fabric : FabricOf) (bytes : List ℕ)
        → ((ranks : List ℕ) × IsRanksText fabric bytes ranks)
        ⊎ ((line : ℕ) × (cause : RanksCause) × IsRanksFault fabric bytes line cause) }
{}
