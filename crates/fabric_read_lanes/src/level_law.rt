//! What holds of all texts of levels. No function here has code.

ghost use Rattle.std.specs.Prelude.{◌≡◌, ◌⊎◌, ℕ, List};
ghost use Rattle.fabric_model.specs.Fabric.{FabricOf};
ghost use Rattle.fabric_lane_tables.specs.PathLevels.{LevelsOf};
ghost use Rattle.fabric_words.specs.declared.lane_cause.LaneCause.{LaneCause};
ghost use Rattle.fabric_read_lanes.specs.Levels.{IsLevelsFault, IsLevelsText};

/// Bytes are the text of one assignment of levels, or have one first fault, and not both; and one of the
/// two comes.
pub fn text_or_fault()
    ensures one_text { (fabric : FabricOf) (bytes : List ℕ) (levels others : LevelsOf)
        → IsLevelsText fabric bytes levels → IsLevelsText fabric bytes others → levels ≡ others }
    ensures one_fault { (fabric : FabricOf) (bytes : List ℕ) (line other : ℕ) (cause also : LaneCause)
        → IsLevelsFault fabric bytes line cause → IsLevelsFault fabric bytes other also
        → (line ≡ other) × (cause ≡ also) }
    ensures not_both { (fabric : FabricOf) (bytes : List ℕ) (levels : LevelsOf) (line : ℕ) (cause : LaneCause)
        → IsLevelsText fabric bytes levels → IsLevelsFault fabric bytes line cause → ⊥ }
    ensures either { (fabric : FabricOf) (bytes : List ℕ)
        → ((levels : LevelsOf) × IsLevelsText fabric bytes levels)
        ⊎ ((line : ℕ) × (cause : LaneCause) × IsLevelsFault fabric bytes line cause) }
{}
