//! What holds of all texts of lanes. No function here has code.

ghost use Rattle.std.specs.Prelude.{◌≡◌, ◌<◌, ◌⊎◌, ℕ, List, [], Some, slice_index_or};
ghost use Rattle.fabric_model.specs.Fabric.{FabricOf};
ghost use Rattle.fabric_lane_tables.specs.Lanes.{LanesOf, lane_in};
ghost use Rattle.fabric_words.specs.Digits.{number_to};
ghost use Rattle.fabric_words.specs.declared.lane_cause.LaneCause.{LaneCause};
ghost use Rattle.fabric_read_lanes.specs.LaneLines.{lanes_in};
ghost use Rattle.fabric_read_lanes.specs.Lanes.{IsLanesFault, IsLanesText};

/// Bytes are the text of one assignment of lanes, or have one first fault, and not both; and one of the two
/// comes.
pub fn text_or_fault()
    ensures one_text { (fabric : FabricOf) (bytes : List ℕ) (lanes others : LanesOf)
        → IsLanesText fabric bytes lanes → IsLanesText fabric bytes others → lanes ≡ others }
    ensures one_fault { (fabric : FabricOf) (bytes : List ℕ) (line other : ℕ) (cause also : LaneCause)
        → IsLanesFault fabric bytes line cause → IsLanesFault fabric bytes other also
        → (line ≡ other) × (cause ≡ also) }
    ensures not_both { (fabric : FabricOf) (bytes : List ℕ) (lanes : LanesOf) (line : ℕ) (cause : LaneCause)
        → IsLanesText fabric bytes lanes → IsLanesFault fabric bytes line cause → ⊥ }
    ensures either { (fabric : FabricOf) (bytes : List ℕ)
        → ((lanes : LanesOf) × IsLanesText fabric bytes lanes)
        ⊎ ((line : ℕ) × (cause : LaneCause) × IsLanesFault fabric bytes line cause) }
{}

/// The lane of a level in a row is the number that stands at its place among the sixteen words.
pub fn lane_of_word()
    ensures { (words : List (List ℕ)) (row level : ℕ) → lanes_in words ≡ Some row → level < 16
        → number_to 15 (slice_index_or words level []) ≡ Some (lane_in row level) }
{}
