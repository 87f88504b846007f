//! Theorems about the output of `flood`.

ghost use Rattle.std.specs.Prelude.{◌≡◌, ◌<◌, [], Contains, length, List, ℕ, slice_index_or};
ghost use Rattle.net_script.specs.Scripts.{IsScript, ScriptOf};
ghost use Rattle.flood_text.specs.Floods.{FloodPart, IsFloodOf, ReachesAll};

/// A script has only one text of the broadcasts in its network.
pub fn one_flood_text()
    ensures { (s : ScriptOf) (text other : List ℕ) → IsScript s → IsFloodOf s text
        → IsFloodOf s other → text ≡ other }
{}

/// In each broadcast that is printed for a script, each member of the component gets one copy, the sender
/// included; so the number printed after the hops is both that of the members and that of the copies.
pub fn each_member_gets_one_copy()
    ensures { (s : ScriptOf) (text : List ℕ) (is : IsFloodOf s text) (part : FloodPart) (from : ℕ)
        → IsScript s → Contains is.parts part → from < length part.entries
        → ReachesAll part.entries from (slice_index_or part.floods from []) }
{}
