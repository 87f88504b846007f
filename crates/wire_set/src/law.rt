//! Theorems about links and blocks, for all calls. No function here has code.

ghost use Rattle.std.specs.Prelude.{◌≡◌, ◌<◌, ◌≤◌, ℕ, List, length};
ghost use Rattle.net_graph.specs.Wires.{Wires, IsWired, far_at};
ghost use Rattle.wire_set.specs.Frames.{BlocksAddUp};
ghost use Rattle.wire_set.specs.WireState.{HaveSameFarEnds, LinksAgree, WiresOf, again_on, fail_at, lose_on};
ghost use Rattle.wire_set.specs.WireState.{place, put_into, release_from, repair_at, side_at, side_of, start};
ghost use Rattle.wire_set.specs.WireState.{swap_on, take_from, wire_at};

/// At the start, each port has at its far side what the wiring has there, and its link, if it has one, is up.
pub fn ports_are_those_of_the_wiring()
    ensures { (wires : Wires) (blocks s p : ℕ) → s < length wires.switches → p < 13
        → side_at (start wires blocks) (place s p) ≡ side_of (far_at wires s p) }
{}

/// The two ends of a link agree: each is at the far side of the other, and they are both up or both down.
///
/// This holds at the start, and every call preserves it.
pub fn a_link_is_up_at_both_its_ends()
    ensures start { (wires : Wires) (blocks : ℕ) → IsWired wires → LinksAgree (start wires blocks) }
    ensures put { (state : WiresOf) (from wire : ℕ) (bytes : List ℕ)
        → LinksAgree state → LinksAgree (put_into from wire bytes state) }
    ensures take { (state : WiresOf) (wire hand : ℕ) → LinksAgree state → LinksAgree (take_from wire hand state) }
    ensures release { (state : WiresOf) (hand : ℕ) → LinksAgree state → LinksAgree (release_from hand state) }
    ensures fail { (state : WiresOf) (at : ℕ) → LinksAgree state → LinksAgree (fail_at at state) }
    ensures repair { (state : WiresOf) (at : ℕ) → LinksAgree state → LinksAgree (repair_at at state) }
    ensures lose { (state : WiresOf) (wire n : ℕ) → LinksAgree state → LinksAgree (lose_on wire n state) }
    ensures again { (state : WiresOf) (wire n : ℕ) → LinksAgree state → LinksAgree (again_on wire n state) }
    ensures swap { (state : WiresOf) (wire n : ℕ) → LinksAgree state → LinksAgree (swap_on wire n state) }
{}

/// No call changes what is at the far side of a port; it is always what the wiring has there.
pub fn no_call_changes_a_far_end()
    ensures put { (state : WiresOf) (from wire : ℕ) (bytes : List ℕ)
        → HaveSameFarEnds state (put_into from wire bytes state) }
    ensures take { (state : WiresOf) (wire hand : ℕ) → HaveSameFarEnds state (take_from wire hand state) }
    ensures release { (state : WiresOf) (hand : ℕ) → HaveSameFarEnds state (release_from hand state) }
    ensures fail { (state : WiresOf) (at : ℕ) → HaveSameFarEnds state (fail_at at state) }
    ensures repair { (state : WiresOf) (at : ℕ) → HaveSameFarEnds state (repair_at at state) }
    ensures lose { (state : WiresOf) (wire n : ℕ) → HaveSameFarEnds state (lose_on wire n state) }
    ensures again { (state : WiresOf) (wire n : ℕ) → HaveSameFarEnds state (again_on wire n state) }
    ensures swap { (state : WiresOf) (wire n : ℕ) → HaveSameFarEnds state (swap_on wire n state) }
{}

/// The free blocks, and those of the frames on the wires and held by switches, add up to all blocks.
///
/// This holds at the start, and every call preserves it.
pub fn free_and_occupied_blocks_add_up()
    ensures start { (wires : Wires) (blocks : ℕ) → BlocksAddUp (start wires blocks).frames }
    ensures put { (state : WiresOf) (from wire : ℕ) (bytes : List ℕ) → wire < length state.frames.queues
        → BlocksAddUp state.frames → BlocksAddUp (put_into from wire bytes state).frames }
    ensures take { (state : WiresOf) (wire hand : ℕ)
        → wire < length state.frames.queues → hand < length state.frames.queues
        → 1 ≤ length (wire_at state wire)
        → BlocksAddUp state.frames → BlocksAddUp (take_from wire hand state).frames }
    ensures release { (state : WiresOf) (hand : ℕ)
        → BlocksAddUp state.frames → BlocksAddUp (release_from hand state).frames }
    ensures fail { (state : WiresOf) (at : ℕ)
        → BlocksAddUp state.frames → BlocksAddUp (fail_at at state).frames }
    ensures repair { (state : WiresOf) (at : ℕ)
        → BlocksAddUp state.frames → BlocksAddUp (repair_at at state).frames }
    ensures told { (state : WiresOf) (wire n : ℕ) → BlocksAddUp state.frames
        → BlocksAddUp (lose_on wire n state).frames × BlocksAddUp (again_on wire n state).frames
        × BlocksAddUp (swap_on wire n state).frames }
{}
