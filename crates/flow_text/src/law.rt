//! A theorem about the output of `flow`.

ghost use Rattle.std.specs.Prelude.{◌≡◌, ◌≤◌, List, ℕ};
ghost use Rattle.net_script.specs.Scripts.{IsScript, ScriptOf};
ghost use Rattle.flow_text.specs.Flows.{IsFlowOf};

/// A script has only one text of what happens to its packets, for each size of channels.
pub fn one_flow_text()
    ensures { (s : ScriptOf) (room : ℕ) (text other : List ℕ) → IsScript s → 1 ≤ room
        → IsFlowOf s room text → IsFlowOf s room other → text ≡ other }
{}
