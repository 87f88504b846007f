//! A theorem about a session, for all that wires do to its frames. No function here has code.

ghost use Rattle.std.specs.Prelude.{◌≤◌, List};
ghost use Rattle.ordered_link.specs.Receiving.{last};
ghost use Rattle.ordered_link.specs.Session.{Event, IsFrontOf, run, start};

/// However frames are lost, repeated, delayed or reordered, the accepted bodies are a prefix of those
/// pushed, and no body counts as acknowledged before it is accepted.
pub fn a_session_keeps_its_order()
    ensures order { (events : List Event)
        → IsFrontOf (run events start).receiving.accepted (run events start).sending.pushed }
    ensures acknowledged { (events : List Event)
        → (run events start).sending.acked ≤ last (run events start).receiving }
{}
