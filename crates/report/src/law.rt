//! Theorems about what hosts believe.

ghost use Rattle.std.specs.Prelude.{◌≡◌, ◌∷◌, ◌++◌, length, List, ℕ};
ghost use Rattle.an_base.specs.declared.event.Event.{Event};
ghost use Rattle.an_base.specs.declared.event.Event.TheVariants.{Send};
ghost use Rattle.net_script.specs.Scripts.{ScriptOf};
ghost use Rattle.net_world.specs.Histories.{IsLawful};
ghost use Rattle.report.specs.Beliefs.{Belief, belief_of, beliefs_of, fabric_after, senders};

/// Each packet that is sent in a history has one belief, in turn: where its sender would send it, given what it
/// keeps of all that came to it before that event.
pub fn each_send_is_a_choice()
    ensures choice { (script : ScriptOf) (before later : List Event) (from to : ℕ)
        → (behind : List Belief) × (beliefs_of script (before ++ Send from to ∷ later)
        ≡ beliefs_of script before ++ belief_of script before from to ∷ behind) }
    ensures count { (script : ScriptOf) (history : List Event)
        → length (beliefs_of script history) ≡ length (senders history) }
{}

/// The packets of a lawful history are numbered as they are sent: there are as many as hosts that sent.
pub fn packets_are_numbered_in_turn()
    ensures { (script : ScriptOf) (history : List Event) → IsLawful script history
        → length (senders history) ≡ (fabric_after script history).sent }
{}
