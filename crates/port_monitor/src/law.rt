//! Theorems about a port's peer, for all samples and replies. No function here has code.

ghost use Rattle.std.specs.Prelude.{◌≡◌, ◌≢◌, ◌∷◌, ℕ, Some, replicate, take};
ghost use Rattle.an_base.specs.Values.{EndId};
ghost use Rattle.an_base.specs.declared.port.Sample.{Sample};
ghost use Rattle.skeptic.specs.Skeptics.{hold};
ghost use Rattle.port_monitor.specs.Ports.{peer_of, state_of};
ghost use Rattle.port_monitor.specs.Histories.{History, Replied, Sampled, answers, port_after};

/// An end becomes the peer of a port only at a clock event at which it has answered as many probes in a
/// row as the skeptic of the far end requires, the last one included.
pub fn a_peer_answered_in_a_row()
    ensures { (me q : EndId) (history : History) (sample : Sample)
        → peer_of (port_after me history) ≢ Some q
        → peer_of (port_after me (Sampled sample ∷ history)) ≡ Some q
        → take (hold (port_after me history).far.skeptic) (answers me (Sampled sample ∷ history)) ≡ replicate (hold (port_after me history).far.skeptic) (Some q) }
{}

/// At a clock event a known peer stays or is lost; no other end replaces it.
pub fn a_known_peer_stays_or_is_lost()
    ensures { (me peer q : EndId) (history : History) (sample : Sample)
        → peer_of (port_after me history) ≡ Some peer
        → peer_of (port_after me (Sampled sample ∷ history)) ≡ Some q → q ≡ peer }
{}

/// A reply changes neither the state of a port nor its peer; they change at the next clock event.
pub fn a_reply_changes_neither_state_nor_peer()
    ensures state { (me from : EndId) (nonce : ℕ) (history : History)
        → state_of (port_after me (Replied from nonce ∷ history)) ≡ state_of (port_after me history) }
    ensures peer { (me from : EndId) (nonce : ℕ) (history : History)
        → peer_of (port_after me (Replied from nonce ∷ history)) ≡ peer_of (port_after me history) }
{}
