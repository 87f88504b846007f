//! Theorems about one switch, for all that happens to it. No function here has code.

ghost use Rattle.std.specs.Prelude.{◌≡◌, ◌≢◌, ◌⊎◌, ◌+◌, ◌<◌, ◌≤◌, ℕ, List, [], ◌∷◌, All, None, Some, false};
ghost use Rattle.an_base.specs.declared.limits.TheConstants.{LAST_PORT, MOST_NUMBER};
ghost use Rattle.an_base.specs.Values.{EndId};
ghost use Rattle.an_base.specs.Frames.{CarryOf};
ghost use Rattle.an_base.specs.declared.body.Body.TheVariants.{Pos};
ghost use Rattle.an_base.specs.declared.frame.Frame.{Frame};
ghost use Rattle.an_base.specs.declared.frame.Frame.TheVariants.{Ack, Carry};
ghost use Rattle.an_base.specs.declared.port.Sample.{Sample};
ghost use Rattle.ordered_link.specs.Receiving.{untouched};
ghost use Rattle.epoch_core.specs.Log.{on_port};
ghost use Rattle.epoch_core.specs.Epoch.{adds};
ghost use Rattle.switch_core.specs.Switch.{CameBy, StartOf, SwitchOf, card_of, end_at, good_links, good_peer, started_as};
ghost use Rattle.switch_core.specs.Sound.{IsSound, IsSoundBy, carries, counted};
ghost use Rattle.switch_core.specs.Going.{IsSentBy};
ghost use Rattle.switch_core.specs.Steps.{clocked, framed, joins, loaded, peer_among, still};

/// The epoch never decreases. A clock event raises it by at most one, and a load does not change it.
pub fn an_epoch_never_falls()
    ensures frame { (port : ℕ) (frame : Frame) (s : SwitchOf) → s.epoch ≤ (framed port frame s).switch.epoch }
    ensures clock { (now : ℕ) (samples : List Sample) (s : SwitchOf)
        → s.epoch ≤ (clocked now samples s).switch.epoch }
    ensures one_more { (now : ℕ) (samples : List Sample) (s : SwitchOf)
        → (clocked now samples s).switch.epoch ≤ s.epoch + 1 }
    ensures load { (number : ℕ) (s : SwitchOf) → (loaded number s).epoch ≡ s.epoch }
{}

/// An acknowledgement changes only what is sent on its port, so it never makes a switch join an epoch.
///
/// One of another epoch, lower or higher, changes nothing, and no frame goes out.
pub fn an_acknowledgement_never_makes_it_join()
    ensures rest { (port epoch n : ℕ) (from to : EndId) (s : SwitchOf)
        → (framed port (Ack epoch from to n) s).switch ≡ record s { sendings = (framed port (Ack epoch from to n) s).switch.sendings } }
    ensures other_ports { (port epoch n q : ℕ) (from to : EndId) (s : SwitchOf) → q ≢ port
        → (framed port (Ack epoch from to n) s).switch.sendings q ≡ s.sendings q }
    ensures other_epoch { (port epoch n : ℕ) (from to : EndId) (s : SwitchOf) → epoch ≢ s.epoch
        → framed port (Ack epoch from to n) s ≡ still s }
{}

/// A body or an acknowledgement of a lower epoch changes nothing, and no frame goes out.
pub fn a_frame_of_a_lower_epoch_changes_nothing()
    ensures body { (port : ℕ) (f : CarryOf) (s : SwitchOf) → f.epoch < s.epoch
        → framed port (Carry f) s ≡ still s }
    ensures acknowledgement { (port epoch n : ℕ) (from to : EndId) (s : SwitchOf) → epoch < s.epoch
        → framed port (Ack epoch from to n) s ≡ still s }
{}

/// A switch that joins an epoch does so with its current good links, and restarts all sessions.
///
/// Nothing is accepted, received or acknowledged in them. Only the bodies that joining adds are pushed:
/// on each good link, the position of a root. A body or an acknowledgement of an epoch lower than the
/// one joined then changes nothing, and no frame goes out.
pub fn a_join_begins_all_sessions_anew()
    ensures epoch { (epoch : ℕ) (s : SwitchOf) → (joins epoch s).switch.epoch ≡ epoch }
    ensures card { (epoch : ℕ) (s : SwitchOf)
        → (joins epoch s).switch.card ≡ card_of s.life s.number (good_links s) }
    ensures accepted { (epoch : ℕ) (s : SwitchOf) → (joins epoch s).switch.log ≡ [] }
    ensures came { (epoch port : ℕ) (s : SwitchOf) → (joins epoch s).switch.receivings port ≡ untouched }
    ensures acknowledged { (epoch port : ℕ) (s : SwitchOf)
        → ((joins epoch s).switch.sendings port).acked ≡ 0 }
    ensures pushed { (epoch port : ℕ) (s : SwitchOf)
        → ((joins epoch s).switch.sendings port).pushed ≡ on_port port (adds (joins epoch s).switch.card []) }
    ensures position { (epoch port : ℕ) (s : SwitchOf) (peer : EndId)
        → peer_among (good_links s) port ≡ Some peer
        → ((joins epoch s).switch.sendings port).pushed ≡ Pos (record { version = 1; root = s.life; level = 0; to_parent = false }) ∷ [] }
    ensures nothing_else { (epoch port : ℕ) (s : SwitchOf) → peer_among (good_links s) port ≡ None
        → ((joins epoch s).switch.sendings port).pushed ≡ [] }
    ensures body { (epoch port : ℕ) (f : CarryOf) (s : SwitchOf) → f.epoch < epoch
        → framed port (Carry f) (joins epoch s).switch ≡ still (joins epoch s).switch }
    ensures acknowledgement { (epoch port older n : ℕ) (from to : EndId) (s : SwitchOf) → older < epoch
        → framed port (Ack older from to n) (joins epoch s).switch ≡ still (joins epoch s).switch }
{}

/// A body or an acknowledgement changes nothing, and no frame goes out, if it comes on a port that is
/// not good, from another end than the peer of the port, or for another end than this port.
pub fn an_uncounted_frame_changes_nothing()
    ensures body { (port : ℕ) (f : CarryOf) (s : SwitchOf)
        → (good_peer s port ≢ Some f.from) ⊎ (f.to ≢ end_at s port)
        → framed port (Carry f) s ≡ still s }
    ensures acknowledgement { (port epoch n : ℕ) (from to : EndId) (s : SwitchOf)
        → (good_peer s port ≢ Some from) ⊎ (to ≢ end_at s port)
        → framed port (Ack epoch from to n) s ≡ still s }
{}

/// A switch is sound from its start: every clock event, frame, and load of a number from 1 to 126 keeps it so.
///
/// Soundness bounds its numbers by the number of clock events and frames, and by the number of frames with a body
/// in its epoch.
pub fn a_switch_stays_sound()
    ensures start { (x : StartOf) → 1 ≤ x.had → x.had ≤ MOST_NUMBER → IsSoundBy 0 0 (started_as x) }
    ensures more { (works carried later most : ℕ) (s : SwitchOf) → works ≤ later → carried ≤ most
        → IsSoundBy works carried s → IsSoundBy later most s }
    ensures frame { (works carried port : ℕ) (frame : Frame) (s : SwitchOf) → 1 ≤ port → port ≤ LAST_PORT
        → s.spent ≡ false → IsSoundBy works carried s
        → IsSoundBy (works + 1) (counted s.epoch (framed port frame s).switch.epoch carried (carries frame)) (framed port frame s).switch }
    ensures clock { (works carried now : ℕ) (samples : List Sample) (s : SwitchOf)
        → IsSoundBy works carried s
        → IsSoundBy (works + 1) (counted s.epoch (clocked now samples s).switch.epoch carried 0) (clocked now samples s).switch }
    ensures load { (works carried number : ℕ) (s : SwitchOf) → 1 ≤ number → number ≤ MOST_NUMBER
        → IsSoundBy works carried s → IsSoundBy works carried (loaded number s) }
{}

/// While its epochs are not spent, the links that a switch joined its epoch with are its good links.
///
/// Before it has joined one, it has no good link.
pub fn the_links_are_the_good_ones()
    ensures links { (works : ℕ) (s : SwitchOf) → IsSound works s → s.spent ≡ false
        → s.card.links ≡ good_links s }
    ensures peers { (works port : ℕ) (s : SwitchOf) → IsSound works s → s.spent ≡ false
        → 1 ≤ port → port ≤ LAST_PORT → peer_among s.card.links port ≡ good_peer s port }
    ensures unjoined { (works port : ℕ) (s : SwitchOf) → IsSound works s → s.spent ≡ false → s.joined ≡ false
        → good_peer s port ≡ None }
{}

/// Every frame goes out on a port that speaks to a switch, from the end of this switch there.
///
/// A body or an acknowledgement belongs to the current epoch, and goes to the other end of the port's link. The
/// body is the one that was pushed with its number, and no body is acknowledged before it is accepted.
pub fn what_goes_out_is_of_its_sessions()
    ensures frame { (works port : ℕ) (frame : Frame) (s : SwitchOf) → 1 ≤ port → port ≤ LAST_PORT
        → s.spent ≡ false → IsSound works s → All (IsSentBy (framed port frame s).switch) (framed port frame s).frames }
    ensures clock { (works now : ℕ) (samples : List Sample) (s : SwitchOf) → s.spent ≡ false
        → IsSound works s → All (IsSentBy (clocked now samples s).switch) (clocked now samples s).frames }
{}

/// A frame on one port changes nothing that the switch shows of another port: the life stays, and nothing happens
/// at the other ports.
pub fn a_frame_comes_by_its_port()
    ensures { (port : ℕ) (frame : Frame) (s : SwitchOf) → CameBy port s (framed port frame s).switch }
{}
