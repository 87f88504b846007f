//! How soon the bodies that are sent on a link are acknowledged, and what a switch does in its sessions.

ghost use Rattle.std.specs.Prelude.{◌≡◌, ◌≢◌, ◌≤◌, ◌<◌, ◌+◌, ℕ, List, Contains, Some, true, false};
ghost use Rattle.an_base.specs.Values.{EndId};
ghost use Rattle.an_base.specs.Frames.{CarryOf};
ghost use Rattle.an_base.specs.declared.frame.Frame.{Frame};
ghost use Rattle.an_base.specs.declared.frame.Frame.TheVariants.{Ack, Carry, Probe, Reply};
ghost use Rattle.an_base.specs.declared.port.Sample.{Sample};
ghost use Rattle.connectivity.specs.Connections.{is_same_end};
ghost use Rattle.port_monitor.specs.declared.port.Phase.TheVariants.{Switch};
ghost use Rattle.port_monitor.specs.Histories.{Replied, with_happening};
ghost use Rattle.ordered_link.specs.Sending.{Sending, forget, highest, is_outstanding, unused};
ghost use Rattle.ordered_link.specs.Receiving.{untouched, received};
ghost use Rattle.switch_core.specs.Switch.{StartOf, SwitchOf, at_port, counts, end_at, is_unacked, port_of, started_as};
ghost use Rattle.switch_core.specs.Steps.{clocked, framed, is_change_due, is_spent_by, last_epoch, loaded, peer_among, sampled_by, still};
ghost use Rattle.link_settling.specs.Directions.{Direction, IsStill, Run, SendsAll, Starts};
ghost use Rattle.link_settling.specs.Moves.{AreFilled, AreUnused, IsFilled, IsFresh, Keeps, Moves, Works, WorksFrom};

/// At the end of a tick at least three ticks after `base`, two ends of a link that have each sent a body in their
/// epochs are in one epoch, and each body that was sent is acknowledged. From `base` on no frame is lost, or comes
/// to a port that does not take it; the lives had no session when the two runs began; and each run has for the far
/// end's epoch the epoch of the other.
pub fn bodies_are_acknowledged()
    ensures { (base : ℕ) (v0 v u0 u : Direction) → Starts v0 → Starts u0 → Run base v0 v → Run base u0 u
        → u.epoch ≡ v.far_epoch → v.epoch ≡ u.far_epoch → 1 ≤ highest v.sending → 1 ≤ highest u.sending
        → IsStill v → IsStill u → base + 3 ≤ v.now → base + 3 ≤ u.now
        → (v.epoch ≡ u.epoch) × (v.sending.acked ≡ highest v.sending)
        × (u.sending.acked ≡ highest u.sending) }
{}

/// What a switch does in a session is a run of steps of that direction, if the bodies that go out come to be under
/// way. A run from one tick on is also one from a later tick on.
pub fn what_is_sent_is_a_run()
    ensures sent { (base : ℕ) (start v w : Direction) (ks : List ℕ) (sending : Sending) → Run base start v
        → Moves v.now v.sending ks sending
        → SendsAll base ks sending v w → Run base start w }
    ensures later { (base later : ℕ) (start v : Direction) → base ≤ later → Run base start v
        → Run later start v }
{}

/// If its windows are filled, what a switch sends at a clock at each port is permitted in the session there, and
/// after it no outstanding body went out four ticks ago or earlier. At a clock at which a change is due the
/// sessions start again.
pub fn a_clock_works_in_each_session()
    ensures again { (port now : ℕ) (samples : List Sample) (s : SwitchOf)
        → is_change_due s (sampled_by now samples s) ≡ false
        → WorksFrom 0 0 port now (s.sendings port) (s.receivings port) (clocked now samples s) }
    ensures fresh { (port now : ℕ) (samples : List Sample) (s : SwitchOf) (peer : EndId)
        → is_change_due s (sampled_by now samples s) ≡ false
        → peer_among s.card.links port ≡ Some peer
        → IsFresh now ((clocked now samples s).switch.sendings port) }
    ensures anew { (port now : ℕ) (samples : List Sample) (s : SwitchOf)
        → is_change_due s (sampled_by now samples s) ≡ true
        → s.epoch ≢ last_epoch → WorksFrom 0 0 port now unused untouched (clocked now samples s) }
{}

/// A body that counts is received in the session of its port, and if the windows are filled what goes out at each
/// port is permitted in the session there. A body of a higher epoch first starts all sessions again.
pub fn a_body_works_in_each_session()
    ensures same { (q port : ℕ) (f : CarryOf) (s : SwitchOf) → counts s port f.from f.to ≡ true
        → f.epoch ≡ s.epoch
        → WorksFrom 0 0 q s.tick (s.sendings q)
        (at_port port (received f.number f.body (s.receivings port)) s.receivings q) (framed port (Carry f) s) }
    ensures greater { (q port : ℕ) (f : CarryOf) (s : SwitchOf) → counts s port f.from f.to ≡ true
        → s.epoch < f.epoch
        → WorksFrom 0 0 q s.tick unused
        (at_port port (received f.number f.body untouched) (λ p. untouched) q) (framed port (Carry f) s) }
{}

/// An acknowledgement that counts takes effect in the session of its port, which then fills its window again. One
/// that names no outstanding body changes nothing, and the other sessions are as they were.
pub fn an_acknowledgement_works_in_its_session()
    ensures counts { (port epoch n : ℕ) (from to : EndId) (s : SwitchOf) → counts s port from to ≡ true
        → epoch ≡ s.epoch
        → is_outstanding n (s.sendings port) ≡ true
        → WorksFrom 8 0 port s.tick (forget n (s.sendings port)) (s.receivings port)
        (framed port (Ack epoch from to n) s) }
    ensures nothing { (port epoch n : ℕ) (from to : EndId) (s : SwitchOf)
        → is_outstanding n (s.sendings port) ≡ false
        → framed port (Ack epoch from to n) s ≡ still s }
    ensures others { (q port epoch n : ℕ) (from to : EndId) (s : SwitchOf) → q ≢ port
        → Works 0 0 q s (framed port (Ack epoch from to n) s) }
{}

/// The history of the ports of a switch grows only by a sample at each port with a clock, and by a reply that is
/// meant for this port. Its life stays, and all that goes out by a port is from this life and port.
pub fn what_happens_at_the_ports()
    ensures clock { (now : ℕ) (samples : List Sample) (s : SwitchOf)
        → Keeps s.life (sampled_by now samples s).ports (clocked now samples s) }
    ensures reply { (port nonce : ℕ) (from to : EndId) (s : SwitchOf) → is_same_end to (end_at s port) ≡ true
        → Keeps s.life (with_happening port (Replied from nonce) s.ports)
        (framed port (Reply from to nonce) s) }
    ensures other_reply { (port nonce : ℕ) (from to : EndId) (s : SwitchOf)
        → is_same_end to (end_at s port) ≡ false
        → Keeps s.life s.ports (framed port (Reply from to nonce) s) }
    ensures probe { (port nonce : ℕ) (from : EndId) (s : SwitchOf)
        → Keeps s.life s.ports (framed port (Probe from nonce) s) }
    ensures body { (port : ℕ) (f : CarryOf) (s : SwitchOf) → Keeps s.life s.ports (framed port (Carry f) s) }
    ensures acknowledgement { (port epoch n : ℕ) (from to : EndId) (s : SwitchOf)
        → Keeps s.life s.ports (framed port (Ack epoch from to n) s) }
{}

/// In each session eight bodies are outstanding if one waits, when a switch is started and after whatever happens
/// to it. So if no body is outstanding, all are acknowledged.
pub fn windows_are_filled()
    ensures start { (x : StartOf) → AreFilled (started_as x) }
    ensures clock { (now : ℕ) (samples : List Sample) (s : SwitchOf) → AreFilled s
        → AreFilled (clocked now samples s).switch }
    ensures frame { (port : ℕ) (frame : Frame) (s : SwitchOf) → AreFilled s
        → AreFilled (framed port frame s).switch }
    ensures load { (number : ℕ) (s : SwitchOf) → AreFilled s → AreFilled (loaded number s) }
    ensures none { (t : Sending) → IsFilled t → t.acked ≡ highest t → is_unacked t ≡ false }
{}

/// A port that asks after a clock sends its probe, unless the switch is spent. A port that asks answers each probe.
pub fn a_port_asks_and_answers()
    ensures asks { (now port : ℕ) (samples : List Sample) (s : SwitchOf) → 1 ≤ port → port ≤ 12
        → is_spent_by s (sampled_by now samples s) ≡ false
        → (port_of (sampled_by now samples s) port).phase ≡ Switch
        → Contains (clocked now samples s).frames (record {
          port = port;
          frame = Probe (end_at s port) (port_of (sampled_by now samples s) port).far.nonce;
        }) }
    ensures answers { (port nonce : ℕ) (from : EndId) (s : SwitchOf) → (port_of s port).phase ≡ Switch
        → Contains (framed port (Probe from nonce) s).frames
        (record { port = port; frame = Reply (end_at s port) from nonce }) }
{}

/// At a port that has no link in the present epoch nothing was sent in the session.
pub fn a_port_without_a_link_has_no_session()
    ensures start { (x : StartOf) → AreUnused (started_as x) }
    ensures clock { (now : ℕ) (samples : List Sample) (s : SwitchOf) → AreUnused s
        → AreUnused (clocked now samples s).switch }
    ensures frame { (port : ℕ) (frame : Frame) (s : SwitchOf) → AreUnused s
        → AreUnused (framed port frame s).switch }
    ensures load { (number : ℕ) (s : SwitchOf) → AreUnused s → AreUnused (loaded number s) }
{}
