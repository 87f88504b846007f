//! How soon a port knows what is there, and the ends of a link know each other.

ghost use Rattle.std.specs.Prelude.{◌≡◌, ◌≢◌, ◌⊎◌, ◌-◌, ◌≤◌, ℕ, List, ◌∷◌, Some};
ghost use Rattle.an_base.specs.Values.{EndId};
ghost use Rattle.an_base.specs.declared.port.PortState.TheVariants as state;
ghost use Rattle.an_base.specs.declared.port.Sample.{Sample};
ghost use Rattle.an_base.specs.declared.port.Sample.TheVariants as sample;
ghost use Rattle.port_monitor.specs.declared.port.Phase.TheVariants.{Host, Switch};
ghost use Rattle.port_monitor.specs.Ports.{state_of};
ghost use Rattle.port_monitor.specs.Histories.{History, Sampled, port_after};
ghost use Rattle.link_settling.specs.Measures.{HasNo, Knows, answers_left, clocks_left};
ghost use Rattle.link_settling.specs.Links.{AreHostTicks, IsTick, Ticks, with_replies};
ghost use Rattle.link_settling.specs.Moments.{EndView, EndRun, TickEnds, tick_begins};

/// After at most 129 clocks in a row without a failure, a port knows whether a host or a switch is there: each
/// clock brings it one nearer.
pub fn a_clock_brings_a_port_nearer()
    ensures most { (own : EndId) (history : History) → clocks_left (port_after own history) ≤ 129 }
    ensures nearer { (own : EndId) (history : History) (x : Sample) → x ≢ sample.Down
        → clocks_left (port_after own (Sampled x ∷ history)) ≡ clocks_left (port_after own history) - 1 }
    ensures known { (own : EndId) (history : History) → clocks_left (port_after own history) ≡ 0
        → ((port_after own history).phase ≡ Host) ⊎ ((port_after own history).phase ≡ Switch) }
{}

/// After at most 129 answers in a row by one end that end is known as the other end, and stays so while each clock
/// finds its answer. Each clock with an answer brings it one nearer.
pub fn an_answer_brings_an_end_nearer()
    ensures most { (own peer : EndId) (history : History)
        → answers_left peer (port_after own history).far ≤ 129 }
    ensures nearer { (own peer : EndId) (history : History) → (port_after own history).phase ≡ Switch
        → (port_after own history).far.answer ≡ Some peer
        → answers_left peer (port_after own (Sampled sample.Switch ∷ history)).far
        ≡ answers_left peer (port_after own history).far - 1 }
    ensures known { (own peer : EndId) (history : History) → (port_after own history).phase ≡ Switch
        → answers_left peer (port_after own history).far ≡ 0 → Knows own peer (port_after own history) }
{}

/// From the 129th clock after the last disturbance on, the port at a link to a host that is up is the port of a
/// host.
pub fn the_port_of_a_host_is_known()
    ensures { (ticks : ℕ) (own : EndId) (at : ℕ → History) → AreHostTicks ticks at
        → HasNo sample.Switch (at 0)
        → (n : ℕ) → 129 ≤ n → n ≤ ticks → state_of (port_after own (at n)) ≡ state.Host }
{}

/// From the first clock at which it is down, a port is dead, whatever replies come.
pub fn a_port_that_is_down_is_dead()
    ensures { (own from : EndId) (nonces : List ℕ) (history : History)
        → state_of (port_after own (with_replies from nonces (Sampled sample.Down ∷ history))) ≡ state.Dead }
{}

/// In a tick in which no frame is lost, whatever the order of its events and however often a frame is handled, each
/// end's probe is answered if both ends ask.
pub fn what_happens_in_a_tick_is_a_tick()
    ensures { (own far : EndId) (here there : History) (v : EndView)
        → EndRun own far (tick_begins here there) v → TickEnds v
        → IsTick own far here v.here v.there }
{}

/// After 258 ticks without a loss the ends of a link of two switch ports know each other's present lives and ports,
/// and also at each point in time of the tick under way, whatever has come of its replies.
pub fn the_ends_know_each_other_at_each_moment()
    ensures { (a b : EndId) (n : ℕ) (at_a at_b : History) → Ticks a b n at_a at_b → 258 ≤ n
        → Knows a b (port_after a at_a) × Knows b a (port_after b at_b)
        × ((v : EndView) → EndRun a b (tick_begins at_a at_b) v → Knows a b (port_after a v.here))
        × ((v : EndView) → EndRun b a (tick_begins at_b at_a) v → Knows b a (port_after b v.here)) }
{}
