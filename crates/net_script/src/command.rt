//! Timed commands.

ghost use Rattle.std.specs.Prelude.{◌≡◌, ◌≢◌, IfSome, IfNone};
ghost use Rattle.net_script.specs.Commands.{link_event, most_count, wire_word, wire_event, is_restart};

use an_base::event::Event;
use an_base::place::Place;
use an_base::port::Port;

/// An event of a script, and the tick at which it becomes due.
#[derive(Clone, Copy, PartialEq, Eq)]
pub struct Command {
    /// The tick, 0 to 1,000,000.
    pub time: u32,
    /// The event.
    pub event: Event,
}

/// A change of a link.
#[derive(Clone, Copy, PartialEq, Eq)]
pub enum LinkChange {
    /// The link goes down.
    Fail,
    /// The link comes up.
    Repair,
}

impl LinkChange {
    // The event of this change at a port.
    pub(crate) fn event(self, s: Place, port: Port) -> Event
        ensures { result ≡ link_event self s port }
    {
        match self {
            LinkChange::Fail => Event::Fail { s, port },
            LinkChange::Repair => Event::Repair { s, port },
        }
    }
}

/// A change of how a wire treats its next frames.
#[derive(Clone, Copy, PartialEq, Eq)]
pub enum WireChange {
    /// Frames are lost.
    Lose,
    /// Frames that are taken leave a copy.
    Again,
    /// The second frame is taken first.
    Swap,
    /// Bytes that do not form a frame are put on the wire.
    Noise,
}

impl WireChange {
    ghost use Rattle.net_script.specs.declared.command.WireChange.{WireChange};

    /// Returns the change that `word` names, if it names one.
    pub fn of(word: &[u8]) -> Option<Self>
        ensures some { IfSome result (λ k. word.now ≡ wire_word k) }
        ensures none { IfNone result ((k : WireChange) → word.now ≢ wire_word k) }
    {
        match word {
            b"lose" => Some(WireChange::Lose),
            b"again" => Some(WireChange::Again),
            b"swap" => Some(WireChange::Swap),
            b"noise" => Some(WireChange::Noise),
            _ => None,
        }
    }

    /// Returns the maximum number of frames, or of bytes.
    pub fn most(self) -> u64
        ensures { result ≡ most_count self }
    {
        match self {
            WireChange::Lose | WireChange::Again | WireChange::Swap => 1_000_000,
            WireChange::Noise => 64,
        }
    }

    /// Returns the event of this change with the number `n`, at `port` of the switch `s`.
    pub fn event(self, s: Place, port: Port, n: u32) -> Event
        ensures { result ≡ wire_event self s port n }
    {
        match self {
            WireChange::Lose => Event::Lose { s, port, n },
            WireChange::Again => Event::Again { s, port, n },
            WireChange::Swap => Event::Swap { s, port, n },
            WireChange::Noise => Event::Noise { s, port, n },
        }
    }
}

// Whether an event is a restart.
pub(crate) fn is_restart(event: Event) -> bool
    ensures { result ≡ is_restart event }
{
    matches!(event, Event::Restart { .. })
}
