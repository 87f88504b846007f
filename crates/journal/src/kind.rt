//! The kinds of events at a switch, or at a port of a switch.

ghost use Rattle.std.specs.Prelude.{◌≡◌};
ghost use Rattle.journal.specs.Kinds.{switch_event, port_event};

use an_base::event::Event;
use an_base::place::Place;
use an_base::port::Port;

/// An event of a switch.
#[derive(Clone, Copy, PartialEq, Eq)]
pub enum SwitchEvent {
    /// The switch takes its next clock event.
    Clock,
    /// The switch handles what it has taken.
    Handle,
    /// The switch loads its routing table.
    Load,
    /// The switch restarts.
    Restart,
}

impl SwitchEvent {
    /// Returns the event of this kind at the switch `s`.
    pub fn at(self, s: Place) -> Event
        ensures { result ≡ switch_event self s }
    {
        match self {
            SwitchEvent::Clock => Event::Clock { s },
            SwitchEvent::Handle => Event::Handle { s },
            SwitchEvent::Load => Event::Load { s },
            SwitchEvent::Restart => Event::Restart { s },
        }
    }
}

/// An event at a port of a switch.
#[derive(Clone, Copy, PartialEq, Eq)]
pub enum PortEvent {
    /// The switch takes a frame from the incoming wire of the port.
    Take,
    /// The link of the port goes down.
    Fail,
    /// The link of the port comes up.
    Repair,
}

impl PortEvent {
    /// Returns the event of this kind at `port` of the switch `s`.
    pub fn at(self, s: Place, port: Port) -> Event
        ensures { result ≡ port_event self s port }
    {
        match self {
            PortEvent::Take => Event::Take { s, port },
            PortEvent::Fail => Event::Fail { s, port },
            PortEvent::Repair => Event::Repair { s, port },
        }
    }
}
