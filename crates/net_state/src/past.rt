//! What a fabric keeps of past events: only counts.

ghost use Rattle.std.specs.Prelude.{◌≡◌, ◌+◌, ◌<◌, ◌^◌};

/// The number of commands that are done, and the numbers of events since the last tick and in all.
#[derive(Clone, Copy)]
pub struct Past {
    /// The number of commands that are done.
    pub done: usize,
    /// The number of events since the last tick.
    pub since: u32,
    /// The number of events in all.
    pub events: u32,
}

impl Past {
    /// Creates the counts of a history without events.
    pub fn begin() -> Self
        ensures { result ≡ record { done = 0; since = 0; events = 0 } }
    {
        Past {
            done: 0,
            since: 0,
            events: 0,
        }
    }

    /// Counts a tick. There must be fewer than 2^31 events.
    pub fn tick(&mut self)
        requires { self.old.events < 2 ^ 31 }
        ensures { self.new ≡ record self.old { since = 0; events = self.old.events + 1 } }
    {
        self.since = 0;
        self.events += 1;
    }

    /// Counts an event other than a tick. There must be fewer than 2^31 events.
    pub fn event(&mut self)
        requires events { self.old.events < 2 ^ 31 }
        requires since { self.old.since < 2 ^ 31 }
        ensures { self.new ≡ record self.old { since = self.old.since + 1; events = self.old.events + 1 } }
    {
        self.since += 1;
        self.events += 1;
    }

    /// Counts a command, which is an event. There must be fewer than 2^31 events and commands.
    pub fn command(&mut self)
        requires events { self.old.events < 2 ^ 31 }
        requires since { self.old.since < 2 ^ 31 }
        requires done { self.old.done < 2 ^ 31 }
        ensures { self.new ≡ record self.old {
          done = self.old.done + 1;
          since = self.old.since + 1;
          events = self.old.events + 1;
        } }
    {
        self.done += 1;
        self.event();
    }
}
