//! One port and its clock events. Samples move its phase; in phase `Switch`, each clock event probes the far end.

ghost use Rattle.std.specs.Prelude.{◌≡◌, ◌<◌, ◌^◌};
ghost use Rattle.port_monitor.specs.Ports.{unsampled, sampled, probe_of, replied_to, state_of, peer_of, speaks, fallen, kept_up, entered, good_peer_by};

use an_base::life::End;
use an_base::port::{PortState, Sample};
use connectivity::conn::Conn;
use connectivity::far::Connectivity;
use skeptic::Skeptic;

/// The phase of a port.
#[derive(Clone, Copy, PartialEq, Eq)]
pub enum Phase {
    /// It is down, or still held down.
    Dead,
    /// It came up; the next sample says what is there.
    Checking,
    /// A host is there.
    Host,
    /// A switch is there, and is probed.
    Switch,
}

/// One port: its phase, how often it failed, and what is known of the far end.
#[derive(Clone, Copy)]
pub struct Port {
    /// The phase of the port.
    pub phase: Phase,
    /// How often it failed.
    pub status: Skeptic,
    /// What is known of the far end.
    pub far: Connectivity,
}

impl Port {
    /// Creates the port at end `me`, dead.
    pub fn new(me: End) -> Self
        ensures { result ≡ unsampled me }
    {
        Port {
            phase: Phase::Dead,
            status: Skeptic::new(),
            far: Connectivity::new(me),
        }
    }

    /// Processes a clock event with `sample`, and returns the number of the probe that goes out, if one does.
    ///
    /// Fewer than 2^63 probes must have gone out before.
    pub fn sample(&mut self, sample: Sample) -> Option<u64>
        requires { self.old.far.nonce < 2 ^ 63 }
        ensures after { self.new ≡ sampled sample self.old }
        ensures probe { result ≡ probe_of self.new }
    {
        match sample {
            Sample::Down => self.fall(),
            Sample::Host => self.keep_up(true),
            Sample::Switch => self.keep_up(false),
        }
        if self.phase == Phase::Switch {
            Some(self.far.nonce())
        } else {
            None
        }
    }

    /// Records a reply by end `from` to probe `nonce`.
    pub fn on_reply(&mut self, from: End, nonce: u64)
        ensures { self.new ≡ replied_to from nonce self.old }
    {
        if self.phase == Phase::Switch {
            self.far.on_reply(from, nonce);
        }
    }

    /// Reports whether a switch is there, so that the port probes it and answers its probes.
    pub fn speaks(&self) -> bool
        ensures { result ≡ speaks self.now.phase }
    {
        self.phase == Phase::Switch
    }

    /// Returns the state of the port.
    pub fn state(&self) -> PortState
        ensures { result ≡ state_of self.now }
    {
        match self.phase {
            Phase::Dead => PortState::Dead,
            Phase::Checking => PortState::Checking,
            Phase::Host => PortState::Host,
            Phase::Switch => match self.far.conn() {
                Conn::Who => PortState::Who,
                Conn::Loop(_) => PortState::Loop,
                Conn::Good(_) => PortState::Good,
            },
        }
    }

    /// Returns the far end; `None` if and only if the state is neither that of a loop nor that of a good link.
    pub fn peer(&self) -> Option<End>
        ensures { result ≡ peer_of self.now }
    {
        if self.phase != Phase::Switch {
            return None;
        }
        match self.far.conn() {
            Conn::Who => None,
            Conn::Loop(peer) | Conn::Good(peer) => Some(peer),
        }
    }

    /// Returns the far end of a good link; `None` if and only if the state is another one.
    pub fn good_peer(&self) -> Option<End>
        ensures { result ≡ good_peer_by self.now.phase self.now.far.conn }
    {
        match self.state() {
            PortState::Good => self.peer(),
            _ => None,
        }
    }

    // Processes a clock event at a port that is down.
    fn fall(&mut self)
        ensures { self.new ≡ fallen self.old }
    {
        if self.phase == Phase::Dead {
            self.status.clear();
        } else {
            self.status.fail();
        }
        self.phase = Phase::Dead;
        self.far.clear();
    }

    // Processes a clock event at a port that is up.
    fn keep_up(&mut self, is_host: bool)
        requires { self.old.far.nonce < 2 ^ 63 }
        ensures { self.new ≡ kept_up self.old.phase is_host self.old }
    {
        match self.phase {
            Phase::Dead => {
                if self.status.dwell() {
                    self.phase = Phase::Checking;
                }
            }
            Phase::Checking => self.enter(is_host),
            Phase::Host => self.status.good(),
            Phase::Switch => {
                self.status.good();
                self.far.step();
                self.far.probe();
            }
        }
    }

    // Enters the phase for what is at the far end of a port that was checked.
    fn enter(&mut self, is_host: bool)
        requires { self.old.far.nonce < 2 ^ 63 }
        ensures { self.new ≡ entered is_host self.old }
    {
        self.status.clear();
        self.far.clear();
        if is_host {
            self.phase = Phase::Host;
        } else {
            self.phase = Phase::Switch;
            self.far.probe();
        }
    }
}
