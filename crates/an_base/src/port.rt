//! Ports, their states, and the public state of a switch.

ghost use Rattle.std.specs.Prelude.{◌≡◌, ◌-◌, ◌≤◌, Some, None, length, slice_get, slice_set};
ghost use Rattle.std.specs.Prelude.{replicate};
ghost use Rattle.an_base.specs.declared.port.PortState.TheVariants.{Dead};
ghost use Rattle.an_base.specs.declared.limits.TheConstants.{LAST_PORT, PORTS};

use crate::life::{End, Life};
use crate::limits::PORTS;
use std::marker::Model;

/// A port of a switch: 1 to 12, or 0 for the switch itself. Contracts see it as a number.
#[derive(Clone, Copy, PartialEq, Eq, PartialOrd, Ord)]
pub struct Port(pub u8);

impl Model for Port {
    ghost use Rattle.std.specs.Prelude.{ℕ};

    ghost Value = { ℕ };

    ghost view = { λ p. p.0 };

    ghost inverse = { λ n. record { 0 = n } };
}

impl Port {
    /// Returns the port as a number.
    pub fn as_u8(self) -> u8
        ensures { result ≡ self }
    {
        self.0
    }
}

impl From<Port> for usize {
    ghost from_gives = { λ p n. n ≡ p };

    fn from(port: Port) -> usize {
        usize::from(port.0)
    }
}

impl From<Port> for u16 {
    ghost from_gives = { λ p n. n ≡ p };

    fn from(port: Port) -> u16 {
        u16::from(port.0)
    }
}

impl From<Port> for u32 {
    ghost from_gives = { λ p n. n ≡ p };

    fn from(port: Port) -> u32 {
        u32::from(port.0)
    }
}

impl From<Port> for u64 {
    ghost from_gives = { λ p n. n ≡ p };

    fn from(port: Port) -> u64 {
        u64::from(port.0)
    }
}

/// What a switch assumes to be at the other end of a port.
#[derive(Clone, Copy, PartialEq, Eq)]
pub enum PortState {
    /// There is no link, or it has failed.
    Dead,
    /// The link came up again, and the switch has not yet asked what is at its other end.
    Checking,
    /// A host.
    Host,
    /// A switch that has not yet said who it is.
    Who,
    /// This switch itself.
    Loop,
    /// Another switch, whose life and port are known.
    Good,
}

/// What the hardware reports about a port at a clock event.
#[derive(Clone, Copy, PartialEq, Eq)]
pub enum Sample {
    /// There is no link, or it is down.
    Down,
    /// A host is at the other end.
    Host,
    /// A switch is at the other end.
    Switch,
}

/// The state of a port, and the other end if it is known.
#[derive(Clone, Copy, PartialEq, Eq)]
pub struct PortView {
    /// The state.
    pub state: PortState,
    /// The other end, if it is known.
    pub peer: Option<End>,
}

impl Model for PortView {
    ghost use Rattle.an_base.specs.Ports.{PortViewOf};

    ghost Value = { PortViewOf };

    ghost view = { λ p. record { state = p.state; peer = p.peer } };

    ghost inverse = { λ v. record { state = v.state; peer = v.peer } };
}

/// The twelve ports of a switch, from port 1. Contracts see them as a list.
#[derive(Drop)]
pub struct Ports {
    views: [PortView; PORTS],
}

impl Model for Ports {
    ghost use Rattle.std.specs.Prelude.{List};
    ghost use Rattle.an_base.specs.Ports.{PortViewOf};

    ghost Value = { List PortViewOf };

    ghost view = { λ p. p.views };
}

impl Ports {
    /// Creates twelve dead ports.
    pub fn new() -> Self
        ensures { result ≡ replicate PORTS (record { state = Dead; peer = None }) }
    {
        let unseen = PortView {
            state: PortState::Dead,
            peer: None,
        };
        Ports {
            views: [unseen; PORTS],
        }
    }

    /// Returns the twelve ports, from port 1.
    pub fn as_slice(&self) -> &[PortView]
        ensures all { result.now ≡ self.now }
        ensures twelve { length self.now ≡ PORTS }
    {
        &self.views
    }

    /// Returns the view of `port`. The caller must pass a port from 1 to 12.
    pub fn get(&self, port: u8) -> PortView
        requires least { 1 ≤ port }
        requires most { port ≤ LAST_PORT }
        ensures { Some result ≡ slice_get self.now (port - 1) }
    {
        self.views[usize::from(port - 1)]
    }

    /// Sets the view of `port`, and changes no other port. The caller must pass a port from 1 to 12.
    pub fn set(&mut self, port: u8, view: PortView)
        requires least { 1 ≤ port }
        requires most { port ≤ LAST_PORT }
        ensures { self.new ≡ slice_set self.old (port - 1) view }
    {
        self.views[usize::from(port - 1)] = view;
    }

    /// Copies the ports without allocating.
    pub fn copy(&self) -> Self
        ensures { result ≡ self.now }
    {
        Ports { views: self.views }
    }
}

/// The public state of a switch.
#[derive(Drop)]
pub struct Note {
    /// The current life of the switch.
    pub life: Life,
    /// The epoch that it is in.
    pub epoch: u64,
    /// Its ports.
    pub ports: Ports,
    /// Whether it has finished an epoch and not yet loaded the table.
    pub load_due: bool,
    /// Whether some body is waiting to be sent, or is sent but not acknowledged.
    pub unacked: bool,
}

impl Model for Note {
    ghost use Rattle.an_base.specs.Ports.{NoteOf};

    ghost Value = { NoteOf };

    ghost view = { λ n.
        record { life = n.life; epoch = n.epoch; ports = n.ports; load_due = n.load_due; unacked = n.unacked } };
}

impl Note {
    /// Copies the note without allocating.
    pub fn copy(&self) -> Self
        ensures { result ≡ self.now }
    {
        Note {
            life: self.life,
            epoch: self.epoch,
            ports: self.ports.copy(),
            load_due: self.load_due,
            unacked: self.unacked,
        }
    }
}
