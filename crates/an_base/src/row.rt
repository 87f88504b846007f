//! Rows of routing tables, and their exits. Exits are the bits of a word; a list of them is made to iterate over.

ghost use Rattle.std.specs.Prelude.{◌≡◌, ◌==◌, ◌<◌, ◌≤◌, [], ◌∷◌, ◌++◌, length, All};
ghost use Rattle.an_base.specs.Rows.{HasPortsAlone, ports_of};
ghost use Rattle.an_base.specs.declared.limits.TheConstants.{LAST_PORT, PORTS};

use crate::limits::PORTS;
use crate::port_set::{lowest, without};
use std::marker::Model;

/// A list of ports, 1 to 12, in ascending order. Contracts see a list.
#[derive(Drop)]
pub struct ExitList {
    ports: [u8; PORTS],
    len: u8,
}

impl Model for ExitList {
    ghost use Rattle.std.specs.Prelude.{List, ℕ, take, ◌≤◌};
    ghost use Rattle.an_base.specs.Rows.{ArePorts, ExitsRise};
    ghost use Rattle.an_base.specs.declared.limits.TheConstants.{PORTS};

    ghost Value = { List ℕ };

    ghost view = { λ e. take e.len e.ports };

    ghost invariant = { λ e.
        (e.len ≤ PORTS) × ArePorts (take e.len e.ports) × ExitsRise (take e.len e.ports) };
}

impl ExitList {
    ghost use Rattle.std.specs.Prelude.{◌≤◌};
    ghost use Rattle.an_base.specs.Rows.{ArePorts, ExitsRise};

    /// Creates an empty list.
    pub fn new() -> Self
        ensures { result ≡ [] }
    {
        ExitList {
            ports: [1; PORTS],
            len: 0,
        }
    }

    /// Returns the ports in ascending order.
    pub fn as_slice(&self) -> &[u8]
        ensures all { result.now ≡ self.now }
        ensures most { length self.now ≤ PORTS }
        ensures ports { ArePorts self.now }
        ensures rising { ExitsRise self.now }
    {
        &self.ports[..usize::from(self.len)]
    }

    /// Adds `port` at the end.
    ///
    /// The caller must pass a port from 1 to 12 that is above all others, and at most 11 must be there.
    pub fn push(&mut self, port: u8)
        requires room { length self.old < PORTS }
        requires least { 1 ≤ port }
        requires most { port ≤ LAST_PORT }
        requires rising { All (λ p. p < port) self.old }
        ensures { self.new ≡ self.old ++ port ∷ [] }
    {
        self.ports[usize::from(self.len)] = port;
        self.len += 1;
    }
}

// The ports of a set one after the other.
fn ports_in(set: u16) -> ExitList
    requires { HasPortsAlone set }
    ensures { result ≡ ports_of set }
{
    let mut ports = ExitList::new();
    let mut left = set;
    'ports: while left > 0 {
        let port = lowest(left);
        left = without(left, port);
        ports.push(port);
    }
    ports
}

/// The ports, 1 to 12, by which a packet may leave. Contracts see them as a list in ascending order.
#[derive(Drop)]
pub struct Exits {
    // Bit `p` says that port `p` is one.
    set: u16,
}

impl Model for Exits {
    ghost use Rattle.std.specs.Prelude.{List, ℕ};
    ghost use Rattle.an_base.specs.Rows.{HasPortsAlone, ports_of};

    ghost Value = { List ℕ };

    ghost view = { λ e. ports_of e.set };

    ghost invariant = { λ e. HasPortsAlone e.set };
}

impl Exits {
    ghost use Rattle.std.specs.Prelude.{ℕ, ◌↔◌, ◌≤◌, Contains};
    ghost use Rattle.std.specs.Int.{bit_at};
    ghost use Rattle.an_base.specs.Rows.{ArePorts, ports_of};

    /// Creates an empty set of exits.
    pub fn new() -> Self
        ensures { result ≡ [] }
    {
        Exits { set: 0 }
    }

    /// Returns the exits of `set`: port `p`, 1 to 12, is an exit if and only if bit `p` is set.
    pub fn of_set(set: u16) -> Self
        ensures { result ≡ ports_of set }
    {
        // The bits 1 to 12.
        Exits { set: set & 8190 }
    }

    /// Returns the exits as a set: bit `p` is set if and only if port `p` is an exit.
    pub fn as_set(&self) -> u16
        ensures each { (port : ℕ) → (bit_at result port ≡ 1) ↔ Contains self.now port }
        ensures ports { ArePorts self.now }
    {
        self.set
    }

    /// Reports whether there are no exits.
    pub fn is_empty(&self) -> bool
        ensures { result ≡ (length self.now == 0) }
    {
        self.set == 0
    }

    /// Returns the exits as a list in ascending order.
    pub fn list(&self) -> ExitList
        ensures { result ≡ self.now }
    {
        ports_in(self.set)
    }

    /// Copies the exits.
    pub fn copy(&self) -> Self
        ensures { result ≡ self.now }
    {
        Exits { set: self.set }
    }

    /// Adds the exit `port`. The caller must pass a port from 1 to 12 that is above all other exits.
    pub fn push(&mut self, port: u8)
        requires least { 1 ≤ port }
        requires most { port ≤ LAST_PORT }
        requires rising { All (λ p. p < port) self.old }
        ensures { self.new ≡ self.old ++ port ∷ [] }
    {
        self.set |= 1u16 << port;
    }
}

/// One row of a routing table: the exits for the packets that arrive at one port of a switch and go to one number.
#[derive(Drop)]
pub struct Row {
    /// The switch: its number in the topology or its index in the script, as the user of the row defines.
    pub at: u8,
    /// The port where packets arrive; 0 for the packets of the switch itself.
    pub entry: u8,
    /// The number of the switch that they go to.
    pub to: u8,
    /// The exits, in ascending order.
    pub exits: Exits,
}

impl Model for Row {
    ghost use Rattle.an_base.specs.Rows.{RowOf};

    ghost Value = { RowOf };

    ghost view = { λ r. record { at = r.at; entry = r.entry; to = r.to; exits = r.exits } };
}
