//! The wiring. In addition to links and hosts, as they were added, it keeps a table of the far side of each port.

ghost use Rattle.std.specs.Prelude.{◌≡◌, ◌≢◌, ◌<◌, ◌≤◌, ◌^◌, ◌↔◌, [], ◌∷◌, ◌++◌, length, Any, Contains, IfSome, MatchOption, IsTrue, OnOk, OnErr};
ghost use Rattle.an_base.specs.declared.limits.TheConstants.{MOST_NUMBER, MOST_SWITCHES};
ghost use Rattle.net_graph.specs.Wires.{a_end, b_end, far_at, far_of, had_of, host_end, IsAtFarSide, IsFar, IsHost, IsLink, IsSwitch, IsWired, IsWithin, network, uid_of, uids, used_ports};
ghost use Rattle.net_graph.specs.Table.{cell_at, Puts};

use an_base::life::Life;
use an_base::place::Place;
use an_base::port::Port;
use common_values::memory::OutOfMemory;
use std::alloc::Global;
use std::marker::Model;

/// The maximum number of hosts of a network.
pub const MOST_HOSTS: usize = 1000;

/// A switch of a network.
#[derive(Clone, Copy, PartialEq, Eq)]
pub struct SwitchAt {
    /// Its identifier, below 2^48.
    pub uid: u64,
    /// The number that it had last, 1 to 126.
    pub had: u8,
}

/// A link of two switch ports.
#[derive(Clone, Copy, PartialEq, Eq)]
pub struct LinkAt {
    /// The switch at one end.
    pub a: Place,
    /// The port at that end, 1 to 12.
    pub a_port: Port,
    /// The switch at the other end; it can be the same switch.
    pub b: Place,
    /// The port at the other end, 1 to 12.
    pub b_port: Port,
}

/// A host of a network.
#[derive(Clone, Copy, PartialEq, Eq)]
pub struct HostOn {
    /// Its identifier, below 2^48.
    pub uid: u64,
    /// The switch where it is.
    pub s: Place,
    /// The port of that switch, 1 to 12.
    pub port: Port,
}

/// What is at the far side of a switch's port.
#[derive(Clone, Copy, PartialEq, Eq)]
pub enum Far {
    /// A port of a switch, which can be the same switch.
    Switch {
        /// The switch.
        s: Place,
        /// Its port, 1 to 12.
        port: Port,
    },
    /// A host.
    HostAt {
        /// The index of the host.
        host: u16,
    },
}

// Whether a switch has this identifier.
fn is_switch(switches: &[SwitchAt], uid: u64) -> bool
    ensures { IsTrue result ↔ Any (λ s. s.uid ≡ uid) switches.now }
{
    switches.iter().any(|s| s.uid == uid)
}

// Whether a host has this identifier.
fn is_host(hosts: &[HostOn], uid: u64) -> bool
    ensures { IsTrue result ↔ Any (λ h. h.uid ≡ uid) hosts.now }
{
    hosts.iter().any(|h| h.uid == uid)
}

// What is at the far side of each port of a switch; nothing is at port 0.
#[derive(Clone, Copy)]
struct PortRow {
    cells: [Option<Far>; 13],
}

// What the table has at a port.
fn cell(rows: &[PortRow], s: Place, port: Port) -> Option<Far>
    ensures { result ≡ cell_at rows.now s port }
{
    let row = rows.get(usize::from(s))?;
    row.cells.get(usize::from(port)).copied().flatten()
}

// Puts what is at the far side of a port into the table.
fn put(rows: &mut Vec<PortRow>, s: Place, port: Port, far: Far)
    requires s { s < length rows.old.items }
    requires port { port < 13 }
    ensures { Puts rows.old.items rows.new.items s port far }
{
    rows[usize::from(s)].cells[usize::from(port)] = Some(far);
}

/// Switches, the links between their ports, and the hosts on their ports. All identifiers are
/// different, and no port is used twice.
#[derive(Drop)]
pub struct Wiring {
    switches: Vec<SwitchAt>,
    links: Vec<LinkAt>,
    hosts: Vec<HostOn>,
    rows: Vec<PortRow>,
}

impl Model for Wiring {
    ghost use Rattle.net_graph.specs.Wires.{Wires};
    ghost use Rattle.net_graph.specs.Table.{IsKept};

    ghost Value = { Wires };

    ghost view = { λ w. record {
      switches = w.switches.items;
      links = w.links.items;
      hosts = w.hosts.items;
    } };

    ghost invariant = { λ w. IsKept (record {
      switches = w.switches.items;
      links = w.links.items;
      hosts = w.hosts.items;
    }) w.rows.items };
}

impl Wiring {
    /// Creates a wiring without switches, links and hosts.
    pub fn new(alloc: Global) -> Self
        ensures { result ≡ record { switches = []; links = []; hosts = [] } }
    {
        Wiring {
            switches: Vec::new(alloc),
            links: Vec::new(alloc),
            hosts: Vec::new(alloc),
            rows: Vec::new(alloc),
        }
    }

    /// Returns the switches, at most 126, in the order in which they were added.
    pub fn switches(&self) -> &[SwitchAt]
        ensures all { result.now ≡ self.now.switches }
        ensures wired { IsWired self.now }
    {
        &self.switches
    }

    /// Returns the links in the order in which they were added.
    pub fn links(&self) -> &[LinkAt]
        ensures all { result.now ≡ self.now.links }
        ensures wired { IsWired self.now }
    {
        &self.links
    }

    /// Returns the hosts, at most 1,000, in the order in which they were added.
    pub fn hosts(&self) -> &[HostOn]
        ensures all { result.now ≡ self.now.hosts }
        ensures wired { IsWired self.now }
    {
        &self.hosts
    }

    /// Returns the number of switches, 0 to 126.
    pub fn count(&self) -> u8
        ensures count { result ≡ length self.now.switches }
        ensures wired { IsWired self.now }
    {
        self.switches().len() as u8
    }

    /// Returns the identifier, below 2^48, of the switch `s`, which must be in the wiring.
    pub fn uid(&self, s: Place) -> u64
        requires { s < length self.now.switches }
        ensures uid { result ≡ uid_of self.now.switches s }
        ensures most { result < 2 ^ 48 }
    {
        self.switches()[usize::from(s)].uid
    }

    /// Returns the number, 1 to 126, that the switch `s` had last. It must be in the wiring.
    pub fn had(&self, s: Place) -> u8
        requires { s < length self.now.switches }
        ensures had { result ≡ had_of self.now s }
        ensures least { 1 ≤ result }
        ensures most { result ≤ MOST_NUMBER }
    {
        self.switches()[usize::from(s)].had
    }

    /// Returns the life of the switch `s` in its first boot. It must be in the wiring.
    pub fn life(&self, s: Place) -> Life
        requires { s < length self.now.switches }
        ensures { result ≡ (network self.now).life s }
    {
        Life::new(self.uid(s), 1)
    }

    /// Reports whether a switch or a host has the identifier `uid`.
    pub fn has_uid(&self, uid: u64) -> bool
        ensures { IsTrue result ↔ Contains (uids self.now) uid }
    {
        is_switch(&self.switches, uid) || is_host(&self.hosts, uid)
    }

    /// Reports whether a link or a host is on `port` of the switch `s`. It accepts all values.
    pub fn is_used(&self, s: Place, port: Port) -> bool
        ensures { IsTrue result ↔ Contains (used_ports self.now) (s, port) }
    {
        self.far(s, port).is_some()
    }

    /// Returns what is at the far side of `port` of the switch `s`, if a link or a host is on it.
    ///
    /// It accepts all values.
    pub fn far(&self, s: Place, port: Port) -> Option<Far>
        ensures far { result ≡ far_at self.now s port }
        ensures meaning { MatchOption result
            (¬ Contains (used_ports self.now) (s, port))
            (IsAtFarSide self.now s port) }
        ensures range { IfSome result (IsWithin self.now s port) }
        ensures wired { IsWired self.now }
    {
        cell(&self.rows, s, port)
    }

    // The other end of the link at this port, if there is one.
    pub(crate) fn link_end(&self, s: Place, port: Port) -> Option<(Place, Port)>
        ensures far { result ≡ far_of self.now.links s port }
        ensures range { IfSome result (IsFar (length self.now.switches) s port) }
    {
        match &self.far(s, port) {
            Some(Far::Switch { s, port }) => Some((*s, *port)),
            _ => None,
        }
    }

    /// Adds `switch`, without links and hosts, at the next index.
    ///
    /// The caller must pass a valid switch with a new identifier, and at most 125 must be there.
    ///
    /// # Errors
    /// `OutOfMemory` if an allocation fails. The wiring is then unchanged.
    pub fn add_switch(&mut self, switch: SwitchAt) -> Result<(), OutOfMemory>
        requires room { length self.old.switches < MOST_SWITCHES }
        requires switch { IsSwitch switch }
        requires new { ¬ Contains (uids self.old) switch.uid }
        ensures ok { OnOk result (self.new ≡ record self.old {
          switches = self.old.switches ++ switch
              ∷ [];
        }) }
        ensures err { OnErr result (self.new ≡ self.old) }
    {
        self.rows.push(PortRow { cells: [None; 13] })?;
        if let Err(_error) = self.switches.push(switch) {
            self.rows.pop();
            return Err(OutOfMemory);
        }
        Ok(())
    }

    /// Adds `link`. The caller must pass a link between two different unused ports of the wiring.
    ///
    /// # Errors
    /// `OutOfMemory` if the allocation fails. The wiring is then unchanged.
    pub fn add_link(&mut self, link: LinkAt) -> Result<(), OutOfMemory>
        requires link { IsLink (length self.old.switches) link }
        requires a_free { ¬ Contains (used_ports self.old) (link.a, link.a_port) }
        requires b_free { ¬ Contains (used_ports self.old) (link.b, link.b_port) }
        requires apart { a_end link ≢ b_end link }
        ensures ok { OnOk result (self.new ≡ record self.old { links = self.old.links ++ link ∷ [] }) }
        ensures err { OnErr result (self.new ≡ self.old) }
    {
        let LinkAt {
            a,
            a_port,
            b,
            b_port,
        } = link;
        self.links.push(link)?;
        let at_a = Far::Switch { s: a, port: a_port };
        let at_b = Far::Switch { s: b, port: b_port };
        put(&mut self.rows, a, a_port, at_b);
        put(&mut self.rows, b, b_port, at_a);
        Ok(())
    }

    /// Adds `host` at the next index.
    ///
    /// The caller must pass a valid host with a new identifier on an unused port, and at most 999 must
    /// be there.
    ///
    /// # Errors
    /// `OutOfMemory` if the allocation fails. The wiring is then unchanged.
    pub fn add_host(&mut self, host: HostOn) -> Result<(), OutOfMemory>
        requires room { length self.old.hosts < 1000 }
        requires host { IsHost (length self.old.switches) host }
        requires new { ¬ Contains (uids self.old) host.uid }
        requires free { ¬ Contains (used_ports self.old) (host.s, host.port) }
        ensures ok { OnOk result (self.new ≡ record self.old { hosts = self.old.hosts ++ host ∷ [] }) }
        ensures err { OnErr result (self.new ≡ self.old) }
    {
        let place = self.hosts.len() as u16;
        let HostOn { uid: _, s, port } = host;
        self.hosts.push(host)?;
        put(&mut self.rows, s, port, Far::HostAt { host: place });
        Ok(())
    }
}
