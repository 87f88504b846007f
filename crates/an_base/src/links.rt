//! The links of a life in its entry. They are in an array, so copying an entry does not allocate.

ghost use Rattle.std.specs.Prelude.{◌≡◌, ◌==◌, ◌<◌, ◌≤◌, [], ◌∷◌, ◌++◌, length, All};
ghost use Rattle.std.proofs.Common.{rules};
ghost use Rattle.std.specs.Cmp.{partial_order_from_own_ties, partial_order_from_total};
ghost use Rattle.std.specs.Cmp.Rules.{comparing};
ghost use Rattle.std.specs.Ordering.{as_partial_cmp};
ghost use Rattle.an_base.specs.Order.{link_cmp};
ghost use Rattle.an_base.specs.TotalOrders.{link_total};
ghost use Rattle.an_base.specs.declared.limits.TheConstants.{LAST_PORT, PORTS};

use crate::life::{End, Life};
use crate::limits::PORTS;
use std::cmp::Ordering;
use std::marker::Model;

/// A link as seen from one end: its own port, 1 to 12, and the other end.
///
/// Such links are ordered by port, then by the other end.
#[derive(Clone, Copy, PartialEq, Eq)]
pub struct PortLink {
    // The parts of the other end stand here one by one, largest first: so a link takes 16 bytes, not 32.
    uid: u64,
    boot: u32,
    port: u8,
    far: u8,
}

impl Model for PortLink {
    ghost use Rattle.std.specs.Prelude.{◌<◌, ◌^◌};
    ghost use Rattle.an_base.specs.Values.{PeerAt, IsCounted, IsWithin};
    ghost use Rattle.an_base.specs.declared.limits.TheConstants.{LAST_PORT};

    ghost Value = { PeerAt };

    ghost view = { λ l. record {
      port = l.port;
      peer = record { life = record { uid = l.uid; boot = l.boot }; port = l.far };
    } };

    ghost invariant = { λ l. (l.uid < 2 ^ 48) × IsCounted l.boot
        × IsWithin 1 LAST_PORT l.port × IsWithin 1 LAST_PORT l.far };

    ghost inverse = { λ v. record {
      uid = v.peer.life.uid;
      boot = v.peer.life.boot;
      port = v.port;
      far = v.peer.port;
    } };
}

impl PartialOrd for PortLink {
    ghost partial_cmp = { as_partial_cmp link_cmp };

    ghost laws = { partial_order_from_own_ties
        (partial_order_from_total link_total) (Prim.search (comparing, rules)) };

    fn partial_cmp(&self, other: &PortLink) -> Option<Ordering> {
        Some(self.cmp(other))
    }
}

impl Ord for PortLink {
    ghost cmp = { link_cmp };

    ghost total = { link_total };

    ghost matches_partial_cmp = { Prim.search (comparing, rules) };

    ghost matches_eq = { Prim.search (comparing, rules) };

    fn cmp(&self, other: &PortLink) -> Ordering {
        self.port
            .cmp(&other.port)
            .then(self.peer().cmp(&other.peer()))
    }
}

impl PortLink {
    /// Creates the link from `port` to `peer`. The caller must pass a port from 1 to 12.
    pub fn new(port: u8, peer: End) -> Self
        requires least { 1 ≤ port }
        requires most { port ≤ LAST_PORT }
        ensures { result ≡ record { port = port; peer = peer } }
    {
        let life = peer.life();
        PortLink {
            uid: life.uid(),
            boot: life.boot(),
            port,
            far: peer.port(),
        }
    }

    /// Returns its own port, 1 to 12.
    pub fn port(&self) -> u8
        ensures port { result ≡ self.now.port }
        ensures least { 1 ≤ self.now.port }
        ensures most { self.now.port ≤ LAST_PORT }
    {
        self.port
    }

    /// Returns the other end.
    pub fn peer(&self) -> End
        ensures { result ≡ self.now.peer }
    {
        End::new(Life::new(self.uid, self.boot), self.far)
    }
}

/// At most twelve links of a life, in ascending order of port. Contracts see them as a list.
#[derive(Drop)]
pub struct Links {
    items: [PortLink; PORTS],
    len: usize,
}

impl Model for Links {
    ghost use Rattle.std.specs.Prelude.{List, take, ◌≤◌};
    ghost use Rattle.an_base.specs.Values.{PeerAt};
    ghost use Rattle.an_base.specs.Order.{PortsRise};
    ghost use Rattle.an_base.specs.declared.limits.TheConstants.{PORTS};

    ghost Value = { List PeerAt };

    ghost view = { λ l. take l.len l.items };

    ghost invariant = { λ l. (l.len ≤ PORTS) × PortsRise (take l.len l.items) };
}

impl Links {
    ghost use Rattle.std.specs.Prelude.{◌≤◌};
    ghost use Rattle.an_base.specs.Order.{PortsRise};

    /// Creates a list of no links.
    pub fn new() -> Self
        ensures { result ≡ [] }
    {
        let unused = PortLink::new(1, End::new(Life::new(0, 1), 1));
        Links {
            items: [unused; PORTS],
            len: 0,
        }
    }

    /// Returns the number of links, 0 to 12.
    pub fn len(&self) -> usize
        ensures { result ≡ length self.now }
    {
        self.as_slice().len()
    }

    /// Reports whether there are no links.
    pub fn is_empty(&self) -> bool
        ensures { result ≡ (length self.now == 0) }
    {
        self.as_slice().is_empty()
    }

    /// Returns the links in ascending order of port.
    pub fn as_slice(&self) -> &[PortLink]
        ensures all { result.now ≡ self.now }
        ensures most { length self.now ≤ PORTS }
        ensures rising { PortsRise self.now }
    {
        &self.items[..self.len]
    }

    /// Copies the links without allocating.
    pub fn copy(&self) -> Self
        ensures { result ≡ self.now }
    {
        Links {
            items: self.items,
            len: self.len,
        }
    }

    /// Adds `link` at the end.
    ///
    /// The caller must pass a link whose port is above the ports of all others, and at most 11 must be there.
    pub fn push(&mut self, link: PortLink)
        requires room { length self.old < PORTS }
        requires rising { All (λ l. l.port < link.port) self.old }
        ensures { self.new ≡ self.old ++ link ∷ [] }
    {
        self.items[self.len] = link;
        self.len += 1;
    }
}
