//! A position in the spanning tree. A life takes the least of its own position as a root and those that links offer.

ghost use Rattle.std.specs.Prelude.{◌≡◌, ◌≤◌};
ghost use Rattle.an_base.specs.declared.limits.TheConstants.{LAST_PORT, MOST_LEVEL};

use crate::life::Life;
use std::marker::Model;

/// The position of a life in its tree. Positions are ordered by root, level, parent and port.
#[derive(Clone, Copy, PartialEq, Eq, PartialOrd, Ord)]
pub struct Position {
    /// The root of the tree.
    pub root: Life,
    /// The number of links to the root, 0 to 125.
    pub level: u8,
    /// The next life towards the root; for a root, the root itself.
    pub parent: Life,
    /// The life's own port to its parent, 1 to 12; 0 for a root.
    pub port: u8,
}

impl Model for Position {
    ghost use Rattle.an_base.specs.Values.{Place, IsWithin};
    ghost use Rattle.an_base.specs.declared.limits.TheConstants.{LAST_PORT, MOST_LEVEL};

    ghost Value = { Place };

    ghost view = { λ p. record { root = p.root; level = p.level; parent = p.parent; port = p.port } };

    ghost invariant = { λ p. IsWithin 0 MOST_LEVEL p.level × IsWithin 0 LAST_PORT p.port };

    ghost inverse = { λ v. record { root = v.root; level = v.level; parent = v.parent; port = v.port } };
}

impl Position {
    /// Creates a position. The caller must pass a `level` of at most 125 and a `port` of at most 12.
    pub fn new(root: Life, level: u8, parent: Life, port: u8) -> Self
        requires level { level ≤ MOST_LEVEL }
        requires port { port ≤ LAST_PORT }
        ensures { result ≡ record { root = root; level = level; parent = parent; port = port } }
    {
        Position {
            root,
            level,
            parent,
            port,
        }
    }
}
