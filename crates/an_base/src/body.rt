//! The bodies of an epoch: positions and answers build the tree, reports go up, and the topology comes down.

ghost use Rattle.std.specs.Prelude.{◌≡◌, ◌≤◌, length, IfOk};
ghost use Rattle.an_base.specs.declared.limits.TheConstants.{MOST_LEVEL};

use crate::entry::Entries;
use crate::life::Life;
use crate::numbers::Numbers;
use common_values::memory::OutOfMemory;
use std::alloc::Global;
use std::marker::Model;

/// The body with which a life sends its position to a neighbour.
#[derive(Clone, Copy, PartialEq, Eq)]
pub struct PosBody {
    /// The version of the position, from 1.
    pub version: u32,
    /// The root of the position.
    pub root: Life,
    /// The level of the position, 0 to 125.
    pub level: u8,
    /// Whether this link is the sender's link to its parent.
    pub to_parent: bool,
}

impl Model for PosBody {
    ghost use Rattle.an_base.specs.Values.{PosOf, IsCounted, IsWithin};
    ghost use Rattle.an_base.specs.declared.limits.TheConstants.{MOST_LEVEL};

    ghost Value = { PosOf };

    ghost view = { λ b.
        record { version = b.version; root = b.root; level = b.level; to_parent = b.to_parent } };

    ghost invariant = { λ b. IsCounted b.version × IsWithin 0 MOST_LEVEL b.level };

    ghost inverse = { λ v.
        record { version = v.version; root = v.root; level = v.level; to_parent = v.to_parent } };
}

impl PosBody {
    /// Creates the body.
    ///
    /// The caller must pass a `version` of at least 1 and a `level` of at most 125.
    pub fn new(version: u32, root: Life, level: u8, to_parent: bool) -> Self
        requires version { 1 ≤ version }
        requires level { level ≤ MOST_LEVEL }
        ensures { result ≡ record { version = version; root = root; level = level; to_parent = to_parent } }
    {
        PosBody {
            version,
            root,
            level,
            to_parent,
        }
    }
}

/// The body with which a life acknowledges a neighbour's position.
#[derive(Clone, Copy, PartialEq, Eq)]
pub struct AnswerBody {
    /// The version that was received, from 1.
    pub version: u32,
    /// Whether this link is the sender's link to its parent.
    pub to_parent: bool,
}

impl Model for AnswerBody {
    ghost use Rattle.an_base.specs.Values.{AnswerOf, IsCounted};

    ghost Value = { AnswerOf };

    ghost view = { λ b. record { version = b.version; to_parent = b.to_parent } };

    ghost invariant = { λ b. IsCounted b.version };

    ghost inverse = { λ v. record { version = v.version; to_parent = v.to_parent } };
}

impl AnswerBody {
    /// Creates the body. The caller must pass a `version` of at least 1.
    pub fn new(version: u32, to_parent: bool) -> Self
        requires { 1 ≤ version }
        ensures { result ≡ record { version = version; to_parent = to_parent } }
    {
        AnswerBody { version, to_parent }
    }
}

/// The body that carries a topology down the tree: entries in ascending order of life, and the number of each.
#[derive(Drop)]
pub struct TopoBody {
    /// The entries of the topology.
    pub entries: Entries,
    /// The number of each entry, in the same order.
    pub numbers: Numbers,
}

impl Model for TopoBody {
    ghost use Rattle.std.specs.Prelude.{◌≡◌, length};
    ghost use Rattle.an_base.specs.Values.{TopoOf};

    ghost Value = { TopoOf };

    ghost view = { λ b. record { entries = b.entries; numbers = b.numbers } };

    ghost invariant = { λ b. length b.entries ≡ length b.numbers };
}

impl TopoBody {
    /// Creates the topology. The caller must pass one number for each entry.
    pub fn new(entries: Entries, numbers: Numbers) -> Self
        requires { length entries ≡ length numbers }
        ensures { result ≡ record { entries = entries; numbers = numbers } }
    {
        TopoBody { entries, numbers }
    }

    /// Returns the entries in ascending order of life.
    pub fn entries(&self) -> &Entries
        ensures entries { result.now ≡ self.now.entries }
        ensures as_many { length self.now.entries ≡ length self.now.numbers }
    {
        &self.entries
    }

    /// Returns the number of each entry.
    pub fn numbers(&self) -> &Numbers
        ensures numbers { result.now ≡ self.now.numbers }
        ensures as_many { length self.now.entries ≡ length self.now.numbers }
    {
        &self.numbers
    }

    /// Copies the topology.
    ///
    /// # Errors
    /// `OutOfMemory` if an allocation fails.
    pub fn copy(&self, alloc: Global) -> Result<Self, OutOfMemory>
        ensures { IfOk result (λ copy. copy ≡ self.now) }
    {
        Ok(TopoBody {
            entries: self.entries.copy(alloc)?,
            numbers: self.numbers.copy(alloc)?,
        })
    }
}

/// A message between the two lives at the ends of a link, within an epoch.
#[derive(Drop)]
pub enum Body {
    /// The sender's position changed.
    Pos(PosBody),
    /// The sender received a position.
    Answer(AnswerBody),
    /// The sender is stable, and this is its report.
    Stable {
        /// The report, in ascending order of life.
        entries: Entries,
    },
    /// The sender has finished with this topology.
    Topo(TopoBody),
}

impl Body {
    /// Copies the body.
    ///
    /// # Errors
    /// `OutOfMemory` if an allocation fails.
    pub fn copy(&self, alloc: Global) -> Result<Self, OutOfMemory>
        ensures { IfOk result (λ copy. copy ≡ self.now) }
    {
        match self {
            Body::Pos(body) => Ok(Body::Pos(*body)),
            Body::Answer(body) => Ok(Body::Answer(*body)),
            Body::Stable { entries } => {
                let entries = entries.copy(alloc)?;
                Ok(Body::Stable { entries })
            }
            Body::Topo(body) => Ok(Body::Topo(body.copy(alloc)?)),
        }
    }
}
