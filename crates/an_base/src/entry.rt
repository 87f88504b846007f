//! The entry of a life in reports and topologies. If a life has two entries, a report keeps the lower one.

ghost use Rattle.std.specs.Prelude.{◌≡◌, ◌<◌, ◌≤◌, [], ◌∷◌, ◌++◌, length, All, IfOk, OnOk, OnErr};
ghost use Rattle.an_base.specs.declared.limits.TheConstants.{MOST_SWITCHES};

use crate::life::Life;
use crate::links::Links;
use crate::position::Position;
use common_values::memory::OutOfMemory;
use std::alloc::Global;
use std::cmp::Ordering;
use std::marker::Model;

/// What is known about one life.
#[derive(Drop)]
pub struct Entry {
    /// The life that the entry describes.
    pub life: Life,
    /// Its position in its tree.
    pub position: Position,
    /// The number that it proposes for itself, 1 to 126.
    pub proposed: u8,
    /// Its links in ascending order of port.
    pub links: Links,
}

impl Model for Entry {
    ghost use Rattle.an_base.specs.Values.{EntryOf, IsWithin};
    ghost use Rattle.an_base.specs.declared.limits.TheConstants.{MOST_NUMBER};

    ghost Value = { EntryOf };

    ghost view = { λ e.
        record { life = e.life; position = e.position; proposed = e.proposed; links = e.links } };

    ghost invariant = { λ e. IsWithin 1 MOST_NUMBER e.proposed };
}

impl Entry {
    ghost use Rattle.an_base.specs.Order.{entry_cmp};

    /// Copies the entry without allocating.
    pub fn copy(&self) -> Self
        ensures { result ≡ self.now }
    {
        Entry {
            life: self.life,
            position: self.position,
            proposed: self.proposed,
            links: self.links.copy(),
        }
    }

    /// Compares two entries by position, then by proposed number, then by links as a list.
    ///
    /// It ignores the life, since the entries compared belong to one life.
    pub fn compare(&self, other: &Entry) -> Ordering
        ensures { result ≡ entry_cmp self.now other.now }
    {
        self.position
            .cmp(&other.position)
            .then(self.proposed.cmp(&other.proposed))
            .then(self.links.as_slice().cmp(&other.links.as_slice()))
    }
}

/// One to 126 entries of one topology, in ascending order of life. Contracts see them as a list.
#[derive(Drop)]
pub struct Entries {
    items: Vec<Entry>,
}

impl Model for Entries {
    ghost use Rattle.std.specs.Prelude.{List, ◌≤◌, length};
    ghost use Rattle.an_base.specs.Values.{EntryOf};
    ghost use Rattle.an_base.specs.Order.{LivesRise};
    ghost use Rattle.an_base.specs.declared.limits.TheConstants.{MOST_SWITCHES};

    ghost Value = { List EntryOf };

    ghost view = { λ e. e.items.items };

    ghost invariant = { λ e.
        (1 ≤ length e.items.items) × (length e.items.items ≤ MOST_SWITCHES) × LivesRise e.items.items };
}

impl Entries {
    ghost use Rattle.an_base.specs.Order.{IsBelow, LivesRise};

    /// Wraps `items` without allocating.
    ///
    /// The caller must pass 1 to 126 entries in strictly ascending order of life.
    pub fn new(items: Vec<Entry>) -> Self
        requires some { 1 ≤ length items.items }
        requires most { length items.items ≤ MOST_SWITCHES }
        requires rising { LivesRise items.items }
        ensures { result ≡ items.items }
    {
        Entries { items }
    }

    /// Creates the list of one entry.
    ///
    /// # Errors
    /// `OutOfMemory` if the allocation fails.
    pub fn of(alloc: Global, entry: Entry) -> Result<Self, OutOfMemory>
        ensures { IfOk result (λ entries. entries ≡ entry ∷ []) }
    {
        let mut items = Vec::new(alloc);
        items.push(entry)?;
        Ok(Entries { items })
    }

    /// Returns the number of entries, 1 to 126.
    pub fn len(&self) -> usize
        ensures { result ≡ length self.now }
    {
        self.items.len()
    }

    /// Returns the entries in ascending order of life.
    pub fn as_slice(&self) -> &[Entry]
        ensures all { result.now ≡ self.now }
        ensures some { 1 ≤ length self.now }
        ensures most { length self.now ≤ MOST_SWITCHES }
        ensures rising { LivesRise self.now }
    {
        &self.items
    }

    /// Copies the entries.
    ///
    /// # Errors
    /// `OutOfMemory` if the allocation fails.
    pub fn copy(&self, alloc: Global) -> Result<Self, OutOfMemory>
        ensures { IfOk result (λ copy. copy ≡ self.now) }
    {
        let mut items = Vec::with_capacity(alloc, self.items.len())?;
        'entries: for entry in self.as_slice() {
            items.push_reserved(entry.copy());
        }
        Ok(Entries { items })
    }

    /// Returns the entries as a vector without allocating.
    pub fn into_vec(self) -> Vec<Entry>
        ensures { result.items ≡ self }
    {
        self.items
    }

    /// Adds `entry` at the end.
    ///
    /// The caller must pass an entry whose life is above the lives of all others, and at most 125 must
    /// be there.
    ///
    /// # Errors
    /// `OutOfMemory` if the allocation fails. The entries are then unchanged.
    pub fn push(&mut self, entry: Entry) -> Result<(), OutOfMemory>
        requires room { length self.old < MOST_SWITCHES }
        requires rising { All (λ e. IsBelow e.life entry.life) self.old }
        ensures ok { OnOk result (self.new ≡ self.old ++ entry ∷ []) }
        ensures err { OnErr result (self.new ≡ self.old) }
    {
        self.items.push(entry)?;
        Ok(())
    }
}
