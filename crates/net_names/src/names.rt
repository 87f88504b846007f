//! Lists of names.

ghost use Rattle.std.specs.Prelude.{◌≡◌, ◌==◌, ◌-◌, ◌<◌, [], ◌∷◌, ◌++◌, length, take, Contains, IfSome, OnOk, OnErr, slice_index_or};
ghost use Rattle.net_names.specs.Names.{place_of};

use common_values::memory::OutOfMemory;
use common_values::text::Word;
use indexmap::IndexSet;
use std::alloc::Global;
use std::marker::Model;

/// Different names in the order in which they were added. Contracts see them as a list.
///
/// The index of a name is found by its hash, without a search through the list.
#[derive(Drop)]
pub struct Names {
    texts: IndexSet<Vec<u8>>,
}

impl Model for Names {
    ghost use Rattle.std.specs.Prelude.{List, ℕ, map};

    ghost Value = { List (List ℕ) };

    ghost view = { λ n. map (λ t. t.items) n.texts.keys };
}

impl Names {
    /// Creates an empty list.
    pub fn new(alloc: Global) -> Self
        ensures { result ≡ [] }
    {
        Names {
            texts: IndexSet::new(alloc),
        }
    }

    /// Returns the number of names.
    pub fn len(&self) -> usize
        ensures { result ≡ length self.now }
    {
        self.texts.len()
    }

    /// Reports whether there are no names.
    pub fn is_empty(&self) -> bool
        ensures { result ≡ (length self.now == 0) }
    {
        self.len() == 0
    }

    /// Returns the name at index `place`. The caller must pass an index below the number of names.
    pub fn get(&self, place: usize) -> &[u8]
        requires { place < length self.now }
        ensures { result.now ≡ slice_index_or self.now place [] }
    {
        self.texts.as_slice()[place].as_slice()
    }

    /// Returns the index of `name`, if it is in the list.
    pub fn place(&self, name: &[u8]) -> Option<usize>
        ensures place { result ≡ place_of self.now name.now }
        ensures range { IfSome result (λ p. p < length self.now) }
    {
        self.texts.get_index_of(name)
    }

    /// Adds `name` at the end. The caller must pass a name that is not in the list.
    ///
    /// # Errors
    /// `OutOfMemory` if an allocation fails. The list is then unchanged.
    pub fn push(&mut self, name: Word) -> Result<(), OutOfMemory>
        requires { ¬ Contains self.old name }
        ensures ok { OnOk result (self.new ≡ self.old ++ name ∷ []) }
        ensures err { OnErr result (self.new ≡ self.old) }
    {
        self.texts.insert(name.into_vec())?;
        Ok(())
    }

    /// Removes the last name, if there is one.
    pub fn pop(&mut self)
        ensures { self.new ≡ take (length self.old - 1) self.old }
    {
        let _last = self.texts.pop();
    }
}
