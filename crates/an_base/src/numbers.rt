//! The numbers that a root assigns to the members of its topology. Packets are addressed to these numbers.

ghost use Rattle.std.specs.Prelude.{◌≡◌, length, IfOk};

use common_values::memory::OutOfMemory;
use std::alloc::Global;
use std::marker::Model;

/// The numbers of the entries of a topology, in the order of the entries. Contracts see them as a list.
///
/// There are 1 to 126 numbers; each is from 1 to 126, and all are different.
#[derive(Drop)]
pub struct Numbers {
    items: Vec<u8>,
}

impl Model for Numbers {
    ghost use Rattle.std.specs.Prelude.{List, ℕ};
    ghost use Rattle.an_base.specs.Numbers.{AreNumbers};

    ghost Value = { List ℕ };

    ghost view = { λ n. n.items.items };

    ghost invariant = { λ n. AreNumbers n.items.items };
}

impl Numbers {
    ghost use Rattle.an_base.specs.Numbers.{AreNumbers};

    /// Wraps `items` without allocating.
    ///
    /// The caller must pass 1 to 126 different numbers, each from 1 to 126.
    pub fn new(items: Vec<u8>) -> Self
        requires { AreNumbers items.items }
        ensures { result ≡ items.items }
    {
        Numbers { items }
    }

    /// Returns how many numbers there are, 1 to 126.
    pub fn len(&self) -> usize
        ensures { result ≡ length self.now }
    {
        self.items.len()
    }

    /// Returns the numbers in the order of the entries.
    pub fn as_slice(&self) -> &[u8]
        ensures all { result.now ≡ self.now }
        ensures numbers { AreNumbers self.now }
    {
        &self.items
    }

    /// Copies the numbers.
    ///
    /// # Errors
    /// `OutOfMemory` if the allocation fails.
    pub fn copy(&self, alloc: Global) -> Result<Self, OutOfMemory>
        ensures { IfOk result (λ copy. copy ≡ self.now) }
    {
        Ok(Numbers {
            items: Vec::from_slice(alloc, self.as_slice())?,
        })
    }
}
