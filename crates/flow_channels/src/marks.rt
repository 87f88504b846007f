//! A set of small numbers. One word records which of the others have bits, so the lowest number is found at once.

ghost use Rattle.std.specs.Prelude.{◌≡◌, ◌<◌, MatchOption, replicate, slice_set};
ghost use Rattle.fcfc_router.specs.Tree.{HasNone, IsFirst};

use std::marker::Model;

/// A set of numbers below 2,048: indices of channels or numbers of switches. Contracts see it as a list that has
/// 1 at each number in the set, and otherwise 0.
#[derive(Drop)]
pub struct SpotMarks {
    // A bit for each place, 64 of them in a part; and the parts that have some.
    parts: [u64; 32],
    some: u32,
}

impl Model for SpotMarks {
    ghost use Rattle.std.specs.Prelude.{ℕ, List};
    ghost use Rattle.flow_channels.specs.Marks.{HasParts, spot_marks};

    ghost Value = { List ℕ };

    ghost view = { λ m. spot_marks m.parts };

    ghost invariant = { λ m. HasParts m.parts m.some };
}

impl SpotMarks {
    /// Creates an empty set.
    pub fn new() -> Self
        ensures { result ≡ replicate 2048 0 }
    {
        SpotMarks {
            parts: [0; 32],
            some: 0,
        }
    }

    /// Adds `place`, which must be below 2,048.
    pub fn insert(&mut self, place: usize)
        requires { place < 2048 }
        ensures { self.new ≡ slice_set self.old place 1 }
    {
        let part = place / 64;
        let bits = self.parts[part] | 1u64 << (place % 64);
        self.parts[part] = bits;
        self.some |= 1u32 << part;
    }

    /// Removes `place`, which must be below 2,048.
    pub fn remove(&mut self, place: usize)
        requires { place < 2048 }
        ensures { self.new ≡ slice_set self.old place 0 }
    {
        let part = place / 64;
        let bits = self.parts[part] & !(1u64 << (place % 64));
        self.parts[part] = bits;
        if bits == 0 {
            self.some &= !(1u32 << part);
        }
    }

    /// Returns the lowest number in the set, or `None` if and only if it is empty.
    pub fn first(&self) -> Option<usize>
        ensures { MatchOption result (HasNone 1 self.now) (IsFirst 1 self.now) }
    {
        if self.some == 0 {
            return None;
        }
        let part = self.some.trailing_zeros() as usize;
        let bits = self.parts[part];
        Some(64 * part + bits.trailing_zeros() as usize)
    }
}
