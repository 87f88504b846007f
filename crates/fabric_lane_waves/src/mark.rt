//! The words of the places of a wave, a bit for each LID of a block.

ghost use Rattle.std.specs.Prelude.{◌≡◌, ◌<◌, ◌⊎◌, ◌↔◌, ℕ, length, replicate};
ghost use Rattle.fabric_routes.specs.Waves.{HasBit};

/// Sets a bit of the word of a place.
#[inline]
pub fn mark(words: &mut [u64], place: usize, bit: usize)
    requires place { place < length words.old }
    requires bit { bit < 64 }
    ensures { (one other : ℕ) → (HasBit words.new one other ↔ (HasBit words.old one other ⊎ ((one ≡ place) × (other ≡ bit)))) }
{
    words[place] = words[place] | 1u64 << bit;
}

/// Takes all bits away.
pub fn clear(words: &mut [u64])
    ensures { words.new ≡ replicate (length words.old) 0 }
{
    words.fill(0);
}
