//! A theorem: pieces lose nothing of the bytes. No function here has code.

ghost use Rattle.std.specs.Prelude.{◌≡◌, ℕ, List};
ghost use Rattle.std.specs.List.{flat_map, range_with_len};
ghost use Rattle.frame_region.specs.Regions.{piece_of};
ghost use Rattle.frame_region.specs.Sizes.{blocks_of};

/// The pieces of bytes in order, one for each block that they need, are the bytes.
pub fn pieces_are_the_bytes()
    ensures { (bytes : List ℕ)
        → flat_map (λ number. piece_of number bytes) (range_with_len 0 (blocks_of bytes)) ≡ bytes }
{}
