//! Sides in four bytes each.

ghost use Rattle.std.specs.Prelude.{◌≡◌};
ghost use Rattle.fabric_model.specs.Sides.{side_in, IsSmall};

use crate::node::Side;

/// The encoding of a bare port.
pub const BARE: u32 = 0xFFFF_FFFF;

const END: u32 = 1 << 30;

/// Encodes `side` in four bytes. The caller must pass a `side` whose indices fit (`IsSmall`).
pub fn pack(side: Side) -> u32
    requires { IsSmall side }
    ensures { side_in result ≡ side }
{
    match side {
        Side::Bare => BARE,
        Side::To(next, entry) => next * 256 + u32::from(entry),
        Side::End(end) => END + end,
    }
}

/// Decodes the side in `word`.
pub fn unpack(word: u32) -> Side
    ensures { result ≡ side_in word }
{
    if word < END {
        Side::To(word / 256, (word % 256) as u8)
    } else if word < 2 * END {
        Side::End(word - END)
    } else {
        Side::Bare
    }
}
