//! Spots and their indices in tables, by number, then by port. So the first spot that is found is the least.

ghost use Rattle.std.specs.Prelude.{◌≡◌, ◌<◌};
ghost use Rattle.dep_check.specs.Tables.{IsSpot, place_of};

use crate::channel::Channel;

/// The number of spots, 127 times 13: a switch by its number, 0 to 126, and one of its ports, 1 to 12, or 0
/// for the switch itself.
pub const SPOTS: u16 = 1651;

/// Returns the index of `spot` in a table of all spots.
pub fn place_of(spot: Channel) -> usize
    requires { IsSpot spot }
    ensures place { result ≡ place_of spot }
    ensures low { result < 1651 }
{
    usize::from(spot.at) * 13 + usize::from(spot.port)
}

/// Returns the spot at index `place` of a table of all spots. The caller must pass an index below 1,651.
pub fn spot_at(place: u16) -> Channel
    requires { place < 1651 }
    ensures spot { IsSpot result }
    ensures place { place_of result ≡ place }
{
    Channel {
        at: (place / 13) as u8,
        port: (place % 13) as u8,
    }
}
