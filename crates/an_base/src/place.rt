//! The index of a switch in a script. It has its own type, so that code cannot confuse it with a port.

ghost use Rattle.std.specs.Prelude.{◌≡◌};

use std::marker::Model;

/// The index of a switch in its script, from 0. Contracts see it as a number.
#[derive(Clone, Copy, PartialEq, Eq, PartialOrd, Ord)]
pub struct Place(pub u8);

impl Model for Place {
    ghost use Rattle.std.specs.Prelude.{ℕ};

    ghost Value = { ℕ };

    ghost view = { λ p. p.0 };

    ghost inverse = { λ n. record { 0 = n } };
}

impl Place {
    /// Returns the index as a number.
    pub fn as_u8(self) -> u8
        ensures { result ≡ self }
    {
        self.0
    }
}

impl From<Place> for usize {
    ghost from_gives = { λ p n. n ≡ p };

    fn from(place: Place) -> usize {
        usize::from(place.0)
    }
}
