//! The part of a core that no body changes. Entries for reports are made from it.

ghost use Rattle.std.specs.Prelude.{◌≡◌, ◌≤◌};
ghost use Rattle.an_base.specs.declared.limits.TheConstants.{MOST_NUMBER};

use an_base::entry::Entry;
use an_base::life::Life;
use an_base::links::Links;
use an_base::position::Position;
use std::marker::Model;

/// What is fixed when a life joins an epoch.
#[derive(Drop)]
pub struct Card {
    me: Life,
    proposed: u8,
    links: Links,
}

impl Model for Card {
    ghost use Rattle.std.specs.Prelude.{◌≤◌};
    ghost use Rattle.epoch_core.specs.Log.{CardOf};
    ghost use Rattle.an_base.specs.declared.limits.TheConstants.{MOST_NUMBER};

    ghost Value = { CardOf };

    ghost view = { λ c. record { me = c.me; proposed = c.proposed; links = c.links } };

    ghost invariant = { λ c. (1 ≤ c.proposed) × (c.proposed ≤ MOST_NUMBER) };
}

impl Card {
    /// Creates the card of life `me` with its `proposed` number, 1 to 126, and its links.
    pub fn new(me: Life, proposed: u8, links: &Links) -> Self
        requires least { 1 ≤ proposed }
        requires most { proposed ≤ MOST_NUMBER }
        ensures { result ≡ record { me = me; proposed = proposed; links = links.now } }
    {
        Card {
            me,
            proposed,
            links: links.copy(),
        }
    }

    /// Returns the life.
    pub fn me(&self) -> Life
        ensures { result ≡ self.now.me }
    {
        self.me
    }

    /// Returns the links of the life, in ascending order of port.
    pub fn links(&self) -> &Links
        ensures { result.now ≡ self.now.links }
    {
        &self.links
    }

    /// Returns the entry of the life at `position`.
    pub fn entry(&self, position: Position) -> Entry
        ensures { result ≡ record { life = self.now.me; position = position; proposed = self.now.proposed; links = self.now.links } }
    {
        Entry {
            life: self.me,
            position,
            proposed: self.proposed,
            links: self.links.copy(),
        }
    }
}
