//! The offers of a life's neighbours, and the position that follows. On each link only the last offer counts.

ghost use Rattle.std.specs.Prelude.{◌≡◌, ◌≤◌, length, None, replicate, option_to_list};
ghost use Rattle.an_base.specs.declared.limits.TheConstants.{LAST_PORT};
ghost use Rattle.tree_position.specs.Position.{position_of, noted, candidate, least};

use an_base::life::Life;
use an_base::limits::{MOST_LEVEL, PORTS};
use an_base::links::{Links, PortLink};
use an_base::position::Position;
use std::marker::Model;

// A slot for each external port, and one for the switch itself, port 0.
const PLACES: usize = PORTS + 1;

/// What a neighbour offers: its root, and its level.
#[derive(Clone, Copy, PartialEq, Eq)]
pub struct Offer {
    /// The neighbour's root.
    pub root: Life,
    /// The neighbour's level. One of `MOST_LEVEL` or more gives no position, because no tree is deeper.
    pub level: u8,
}

/// The last offer on each link of a life, in memory of fixed size.
///
/// Contracts see the life, its links in ascending order of port, and the last offer on each link, if any.
#[derive(Drop)]
pub struct Offers {
    me: Life,
    links: Links,
    offers: [Option<Offer>; PLACES],
}

impl Model for Offers {
    ghost use Rattle.std.specs.Prelude.{None, map, slice_index_or};
    ghost use Rattle.tree_position.specs.Position.{OffersOf};

    ghost Value = { OffersOf };

    ghost view = { λ o. record {
      me = o.me;
      links = o.links;
      offered = map (λ l. slice_index_or o.offers l.port None) o.links;
    } };
}

// The position that an offer on a link gives, if it gives one.
fn position_below(link: &PortLink, offer: Option<Offer>) -> Option<Position>
    ensures { option_to_list result ≡ candidate link.now offer }
{
    let offer = offer?;
    if offer.level >= MOST_LEVEL {
        return None;
    }
    let parent = link.peer().life();
    Some(Position::new(offer.root, offer.level + 1, parent, link.port()))
}

// The lesser of a position and one that may be absent.
fn lesser_of(best: Position, found: Option<Position>) -> Position
    ensures { result ≡ least best (option_to_list found) }
{
    match found {
        Some(position) if position < best => position,
        _ => best,
    }
}

impl Offers {
    /// Creates the links of a life, without an offer on any of them.
    pub fn new(me: Life, links: &Links) -> Self
        ensures { result ≡ record {
          me = me;
          links = links.now;
          offered = replicate (length links.now) None;
        } }
    {
        Offers {
            me,
            links: links.copy(),
            offers: [None; PLACES],
        }
    }

    /// Records the last `root` and `level` offered on `port`, at most `LAST_PORT`.
    ///
    /// The offers on other ports do not change.
    pub fn note(&mut self, port: u8, root: Life, level: u8)
        requires { port ≤ LAST_PORT }
        ensures { self.new ≡ record self.old {
          offered = noted self.old.links self.old.offered port (record { root = root; level = level });
        } }
    {
        self.offers[usize::from(port)] = Some(Offer { root, level });
    }

    /// Returns the least of the life's own position as a root and of those that the offers give.
    pub fn best(&self) -> Position
        ensures { result ≡ position_of self.now.me self.now.links self.now.offered }
    {
        let mut best = Position::new(self.me, 0, self.me, 0);
        'links: for link in self.links.as_slice() {
            let offer = self.offers[usize::from(link.port())];
            best = lesser_of(best, position_below(link, offer));
        }
        best
    }
}
