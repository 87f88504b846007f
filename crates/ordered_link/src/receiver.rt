//! The receiving end of a session. The wanted number and the seven after it have one slot each, for early bodies.

ghost use Rattle.std.specs.Prelude.{◌≡◌, ◌+◌, ◌%◌, ◌<◌, None};
ghost use Rattle.ordered_link.specs.Receiving.{Receiving, IsLeftOf, come, follow, last, untouched, verdict};

use an_base::body::Body;
use std::marker::Model;

/// A body that came before one with a lower number.
#[derive(Drop)]
pub struct Early {
    /// Its number.
    pub k: u32,
    /// The body.
    pub body: Body,
}

/// What happens to a body that comes.
#[derive(Drop)]
pub enum Verdict {
    /// It is the wanted one, and is accepted.
    Accepted(Body),
    /// It is one of the seven after the wanted one, and is held.
    Held {
        /// The number that is wanted.
        wanted: u32,
        /// The number that came.
        got: u32,
    },
    /// It was accepted before, or is held already.
    Repeat {
        /// The number of the last body accepted; 0 for none.
        last: u32,
    },
    /// It is beyond those that can be held, and is ignored.
    Ahead {
        /// The number that is wanted.
        wanted: u32,
        /// The number that came.
        got: u32,
    },
}

/// The receiver of one direction of a session.
///
/// It accepts bodies in the order of their numbers, from 1, and holds those that come up to seven
/// numbers early.
#[derive(Drop)]
pub struct Receiver {
    last: u32,
    places: [Option<Early>; 8],
}

impl Model for Receiver {
    ghost use Rattle.ordered_link.specs.Receiving.{ReceiverOf};

    ghost Value = { ReceiverOf };

    ghost view = { λ r. record { last = r.last; places = r.places } };
}

// The slot of a number: the numbers of a window of eight have different ones.
fn place_of(k: u32) -> usize
    ensures place { result ≡ k % 8 }
    ensures below { result < 8 }
{
    (k % 8) as usize
}

impl Receiver {
    /// Creates a receiver that has received nothing.
    pub fn new() -> Self
        ensures { IsLeftOf result untouched }
    {
        Receiver {
            last: 0,
            places: [None, None, None, None, None, None, None, None],
        }
    }

    /// Returns the number of the last body accepted, 0 for none.
    pub fn last(&self) -> u32
        ensures last { result ≡ self.now.last }
        ensures stands { (r : Receiving) → IsLeftOf self.now r → result ≡ last r }
    {
        self.last
    }

    /// Receives `body` with number `k`: it is accepted, held, a repeat, or ahead.
    pub fn on_carry(&mut self, k: u32, body: Body) -> Verdict
        ensures { (r : Receiving) → IsLeftOf self.old r → IsLeftOf self.new (come k body r) × (result ≡ verdict k body r) }
    {
        let last = self.last;
        if k <= last {
            return Verdict::Repeat { last };
        }
        if k - last > 8 {
            return Verdict::Ahead {
                wanted: last + 1,
                got: k,
            };
        }
        let place = place_of(k);
        if self.places[place].is_some() {
            return Verdict::Repeat { last };
        }
        if k - last == 1 {
            self.last = k;
            return Verdict::Accepted(body);
        }
        self.places[place] = Some(Early { k, body });
        Verdict::Held {
            wanted: last + 1,
            got: k,
        }
    }

    /// Accepts the wanted body if it is held, and returns it.
    ///
    /// Returns `None`, and changes nothing, if and only if it is not held.
    pub fn next(&mut self) -> Option<Body>
        ensures { (r : Receiving) → IsLeftOf self.old r → IsLeftOf self.new (follow r) × (result ≡ r.held (last r + 1)) }
    {
        let place = (self.last % 8 + 1) % 8;
        let early = self.places[place as usize].take()?;
        self.last = early.k;
        Some(early.body)
    }
}
