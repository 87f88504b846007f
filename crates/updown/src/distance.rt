//! Lengths by life: the distances keep the graph's lives, so that callers need no indices.

ghost use Rattle.std.specs.Prelude.{◌≡◌, ◌≤◌, length};
ghost use Rattle.an_base.specs.declared.limits.TheConstants.{MOST_SWITCHES};
ghost use Rattle.updown.specs.Distances.{down_of, place_in, up_of};

use crate::length::Lengths;
use an_base::life::Life;
use std::marker::Model;

/// The distances from each life of a graph to one fixed life, by legal routes and by routes with only
/// downward links.
#[derive(Drop)]
pub struct Distances {
    lives: Vec<Life>,
    lengths: Lengths,
}

impl Model for Distances {
    ghost use Rattle.std.specs.Prelude.{length, ◌≤◌};
    ghost use Rattle.updown.specs.Distances.{DistancesOf};
    ghost use Rattle.an_base.specs.declared.limits.TheConstants.{MOST_SWITCHES};

    ghost Value = { DistancesOf };

    ghost view = { λ d. record { lives = d.lives.items; lengths = d.lengths } };

    ghost invariant = { λ d. length d.lives.items ≤ MOST_SWITCHES };
}

impl Distances {
    // The distances of these lives, at most 126.
    pub(crate) fn new(lives: Vec<Life>, lengths: Lengths) -> Self
        requires { length lives.items ≤ MOST_SWITCHES }
        ensures { result ≡ record { lives = lives.items; lengths = lengths } }
    {
        Distances { lives, lengths }
    }

    fn place(&self, life: Life) -> Option<u8>
        ensures { result ≡ place_in self.now.lives life }
    {
        'lives: for i in 0..self.lives.len() {
            if self.lives[i] == life {
                return Some(i as u8);
            }
        }
        None
    }

    /// Returns the lowest length of a legal route from `life`, or `None` if and only if there is none.
    pub fn up(&self, life: Life) -> Option<u8>
        ensures { result ≡ up_of self.now life }
    {
        self.lengths.up(self.place(life)?)
    }

    /// Returns the lowest length of a route with only downward links from `life`, or `None` if and only
    /// if there is none.
    pub fn down(&self, life: Life) -> Option<u8>
        ensures { result ≡ down_of self.now life }
    {
        self.lengths.down(self.place(life)?)
    }
}
