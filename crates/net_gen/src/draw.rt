//! Numbers drawn from a seed.

ghost use Rattle.std.specs.Prelude.{◌≡◌, ◌<◌};
ghost use Rattle.net_gen.specs.Drawn.{drawn, next_seed};

use std::marker::Model;

/// A source of numbers drawn in turn from a seed. Contracts see it as the seed of the next number.
#[derive(Clone, Copy, PartialEq, Eq)]
pub struct Draw {
    seed: u64,
}

impl Model for Draw {
    ghost use Rattle.std.specs.Prelude.{ℕ, ◌<◌, ◌^◌};

    ghost Value = { ℕ };

    ghost view = { λ d. d.seed };

    ghost invariant = { λ d. d.seed < 2 ^ 64 };

    ghost inverse = { λ n. record { seed = n } };
}

impl Draw {
    /// Creates the source of the numbers drawn from `seed`.
    pub fn new(seed: u64) -> Self
        ensures { result ≡ seed }
    {
        Draw { seed }
    }

    /// Returns the next number below `bound`, which must be at least 1.
    pub fn below(&mut self, bound: u8) -> u8
        requires { 0 < bound }
        ensures drawn { result ≡ drawn (next_seed self.old) bound }
        ensures below { result < bound }
        ensures seed { self.new ≡ next_seed self.old }
    {
        // A linear congruential generator modulo 2^64, with the constants of Knuth's MMIX. The upper 31 bits of the
        // next seed are used.
        self.seed = self
            .seed
            .wrapping_mul(6_364_136_223_846_793_005)
            .wrapping_add(1_442_695_040_888_963_407);
        ((self.seed >> 33) % u64::from(bound)) as u8
    }
}
