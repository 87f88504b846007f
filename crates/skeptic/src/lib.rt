//! autonet, switch: hold-down with exponential back-off for flapping links.
//!
//! A skeptic counts failures and good samples. Each failure doubles the number of good samples in a row that it
//! requires, up to 128, and 64 good samples in a row halve it.
//!
//! It depends on no other crate. Its contract: after each call, level and count are as the definition says.
#![tactic(auto)]

ghost use Rattle.std.specs.Prelude.{◌≡◌, ◌≤◌};
ghost use Rattle.skeptic.specs.Skeptics.{cleared, dwelt, failed, hold, is_over, praised};

use std::marker::Model;

/// The highest level.
pub const MOST_LEVEL: u8 = 7;

/// The number of good samples in a row that lower the level by one.
pub const FORGIVE_AFTER: u8 = 64;

/// A hold-down level, 0 to 7, and the number of good samples in a row.
#[derive(Clone, Copy, PartialEq, Eq)]
pub struct Skeptic {
    level: u8,
    run: u8,
}

impl Model for Skeptic {
    ghost use Rattle.std.specs.Prelude.{◌≤◌};
    ghost use Rattle.skeptic.specs.Skeptics.{SkepticOf};

    ghost Value = { SkepticOf };

    ghost view = { λ s. record { level = s.level; run = s.run } };

    ghost invariant = { λ s. (s.level ≤ 7) × (s.run ≤ 127) };

    ghost inverse = { λ v. record { level = v.level; run = v.run } };
}

impl Skeptic {
    /// Creates a skeptic at level 0, without good samples.
    pub const fn new() -> Self
        ensures { result ≡ record { level = 0; run = 0 } }
    {
        Skeptic { level: 0, run: 0 }
    }

    /// Returns the number of good samples in a row that are required: 2^level, 1 to 128.
    pub fn hold(&self) -> u32
        ensures hold { result ≡ hold self.now }
        ensures least { 1 ≤ result }
        ensures most { result ≤ 128 }
    {
        1 << self.level
    }

    /// Records a failure: raises the level by one, up to 7, and restarts the count of good samples.
    pub fn fail(&mut self)
        ensures { self.new ≡ failed self.old }
    {
        self.level = MOST_LEVEL.min(self.level + 1);
        self.run = 0;
    }

    /// Records a good sample.
    ///
    /// The 64th in a row lowers the level by one, not below 0, and restarts the count.
    pub fn good(&mut self)
        ensures { self.new ≡ praised self.old }
    {
        if self.run + 1 >= FORGIVE_AFTER {
            self.level = self.level.saturating_sub(1);
            self.run = 0;
        } else {
            self.run += 1;
        }
    }

    /// Records a good sample during hold-down, and reports whether it is the last one required.
    ///
    /// If it is, the count restarts.
    pub fn dwell(&mut self) -> bool
        ensures over { result ≡ is_over self.old }
        ensures after { self.new ≡ dwelt self.old }
    {
        let is_over = u32::from(self.run) + 1 >= self.hold();
        self.run = if is_over { 0 } else { self.run + 1 };
        is_over
    }

    /// Restarts the count of good samples, without changing the level.
    pub fn clear(&mut self)
        ensures { self.new ≡ cleared self.old }
    {
        self.run = 0;
    }
}
