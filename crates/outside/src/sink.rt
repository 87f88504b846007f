//! What code needs of the place that its bytes go to. One write can take fewer bytes than it is given, or fail.

ghost use Rattle.std.specs.Prelude.{◌<◌, ◌≤◌, length, take};
ghost use Rattle.outside.specs.Told.{Seen, Gains, IsNoLess, OnlyFailed};
ghost use Rattle.outside.specs.Answers.{IfTaken, OnNotTaken};

/// The result of a write.
#[derive(Clone, Copy, Debug, PartialEq, Eq)]
pub enum Took {
    /// The first n bytes were taken, and n is at least 1.
    Part(usize),
    /// Nothing was taken, and the count of failures rose.
    Failed,
}

/// A place that bytes go to.
pub trait Sink {
    /// What contracts see: the bytes written, if they are known, and the number of failures.
    ghost seen: { Self → Seen };

    /// Writes a prefix of `bytes`, at least one byte. After `Failed` the bytes written are unchanged.
    ///
    /// The caller must pass at least one byte.
    fn write(&mut self, bytes: &[u8]) -> Took
        requires { 0 < length bytes.now }
        ensures count { IfTaken result (λ n. (1 ≤ n) × (n ≤ length bytes.now)) }
        ensures part { IfTaken result (λ n. Gains (seen self.old) (seen self.new) (take n bytes.now)) }
        ensures failed { OnNotTaken result (OnlyFailed (seen self.old) (seen self.new)) }
        ensures kept { IsNoLess (seen self.old) (seen self.new) };
}
