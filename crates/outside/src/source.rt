//! What code needs of the place that its bytes come from. One read can give fewer bytes than fit, or fail.

ghost use Rattle.std.specs.Prelude.{◌<◌, ◌≤◌, length, take};
ghost use Rattle.outside.specs.Told.{Seen, Gave, Ends, IsNoLess, OnlyFailed};
ghost use Rattle.outside.specs.Answers.{IfPart, OnEnd, OnFailed};

/// The result of a read.
#[derive(Clone, Copy, Debug, PartialEq, Eq)]
pub enum Got {
    /// The first n bytes of the buffer were read, and n is at least 1.
    Part(usize),
    /// Nothing is left.
    End,
    /// Nothing was read, and the count of failures rose.
    Failed,
}

/// A place that bytes come from.
pub trait Source {
    /// What contracts see: the bytes that are left, if they are known, and the number of failures.
    ghost seen: { Self → Seen };

    /// Reads at least one byte to the front of `buf`. After `End` and `Failed` nothing has been read.
    ///
    /// The caller must pass a buffer of at least one byte.
    fn read(&mut self, buf: &mut [u8]) -> Got
        requires { 0 < length buf.old }
        ensures count { IfPart result (λ n. (1 ≤ n) × (n ≤ length buf.old)) }
        ensures part { IfPart result (λ n. Gave (seen self.old) (seen self.new) (take n buf.new)) }
        ensures end { OnEnd result (Ends (seen self.old) (seen self.new)) }
        ensures failed { OnFailed result (OnlyFailed (seen self.old) (seen self.new)) }
        ensures kept { IsNoLess (seen self.old) (seen self.new) };
}
