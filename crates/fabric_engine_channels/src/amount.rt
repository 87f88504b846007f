//! Amounts that grow and shrink.

/// A number of things. Sums wrap.
pub trait Amount {
    /// Returns the sum of the amount and `more`.
    #[inline]
    fn plus(self, more: Self) -> Self;

    /// Returns the amount less `fewer`.
    #[inline]
    fn minus(self, fewer: Self) -> Self;
}

impl Amount for u32 {
    #[inline]
    fn plus(self, more: u32) -> u32 {
        self.wrapping_add(more)
    }

    #[inline]
    fn minus(self, fewer: u32) -> u32 {
        self.wrapping_sub(fewer)
    }
}

impl Amount for u64 {
    #[inline]
    fn plus(self, more: u64) -> u64 {
        self.wrapping_add(more)
    }

    #[inline]
    fn minus(self, fewer: u64) -> u64 {
        self.wrapping_sub(fewer)
    }
}

/// Whether an amount grows or shrinks.
#[derive(Clone, Copy)]
pub enum Change {
    /// It grows.
    Come,
    /// It shrinks.
    Go,
}

impl Change {
    /// Returns `amount`, grown or shrunk by `by`.
    #[inline]
    pub fn of<A: Amount>(self, amount: A, by: A) -> A {
        match self {
            Change::Come => amount.plus(by),
            Change::Go => amount.minus(by),
        }
    }
}
