//! Which of two tables have a loop by them alone.

/// Which of two tables have, by them alone, channels that lead round, each followed by the next.
#[derive(Clone, Copy)]
pub enum Looped {
    /// The old ones have, and the new ones have not.
    Old,
    /// The new ones have, and the old ones have not.
    New,
    /// Each of them has.
    Both,
    /// Neither has: only tables with rows of both may have.
    Mixture,
}
