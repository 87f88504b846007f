//! What a seat knows. Only contracts use these types; the code creates no value of them.
use std::collections::LinkedList;

/// The state of a seat within a call. Between two calls it is `Idle`.
pub enum Stage {
    /// The seat was joined into another one, and no longer exists.
    Spent,
    /// The seat has no ticket.
    Idle,
    /// The seat has drawn this ticket. The rule counts tickets from 0 without bound; the words that
    /// callers share have them modulo 2^64.
    Waits(u64),
    /// The turn of this ticket has come, and the value is out with the seat.
    Serves(u64),
}

/// A caller whose number was ended by a join.
pub struct Ended<E> {
    /// The caller's number.
    pub number: u32,
    /// All entries that it added, in their order.
    pub mine: LinkedList<E>,
}

/// What a seat knows. `E` is the type of an entry, and `D` the type of what the value was started
/// with.
pub struct View<E, D> {
    /// The state of the seat within a call.
    pub stage: Stage,
    /// The number of its caller, below `callers`.
    pub number: u32,
    /// The seat can give the numbers from `next` up to `callers` to new callers, the lowest first.
    pub next: u32,
    /// The number of caller numbers, the same for all seats of a turnstile.
    pub callers: u32,
    /// What the value was started with. It is `None` only in a spent view.
    pub start: Option<D>,
    /// The longest beginning of the history that the seat has seen.
    pub seen: LinkedList<E>,
    /// The entries that its caller added, in their order.
    pub mine: LinkedList<E>,
    /// The callers that were joined to the seat, and the numbers that they never gave, with no
    /// entries.
    pub ended: LinkedList<Ended<E>>,
    /// What the seat that is being joined to this one had seen. It is empty except within a join.
    pub heard: LinkedList<E>,
}
