//! The rule that the words, the slot and the seats keep, and what each step says of them.
ghost use Rattle.fabric_turn.specs.Rule.{IsKept, first_view};
ghost use Rattle.fabric_turn.specs.Plays.{Compares, Draws, Looks, PassesTurn};
ghost use Rattle.fabric_turn.specs.Seats.{merged_view, new_view, remaining_view, spent_view};

use crate::staged::Staged;
use crate::view::View;
use atomic_table::{Join, Play, Split, TableRule};
use std::marker::PhantomData;
use std::snapshot::Snapshot;

/// What is given to the table when it is made.
#[derive(Drop)]
pub struct Opening<B> {
    /// The value as it was then.
    pub book: Snapshot<B>,
    /// The number of caller numbers.
    pub callers: u32,
}

/// The rule, of tickets, turns, numbers and the one history.
pub struct Order<B> {
    of: PhantomData<B>,
}

/// What the seats of a value's turnstile know.
pub type Views<B> = View<<B as Staged>::Entry, <B as Staged>::Start>;

impl<B: Staged> TableRule<B, Views<B>, Opening<B>> for Order<B> {
    ghost holds = { λ key. IsKept B.history B.start B.owner key.callers (B.start key.book.value) };

    ghost first = { λ key. first_view key.callers (B.start key.book.value) };
}

/// Draws a ticket.
pub struct Draw;

impl<S, E, D> Play<S, View<E, D>> for Draw {
    ghost then = { Draws };
}

/// Looks at the number that is served. If it is the caller's own, takes the value out.
pub struct Look<B> {
    of: PhantomData<B>,
}

impl<B: Staged> Play<B, Views<B>> for Look<B> {
    ghost then = { Looks B.history B.start B.owner };
}

/// Gives the value back and passes the turn on.
pub struct Pass<B> {
    of: PhantomData<B>,
}

impl<B: Staged> Play<B, Views<B>> for Pass<B> {
    ghost then = { PassesTurn B.history B.owner };
}

/// Gives the next number to a new caller.
pub struct Fork;

impl<E, D> Split<View<E, D>> for Fork {
    ghost left = { remaining_view };

    ghost right = { new_view };
}

/// Ends a caller's number, and keeps what it had seen next to what the other caller had seen.
pub struct Merge;

impl<E, D> Join<View<E, D>> for Merge {
    ghost both = { merged_view };

    ghost spent = { spent_view };
}

/// Compares the two histories that a joined seat has seen, and keeps the longer.
pub struct Compare<B> {
    of: PhantomData<B>,
}

impl<B: Staged> Play<B, Views<B>> for Compare<B> {
    ghost then = { Compares B.owner };
}
