//! The ticket lock. The proof depends only on its tickets; the mutex before them only spares callers a busy wait.

ghost use Rattle.std.specs.Prelude.{◌≡◌, ℕ, ◌<◌, ◌≤◌, List, [], ◌∷◌, ◌++◌, IfOk};
ghost use mathlib.Core.Option.{some};
ghost use lib.ListN.{get_elem?};
ghost use Rattle.fabric_turn.specs.Calls.{Called, GivesBack, IsAtRest, IsFitFor, IsInTurn, TurnComes};
ghost use Rattle.fabric_turn.specs.History.{Extends, NoneOf, own_entries};
ghost use Rattle.fabric_turn.specs.Rule.{first_view, HasNumber};
ghost use Rattle.fabric_turn.specs.Seats.{HasAllNumbers, joined_view, new_view, remaining_view};

use crate::order::{Compare, Draw, Fork, Look, Merge, Opening, Order, Pass, Views};
use crate::seat::Seat;
use crate::staged::Staged;
use atomic_table::{Refused, Table};
use common_values::memory::OutOfMemory;
use std::alloc::Global;
use std::snapshot::Snapshot;
use std::sync::{Mutex, Wait};
use std::thread::yield_now;

type Place<B> = atomic_table::Seat<B, Views<B>>;

// The word that counts the tickets drawn.
const TICKETS: usize = 0;

// The word that counts the turns passed on; it is the ticket that is served.
const SERVING: usize = 1;

/// A value in a ticket lock. Callers share it by reference, and each call goes through a `Seat` of this turnstile.
///
/// Two words count the tickets drawn and the turns passed on, both modulo 2^64. A slot has the value while no
/// caller has it out.
#[derive(Drop)]
pub struct Turnstile<B: Staged> {
    table: Table<B, Views<B>, Opening<B>, Order<B>, Global>,
    // A caller waits here for those before it, so that the ticket that it then draws is served at once.
    queue: Mutex<()>,
    ghost sized: { (table.shared.table_id.words ≡ 2) × (table.shared.table_id.slots ≡ 1) },
}

impl<B: Staged> Turnstile<B> {
    ghost use Rattle.fabric_turn.specs.Names.{turnstile_id};

    /// Creates a turnstile around `book`, and its first seat. The seat has the caller number 0, can give the
    /// numbers 1 to `callers - 1`, and has seen an empty history.
    ///
    /// The caller must pass at least 1 as `callers`, and a `book` that represents the empty history.
    ///
    /// # Errors
    /// `OutOfMemory` if an allocation fails. `book` is then dropped.
    pub fn new(alloc: Global, book: B, callers: u32) -> Result<(Turnstile<B>, Seat<B>), OutOfMemory>
        requires callers { 0 < callers }
        requires empty { B.history book ≡ [] }
        ensures { IfOk result (λ t. t.1 ≡ (turnstile_id t.0, first_view callers (B.start book))) }
    {
        let mut slots = Vec::with_capacity(alloc, 1)?;
        let about = Opening {
            book: Snapshot::of(&book),
            callers,
        };
        slots.push_reserved(book);
        match Table::new(alloc, &[0, 0], slots, &about) {
            Ok((table, place)) => {
                let seat = Seat {
                    place,
                    number: 0,
                    next: 1,
                    callers,
                };
                let turnstile = Turnstile {
                    table,
                    queue: Mutex::new(()),
                };
                Ok((turnstile, seat))
            }
            Err(Refused { slots: _ }) => Err(OutOfMemory),
        }
    }

    // Draws a ticket and waits until it is served. The value is then out with the seat.
    fn wait_turn<R: Wait>(&self, rt: &R, place: &mut Place<B>)
        requires turnstile { place.old.table_id ≡ self.now.table.shared.table_id }
        requires rest { IsAtRest place.old.me }
        ensures turnstile { place.new.table_id ≡ place.old.table_id }
        ensures turn { TurnComes B.history B.start B.owner place.old.me.0 place.new.me }
    {
        let shared = &self.table.shared;
        let ticket = shared.fetch_add::<Draw>(place, TICKETS, 1);
        for _ in rt.forever() {
            let serving = shared.load::<Look<B>>(place, SERVING);
            if serving == ticket {
                return;
            }
            yield_now();
        }
        unreachable!()
    }

    // Gives the value back and passes the turn on.
    fn pass_turn(&self, place: &mut Place<B>)
        requires turnstile { place.old.table_id ≡ self.now.table.shared.table_id }
        requires turn { IsInTurn B.history B.start B.owner place.old.me }
        ensures turnstile { place.new.table_id ≡ place.old.table_id }
        ensures done { GivesBack B.history B.owner place.old.me place.new.me }
    {
        let shared = &self.table.shared;
        shared.fetch_add::<Pass<B>>(place, SERVING, 1);
    }

    /// Waits for the caller's turn, makes the ask `ask` of the value, passes the turn on and returns the reply.
    ///
    /// Afterwards the seat has seen more: what it had seen before, then entries of other callers, and then the
    /// call's own entry if it appended one. The reply is the reply of the value as it was just before that entry.
    /// The seat's `mine` gains the entry, and is all that the history so far has of this caller; the other parts of
    /// the seat do not change.
    ///
    /// The caller must pass a seat of this turnstile, and an ask that is fit for what the seat has seen. The call
    /// can wait for ever: we do not prove when the turn comes.
    pub fn call<R: Wait>(&self, rt: &R, seat: &mut Seat<B>, ask: B::Ask) -> B::Reply
        requires turnstile { seat.old.0 ≡ turnstile_id self.now }
        requires fit { IsFitFor B.fit seat.old.1 ask }
        ensures turnstile { seat.new.0 ≡ seat.old.0 }
        ensures called { Called B.owner B.answers seat.old.1 ask result seat.new.1 }
    {
        let others_wait = self.queue.lock(rt);
        self.wait_turn(rt, &mut seat.place);
        let book = seat.place.slot_mut(&self.table.shared, 0);
        let reply = book.act(seat.number, ask);
        self.pass_turn(&mut seat.place);
        drop(others_wait);
        reply
    }

    /// Makes a new caller, and returns the given seat and the new one. The first seat continues as it was, with one
    /// number less to give. The second has the lowest number that the given seat could give, has seen what that one
    /// has, has no entries of its own and gives no numbers.
    ///
    /// The caller must pass a seat of this turnstile that has a number to give.
    pub fn split(&self, mut seat: Seat<B>) -> (Seat<B>, Seat<B>)
        requires turnstile { seat.0 ≡ turnstile_id self.now }
        requires more { seat.1.next < seat.1.callers }
        ensures first { result.0 ≡ (seat.0, remaining_view seat.1) }
        ensures second { result.1 ≡ (seat.0, new_view seat.1) }
        ensures no_entry { NoneOf B.owner seat.1.next seat.1.seen }
    {
        let shared = &self.table.shared;
        let mut place = shared.split_seat::<Fork>(&mut seat.place);
        shared.load::<Compare<B>>(&mut place, TICKETS);
        let other = Seat {
            place,
            number: seat.next,
            next: seat.callers,
            callers: seat.callers,
        };
        seat.next += 1;
        (seat, other)
    }

    /// Ends the caller of `other`, and returns the first seat, with the numbers that it had and those that it could
    /// give. It has seen the longer of the two histories, which extends both. The number of `other` is ended with
    /// its entries, as are those that `other` had ended and, with no entries, those that it had not given.
    ///
    /// The caller must pass two seats of this turnstile.
    pub fn join(&self, mut seat: Seat<B>, other: Seat<B>) -> Seat<B>
        requires turnstile { seat.0 ≡ turnstile_id self.now }
        requires other_turnstile { other.0 ≡ turnstile_id self.now }
        ensures seat { result ≡ (seat.0, joined_view seat.1 other.1) }
        ensures first { Extends seat.1.seen result.1.seen }
        ensures second { Extends other.1.seen result.1.seen }
        ensures mine { own_entries B.owner result.1.seen seat.1.number ≡ seat.1.mine }
    {
        let Seat {
            place: ending,
            number: _,
            next: _,
            callers: _,
        } = other;
        let shared = &self.table.shared;
        shared.join_seat::<Merge>(&mut seat.place, ending);
        shared.load::<Compare<B>>(&mut seat.place, TICKETS);
        seat
    }

    /// Returns the value with the whole history, which is what the seat has seen.
    ///
    /// The history has the entries of all callers and no other: the seat's own are its `mine`, those of each ended
    /// caller are what the seat has of that caller, and no other number has an entry.
    ///
    /// The caller must pass a seat of this turnstile that has every caller number, as its own, as one that it could
    /// give, or as one that a join ended. So all other seats must have been joined to it.
    pub fn close(self, seat: Seat<B>) -> B
        requires turnstile { seat.0 ≡ turnstile_id self }
        requires all { HasAllNumbers seat.1 }
        ensures whole { B.history result ≡ seat.1.seen }
        ensures start { seat.1.start ≡ Some (B.start result) }

        // Of each number below `callers` the history has what the seat has of it.
        ensures mine { own_entries B.owner seat.1.seen seat.1.number ≡ seat.1.mine }
        ensures ended { (k : ℕ) (x : _) → get_elem? seat.1.ended k ≡ some x
            → own_entries B.owner seat.1.seen x.number ≡ x.mine }
        ensures spare { (n : ℕ) → seat.1.next ≤ n → own_entries B.owner seat.1.seen n ≡ [] }
        ensures covers { (n : ℕ) → n < seat.1.callers → HasNumber seat.1 n }
    {
        let Seat {
            place,
            number: _,
            next: _,
            callers: _,
        } = seat;
        let Turnstile { table, queue: _ } = self;
        let mut closed = table.close_with(place);
        let book = closed.take(0);
        closed.free();
        book
    }
}
