//! The worker of a switch.

ghost use Rattle.std.specs.Prelude.{◌≡◌, ◌+◌, ◌<◌, [], length, IfOk, Some};
ghost use Rattle.fabric_turn.specs.Names.{turnstile_id};
ghost use Rattle.switch_threads.specs.Runs.{HasCalled, IsToldAt};

use crate::desk::{Desk, Next, Papers};
use crate::gate::Gate;
use crate::rousing::{Neighbours, Rousing};
use an_base::place::Place;
use common_values::memory::OutOfMemory;
use fabric_book::account::Account;
use fabric_book::book::Book;
use fabric_turn::{Seat, Turnstile};
use net_script::script::Script;
use std::alloc::Global;
use std::marker::Model;
use std::sync::Wait;

/// The worker of a switch: its number, its seat, the number of turns that it made, whether it makes one, the
/// switches at its links, what it works with, and what it does next. Contracts see its seat. While it asks it has
/// no papers. If an allocation fails while it gets ready, it never has papers again, because its switch and the
/// book no longer agree.
#[derive(Drop)]
pub(crate) struct Worker {
    number: u8,
    seat: Seat<Book>,
    turns: u64,
    is_asking: bool,
    neighbours: Neighbours,
    desk: Desk,
    papers: Option<Papers>,
    next: Next,
}

impl Model for Worker {
    ghost use Rattle.std.specs.Prelude.{IfSome};
    ghost use Rattle.switch_threads.specs.Runs.{SeatOf};

    ghost Value = { SeatOf };

    ghost use Rattle.switch_threads.specs.Workers.{IsInStep};

    ghost view = { λ w. w.seat };

    ghost invariant = { λ w. IfSome w.papers (λ papers. IsInStep w.seat.1 w.desk papers w.next) };
}

impl Worker {
    /// Creates the worker of the switch `s`, which begins its first life.
    ///
    /// The caller must pass a switch of the script, and a seat of a book that was started with `script`, with the
    /// number `s` + 1, which has seen nothing.
    ///
    /// # Errors
    /// `OutOfMemory` if an allocation fails.
    pub fn new(
        alloc: Global,
        script: &Script,
        s: Place,
        seat: Seat<Book>,
    ) -> Result<Worker, OutOfMemory>
        requires within { s < length script.now.wires.switches }
        requires begun { seat.1.start ≡ Some script.now }
        requires number { seat.1.number ≡ s + 1 }
        requires first { (seat.1.seen ≡ []) × (seat.1.mine ≡ []) }
        ensures { IfOk result (λ worker. worker ≡ seat) }
    {
        let (desk, papers) = Desk::new(alloc, script, s)?;
        Ok(Worker {
            number: desk.s.as_u8() + 1,
            seat,
            turns: 0,
            is_asking: false,
            neighbours: Neighbours::of(script, s),
            desk,
            papers: Some(papers),
            next: Next::Ask,
        })
    }

    /// Reports whether an allocation failed.
    pub fn failed(&self) -> bool {
        self.papers.is_none() || self.desk.tale.account.failed
    }

    /// Returns the worker's seat, and the lines of its events.
    ///
    /// # Errors
    /// `OutOfMemory` if an allocation of the worker failed.
    pub fn into_parts(self) -> Result<(Seat<Book>, Account), OutOfMemory>
        ensures seat { IfOk result (λ parts. parts.0 ≡ self) }
        ensures told { IfOk result (λ parts. IsToldAt self parts.1) }
    {
        let Worker {
            seat,
            desk,
            papers,
            ..
        } = self;
        let Some(_papers) = papers else {
            return Err(OutOfMemory);
        };
        Ok((seat, desk.into_account()?))
    }

    /// Reports whether the worker makes a turn.
    pub fn is_asking(&self) -> bool {
        self.is_asking
    }

    /// Gets ready for a turn, if there is to be one: a worker that found nothing to do makes none until it is
    /// woken.
    pub fn prepare<R: Wait, G: Gate>(&mut self, rt: &R, gate: &G, is_roused: bool)
        ensures { HasCalled self.old self.new }
    {
        if !self.next.is_due(is_roused) {
            return;
        }
        let Some(mut papers) = self.papers.take() else {
            return;
        };
        let Ok(next) = self
            .desk
            .ready(&mut papers, self.next.once_roused(is_roused))
        else {
            return;
        };
        self.next = next;
        self.is_asking = self.next.is_ask();
        self.papers = Some(papers);
        self.begin(rt, gate);
    }

    // Begins the turn, if there is to be one.
    fn begin<R: Wait, G: Gate>(&mut self, rt: &R, gate: &G)
        ensures { self.new ≡ self.old }
    {
        if self.is_asking {
            self.turns = self.turns.saturating_add(1);
            gate.before(rt, self.number, self.turns);
        }
    }

    /// Makes the turn, if there is to be one, and wakes the workers to whom it sent frames in it.
    pub fn turn<R: Wait>(&mut self, rt: &R, turnstile: &Turnstile<Book>, rousing: &mut Rousing)
        requires { self.old.0 ≡ turnstile_id turnstile.now }
        ensures { HasCalled self.old self.new }
    {
        if !self.is_asking {
            return;
        }
        let Next::Ask = self.next else {
            return;
        };
        let is_putting = self.desk.is_putting();
        if let Some(papers) = self.papers.take() {
            let (papers, next) = self.desk.ask(rt, turnstile, &mut self.seat, papers);
            if is_putting {
                self.neighbours.rouse(papers.sent(), rousing);
            }
            self.papers = Some(papers);
            self.next = next;
        }
    }

    /// Ends the turn that it made.
    pub fn finish<R: Wait, G: Gate>(&mut self, rt: &R, gate: &G)
        ensures { HasCalled self.old self.new }
    {
        if self.is_asking {
            self.is_asking = false;
            gate.after(rt, self.number, self.turns);
        }
    }
}
