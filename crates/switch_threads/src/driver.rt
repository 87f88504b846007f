//! The driver of a network.

ghost use Rattle.std.specs.Prelude.{◌≡◌, None, IfOk};
ghost use Rattle.net_script.specs.Scripts.{IsScript, ScriptOf};
ghost use Rattle.fabric_turn.specs.Names.{turnstile_id};
ghost use Rattle.fabric_turn.specs.Turnstiles.{TurnstileId};
ghost use Rattle.switch_threads.specs.Runs.{HasCalled, IsToldAt, driver_seat};
ghost use Rattle.switch_threads.specs.Workers.{IsDriving};

use common_values::memory::OutOfMemory;
use fabric_book::account::Account;
use fabric_book::book::Book;
use fabric_turn::{Seat, Turnstile};
use net_state::ending::Ending;
use net_state::work::Drive;
use net_world::ask::{Ask, Reply, Slip};
use std::alloc::Global;
use std::marker::Model;
use std::sync::Wait;

// The most steps in one round.
const STEPS: u32 = 64;

/// The driver: its seat, the end that it was given, if one has come, the lines of its events, and the slip on which
/// the book writes what the driver did, which is away while it asks.
#[derive(Drop)]
pub(crate) struct Driver {
    seat: Seat<Book>,
    end: Option<Ending>,
    account: Account,
    slip: Option<Box<Slip>>,
}

impl Model for Driver {
    ghost use Rattle.std.specs.Prelude.{◌≡◌, is_some, true};
    ghost use Rattle.switch_threads.specs.Runs.{DriverOf};
    ghost use Rattle.switch_threads.specs.Workers.{IsDriving};

    ghost Value = { DriverOf };

    ghost view = { λ d. record { seat = d.seat; end = d.end } };

    ghost invariant = { λ d. IsDriving d.seat.1 d.end d.account × (is_some d.slip ≡ true) };
}

impl Driver {
    /// Creates the driver with `seat`, which must be the first seat of a run after each worker got its number.
    ///
    /// # Errors
    /// `OutOfMemory` if an allocation fails.
    pub fn new(alloc: Global, seat: Seat<Book>) -> Result<Driver, OutOfMemory>
        requires { (turnstile : TurnstileId) × (script : ScriptOf) × IsScript script
            × (seat ≡ driver_seat turnstile script) }
        ensures { IfOk result (λ driver. driver ≡ record { seat = seat; end = None }) }
    {
        let slip = Slip {
            drive: Drive::Waits,
            told: None,
        };
        Ok(Driver {
            seat,
            end: None,
            account: Account::new(alloc),
            slip: Some(Box::new(alloc, slip)?),
        })
    }

    /// Returns the end that the driver was given, if any.
    pub fn end(&self) -> Option<Ending>
        ensures { result ≡ self.now.end }
    {
        self.end
    }

    /// Reports whether an allocation failed.
    pub fn failed(&self) -> bool {
        self.account.failed
    }

    /// Reports whether the driver makes no more steps: it was given an end, or an allocation failed.
    pub fn has_ended(&self) -> bool {
        self.end.is_some() || self.account.failed
    }

    /// Returns the driver's seat, and the lines of its events.
    ///
    /// # Errors
    /// `OutOfMemory` if an allocation of the report failed.
    pub fn into_parts(self) -> Result<(Seat<Book>, Account), OutOfMemory>
        ensures seat { IfOk result (λ parts. parts.0 ≡ self.seat) }
        ensures told { IfOk result (λ parts. IsToldAt self.seat parts.1) }
        ensures end { IfOk result (λ parts. IsDriving self.seat.1 self.end parts.1) }
    {
        if self.account.failed {
            return Err(OutOfMemory);
        }
        Ok((self.seat, self.account))
    }

    // Makes one step. Reports whether another one can follow at once.
    fn step<R: Wait>(&mut self, rt: &R, turnstile: &Turnstile<Book>) -> bool
        requires { self.old.seat.0 ≡ turnstile_id turnstile.now }
        ensures { HasCalled self.old.seat self.new.seat }
    {
        let Some(slip) = self.slip.take() else {
            unreachable!()
        };
        let ask = Ask::Drive { slip };
        let Reply::Drive { slip } = turnstile.call(rt, &mut self.seat, ask) else {
            unreachable!()
        };
        self.account.tell(slip.told);
        let drive = slip.drive;
        self.slip = Some(slip);
        match drive {
            Drive::Did(_event) => true,
            Drive::Waits => false,
            Drive::Ended(end) => {
                self.end = Some(end);
                false
            }
        }
    }

    /// Makes the steps of a round: until the driver waits, is given an end, or has done 64.
    pub fn steps<R: Wait>(&mut self, rt: &R, turnstile: &Turnstile<Book>)
        requires { self.old.seat.0 ≡ turnstile_id turnstile.now }
        ensures { HasCalled self.old.seat self.new.seat }
    {
        'steps: for _ in 0..STEPS {
            if !self.step(rt, turnstile) {
                return;
            }
        }
    }
}
