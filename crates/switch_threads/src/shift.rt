//! The shift that threads make together, and all that they wait for.
//!
//! The workers are divided into parties, each of which has a thread; the driver belongs to the first party. One
//! party at a time is behind the door: there the driver, or all workers of a party one after the other, ask. With
//! the door closed behind it a party reads and changes the shared data, the `Hall`, and nowhere else.
//!
//! A party that has nothing to ask for rests until one of its workers is woken. If all rest and no worker is woken,
//! the first party continues, with the driver, after whose steps all workers are woken. So as long as the shift is
//! not over, at least one party does not rest. The shift is over once the driver gets an end, or an allocation of a
//! worker or the driver fails. A resting party checks for a while whether it can continue, and then sleeps at a
//! condition variable. A shift needs a thread for each party: if one does not begin soon, the shift is over at
//! once, and each party does what there is to do for it alone, in whatever order they come.
//!
//! `wakes.pml` next to the sources is a model of all this, and `tests/autonet/by-hand/wakeup-model` explores its
//! states.

use crate::rousing::{Roused, Rousing};
use std::hint::spin_loop;
use std::sync::atomic::{AtomicU64, Ordering};
use std::sync::{Condvar, Mutex, MutexGuard, Wait};
use std::thread::yield_now;

/// The party of the driver.
pub(crate) const FIRST: usize = 0;

// How often a party checks whether all others have begun.
const BEGIN_LOOKS: u32 = 2_000;

// How often a resting party checks whether it can continue, before it sleeps: for some milliseconds, so that its
// thread is mostly found awake, and need not be notified.
const REST_LOOKS: u32 = 4_000;

// How often a party at the door checks whether it is open before it sleeps, how many of these checks it makes
// before it yields at each one, and for how many pauses it waits between two checks until then.
const DOOR_LOOKS: u32 = 1_000;

const NEAR_LOOKS: u32 = 16;

const SPINS: u32 = 32;

// The number of bits for parties.
const MARKS: usize = 64;

// Waits a little at the door, after `looks` checks in vain.
fn stand(looks: u32) {
    if looks >= NEAR_LOOKS {
        yield_now();
        return;
    }
    for _ in 0..SPINS {
        spin_loop();
    }
}

// Returns the bit of a party. If there are more than 64, some share a bit, and can check the door in vain.
fn mark(party: usize) -> u64 {
    1u64 << (party % MARKS)
}

/// What a party does next.
#[derive(Clone, Copy)]
pub(crate) enum Then {
    /// Its workers make turns; these are woken.
    Turn(Roused),
    /// The driver makes its steps: all rest.
    Drive,
    /// Nothing: the shift is over.
    End,
}

/// What all parties share, behind the door.
#[derive(Drop)]
pub(crate) struct Hall {
    /// Which workers are woken.
    pub rousing: Rousing,
    // The number of parties, of those that have begun, and of those that rest.
    parties: usize,
    begun: usize,
    resting: usize,
    is_over: bool,
}

impl Hall {
    // Reports whether all parties rest, and no worker is woken.
    fn all_rest(&self) -> bool {
        self.resting == self.parties && !self.rousing.has_any()
    }

    // Reports whether a party that rests must continue.
    fn is_to_go_on(&self, party: usize) -> bool {
        self.rousing.has(party) || self.is_over || (party == FIRST && self.all_rest())
    }

    // Returns the parties that must continue where they rest, a bit for each.
    fn called(&self) -> u64 {
        let mut called = 0;
        for party in 0..self.parties {
            if self.is_to_go_on(party) {
                called |= mark(party);
            }
        }
        called
    }

    // Returns what a party that continues does.
    fn then(&mut self, party: usize) -> Then {
        if self.rousing.has(party) {
            return Then::Turn(self.rousing.take(party));
        }
        if self.is_over { Then::End } else { Then::Drive }
    }
}

/// A shift of several parties, each in a thread of its own if possible.
#[derive(Drop)]
pub(crate) struct Shift {
    door: Mutex<Hall>,
    bell: Condvar,
    // Which parties were called last. A resting party checks it before it sleeps; nothing else depends on it.
    called: AtomicU64,
}

impl Shift {
    /// Creates a shift that no party has begun, of `parties` parties with `each` workers, all of which are woken.
    pub fn new(parties: usize, each: usize) -> Shift {
        Shift {
            door: Mutex::new(Hall {
                rousing: Rousing::new(parties, each),
                parties,
                begun: 0,
                resting: 0,
                is_over: false,
            }),
            bell: Condvar::new(),
            called: AtomicU64::new(0),
        }
    }

    /// Waits until no party is behind the door. The door stays closed behind this one as long as the guard is kept.
    pub fn enter<R: Wait>(&self, rt: &R) -> MutexGuard<'_, Hall> {
        for looks in 0..DOOR_LOOKS {
            if let Some(hall) = self.door.try_lock() {
                return hall;
            }
            stand(looks);
        }
        self.door.lock(rt)
    }

    // Opens the door, and calls the parties that must continue.
    fn leave(&self, hall: MutexGuard<'_, Hall>) {
        let called = hall.called();
        self.called.store(called, Ordering::SeqCst);
        drop(hall);
        if called != 0 {
            self.bell.notify_all();
        }
    }

    /// Begins the shift for a party. The shift is over if others do not begin within a while.
    pub fn begin<R: Wait>(&self, rt: &R) {
        let mut hall = self.enter(rt);
        hall.begun = hall.begun.saturating_add(1);
        drop(hall);
        for _ in 0..BEGIN_LOOKS {
            let hall = self.enter(rt);
            if hall.begun == hall.parties {
                return;
            }
            drop(hall);
            yield_now();
        }
        let mut hall = self.enter(rt);
        if hall.begun < hall.parties {
            hall.is_over = true;
        }
        self.leave(hall);
    }

    // Checks for a while whether a party is called.
    fn look(&self, party: usize) {
        for _ in 0..REST_LOOKS {
            if self.called.load(Ordering::SeqCst) & mark(party) != 0 {
                return;
            }
            yield_now();
        }
    }

    /// Lets the others in after a party made its turns. Returns those of its workers that were woken meanwhile.
    pub fn take_roused(&self, hall: MutexGuard<'_, Hall>, party: usize) -> Roused {
        let mut hall = hall;
        let roused = hall.rousing.take(party);
        self.leave(hall);
        roused
    }

    /// Makes a party that has nothing to ask for rest until it must continue. The shift is over if an allocation of
    /// one of its workers failed. Returns what the party does next.
    pub fn rest<R: Wait>(
        &self,
        rt: &R,
        hall: MutexGuard<'_, Hall>,
        party: usize,
        failed: bool,
    ) -> Then {
        let mut hall = hall;
        hall.is_over = hall.is_over || failed;
        hall.resting = hall.resting.saturating_add(1);
        self.leave(hall);
        self.look(party);
        let mut hall = self
            .bell
            .wait_while(rt, self.enter(rt), |hall| !hall.is_to_go_on(party));
        hall.resting = hall.resting.saturating_sub(1);
        let then = hall.then(party);
        self.leave(hall);
        then
    }

    /// Wakes all workers after the driver made its steps; the shift is over if the driver has ended. Returns those
    /// of the driver's party that are woken.
    pub fn rouse_all(&self, hall: MutexGuard<'_, Hall>, has_ended: bool) -> Roused {
        let mut hall = hall;
        hall.is_over = hall.is_over || has_ended;
        hall.rousing.rouse_all();
        self.take_roused(hall, FIRST)
    }
}

/// Returns the party of the worker at an index after those of the first party, in parties of `each` workers.
pub(crate) fn party_after(worker: usize, each: usize) -> usize {
    worker.checked_div(each).unwrap_or(0).saturating_add(1)
}
