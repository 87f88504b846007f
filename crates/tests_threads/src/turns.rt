//! Turns (`fabric_turn`): a list of lines behind a turnstile, and threads that add to it.

ghost use Rattle.std.specs.Prelude.{◌≡◌, ◌+◌, ◌<◌, [], ◌∷◌, ◌++◌, All, IfOk, MatchOption, Some, length, vec_len};
ghost use Rattle.fabric_turn.specs.Names.{turnstile_id};
ghost use Rattle.fabric_turn.specs.Seats.{HasAllNumbers, HasOneNumber};
ghost use Rattle.fabric_turn.specs.Calls.{DifferByCalls};

use common_values::memory::OutOfMemory;
use fabric_turn::{Seat, Staged, Turnstile};
use std::alloc::Global;
use std::process::Abort;
use std::sync::Wait;
use std::test::Fail;
use std::thread::{Threads, for_each_mut, yield_now};

// The number of calls that each caller makes.
const CALLS: u64 = 1000;

#[derive(Clone, Copy)]
struct Line {
    caller: u32,
    number: u64,
}

// Lines with the numbers below `limit`, each of which takes `pauses` pauses to write.
#[derive(Drop)]
struct Tally {
    limit: u64,
    pauses: u32,
    lines: Vec<Line>,
}

impl Tally {
    fn new(alloc: Global, limit: u64, pauses: u32) -> Tally
        ensures { (result.limit ≡ limit) × (result.lines.items ≡ []) }
    {
        Tally {
            limit,
            pauses,
            lines: Vec::new(alloc),
        }
    }
}

impl Staged for Tally {
    type Ask = u64;

    // The number of lines before, or `None` if an allocation failed.
    type Reply = Option<usize>;

    type Entry = Line;

    type Start = u64;

    ghost start = { λ t. t.limit };

    ghost history = { λ t. t.lines.items };

    ghost owner = { λ line. line.caller };

    ghost fit = { λ limit _ _ ask. ask < limit };

    ghost answers = { λ _ before caller ask reply after. MatchOption reply (after ≡ before) (λ n. (n ≡ length before) × (after ≡ before ++ record { caller = caller; number = ask } ∷ [])) };

    fn act(&mut self, caller: u32, ask: u64) -> Option<usize> {
        for _ in 0..self.pauses {
            yield_now();
        }
        let before = self.lines.len();
        let line = Line {
            caller,
            number: ask,
        };
        match self.lines.push(line) {
            Ok(()) => Some(before),
            Err(_) => None,
        }
    }

    ghost stays_fit = { λ _ _ _ _ _ fit _. fit };
}

// Returns seats for all callers, the first seat last.
fn seats(
    turnstile: &Turnstile<Tally>,
    alloc: Global,
    mut seat: Seat<Tally>,
    others: u32,
) -> Result<Vec<Seat<Tally>>, OutOfMemory>
    requires turnstile { seat.0 ≡ turnstile_id turnstile.now }
    requires numbers { (seat.1.next ≡ 1) × (seat.1.callers ≡ others + 1) × (seat.1.ended ≡ []) }
    requires start { seat.1.start ≡ Some CALLS }
    ensures count { IfOk result (λ seats. vec_len seats ≡ others + 1) }
    ensures seats { IfOk result (λ seats. All (λ s. (s.0 ≡ turnstile_id turnstile.now) × (s.1.start ≡ Some CALLS) × HasOneNumber (others + 1) s.1) seats.items) }
{
    let mut seats = Vec::new(alloc);
    for _ in 0..others {
        let (first, other) = turnstile.split(seat);
        seat = first;
        seats.push(other)?;
    }
    seats.push(seat)?;
    Ok(seats)
}

// Makes the calls with the numbers below `CALLS`.
fn work<R: Wait>(rt: &R, turnstile: &Turnstile<Tally>, seat: &mut Seat<Tally>)
    requires turnstile { seat.old.0 ≡ turnstile_id turnstile.now }
    requires start { seat.old.1.start ≡ Some CALLS }
    ensures turnstile { seat.new.0 ≡ seat.old.0 }
    ensures same { DifferByCalls seat.old.1 seat.new.1 }
{
    for number in 0..CALLS {
        turnstile.call(rt, seat, number);
    }
}

// Makes each seat's calls, in a thread of its own.
fn work_all<R: Threads + Wait + Sync>(
    rt: &R,
    turnstile: &Turnstile<Tally>,
    callers: u32,
    seats: &mut [Seat<Tally>],
)
    requires { All (λ s. (s.0 ≡ turnstile_id turnstile.now) × (s.1.start ≡ Some CALLS) × HasOneNumber callers s.1) seats.old }
    ensures { All (λ s. (s.0 ≡ turnstile_id turnstile.now) × HasOneNumber callers s.1) seats.new }
{
    let threads = seats.len().max(1);
    for_each_mut(
        rt,
        seats,
        threads,
        &|_, seat: &mut Seat<Tally>|
            requires { (seat.now.0 ≡ turnstile_id turnstile.now) × (seat.now.1.start ≡ Some CALLS) × HasOneNumber callers seat.now.1 }
            ensures { (seat.exit.now.0 ≡ turnstile_id turnstile.entry.now) × HasOneNumber callers seat.exit.now.1 }
        {
            let _ = &callers;
            work(rt, turnstile, seat)
        },
    );
}

// Joins all seats into the last one.
fn joined(turnstile: &Turnstile<Tally>, callers: u32, mut seats: Vec<Seat<Tally>>) -> Seat<Tally>
    requires seats { All (λ s. (s.0 ≡ turnstile_id turnstile.now) × HasOneNumber callers s.1) seats.items }
    requires all { vec_len seats ≡ callers }
    requires some { 0 < callers }
    ensures turnstile { result.0 ≡ turnstile_id turnstile.now }
    ensures numbers { HasAllNumbers result.1 }
{
    let Some(mut seat) = seats.pop() else {
        unreachable!()
    };
    while let Some(other) = seats.pop() {
        seat = turnstile.join(seat, other);
    }
    seat
}

// Returns a tally, each line of which takes `pauses` pauses, after `callers` callers made their calls, each in a
// thread of its own.
fn tally_of<R: Threads + Wait + Sync>(
    rt: &R,
    alloc: Global,
    callers: u32,
    pauses: u32,
) -> Result<Tally, OutOfMemory>
    requires { 0 < callers }
{
    let tally = Tally::new(alloc, CALLS, pauses);
    let (turnstile, seat) = Turnstile::new(alloc, tally, callers)?;
    let mut all = seats(&turnstile, alloc, seat, callers - 1)?;
    work_all(rt, &turnstile, callers, all.as_mut_slice());
    let seat = joined(&turnstile, callers, all);
    Ok(turnstile.close(seat))
}

// Returns the number of lines of each of `callers` callers, and asserts that they are numbered in order.
fn counted(rt: &impl Abort, lines: &[Line], callers: u32) -> [u64; 16] {
    let mut next = [0u64; 16];
    for line in lines {
        let caller = line.caller as usize;
        assert!(rt; line.caller < callers && caller < 16, "caller {caller}");
        assert_eq!(rt; line.number, next[caller], "of caller {caller}");
        next[caller] = next[caller].wrapping_add(1);
    }
    next
}

// Asserts that these are the lines of all calls of `callers` callers, each caller's in order.
fn are_in_order(rt: &impl Abort, lines: &[Line], callers: u32) {
    for (caller, count) in counted(rt, lines, callers).iter().enumerate() {
        let calls = if caller < callers as usize { CALLS } else { 0 };
        assert_eq!(rt; *count, calls, "by caller {caller} of {callers}");
    }
}

#[test]
fn threads_add_all_lines_in_order(rt: HostRuntime) -> Result<(), Fail> {
    for callers in [1u32, 2, 4, 16] {
        let tally = tally_of(&rt, rt.alloc(), callers, 0)?;
        are_in_order(&rt, &tally.lines, callers);
    }
    Ok(())
}

// Each turn takes so long that the callers that wait for theirs sleep. If a turn ended and woke no caller, this
// test would not end.
#[test]
fn callers_that_sleep_meanwhile_are_woken(rt: HostRuntime) -> Result<(), Fail> {
    for callers in [2u32, 3, 8] {
        let tally = tally_of(&rt, rt.alloc(), callers, 20)?;
        are_in_order(&rt, &tally.lines, callers);
    }
    Ok(())
}
