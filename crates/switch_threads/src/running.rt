//! A run: rounds of workers and driver, until the driver gets an end.

ghost use Rattle.std.specs.Prelude.{◌≡◌, ◌+◌, ◌<◌, [], All, Some, length, IfOk, IfSome, OnOk, vec_len};
ghost use Rattle.net_script.specs.Scripts.{IsScript, ScriptOf};
ghost use Rattle.net_world.specs.Histories.{IsLegal, end_of};
ghost use Rattle.net_settling.specs.Claims.{HoldsAndSettles};
ghost use Rattle.fabric_book.specs.Accounts.{AreAccounts};
ghost use Rattle.fabric_turn.specs.Names.{turnstile_id};
ghost use Rattle.fabric_turn.specs.Seats.{HasAllNumbers};
ghost use Rattle.switch_threads.specs.Runs.{AreToldBy, AreToldDown, AreWorkers, HasCalled, HasSeenMore, HaveCalled};
ghost use Rattle.switch_threads.specs.Runs.{IsSeatOf, IsWhole, driver_seat, first_seat};

use crate::driver::Driver;
use crate::gate::Gate;
use crate::rousing::Roused;
use crate::shift::{FIRST, Hall, Shift, Then, party_after};
use crate::worker::Worker;
use an_base::place::Place;
use common_values::memory::OutOfMemory;
use fabric_book::account::Account;
use fabric_book::book::Book;
use fabric_book::solo::Run;
use fabric_turn::{Seat, Turnstile};
use net_script::script::Script;
use net_state::ending::Ending;
use std::alloc::Global;
use std::sync::Wait;
use std::thread::{Threads, for_each_chunk_mut, join_mut};

/// A run, with the lines that report the events of each caller.
#[derive(Drop)]
pub struct Told {
    /// The run.
    pub run: Run,
    /// The lines of the driver's events, and then of each worker's in the order of the script.
    pub accounts: Vec<Account>,
}

// The most workers that have a thread of their own at any gate.
const FEW: usize = 4;

// The number of threads that share the workers if there are more, and the gate permits it. The calls of the book
// follow one another; with fewer workers in each, threads wait for one another longer than they work.
const THREADS: usize = 2;

// Creates a worker for each switch of a script, and returns them with the seat that is left.
fn open(
    alloc: Global,
    script: &Script,
    turnstile: &Turnstile<Book>,
    seat: Seat<Book>,
) -> Result<(Seat<Book>, Vec<Worker>), OutOfMemory>
    requires { seat ≡ first_seat (turnstile_id turnstile.now) script.now }
    ensures seat { IfOk result (λ r. r.0 ≡ driver_seat (turnstile_id turnstile.now) script.now) }
    ensures count { IfOk result (λ r. vec_len r.1 ≡ length script.now.wires.switches) }
    ensures workers { IfOk result (λ r. AreWorkers (turnstile_id turnstile.now) script.now r.1.items) }
    ensures script { IsScript script.now }
{
    let count = script.wiring().count();
    let mut seat = seat;
    let mut workers = Vec::with_capacity(alloc, usize::from(count))?;
    'switches: for s in 0..count {
        let (first, second) = turnstile.split(seat);
        seat = first;
        workers.push(Worker::new(alloc, script, Place(s), second)?)?;
    }
    Ok((seat, workers))
}

// Prepares a turn for each worker of a party; `roused` says which are woken.
fn prepare<R: Wait, G: Gate>(rt: &R, gate: &G, roused: Roused, workers: &mut [Worker])
    ensures { HaveCalled workers.old workers.new }
{
    'workers: for (place, worker) in workers.iter_mut().enumerate() {
        worker.prepare(rt, gate, roused.has(place));
    }
}

// Makes the turns that are due, one after the other.
fn ask<R: Wait>(rt: &R, turnstile: &Turnstile<Book>, hall: &mut Hall, workers: &mut [Worker])
    requires workers { All (λ worker. worker.0 ≡ turnstile_id turnstile.now) workers.old }
    ensures { HaveCalled workers.old workers.new }
{
    'workers: for worker in workers.iter_mut() {
        worker.turn(rt, turnstile, &mut hall.rousing);
    }
}

// Ends the turns that were made.
fn finish<R: Wait, G: Gate>(rt: &R, gate: &G, workers: &mut [Worker])
    ensures { HaveCalled workers.old workers.new }
{
    'workers: for worker in workers.iter_mut() {
        worker.finish(rt, gate);
    }
}

// Reports whether some of these workers make a turn.
fn are_asking(workers: &[Worker]) -> bool {
    workers.iter().any(|worker| worker.is_asking())
}

// Reports whether an allocation failed for some of these workers.
fn have_failed(workers: &[Worker]) -> bool {
    workers.iter().any(|worker| worker.failed())
}

// Makes the workers of a party ask if some have something to ask for, and otherwise rest. A processor loads the
// large data of the book once for all of them, because the other threads wait at the door. Returns what the party
// does next.
fn ask_or_rest<R: Wait>(
    rt: &R,
    turnstile: &Turnstile<Book>,
    shift: &Shift,
    party: usize,
    workers: &mut [Worker],
) -> Then
    requires workers { All (λ worker. worker.0 ≡ turnstile_id turnstile.now) workers.old }
    ensures { HaveCalled workers.old workers.new }
{
    let mut hall = shift.enter(rt);
    if !are_asking(workers) {
        return shift.rest(rt, hall, party, have_failed(workers));
    }
    ask(rt, turnstile, &mut hall, workers);
    Then::Turn(shift.take_roused(hall, party))
}

// Makes a turn for each worker of a party, or rests; `roused` says which are woken. Returns what the party does
// next.
fn turn<R: Wait, G: Gate>(
    rt: &R,
    turnstile: &Turnstile<Book>,
    gate: &G,
    shift: &Shift,
    party: usize,
    roused: Roused,
    workers: &mut [Worker],
) -> Then
    requires workers { All (λ worker. worker.0 ≡ turnstile_id turnstile.now) workers.old }
    ensures { HaveCalled workers.old workers.new }
{
    prepare(rt, gate, roused, workers);
    let then = ask_or_rest(rt, turnstile, shift, party, workers);
    finish(rt, gate, workers);
    then
}

// Makes turns for the workers of a party, in the first of which `roused` are woken, and rests, until the party must
// do something else. Reports whether the driver is to make its steps.
fn work<R: Wait, G: Gate>(
    rt: &R,
    turnstile: &Turnstile<Book>,
    gate: &G,
    shift: &Shift,
    party: usize,
    roused: Roused,
    workers: &mut [Worker],
) -> bool
    requires workers { All (λ worker. worker.0 ≡ turnstile_id turnstile.now) workers.old }
    ensures { HaveCalled workers.old workers.new }
{
    let mut roused = roused;
    'turns: for _ in rt.forever() {
        match turn(rt, turnstile, gate, shift, party, roused, workers) {
            Then::Turn(more) => roused = more,
            Then::Drive => return true,
            Then::End => return false,
        }
    }
    unreachable!()
}

// Makes the turns of a shift for a party without the driver.
fn stay<R: Wait, G: Gate>(
    rt: &R,
    turnstile: &Turnstile<Book>,
    gate: &G,
    shift: &Shift,
    party: usize,
    workers: &mut [Worker],
)
    requires { All (λ worker. worker.0 ≡ turnstile_id turnstile.now) workers.old }
    ensures { HaveCalled workers.old workers.new }
{
    shift.begin(rt);
    work(rt, turnstile, gate, shift, party, Roused::none(), workers);
}

// Makes the turns of a shift for all workers, `each` in each thread.
fn work_all<R: Threads + Wait + Sync, G: Gate>(
    rt: &R,
    turnstile: &Turnstile<Book>,
    gate: &G,
    shift: &Shift,
    each: usize,
    workers: &mut [Worker],
)
    requires each { 0 < each }
    requires workers { All (λ worker. worker.0 ≡ turnstile_id turnstile.now) workers.old }
    ensures { HaveCalled workers.old workers.new }
{
    for_each_chunk_mut(
        rt,
        workers,
        each,
        &|place: usize, part: &mut [Worker]|
            requires { All (λ worker. worker.0 ≡ turnstile_id turnstile.now) part.now }
            ensures { HaveCalled part.entry.now part.exit.now }
        { stay(rt, turnstile, gate, shift, party_after(place, each), part) },
    );
}

// Makes the driver's steps, and wakes all workers. Returns those of its party that are woken.
fn drive<R: Wait>(rt: &R, turnstile: &Turnstile<Book>, shift: &Shift, driver: &mut Driver) -> Roused
    requires { driver.old.seat.0 ≡ turnstile_id turnstile.now }
    ensures { HasCalled driver.old.seat driver.new.seat }
{
    let hall = shift.enter(rt);
    driver.steps(rt, turnstile);
    shift.rouse_all(hall, driver.has_ended())
}

// Makes the rounds of a shift for the driver and the workers of its party, the driver first.
fn lead<R: Wait, G: Gate>(
    rt: &R,
    turnstile: &Turnstile<Book>,
    gate: &G,
    shift: &Shift,
    driver: &mut Driver,
    workers: &mut [Worker],
)
    requires driver { driver.old.seat.0 ≡ turnstile_id turnstile.now }
    requires workers { All (λ worker. worker.0 ≡ turnstile_id turnstile.now) workers.old }
    ensures driver { HasCalled driver.old.seat driver.new.seat }
    ensures workers { HaveCalled workers.old workers.new }
{
    shift.begin(rt);
    'rounds: for _ in rt.forever() {
        let roused = drive(rt, turnstile, shift, driver);
        if !work(rt, turnstile, gate, shift, FIRST, roused, workers) {
            return;
        }
    }
}

// Returns the number of workers in a thread: one if they can wait for one another.
fn workers_each(waits: bool, workers: usize) -> usize
    ensures { 0 < result }
{
    if waits || workers <= FEW {
        return 1;
    }
    workers.div_ceil(THREADS)
}

// Makes a shift of the driver with the first workers and, in parallel, the other ones, `each` in each thread.
fn make_beside<R: Threads + Wait + Sync, G: Gate>(
    rt: &R,
    turnstile: &Turnstile<Book>,
    gate: &G,
    each: usize,
    driver: &mut Driver,
    first: &mut [Worker],
    others: &mut [Worker],
)
    requires each { 0 < each }
    requires driver { driver.old.seat.0 ≡ turnstile_id turnstile.now }
    requires first { All (λ worker. worker.0 ≡ turnstile_id turnstile.now) first.old }
    requires others { All (λ worker. worker.0 ≡ turnstile_id turnstile.now) others.old }
    ensures driver { HasCalled driver.old.seat driver.new.seat }
    ensures first { HaveCalled first.old first.new }
    ensures others { HaveCalled others.old others.new }
{
    let shift = Shift::new(others.len().div_ceil(each).saturating_add(1), each);
    let shift = &shift;
    join_mut(
        rt,
        &mut ||
            requires { (0 < each) × All (λ worker. worker.0 ≡ turnstile_id turnstile.now) others.now }
            ensures { HaveCalled others.entry.now others.exit.now }
        { work_all(rt, turnstile, gate, shift, each, others) },
        &mut ||
            requires driver { driver.now.seat.0 ≡ turnstile_id turnstile.now }
            requires workers { All (λ worker. worker.0 ≡ turnstile_id turnstile.now) first.now }
            ensures driver { HasCalled driver.entry.now.seat driver.exit.now.seat }
            ensures workers { HaveCalled first.entry.now first.exit.now }
        { lead(rt, turnstile, gate, shift, driver, first) },
    );
}

// Makes a shift: in each of its rounds the driver and all workers.
fn make<R: Threads + Wait + Sync, G: Gate>(
    rt: &R,
    turnstile: &Turnstile<Book>,
    gate: &G,
    driver: &mut Driver,
    workers: &mut [Worker],
)
    requires driver { driver.old.seat.0 ≡ turnstile_id turnstile.now }
    requires workers { All (λ worker. worker.0 ≡ turnstile_id turnstile.now) workers.old }
    ensures driver { HasCalled driver.old.seat driver.new.seat }
    ensures workers { HaveCalled workers.old workers.new }
{
    let each = workers_each(gate.waits(), workers.len());
    let (first, others) = workers.split_at_mut(each.min(workers.len()));
    make_beside(rt, turnstile, gate, each, driver, first, others);
}

// Makes shifts until the driver gets an end.
fn shifts<R: Threads + Wait + Sync, G: Gate>(
    rt: &R,
    turnstile: &Turnstile<Book>,
    gate: &G,
    driver: &mut Driver,
    workers: &mut [Worker],
) -> Result<Ending, OutOfMemory>
    requires driver { driver.old.seat.0 ≡ turnstile_id turnstile.now }
    requires workers { All (λ worker. worker.0 ≡ turnstile_id turnstile.now) workers.old }
    ensures driver { HasCalled driver.old.seat driver.new.seat }
    ensures workers { HaveCalled workers.old workers.new }
    ensures end { IfOk result (λ end. driver.new.end ≡ Some end) }
{
    'shifts: for _ in rt.forever() {
        make(rt, turnstile, gate, driver, workers);
        if driver.failed() || have_failed(workers) {
            return Err(OutOfMemory);
        }
        if let Some(end) = driver.end() {
            return Ok(end);
        }
    }
    unreachable!()
}

// Joins the seats of all workers to the driver's, the last one first, and adds the lines of each worker's events.
fn join_workers(
    script: &Script,
    turnstile: &Turnstile<Book>,
    seat: Seat<Book>,
    workers: Vec<Worker>,
    accounts: &mut Vec<Account>,
) -> Result<Seat<Book>, OutOfMemory>
    requires first { IsSeatOf (turnstile_id turnstile.now) script.now 0 seat }
    requires workers { AreWorkers (turnstile_id turnstile.now) script.now workers.items }
    requires all { vec_len workers ≡ length script.now.wires.switches }
    requires none { accounts.old.items ≡ [] }
    ensures seat { IfOk result (λ joined. IsWhole (turnstile_id turnstile.now) script.now joined) }
    ensures more { IfOk result (λ joined. HasSeenMore seat.1 joined.1) }
    ensures count { IfOk result (λ _. vec_len accounts.new ≡ length script.now.wires.switches) }
    ensures told { IfOk result (λ joined. AreToldDown script.now joined.1 accounts.new.items) }
{
    let mut seat = seat;
    let mut workers = workers;
    'workers: while let Some(worker) = workers.pop() {
        let (theirs, account) = worker.into_parts()?;
        seat = turnstile.join(seat, theirs);
        accounts.push(account)?;
    }
    Ok(seat)
}

// Joins all seats into one, and returns it with the lines of each caller's events, in the order of their numbers.
fn joined(
    alloc: Global,
    script: &Script,
    turnstile: &Turnstile<Book>,
    driver: Driver,
    workers: Vec<Worker>,
) -> Result<(Seat<Book>, Vec<Account>), OutOfMemory>
    requires driver { IsSeatOf (turnstile_id turnstile.now) script.now 0 driver.seat }
    requires workers { AreWorkers (turnstile_id turnstile.now) script.now workers.items }
    requires all { vec_len workers ≡ length script.now.wires.switches }
    ensures seat { IfOk result (λ r. IsWhole (turnstile_id turnstile.now) script.now r.0) }
    ensures end { IfOk result (λ r. IfSome driver.end (λ end. end_of script.now r.0.1.seen ≡ Some end)) }
    ensures told { IfOk result (λ r. AreToldBy script.now r.0.1 r.1.items) }
{
    let (seat, told) = driver.into_parts()?;
    let mut accounts = Vec::with_capacity(alloc, workers.len() + 1)?;
    let seat = join_workers(script, turnstile, seat, workers, &mut accounts)?;
    accounts.push(told)?;
    accounts.reverse();
    Ok((seat, accounts))
}

// Returns the whole run, whose history the seat has seen.
fn close(turnstile: Turnstile<Book>, seat: Seat<Book>, end: Ending, accounts: Vec<Account>) -> Told
    requires seat { (script : ScriptOf) × IsWhole (turnstile_id turnstile) script seat }
    ensures legal { (script : ScriptOf) → IsWhole (turnstile_id turnstile) script seat
        → end_of script seat.1.seen ≡ Some end → IsLegal script result.run.journal result.run.end }
    ensures told { (script : ScriptOf) → IsWhole (turnstile_id turnstile) script seat
        → AreToldBy script seat.1 accounts.items
        → AreAccounts script result.run.journal result.accounts.items }
{
    Told {
        run: Run {
            journal: turnstile.close(seat).into_journal(),
            end,
        },
        accounts,
    }
}

// Makes the run with this turnstile, of which only the first seat exists. Returns the seat that has seen the whole
// history, the end, and the lines of each caller's events.
fn run_with<R: Threads + Wait + Sync, G: Gate>(
    rt: &R,
    alloc: Global,
    script: &Script,
    gate: &G,
    turnstile: &Turnstile<Book>,
    seat: Seat<Book>,
) -> Result<(Seat<Book>, Ending, Vec<Account>), OutOfMemory>
    requires first { seat ≡ first_seat (turnstile_id turnstile.now) script.now }
    ensures seat { IfOk result (λ r. IsWhole (turnstile_id turnstile.now) script.now r.0) }
    ensures end { IfOk result (λ r. end_of script.now r.0.1.seen ≡ Some r.1) }
    ensures told { IfOk result (λ r. AreToldBy script.now r.0.1 r.2.items) }
    ensures script { OnOk result (IsScript script.now) }
{
    let (seat, mut workers) = open(alloc, script, turnstile, seat)?;
    let mut driver = Driver::new(alloc, seat)?;
    let end = shifts(rt, turnstile, gate, &mut driver, workers.as_mut_slice())?;
    let (seat, accounts) = joined(alloc, script, turnstile, driver, workers)?;
    Ok((seat, end, accounts))
}

/// Runs the network of `script`: a worker for each switch and the driver, in threads, until the driver gets an end.
/// `gate` is called around each turn of a worker. Returns a legal history and its end; all that is claimed of a
/// lawful history holds of it, also how soon it settles. With it come the lines that each caller reported of its
/// events: the driver's, and the workers' in the order of the script.
///
/// The call can run for ever: we do not prove when a turn comes, or that a thread is scheduled. Which legal history
/// it returns, and with which end, can differ from run to run.
///
/// # Errors
/// `OutOfMemory` if an allocation fails.
pub fn run<R: Threads + Wait + Sync, G: Gate>(
    rt: &R,
    alloc: Global,
    script: &Script,
    gate: &G,
) -> Result<Told, OutOfMemory>
    ensures legal { IfOk result (λ told. IsLegal script.now told.run.journal told.run.end) }
    ensures claims { IfOk result (λ told. HoldsAndSettles script.now told.run.journal) }
    ensures told { IfOk result (λ told. AreAccounts script.now told.run.journal told.accounts.items) }
{
    let book = Book::begin(alloc, script)?;
    let callers = u32::from(script.wiring().count()) + 1;
    let (turnstile, seat) = Turnstile::new(alloc, book, callers)?;
    let (seat, end, accounts) = run_with(rt, alloc, script, gate, &turnstile, seat)?;
    Ok(close(turnstile, seat, end, accounts))
}
