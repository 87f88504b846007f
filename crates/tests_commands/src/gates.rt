//! Runs with gates at which workers wait for one another.

use crate::calls::{Streams, TWO, answer};
use an_base::event::{Event, Journal};
use net_script::reader::read;
use net_script::script::Script;
use std::alloc::Global;
use std::process::Abort;
use std::sync::Wait;
use std::sync::atomic::{AtomicU64, Ordering};
use std::test::Fail;
use std::thread::{Threads, yield_now};
use switch_threads::Gate;

// How often a waiting worker checks before it notes that it waited in vain.
const LOOKS: u32 = 100_000_000;

// The number of turns that a worker has begun, and ended.
#[derive(Drop)]
struct Turns {
    begun: AtomicU64,
    ended: AtomicU64,
}

impl Turns {
    fn new() -> Turns {
        Turns {
            begun: AtomicU64::new(0),
            ended: AtomicU64::new(0),
        }
    }
}

// What two workers have done, the number of waits that were in vain, and of calls that were not numbered in turn.
#[derive(Drop)]
struct Watch {
    a: Turns,
    b: Turns,
    vain: AtomicU64,
    wrong: AtomicU64,
}

impl Watch {
    fn new() -> Watch {
        Watch {
            a: Turns::new(),
            b: Turns::new(),
            vain: AtomicU64::new(0),
            wrong: AtomicU64::new(0),
        }
    }

    // Returns the turns of a worker.
    fn of(&self, worker: u8) -> &Turns {
        if worker == 1 { &self.a } else { &self.b }
    }

    // Notes that a worker begins or ends its turn `turn`, and checks that this is how many it has begun or ended.
    fn note(&self, count: &AtomicU64, turn: u64) {
        if count.fetch_add(1, Ordering::SeqCst).wrapping_add(1) != turn {
            self.wrong.fetch_add(1, Ordering::SeqCst);
        }
    }

    // Waits until a count is at least `least`.
    fn wait(&self, count: &AtomicU64, least: u64) {
        for _ in 0..LOOKS {
            if count.load(Ordering::SeqCst) >= least {
                return;
            }
            yield_now();
        }
        self.vain.fetch_add(1, Ordering::SeqCst);
    }

    // Reports whether each wait ended, turns were numbered from 1 on, and each worker made as many as its events
    // need.
    fn is_good(&self, journal: &Journal) -> bool {
        self.vain.load(Ordering::SeqCst) == 0
            && self.wrong.load(Ordering::SeqCst) == 0
            && self.a.ended.load(Ordering::SeqCst) >= events_of(journal, 0)
            && self.b.ended.load(Ordering::SeqCst) >= events_of(journal, 1)
    }
}

// Reports whether an event is one that the worker of a switch makes.
fn is_of(event: &Event, place: u8) -> bool {
    match event {
        Event::Clock { s } | Event::Take { s, .. } | Event::Handle { s } | Event::Load { s } => {
            s.as_u8() == place
        }
        _ => false,
    }
}

// Returns the number of such events of a switch.
fn events_of(journal: &Journal, place: u8) -> u64 {
    let events = journal.as_slice().iter();
    events.filter(|event| is_of(event, place)).count() as u64
}

// What the first turn of a worker waits for.
#[derive(Clone, Copy)]
enum First {
    // For the first turn of the other worker.
    Together,
    // For the end of the third turn of worker 2, if it is worker 1.
    Later,
}

// A watch at which workers wait.
#[derive(Drop)]
struct Waits {
    watch: Watch,
    first: First,
}

impl Waits {
    // Creates the waits of two workers that have done nothing yet.
    fn new(first: First) -> Waits {
        Waits {
            watch: Watch::new(),
            first,
        }
    }

    // Makes a worker wait before its first turn.
    fn wait(&self, worker: u8) {
        match self.first {
            First::Together => {
                self.watch.wait(&self.watch.a.begun, 1);
                self.watch.wait(&self.watch.b.begun, 1);
            }
            First::Later => {
                if worker == 1 {
                    self.watch.wait(&self.watch.b.ended, 3);
                }
            }
        }
    }
}

impl Gate for Waits {
    fn waits(&self) -> bool {
        true
    }

    fn before<R: Wait>(&self, _rt: &R, worker: u8, turn: u64) {
        self.watch.note(&self.watch.of(worker).begun, turn);
        if turn == 1 {
            self.wait(worker);
        }
    }

    fn after<R: Wait>(&self, _rt: &R, worker: u8, turn: u64) {
        self.watch.note(&self.watch.of(worker).ended, turn);
    }
}

// Returns what `run` writes for two switches, if its status is 0.
fn ran<R: Threads + Wait + Sync>(rt: &R, alloc: Global, gate: &Waits) -> Result<Streams, Fail> {
    let mut streams = Streams::new(alloc, 1_000, &[], 1_000_000, 1_000)?;
    match answer(rt, alloc, gate, &[b"run"], &mut streams)? {
        0 => Ok(streams),
        _ => Err("not settled".into()),
    }
}

// Returns the journal of two switches at the beginning of these bytes.
fn journal_of(alloc: Global, script: &Script, bytes: &[u8]) -> Result<Journal, Fail> {
    if bytes.len() > 1_000_000 {
        return Err("long".into());
    }
    match journal::reader::read(alloc, script, bytes) {
        Ok(journal) => Ok(journal),
        Err(_refusal) => Err("no journal".into()),
    }
}

// Reports whether a watch accepts the journal at the beginning of what `run` wrote.
fn is_good(alloc: Global, watch: &Watch, bytes: &[u8]) -> Result<bool, Fail> {
    let script = read(alloc, TWO)?;
    Ok(watch.is_good(&journal_of(alloc, &script, bytes)?))
}

#[test]
fn two_workers_make_their_first_turns_together(rt: HostRuntime) -> Result<(), Fail> {
    let gate = Waits::new(First::Together);
    let streams = ran(&rt, rt.alloc(), &gate)?;
    assert!(rt; is_good(rt.alloc(), &gate.watch, streams.out.bytes())?);
    Ok(())
}

// Asserts that the output begins with `first`.
fn begins(rt: &impl Abort, bytes: &[u8], first: &[u8]) {
    assert_eq!(rt; bytes.get(..first.len()), Some(first));
}

#[test]
fn a_worker_that_comes_later_makes_later_events(rt: HostRuntime) -> Result<(), Fail> {
    let gate = Waits::new(First::Later);
    let streams = ran(&rt, rt.alloc(), &gate)?;
    let bytes = streams.out.bytes();
    assert!(rt; is_good(rt.alloc(), &gate.watch, bytes)?);
    begins(
        &rt,
        bytes,
        b"journal 1\nclock B\nhandle B\nload B\nclock A\nhandle A\nload A\n",
    );
    Ok(())
}
