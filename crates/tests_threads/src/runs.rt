//! Whole runs in threads (`switch_threads`).

use an_base::event::Journal;
use common_values::text::push_decimal;
use net_script::reader::read;
use net_state::ending::Ending;
use std::alloc::{AllocError, Global};
use std::process::Abort;
use std::sync::Wait;
use std::sync::atomic::{AtomicU64, Ordering};
use std::test::Fail;
use std::thread::{Threads, yield_now};
use switch_threads::{Gate, run};

// How often a worker checks for the others before it gives up.
const LOOKS: u32 = 20_000_000;

// Two switches with a link, one of which begins a second life, and a switch without a link.
const THREE: &[u8] =
    b"autonet 1\nswitch A 000000000001\nswitch B 000000000002\nswitch C 000000000003\nlink A 1 B 1\nat 40 restart B\nend\n";

// The number of turns that each worker made, and the number of turns that were not numbered from 1 on.
#[derive(Drop)]
struct Turns {
    made: [AtomicU64; 3],
    wrong: AtomicU64,
}

impl Turns {
    // Checks that `turn` turns were made by a worker, once `more` are added.
    fn look(&self, worker: u8, turn: u64, more: u64) {
        let made = match self.made.get(usize::from(worker).wrapping_sub(1)) {
            Some(made) => made.fetch_add(more, Ordering::SeqCst),
            None => u64::MAX,
        };
        if made.wrapping_add(more) != turn {
            self.wrong.fetch_add(1, Ordering::SeqCst);
        }
    }
}

impl Gate for Turns {
    fn waits(&self) -> bool {
        false
    }

    fn before<R: Wait>(&self, _rt: &R, worker: u8, turn: u64) {
        self.look(worker, turn, 1);
    }

    fn after<R: Wait>(&self, _rt: &R, worker: u8, turn: u64) {
        self.look(worker, turn, 0);
    }
}

// The number of workers, of those that came to their first turn, and of those that checked for the others in vain.
#[derive(Drop)]
struct Meeting {
    all: u64,
    came: AtomicU64,
    alone: AtomicU64,
}

impl Meeting {
    // Creates a meeting of `all` workers, none of which has come.
    fn of(all: u64) -> Meeting {
        Meeting {
            all,
            came: AtomicU64::new(0),
            alone: AtomicU64::new(0),
        }
    }
}

impl Gate for Meeting {
    fn waits(&self) -> bool {
        true
    }

    fn before<R: Wait>(&self, _rt: &R, _worker: u8, turn: u64) {
        if turn != 1 {
            return;
        }
        self.came.fetch_add(1, Ordering::SeqCst);
        for _ in 0..LOOKS {
            if self.came.load(Ordering::SeqCst) == self.all {
                return;
            }
            yield_now();
        }
        self.alone.fetch_add(1, Ordering::SeqCst);
    }

    fn after<R: Wait>(&self, _rt: &R, _worker: u8, _turn: u64) {}
}

// Returns the journal of a run of the network of this text, which must settle.
fn settled<R: Threads + Wait + Sync + Abort, G: Gate>(
    rt: &R,
    alloc: Global,
    text: &[u8],
    gate: &G,
) -> Result<Journal, Fail> {
    assert!(rt; text.len() < 4_294_967_295);
    let script = read(alloc, text)?;
    let run = run(rt, alloc, &script, gate)?;
    assert!(rt; matches!(run.run.end, Ending::Settled));
    Ok(run.run.journal)
}

// Asserts that each worker made turns, and that all were numbered from 1 on.
fn are_numbered(rt: &impl Abort, turns: &Turns) {
    assert_eq!(rt; turns.wrong.load(Ordering::SeqCst), 0);
    for made in &turns.made {
        assert!(rt; made.load(Ordering::SeqCst) > 0);
    }
}

#[test]
fn the_gate_is_called_round_each_turn(rt: HostRuntime) -> Result<(), Fail> {
    let gate = Turns {
        made: [AtomicU64::new(0), AtomicU64::new(0), AtomicU64::new(0)],
        wrong: AtomicU64::new(0),
    };
    settled(&rt, rt.alloc(), THREE, &gate)?;
    are_numbered(&rt, &gate);
    Ok(())
}

// Asserts that all workers met.
fn have_met(rt: &impl Abort, meeting: &Meeting) {
    assert_eq!(rt; meeting.came.load(Ordering::SeqCst), meeting.all);
    assert_eq!(rt; meeting.alone.load(Ordering::SeqCst), 0);
}

#[test]
fn workers_run_beside_each_other(rt: HostRuntime) -> Result<(), Fail> {
    let gate = Meeting::of(3);
    settled(&rt, rt.alloc(), THREE, &gate)?;
    have_met(&rt, &gate);
    Ok(())
}

// Returns a row of thirty switches, each with a link to the next.
fn thirty(alloc: Global) -> Result<Vec<u8>, AllocError> {
    let mut text = Vec::new(alloc);
    text.extend_from_slice(b"autonet 1\n")?;
    'switches: for s in 10..40u64 {
        text.extend_from_slice(b"switch S")?;
        push_decimal(alloc, &mut text, s)?;
        text.extend_from_slice(b" 0000000000")?;
        push_decimal(alloc, &mut text, s)?;
        text.extend_from_slice(b"\n")?;
    }
    'links: for s in 10..39u64 {
        text.extend_from_slice(b"link S")?;
        push_decimal(alloc, &mut text, s)?;
        text.extend_from_slice(b" 1 S")?;
        push_decimal(alloc, &mut text, s + 1)?;
        text.extend_from_slice(b" 2\n")?;
    }
    text.extend_from_slice(b"end\n")?;
    Ok(text)
}

#[test]
fn thirty_workers_run_beside_each_other(rt: HostRuntime) -> Result<(), Fail> {
    let gate = Meeting::of(30);
    let text = thirty(rt.alloc())?;
    settled(&rt, rt.alloc(), &text, &gate)?;
    have_met(&rt, &gate);
    Ok(())
}

// How often a slow worker yields: several times as often as a resting party checks before it sleeps.
const PAUSES: u32 = 20_000;

// A gate at which one worker is so slow before each sixteenth turn that the threads of the others sleep meanwhile.
#[derive(Drop)]
struct Slow {
    worker: u8,
}

impl Gate for Slow {
    fn waits(&self) -> bool {
        false
    }

    fn before<R: Wait>(&self, _rt: &R, worker: u8, turn: u64) {
        if worker == self.worker && turn % 16 == 0 {
            for _ in 0..PAUSES {
                yield_now();
            }
        }
    }

    fn after<R: Wait>(&self, _rt: &R, _worker: u8, _turn: u64) {}
}

#[test]
fn threads_that_sleep_meanwhile_are_woken(rt: HostRuntime) -> Result<(), Fail> {
    for worker in 1..=3 {
        settled(&rt, rt.alloc(), THREE, &Slow { worker })?;
    }
    Ok(())
}
