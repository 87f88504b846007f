//! What is called around each turn of a worker.

use std::sync::Wait;

/// What is called around each turn of a worker, which is one call of the turnstile. Workers are numbered from 1 in
/// the order of the script, and each worker's turns from 1 over the whole run; a number that has reached 2^64 - 1
/// stays there.
///
/// A gate at which a worker can wait for another one says so, and each worker then has its own thread. At other
/// gates, if there are more than four workers, several share a thread. They make their turns one after the other,
/// after the `before` calls of all these turns and before their `after` calls. No round ends while a worker waits,
/// so a worker must not wait for a turn that another one makes only in a later round.
pub trait Gate: Sync {
    /// Reports whether a worker can wait here for another one.
    fn waits(&self) -> bool;

    /// Is called before a turn.
    fn before<R: Wait>(&self, rt: &R, worker: u8, turn: u64);

    /// Is called after a turn, once the workers to whom the workers of its thread sent frames are woken.
    fn after<R: Wait>(&self, rt: &R, worker: u8, turn: u64);
}

/// The gate that does nothing. No worker waits at it.
#[derive(Clone, Copy)]
pub struct Open;

impl Gate for Open {
    fn waits(&self) -> bool {
        false
    }

    fn before<R: Wait>(&self, _rt: &R, _worker: u8, _turn: u64) {}

    fn after<R: Wait>(&self, _rt: &R, _worker: u8, _turn: u64) {}
}
