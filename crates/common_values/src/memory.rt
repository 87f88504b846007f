//! The one error of a failed allocation. `?` converts both of std's into it.

use std::alloc::{AllocError, AllocFailed};

/// An allocation failed. Every call that allocates can return this error, whatever its arguments.
#[derive(Clone, Copy, Debug, PartialEq, Eq)]
pub struct OutOfMemory;

impl From<AllocError> for OutOfMemory {
    fn from(_error: AllocError) -> OutOfMemory {
        OutOfMemory
    }
}

impl<T: Drop> From<AllocFailed<T>> for OutOfMemory {
    fn from(_error: AllocFailed<T>) -> OutOfMemory {
        OutOfMemory
    }
}
