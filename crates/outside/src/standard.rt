//! Sources over std's readers and sinks over its writers. One type serves both, since only failures are known.

ghost use Rattle.std.specs.Prelude.{◌≡◌};
ghost use Rattle.outside.specs.Standard.{seen_standard};

use crate::sink::{Sink, Took};
use crate::source::{Got, Source};
use std::io::{Read, Write};
use std::marker::Model;

/// A reader or a writer of std.
///
/// A failed read is a failure, and so is a write that fails or takes no byte. Contracts see the
/// number of failures, which stays at 2^64 - 1 once it reaches it, but not the bytes.
#[derive(Drop)]
pub struct Standard<T> {
    inner: T,
    faults: u64,
}

/// A source over a reader.
pub type StdSource<T> = Standard<T>;

/// A sink over a writer.
pub type StdSink<T> = Standard<T>;

impl<T> Model for Standard<T> {
    ghost use Rattle.std.specs.Prelude.{ℕ};

    ghost Value = { ℕ };

    ghost view = { λ s. s.faults };
}

impl<T> Standard<T> {
    /// Wraps `inner`, a reader or a writer, with no failures so far.
    pub fn new(inner: T) -> Self
        ensures { result ≡ 0 }
    {
        Standard { inner, faults: 0 }
    }
}

impl<T: Read> Source for Standard<T> {
    ghost seen = { seen_standard };

    fn read(&mut self, buf: &mut [u8]) -> Got {
        match self.inner.read(buf) {
            Ok(0) => Got::End,
            Ok(n) => Got::Part(n),
            Err(_) => {
                self.faults = self.faults.saturating_add(1);
                Got::Failed
            }
        }
    }
}

impl<T: Write> Sink for Standard<T> {
    ghost seen = { seen_standard };

    fn write(&mut self, bytes: &[u8]) -> Took {
        match self.inner.write(bytes) {
            Ok(0) | Err(_) => {
                self.faults = self.faults.saturating_add(1);
                Took::Failed
            }
            Ok(n) => Took::Part(n),
        }
    }
}
