//! A source and a sink for tests. Contracts say what every call returns; a list says which calls fail.

ghost use Rattle.std.specs.Prelude.{◌≡◌, ◌==◌, ◌<◌, ◌≤◌, [], length, take, IfOk};
ghost use Rattle.std.specs.List.{list_any};
ghost use Rattle.outside.specs.Told.{Gave, Gains, Ends, IsNoLess, OnlyFailed};
ghost use Rattle.outside.specs.Answers.{IfPart, OnEnd, OnFailed, IfTaken, OnNotTaken};
ghost use Rattle.outside.specs.Memory.{seen_source, seen_sink, read_answer, after_read, write_answer, after_write};

use crate::sink::{Sink, Took};
use crate::source::{Got, Source};
use common_values::memory::OutOfMemory;
use std::alloc::Global;
use std::marker::Model;

// Whether the list names this call.
fn is_listed(failing: &[u32], call: u64) -> bool
    ensures { result ≡ list_any (λ f. f == call) failing.now }
{
    failing.iter().any(|f| u64::from(*f) == call)
}

// Copies the front of the bytes to the front of a buffer.
fn copy_front(buf: &mut [u8], bytes: &[u8], n: usize)
    requires room { n ≤ length buf.old }
    requires given { n ≤ length bytes.now }
    ensures { take n buf.new ≡ take n bytes.now }
{
    buf[..n].copy_from_slice(&bytes[..n]);
}

/// A source of bytes in memory. A call fails if and only if its number, from 1, is listed.
///
/// Contracts see the bytes that are left, the list, the numbers of calls and of failures, which stay
/// at 2^64 - 1 once they reach it, and the most bytes that one read gives.
#[derive(Drop)]
pub struct MemorySource {
    bytes: Vec<u8>,
    at: usize,
    failing: Vec<u32>,
    calls: u64,
    faults: u64,
    cut: usize,
}

impl Model for MemorySource {
    ghost use Rattle.std.specs.Prelude.{drop, ◌≤◌, vec_len};
    ghost use Rattle.outside.specs.Memory.{SourceState};

    ghost Value = { SourceState };

    ghost view = { λ s. record { left = drop s.at s.bytes.items; failing = s.failing.items; calls = s.calls; faults = s.faults; cut = s.cut } };

    ghost invariant = { λ s. (s.at ≤ vec_len s.bytes) × (1 ≤ s.cut) };
}

impl MemorySource {
    /// Creates a source of `bytes`. Each read gives at most `cut` of them; calls listed in `failing` fail.
    ///
    /// The caller must pass a `cut` of at least 1.
    pub fn new(bytes: Vec<u8>, failing: Vec<u32>, cut: usize) -> MemorySource
        requires { 1 ≤ cut }
        ensures { result ≡ record { left = bytes.items; failing = failing.items; calls = 0; faults = 0; cut = cut } }
    {
        MemorySource {
            bytes,
            at: 0,
            failing,
            calls: 0,
            faults: 0,
            cut,
        }
    }
}

impl Source for MemorySource {
    ghost seen = { seen_source };

    fn read(&mut self, buf: &mut [u8]) -> Got
        requires { 0 < length buf.old }
        ensures answer { result ≡ read_answer self.old (length buf.old) }
        ensures after { self.new ≡ after_read self.old (length buf.old) }
        ensures count { IfPart result (λ n. (1 ≤ n) × (n ≤ length buf.old)) }
        ensures part { IfPart result (λ n. Gave (seen_source self.old) (seen_source self.new) (take n buf.new)) }
        ensures end { OnEnd result (Ends (seen_source self.old) (seen_source self.new)) }
        ensures failed { OnFailed result (OnlyFailed (seen_source self.old) (seen_source self.new)) }
        ensures kept { IsNoLess (seen_source self.old) (seen_source self.new) }
    {
        self.calls = self.calls.saturating_add(1);
        if is_listed(&self.failing, self.calls) {
            self.faults = self.faults.saturating_add(1);
            return Got::Failed;
        }
        let rest = &self.bytes[self.at..];
        if rest.is_empty() {
            return Got::End;
        }
        let n = rest.len().min(buf.len()).min(self.cut);
        copy_front(buf, rest, n);
        self.at += n;
        Got::Part(n)
    }
}

/// A sink in memory with a fixed space. A call fails if and only if its number, from 1, is listed, or no space is left.
///
/// Contracts see the bytes written, the space that is left, the list, and the numbers of calls and of failures, which
/// stay at 2^64 - 1 once they reach it.
#[derive(Drop)]
pub struct MemorySink {
    written: Vec<u8>,
    room: usize,
    failing: Vec<u32>,
    calls: u64,
    faults: u64,
}

impl Model for MemorySink {
    ghost use Rattle.std.specs.Prelude.{◌+◌, ◌≤◌, vec_len, vec_capacity};
    ghost use Rattle.outside.specs.Memory.{SinkState};

    ghost Value = { SinkState };

    ghost view = { λ s. record { written = s.written.items; room = s.room; failing = s.failing.items; calls = s.calls; faults = s.faults } };

    ghost invariant = { λ s. vec_len s.written + s.room ≤ vec_capacity s.written };
}

impl MemorySink {
    /// Creates an empty sink with space for `room` bytes. Calls listed in `failing` fail.
    ///
    /// It allocates all memory now: no write allocates.
    ///
    /// # Errors
    /// `OutOfMemory` if the allocation fails.
    pub fn new(alloc: Global, room: usize, failing: Vec<u32>) -> Result<MemorySink, OutOfMemory>
        ensures { IfOk result (λ sink. sink ≡ record { written = []; room = room; failing = failing.items; calls = 0; faults = 0 }) }
    {
        Ok(MemorySink {
            written: Vec::with_capacity(alloc, room)?,
            room,
            failing,
            calls: 0,
            faults: 0,
        })
    }

    /// Returns the bytes written.
    pub fn bytes(&self) -> &[u8]
        ensures { result.now ≡ self.now.written }
    {
        &self.written
    }
}

impl Sink for MemorySink {
    ghost seen = { seen_sink };

    fn write(&mut self, bytes: &[u8]) -> Took
        requires { 0 < length bytes.now }
        ensures answer { result ≡ write_answer self.old bytes.now }
        ensures after { self.new ≡ after_write self.old bytes.now }
        ensures count { IfTaken result (λ n. (1 ≤ n) × (n ≤ length bytes.now)) }
        ensures part { IfTaken result (λ n. Gains (seen_sink self.old) (seen_sink self.new) (take n bytes.now)) }
        ensures failed { OnNotTaken result (OnlyFailed (seen_sink self.old) (seen_sink self.new)) }
        ensures kept { IsNoLess (seen_sink self.old) (seen_sink self.new) }
    {
        self.calls = self.calls.saturating_add(1);
        if is_listed(&self.failing, self.calls) || self.room == 0 {
            self.faults = self.faults.saturating_add(1);
            return Took::Failed;
        }
        let n = bytes.len().min(self.room);
        self.written.extend_from_slice(&bytes[..n]).unwrap();
        self.room -= n;
        Took::Part(n)
    }
}
