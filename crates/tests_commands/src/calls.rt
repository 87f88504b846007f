//! Calls over streams in memory, whose input is the script of two switches with a link.

ghost use Rattle.std.specs.Prelude.{◌≤◌};

use commands::top::autonet;
use common_values::text::Word;
use outside::memory::{MemorySink, MemorySource};
use std::alloc::Global;
use std::sync::Wait;
use std::test::Fail;
use std::thread::Threads;
use switch_threads::Gate;

/// The input.
pub const TWO: &[u8] =
    b"autonet 1\nswitch A 000000000001\nswitch B 000000000002\nlink A 1 B 1\nend\n";

/// The streams of a call.
#[derive(Drop)]
pub struct Streams {
    source: MemorySource,
    /// The output of the call.
    pub out: MemorySink,
    /// The line of the status.
    pub err: MemorySink,
}

impl Streams {
    /// Creates streams of which one read gives at most `cut` bytes, the reads `failing` fail, and `out` and `err`
    /// have this much space.
    ///
    /// # Errors
    /// A failed allocation.
    pub fn new(
        alloc: Global,
        cut: usize,
        failing: &[u32],
        out: usize,
        err: usize,
    ) -> Result<Streams, Fail>
        requires { 1 ≤ cut }
    {
        Ok(Streams {
            source: MemorySource::new(TWO.to_vec(alloc)?, failing.to_vec(alloc)?, cut),
            out: MemorySink::new(alloc, out, Vec::new(alloc))?,
            err: MemorySink::new(alloc, err, Vec::new(alloc))?,
        })
    }
}

// Returns the arguments of a call.
fn words_of(alloc: Global, words: &[&[u8]]) -> Result<Vec<Word>, Fail> {
    let mut list = Vec::new(alloc);
    for word in words {
        list.push(Word::of(alloc, word)?)?;
    }
    Ok(list)
}

/// Makes a call with these arguments, and returns its status.
///
/// # Errors
/// A failed allocation of the arguments.
pub fn answer<R: Threads + Wait + Sync, G: Gate>(
    rt: &R,
    alloc: Global,
    gate: &G,
    words: &[&[u8]],
    streams: &mut Streams,
) -> Result<u8, Fail> {
    let list = words_of(alloc, words)?;
    Ok(autonet(
        rt,
        alloc,
        &list,
        gate,
        &mut streams.source,
        &mut streams.out,
        &mut streams.err,
    ))
}
