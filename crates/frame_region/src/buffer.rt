//! One frame outside a region, in a buffer whose memory is reused for each frame.

ghost use Rattle.std.specs.Prelude.{◌≡◌, ◌+◌, ◌≤◌, ◌++◌, [], length, IfOk};
ghost use Rattle.frame_region.specs.declared.buffer.TheConstants.{MOST_FRAME};

use common_values::memory::OutOfMemory;
use std::alloc::Global;
use std::marker::Model;

/// The largest length of a frame in bytes.
pub const MOST_FRAME: usize = 22_591;

/// The bytes of one frame, at most 22,591, in memory that is allocated once.
#[derive(Drop)]
pub struct FrameBuf {
    bytes: Vec<u8>,
}

impl Model for FrameBuf {
    ghost use Rattle.std.specs.Prelude.{List, ℕ, ◌≤◌, length, vec_capacity};
    ghost use Rattle.frame_region.specs.declared.buffer.TheConstants.{MOST_FRAME};

    ghost Value = { List ℕ };

    ghost view = { λ b. b.bytes.items };

    ghost invariant = { λ b. (length b.bytes.items ≤ MOST_FRAME) × (MOST_FRAME ≤ vec_capacity b.bytes) };
}

impl FrameBuf {
    /// Creates an empty buffer, with memory for the longest frame.
    ///
    /// # Errors
    /// `OutOfMemory` if the allocation fails.
    pub fn new(alloc: Global) -> Result<Self, OutOfMemory>
        ensures { IfOk result (λ buffer. buffer ≡ []) }
    {
        Ok(FrameBuf {
            bytes: Vec::with_capacity(alloc, MOST_FRAME)?,
        })
    }

    /// Returns the bytes.
    pub fn bytes(&self) -> &[u8]
        ensures all { result.now ≡ self.now }
        ensures most { length self.now ≤ MOST_FRAME }
    {
        &self.bytes
    }

    /// Removes the bytes, and keeps the memory.
    pub fn clear(&mut self)
        ensures { self.new ≡ [] }
    {
        self.bytes.clear();
    }

    /// Appends `bytes` without allocating. Together with those before they must be at most `MOST_FRAME`.
    pub fn add(&mut self, bytes: &[u8])
        requires { length self.old + length bytes.now ≤ MOST_FRAME }
        ensures { self.new ≡ self.old ++ bytes.now }
    {
        let _added = self.bytes.extend_from_slice(bytes);
    }

    /// Appends `bytes` one by one, without allocating; for a few bytes this is faster than `add`.
    ///
    /// Together with those before they must be at most `MOST_FRAME`.
    pub fn add_few(&mut self, bytes: &[u8])
        requires { length self.old + length bytes.now ≤ MOST_FRAME }
        ensures { self.new ≡ self.old ++ bytes.now }
    {
        'bytes: for byte in bytes {
            self.bytes.push_reserved(*byte);
        }
    }
}
