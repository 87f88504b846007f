//! Queues of frames: a region has the bytes, and the queues have their slips. A frame that changes queues keeps its
//! blocks.

ghost use Rattle.std.specs.Prelude.{◌≡◌, ◌+◌, ◌<◌, ◌≤◌, [], length, replicate, IfOk, IfErr, OnOk, OnErr};
ghost use Rattle.frame_region.specs.Sizes.{blocks_of};
ghost use Rattle.frame_region.specs.declared.buffer.TheConstants.{MOST_FRAME};
ghost use Rattle.frame_region.specs.declared.region.TheConstants.{MOST_BLOCKS};
ghost use Rattle.wire_set.specs.Frames.{FramesOf, clear, drop_first, frame, frames_at, move_first};
ghost use Rattle.wire_set.specs.Frames.{move_second};
ghost use Rattle.wire_set.specs.Frames.{occupied, put_frame};

use crate::queue::Queues;
use common_values::memory::OutOfMemory;
use frame_region::buffer::FrameBuf;
use frame_region::region::{NoRoom, Region};
use std::alloc::Global;
use std::marker::Model;

/// Queues of frames in the blocks of one region.
#[derive(Drop)]
pub struct Frames {
    region: Region,
    queues: Queues,
}

impl Model for Frames {
    ghost use Rattle.wire_set.specs.Frames.{FramesOf, stored, IsStored};

    ghost Value = { FramesOf };

    ghost view = { λ f. stored f.region f.queues };

    ghost invariant = { λ f. IsStored f.region f.queues };
}

impl Frames {
    /// Creates `queues` empty queues, with `blocks` free blocks, at most 1,048,576.
    ///
    /// # Errors
    /// `OutOfMemory` if an allocation fails.
    pub fn new(alloc: Global, queues: usize, blocks: u32) -> Result<Self, OutOfMemory>
        requires { blocks ≤ MOST_BLOCKS }
        ensures { IfOk result (λ frames. frames
            ≡ record { queues = replicate queues []; free = blocks; limit = blocks }) }
    {
        Ok(Frames {
            region: Region::new(alloc, blocks)?,
            queues: Queues::new(alloc, queues, blocks)?,
        })
    }

    /// Returns the number of free blocks: those that no frame occupies.
    pub fn free(&self) -> u32
        ensures free { result ≡ self.now.free }
        ensures law { self.now.free + occupied self.now ≡ self.now.limit }
    {
        self.region.free_blocks()
    }

    /// Returns the number of frames in queue `q`.
    pub fn len(&self, q: usize) -> u32
        requires { q < length self.now.queues }
        ensures len { result ≡ length (frames_at self.now q) }
        ensures most { result ≤ MOST_BLOCKS }
    {
        self.queues.len(q)
    }

    /// Appends a frame, of 1 to 22,591 `bytes`, to queue `q`.
    ///
    /// # Errors
    /// `NoRoom` if and only if fewer blocks are free than the frame needs. Nothing changes then.
    pub fn put(&mut self, q: usize, bytes: &[u8]) -> Result<(), NoRoom>
        requires q { q < length self.old.queues }
        requires least { 1 ≤ length bytes.now }
        requires most { length bytes.now ≤ MOST_FRAME }
        ensures ok { OnOk result (self.new ≡ put_frame q bytes.now self.old) }
        ensures room { OnOk result (blocks_of bytes.now ≤ self.old.free) }
        ensures refused { IfErr result (λ refusal.
            refusal ≡ record { need = blocks_of bytes.now; free = self.old.free }) }
        ensures no_room { OnErr result (self.old.free < blocks_of bytes.now) }
        ensures err { OnErr result (self.new ≡ self.old) }
    {
        match self.region.put(bytes) {
            Ok(slip) => {
                self.queues.push(q, slip);
                Ok(())
            }
            Err(refused) => Err(refused),
        }
    }

    /// Moves the first frame of queue `from` to queue `to`, and copies its bytes to `out`.
    ///
    /// There must be such a frame, and queue `to` must be empty.
    pub fn move_first(&mut self, from: usize, to: usize, out: &mut FrameBuf)
        requires some { 1 ≤ length (frames_at self.old from) }
        requires to { to < length self.old.queues }
        requires empty { frames_at self.old to ≡ [] }
        ensures out { out.new ≡ frame self.old from 0 }
        ensures least { 1 ≤ length out.new }
        ensures moved { self.new ≡ move_first from to self.old }
    {
        let slip = self.queues.pop(from);
        self.region.read(&slip, out);
        self.queues.push(to, slip);
    }

    /// Moves the second frame of queue `from` to queue `to`, and copies its bytes to `out`.
    ///
    /// There must be such a frame, and queue `to` must be empty.
    pub fn move_second(&mut self, from: usize, to: usize, out: &mut FrameBuf)
        requires two { 2 ≤ length (frames_at self.old from) }
        requires to { to < length self.old.queues }
        requires empty { frames_at self.old to ≡ [] }
        ensures out { out.new ≡ frame self.old from 1 }
        ensures least { 1 ≤ length out.new }
        ensures moved { self.new ≡ move_second from to self.old }
    {
        let slip = self.queues.pop_second(from);
        self.region.read(&slip, out);
        self.queues.push(to, slip);
    }

    /// Drops the first frame of queue `q`, which must have one, and frees its blocks.
    pub fn drop_first(&mut self, q: usize)
        requires { 1 ≤ length (frames_at self.old q) }
        ensures { self.new ≡ drop_first q self.old }
    {
        let slip = self.queues.pop(q);
        self.region.free(slip);
    }

    /// Drops all frames of queue `q`, and frees their blocks.
    pub fn clear(&mut self, q: usize)
        requires { q < length self.old.queues }
        ensures { self.new ≡ clear q self.old }
    {
        'frames: for _ in 0..self.len(q) {
            self.drop_first(q);
        }
    }
}
