//! Chains of blocks; the free blocks form one chain. Creating a region writes to none of them.

ghost use Rattle.std.specs.Prelude.{◌≡◌, ◌≢◌, min, ◌+◌, ◌-◌, ◌*◌, ◌<◌, ◌≤◌, ◌++◌, ℕ, length, take, replicate};
ghost use Rattle.std.specs.Prelude.{None, IfOk, IfErr, OnOk, OnErr, IsSome, slice_index_or, vec_capacity};
ghost use Rattle.frame_region.specs.declared.buffer.TheConstants.{MOST_FRAME};
ghost use Rattle.frame_region.specs.declared.region.TheConstants.{MOST_BLOCKS};
ghost use Rattle.frame_region.specs.Blocks.{after, block, chain_bytes};
ghost use Rattle.frame_region.specs.Sizes.{needed, blocks_of};
ghost use Rattle.frame_region.specs.Inside.{IsWritten};
ghost use Rattle.frame_region.specs.Regions.{bytes_at, held_at, piece_of, with_put, without};

use crate::buffer::FrameBuf;
use common_values::memory::OutOfMemory;
use std::alloc::Global;
use std::marker::Model;

/// The number of bytes in a block.
pub const BLOCK: usize = 64;

/// The largest number of blocks in a region.
pub const MOST_BLOCKS: u32 = 1_048_576;

/// The handle of bytes in a region, 1 to 22,591 of them. It cannot be copied.
///
/// The bytes stay until the slip is given back or, if it is dropped, until the region is dropped.
#[derive(Drop)]
pub struct Slip {
    first: u32,
}

impl Model for Slip {
    ghost use Rattle.std.specs.Prelude.{ℕ};

    ghost Value = { ℕ };

    ghost view = { λ s. s.first };
}

impl Slip {
    /// Returns the slip's number, which is below the number of the region's blocks.
    ///
    /// Two slips of one region that both have bytes have different numbers.
    pub fn number(&self) -> u32
        ensures { result ≡ self.now }
    {
        self.first
    }
}

/// Fewer blocks are free than the bytes need.
#[derive(Clone, Copy, Debug, PartialEq, Eq)]
pub struct NoRoom {
    /// The number of blocks that the bytes need, 1 to 353.
    pub need: u32,
    /// The number of free blocks.
    pub free: u32,
}

/// Blocks of 64 bytes, in memory that is allocated at once.
///
/// Each block names the next one of its chain; as long as it names none, that is the block with the next
/// number. The first block of a chain has the length of the byte string. What belongs to a block is first
/// written when that block, or one with a higher number, is first used.
#[derive(Drop)]
pub struct Region {
    bytes: Vec<u8>,
    next: Vec<u32>,
    lens: Vec<u16>,
    blocks: u32,
    first_free: u32,
    free: u32,
}

impl Model for Region {
    ghost use Rattle.std.specs.Prelude.{◌*◌, ◌≤◌, vec_capacity};
    ghost use Rattle.frame_region.specs.Regions.{RegionOf, shown, IsKept};

    ghost Value = { RegionOf };

    ghost view = { λ r. shown r.bytes.items r.next.items r.lens.items r.blocks r.free };

    ghost invariant = { λ r. IsKept r.bytes.items r.next.items r.lens.items r.blocks r.first_free r.free
        × (64 * r.blocks ≤ vec_capacity r.bytes) × (r.blocks ≤ vec_capacity r.next)
        × (r.blocks ≤ vec_capacity r.lens) };
}

// The number of blocks that `len` bytes need.
fn needed(len: usize) -> u32
    requires { len ≤ MOST_FRAME }
    ensures { result ≡ needed len }
{
    ((len + 63) / BLOCK) as u32
}

// Makes the list at least `end` long, without allocating, by appending `value`.
fn reach<T: Copy>(list: &mut Vec<T>, end: usize, value: T)
    requires { end ≤ vec_capacity list.old }
    ensures end { end ≤ length list.new.items }
    ensures more { length list.old.items ≤ length list.new.items }
    ensures room { vec_capacity list.old ≤ vec_capacity list.new }
    ensures items { list.new.items ≡ list.old.items ++ replicate (end - length list.old.items) value }
{
    if list.len() < end {
        let _reached = list.resize(end, value);
    }
}

// Writes a piece of at most 64 bytes at the front of a block.
fn write(bytes: &mut Vec<u8>, block: u32, piece: &[u8])
    requires most { length piece.now ≤ 64 }
    requires room { 64 * block + 64 ≤ vec_capacity bytes.old }
    ensures end { 64 * block + 64 ≤ length bytes.new.items }
    ensures more { length bytes.old.items ≤ length bytes.new.items }
    ensures room { vec_capacity bytes.old ≤ vec_capacity bytes.new }
    ensures piece { (m : ℕ) → m < length piece.now
        → slice_index_or bytes.new.items (64 * block + m) 0 ≡ slice_index_or piece.now m 0 }
    ensures others { (b m : ℕ) → m < 64 → b ≢ block
        → slice_index_or bytes.new.items (64 * b + m) 0 ≡ slice_index_or bytes.old.items (64 * b + m) 0 }
{
    let start = BLOCK * block as usize;
    reach(bytes, start + BLOCK, 0);
    bytes[start..start + piece.len()].copy_from_slice(piece);
}

// Piece `k`, from 0, of a frame: 64 bytes, or fewer for the last one.
fn piece_of(frame: &[u8], k: usize) -> &[u8]
    requires { 64 * k < length frame.now }
    ensures length { length result.now ≡ min 64 (length frame.now - 64 * k) }
    ensures bytes { (m : ℕ) → m < length result.now
        → slice_index_or result.now m 0 ≡ slice_index_or frame.now (64 * k + m) 0 }
{
    let rest = &frame[BLOCK * k..];
    &rest[..rest.len().min(BLOCK)]
}

// The front of a block: those of the `left` remaining bytes that lie in it.
fn front_of(bytes: &[u8], block: u32, left: usize) -> &[u8]
    requires { 64 * block + 64 ≤ length bytes.now }
    ensures length { length result.now ≡ min 64 left }
    ensures bytes { (m : ℕ) → m < length result.now
        → slice_index_or result.now m 0 ≡ slice_index_or bytes.now (64 * block + m) 0 }
{
    let start = BLOCK * block as usize;
    &bytes[start..start + left.min(BLOCK)]
}

// The block that follows `block`: the one with the next number as long as it names none.
fn after(next: &[u32], block: u32) -> u32
    requires { block < MOST_BLOCKS }
    ensures { result ≡ after next.now block }
{
    match next.get(block as usize) {
        Some(next) => *next,
        None => block + 1,
    }
}

// The block of a chain after `count` others.
fn block_after(next: &[u32], first: u32, count: u32) -> u32
    requires { (k : ℕ) → k < count → block next.now first k < MOST_BLOCKS }
    ensures { result ≡ block next.now first count }
{
    let mut block = first;
    'blocks: for _ in 0..count {
        block = after(next, block);
    }
    block
}

// Writes a frame into the blocks of a chain, and returns the block after them.
fn fill(bytes: &mut Vec<u8>, next: &[u32], first: u32, frame: &[u8]) -> u32
    requires most { length frame.now ≤ MOST_FRAME }
    requires within { (k : ℕ) → k < needed (length frame.now) → block next.now first k < MOST_BLOCKS }
    requires room { (k : ℕ) → k < needed (length frame.now)
        → 64 * block next.now first k + 64 ≤ vec_capacity bytes.old }
    requires apart { (i j : ℕ) → i < needed (length frame.now) → j < needed (length frame.now)
        → block next.now first i ≡ block next.now first j → i ≡ j }
    ensures end { result ≡ block next.now first (needed (length frame.now)) }
    ensures room { vec_capacity bytes.old ≤ vec_capacity bytes.new }
    ensures written { IsWritten next.now first frame.now bytes.old.items bytes.new.items }
{
    let mut block = first;
    'blocks: for k in 0..needed(frame.len()) as usize {
        write(bytes, block, piece_of(frame, k));
        block = after(next, block);
    }
    block
}

// Sets the buffer to the first `len` bytes of a chain.
fn gather(bytes: &[u8], next: &[u32], first: u32, len: usize, out: &mut FrameBuf)
    requires most { len ≤ MOST_FRAME }
    requires within { (k : ℕ) → k < needed len → block next.now first k < MOST_BLOCKS }
    requires written { (k : ℕ) → k < needed len → 64 * block next.now first k + 64 ≤ length bytes.now }
    ensures { out.new ≡ chain_bytes bytes.now next.now first len }
{
    out.clear();
    let mut block = first;
    'blocks: for k in 0..needed(len) as usize {
        out.add(front_of(bytes, block, len - BLOCK * k));
        block = after(next, block);
    }
}

// Makes all blocks up to `last` name the blocks that follow them then, without allocating.
fn name_following(next: &mut Vec<u32>, last: u32)
    requires room { last < vec_capacity next.old }
    requires most { last < MOST_BLOCKS }
    ensures end { last < length next.new.items }
    ensures room { vec_capacity next.new ≡ vec_capacity next.old }
    ensures same { (b : ℕ) → after next.new.items b ≡ after next.old.items b }
{
    'blocks: for block in next.len()..last as usize + 1 {
        next.push_reserved(block as u32 + 1);
    }
}

impl Region {
    /// Creates a region of `blocks` free blocks, at most 1,048,576.
    ///
    /// # Errors
    /// `OutOfMemory` if the allocation fails.
    pub fn new(alloc: Global, blocks: u32) -> Result<Self, OutOfMemory>
        requires { blocks ≤ MOST_BLOCKS }
        ensures { IfOk result (λ region. region ≡ record { held = replicate blocks None; free = blocks }) }
    {
        Ok(Region {
            bytes: Vec::with_capacity(alloc, BLOCK * blocks as usize)?,
            next: Vec::with_capacity(alloc, blocks as usize)?,
            lens: Vec::with_capacity(alloc, blocks as usize)?,
            blocks,
            first_free: 0,
            free: blocks,
        })
    }

    /// Returns the number of free blocks.
    pub fn free_blocks(&self) -> u32
        ensures free { result ≡ self.now.free }
        ensures most { self.now.free ≤ length self.now.held }
    {
        self.free
    }

    /// Stores `bytes` (1 to 22,591 of them) without allocating, and returns their slip.
    ///
    /// They need one block for each 64 bytes, and one for any remaining bytes.
    ///
    /// # Errors
    /// `NoRoom` if and only if fewer blocks are free than the bytes need. The region is then unchanged.
    pub fn put(&mut self, bytes: &[u8]) -> Result<Slip, NoRoom>
        requires least { 1 ≤ length bytes.now }
        requires most { length bytes.now ≤ MOST_FRAME }
        ensures put { IfOk result (λ slip. self.new ≡ with_put slip bytes.now self.old) }
        ensures new { IfOk result (λ slip. (slip < length self.old.held) × (held_at self.old slip ≡ None)) }
        ensures room { OnOk result (blocks_of bytes.now ≤ self.old.free) }
        ensures refused { IfErr result (λ refusal.
            refusal ≡ record { need = blocks_of bytes.now; free = self.old.free }) }
        ensures no_room { OnErr result (self.old.free < blocks_of bytes.now) }
        ensures err { OnErr result (self.new ≡ self.old) }
    {
        let need = needed(bytes.len());
        if self.free < need {
            return Err(NoRoom {
                need,
                free: self.free,
            });
        }
        let first = self.first_free;
        self.first_free = fill(&mut self.bytes, &self.next, first, bytes);
        self.free -= need;
        reach(&mut self.lens, first as usize + 1, 0);
        self.lens[first as usize] = bytes.len() as u16;
        Ok(Slip { first })
    }

    /// Returns the number of bytes that `slip` has, 1 to 22,591. The slip must be one of this region.
    pub fn len(&self, slip: &Slip) -> usize
        requires { IsSome (held_at self.now slip.now) }
        ensures len { result ≡ length (bytes_at self.now slip.now) }
        ensures least { 1 ≤ result }
        ensures most { result ≤ MOST_FRAME }
    {
        usize::from(self.lens[slip.first as usize])
    }

    /// Returns piece `i`, from 0, of the bytes that `slip` has: 64 bytes, or fewer for the last piece.
    ///
    /// The pieces in order are the bytes. The slip must be one of this region, and have this piece.
    pub fn piece(&self, slip: &Slip, i: usize) -> &[u8]
        requires has { IsSome (held_at self.now slip.now) }
        requires i { i < blocks_of (bytes_at self.now slip.now) }
        ensures { result.now ≡ piece_of i (bytes_at self.now slip.now) }
    {
        let left = self.len(slip) - BLOCK * i;
        let block = block_after(&self.next, slip.first, i as u32);
        front_of(&self.bytes, block, left)
    }

    /// Copies the bytes that `slip` has to `out`, and keeps them. The slip must be one of this region.
    pub fn read(&self, slip: &Slip, out: &mut FrameBuf)
        requires { IsSome (held_at self.now slip.now) }
        ensures { out.new ≡ bytes_at self.now slip.now }
    {
        gather(&self.bytes, &self.next, slip.first, self.len(slip), out);
    }

    /// Moves the bytes that `slip` has to `out`, and frees their blocks. The slip must be one of this region.
    pub fn take(&mut self, slip: Slip, out: &mut FrameBuf)
        requires { IsSome (held_at self.old slip) }
        ensures out { out.new ≡ bytes_at self.old slip }
        ensures taken { self.new ≡ without slip self.old }
    {
        self.read(&slip, out);
        self.free(slip);
    }

    /// Frees the blocks of the bytes that `slip` has. The slip must be one of this region.
    pub fn free(&mut self, slip: Slip)
        requires { IsSome (held_at self.old slip) }
        ensures { self.new ≡ without slip self.old }
    {
        let first = slip.first;
        let count = needed(usize::from(self.lens[first as usize]));
        let last = block_after(&self.next, first, count - 1);
        name_following(&mut self.next, last);
        self.next[last as usize] = self.first_free;
        self.first_free = first;
        self.free += count;
        self.lens[first as usize] = 0;
    }
}
