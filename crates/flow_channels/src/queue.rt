//! The queue of a channel. Its memory is allocated in advance, so that no move allocates.

ghost use Rattle.std.specs.Prelude.{◌≡◌, ◌<◌, [], ◌∷◌, ◌++◌, length, drop, slice_get, IfOk};

use common_values::memory::OutOfMemory;
use std::alloc::Global;
use std::collections::VecDeque;
use std::marker::Model;

/// The packets in a channel, by slot, the first packet first. Its space is limited.
#[derive(Drop)]
pub struct Queue {
    slots: VecDeque<u32>,
    places: usize,
}

impl Model for Queue {
    ghost use Rattle.std.specs.Prelude.{◌≤◌};
    ghost use Rattle.std.specs.VecDeque.{deque_capacity};
    ghost use Rattle.flow_channels.specs.Queue.{QueueOf};

    ghost Value = { QueueOf };

    ghost view = { λ q. record { places = q.places; slots = q.slots.items } };

    ghost invariant = { λ q. q.places ≤ deque_capacity q.slots };
}

impl Queue {
    /// Creates an empty queue with space for `places` packets.
    ///
    /// # Errors
    /// `OutOfMemory` if the allocation fails.
    pub fn new(alloc: Global, places: usize) -> Result<Self, OutOfMemory>
        ensures { IfOk result (λ queue. queue ≡ record { places = places; slots = [] }) }
    {
        Ok(Queue {
            slots: VecDeque::with_capacity(alloc, places)?,
            places,
        })
    }

    /// Returns the number of packets.
    pub fn len(&self) -> usize
        ensures { result ≡ length self.now.slots }
    {
        self.slots.len()
    }

    /// Returns the first packet, if there is one.
    pub fn first(&self) -> Option<u32>
        ensures { result ≡ slice_get self.now.slots 0 }
    {
        self.slots.front().copied()
    }

    /// Removes the first packet, if there is one.
    pub fn pop(&mut self)
        ensures { self.new ≡ record self.old { slots = drop 1 self.old.slots } }
    {
        let _left = self.slots.pop_front();
    }

    /// Adds the packet `slot` at the end, without allocating. There must be space.
    pub fn push(&mut self, slot: u32)
        requires { length self.old.slots < self.old.places }
        ensures { self.new ≡ record self.old { slots = self.old.slots ++ slot ∷ [] } }
    {
        match self.slots.push_back(slot) {
            Ok(()) => (),
            Err(_) => unreachable!(),
        }
    }
}
