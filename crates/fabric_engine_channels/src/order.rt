//! Total orders of the channels.

use crate::channels::Channel;
use crate::table::{Table, places};
use common_values::memory::OutOfMemory;
use std::alloc::Global;

/// A total order of the channels. Routes along which it rises form no cycle, wherever they begin and end.
#[derive(Drop)]
pub struct Order {
    sequence: Vec<Channel>,
    places: Table<u32>,
}

impl Order {
    /// Creates the order of `sequence`, a list of all channels.
    ///
    /// # Errors
    /// `OutOfMemory`.
    pub fn of(alloc: Global, sequence: Vec<Channel>) -> Result<Order, OutOfMemory> {
        let places = places(alloc, &sequence)?;
        Ok(Order { sequence, places })
    }

    /// Returns the channels in ascending order.
    pub fn sequence(&self) -> &[Channel] {
        &self.sequence
    }

    /// Returns the index of `channel` in the order.
    #[inline]
    pub fn place(&self, channel: Channel) -> u32 {
        self.places.get(channel)
    }

    /// Reports whether the turn from `channel` to `next` rises.
    #[inline]
    pub fn rises(&self, channel: Channel, next: Channel) -> bool {
        self.place(channel) < self.place(next)
    }
}
