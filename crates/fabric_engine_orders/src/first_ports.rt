//! An order in which the turns of given routes rise, if there is one.

use common_values::memory::OutOfMemory;
use fabric_engine_channels::amount::Change;
use fabric_engine_channels::channels::{Channel, Channels};
use fabric_engine_channels::order::Order;
use fabric_engine_channels::table::Table;
use std::alloc::Global;

// Which channels come first: those whose turns from others are all passed.
#[derive(Drop)]
struct Queue {
    // From how many channels routes turn to each and have not been passed.
    waits: Table<u32>,
    ready: Vec<Channel>,
}

impl Queue {
    // No channels yet.
    fn new(alloc: Global, count: u32) -> Result<Queue, OutOfMemory> {
        Ok(Queue {
            waits: Table::filled(alloc, count, 0u32)?,
            ready: Vec::with_capacity(alloc, count as usize)?,
        })
    }

    // Finds the channels to which no route turns.
    fn begin(&mut self, channels: &Channels, weights: &Table<u32>) -> Result<(), OutOfMemory> {
        'counts: for number in 0..channels.count() {
            self.count(channels, weights, Channel(number));
        }
        'first: for number in 0..channels.count() {
            if self.waits.get(number) == 0 {
                self.ready.push(Channel(number))?;
            }
        }
        Ok(())
    }

    // Passes all channels, if the turns close no cycle. Answers whether it did.
    fn pass_all(&mut self, channels: &Channels, weights: &Table<u32>) -> Result<bool, OutOfMemory> {
        self.begin(channels, weights)?;
        'ready: for place in 0..channels.count() {
            let Some(channel) = self.ready.get(place as usize).copied() else {
                return Ok(false);
            };
            self.pass(channels, weights, channel)?;
        }
        Ok(true)
    }

    // Counts the turns from a channel that have a weight.
    fn count(&mut self, channels: &Channels, weights: &Table<u32>, channel: Channel) {
        'exits: for number in channels.exits(channels.to(channel)) {
            if weights.get(channels.turn(channel, Channel(number))) > 0 {
                self.waits.add(number, 1);
            }
        }
    }

    // Passes the turns from a channel.
    fn pass(
        &mut self,
        channels: &Channels,
        weights: &Table<u32>,
        channel: Channel,
    ) -> Result<(), OutOfMemory> {
        'exits: for number in channels.exits(channels.to(channel)) {
            if weights.get(channels.turn(channel, Channel(number))) > 0 {
                self.waits.change(number, 1, Change::Go);
                if self.waits.get(number) == 0 {
                    self.ready.push(Channel(number))?;
                }
            }
        }
        Ok(())
    }
}

/// Returns an order in which all turns with a weight rise, if they form no cycle.
///
/// # Errors
/// `OutOfMemory`.
pub fn order_along(
    alloc: Global,
    channels: &Channels,
    weights: &Table<u32>,
) -> Result<Option<Order>, OutOfMemory> {
    let mut queue = Queue::new(alloc, channels.count())?;
    if queue.pass_all(channels, weights)? {
        Ok(Some(Order::of(alloc, queue.ready)?))
    } else {
        Ok(None)
    }
}
