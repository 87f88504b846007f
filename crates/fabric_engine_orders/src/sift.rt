//! Orders made better, one channel at a time.

use common_values::memory::OutOfMemory;
use fabric_engine_channels::channels::{Channel, Channels};
use fabric_engine_channels::order::Order;
use fabric_engine_channels::table::Table;
use std::alloc::Global;

// How often all channels are looked at.
const PASSES: u32 = 8;

// How far apart two channels that follow one another are at first.
const STEP: u64 = 1 << 32;

// What a turn weighs that is to be kept.
const KEPT: u64 = 1 << 40;

/// The turns of which few are to be broken. A broken turn is one that does not rise.
#[derive(Clone, Copy)]
pub struct Wishes<'a> {
    /// How many routes make each turn.
    pub weights: &'a Table<u32>,
    /// The channels of a tree whose turns are to be kept, if there is one.
    pub kept: Option<&'a Table<bool>>,
}

impl Wishes<'_> {
    // What it weighs to break a turn.
    fn weight(self, channels: &Channels, channel: Channel, next: Channel) -> u64 {
        if let Some(kept) = self.kept {
            if kept.get(channel) && kept.get(next) {
                return KEPT;
            }
        }
        u64::from(self.weights.get(channels.turn(channel, next)))
    }
}

// A neighbour of a channel in the order.
#[derive(Clone, Copy)]
struct Mark {
    // Where it stands.
    key: u64,
    // What it weighs to break the turn between the two.
    weight: u64,
    // Whether the channel is to stand before it, and not after it.
    is_next: bool,
}

// A pass over all channels.
#[derive(Drop)]
struct Sifting {
    // Where each stands, between two others or at the place of none.
    keys: Table<u64>,
    // The neighbours of the one that is looked at.
    marks: Vec<Mark>,
}

// A place for a channel, and what the turns weigh that it breaks there.
#[derive(Clone, Copy)]
struct Place {
    key: u64,
    cost: u64,
}

// The place at which marks, by rising key, say that least is broken.
fn best_place(marks: &[Mark], at_front: Place) -> Place {
    let mut best = at_front;
    let mut cost = at_front.cost;
    'marks: for (place, mark) in marks.iter().enumerate() {
        cost = if mark.is_next {
            cost.wrapping_add(mark.weight)
        } else {
            cost.wrapping_sub(mark.weight)
        };
        let end = mark.key.saturating_add(STEP).saturating_add(STEP);
        let next = marks
            .get(place.wrapping_add(1))
            .map_or(end, |next| next.key);
        let key = mark.key / 2 + next / 2;
        if cost < best.cost && mark.key < key && key < next {
            best = Place { key, cost };
        }
    }
    best
}

impl Sifting {
    // Adds a neighbour, if it weighs something.
    fn mark(&mut self, neighbour: Channel, weight: u64, is_next: bool) -> Result<(), OutOfMemory> {
        if weight > 0 {
            let key = self.keys.get(neighbour);
            self.marks.push(Mark {
                key,
                weight,
                is_next,
            })?;
        }
        Ok(())
    }

    // Finds the neighbours of a channel.
    fn find_marks(
        &mut self,
        channels: &Channels,
        wishes: Wishes<'_>,
        channel: Channel,
    ) -> Result<(), OutOfMemory> {
        self.marks.clear();
        let back = channels.back(channel);
        'before: for number in channels.exits(channels.to(back)) {
            let before = channels.back(Channel(number));
            if before != back {
                let weight = wishes.weight(channels, before, channel);
                self.mark(before, weight, false)?;
            }
        }
        'after: for number in channels.exits(channels.to(channel)) {
            let after = Channel(number);
            if after != back {
                let weight = wishes.weight(channels, channel, after);
                self.mark(after, weight, true)?;
            }
        }
        Ok(())
    }

    // What the turns of a channel weigh that are broken where it stands.
    fn cost(&self, key: u64) -> u64 {
        let mut cost = 0u64;
        'marks: for mark in &self.marks {
            let is_broken = if mark.is_next {
                mark.key <= key
            } else {
                key <= mark.key
            };
            if is_broken {
                cost = cost.wrapping_add(mark.weight);
            }
        }
        cost
    }

    // Puts each channel, one after another, where its turns break least. By how much less is broken.
    fn sift_all(
        &mut self,
        channels: &Channels,
        wishes: Wishes<'_>,
        sequence: &[Channel],
    ) -> Result<u64, OutOfMemory> {
        let mut gain = 0u64;
        'channels: for channel in sequence {
            gain = gain.wrapping_add(self.sift(channels, wishes, *channel)?);
        }
        Ok(gain)
    }

    // Puts a channel where its turns break least.
    fn sift(
        &mut self,
        channels: &Channels,
        wishes: Wishes<'_>,
        channel: Channel,
    ) -> Result<u64, OutOfMemory> {
        self.find_marks(channels, wishes, channel)?;
        let now = self.cost(self.keys.get(channel));
        if now == 0 {
            return Ok(0);
        }
        self.marks.sort_unstable_by_key(|mark| mark.key);
        let least = self.marks.first().map_or(0, |mark| mark.key);
        let key = least.saturating_sub(STEP);
        let cost = self.cost(key);
        let best = best_place(&self.marks, Place { key, cost });
        if best.cost >= now {
            return Ok(0);
        }
        self.keys.put(channel, best.key);
        Ok(now.wrapping_sub(best.cost))
    }
}

// The keys of the channels of an order: room is left before the first.
fn keys_of(alloc: Global, channels: &Channels, order: &Order) -> Result<Table<u64>, OutOfMemory> {
    let count = channels.count();
    let mut keys = Table::filled(alloc, count, 0u64)?;
    'channels: for number in 0..count {
        let place = u64::from(order.place(Channel(number))) + u64::from(count) + 1;
        keys.put(number, place.wrapping_mul(STEP));
    }
    Ok(keys)
}

// The order of channels by their keys.
fn order_by(alloc: Global, order: &Order, keys: &Table<u64>) -> Result<Order, OutOfMemory> {
    let mut sequence = Vec::from_slice(alloc, order.sequence())?;
    sequence.sort_by_key(|channel| keys.get(*channel))?;
    Order::of(alloc, sequence)
}

// One pass: each channel, one after another, is put where its turns break least. By how much less is broken.
fn pass(
    alloc: Global,
    channels: &Channels,
    wishes: Wishes<'_>,
    order: &mut Order,
) -> Result<u64, OutOfMemory> {
    let mut sifting = Sifting {
        keys: keys_of(alloc, channels, order)?,
        marks: Vec::new(alloc),
    };
    let gain = sifting.sift_all(channels, wishes, order.sequence())?;
    *order = order_by(alloc, order, &sifting.keys)?;
    Ok(gain)
}

/// Improves `order`, one channel at a time, so that it breaks fewer turns, until a pass over all channels brings
/// nothing.
///
/// # Errors
/// `OutOfMemory`.
pub fn sift(
    alloc: Global,
    channels: &Channels,
    wishes: Wishes<'_>,
    order: &mut Order,
) -> Result<(), OutOfMemory> {
    'passes: for _ in 0..PASSES {
        if pass(alloc, channels, wishes, order)? == 0 {
            break;
        }
    }
    Ok(())
}
