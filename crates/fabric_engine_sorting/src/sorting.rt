//! An order of the channels that changes so that more and more turns rise.

use crate::effort::Effort;
use common_values::memory::OutOfMemory;
use fabric_engine_channels::channels::{Channel, Channels, Turn};
use fabric_engine_channels::order::Order;
use fabric_engine_channels::table::Table;
use std::alloc::Global;

/// An order of the channels, and turns that rise in it.
#[derive(Drop)]
pub struct Sorting {
    places: Table<u32>,
    // Which turns were added.
    turns: Table<bool>,
    // The channels that are to move: which they are, those to the front, and those to the back.
    marks: Table<bool>,
    front: Vec<Channel>,
    back: Vec<Channel>,
    // Their places.
    free: Vec<u32>,
}

/// A turn to be added: its two channels, and its weight.
#[derive(Clone, Copy)]
pub struct Wanted {
    channel: Channel,
    next: Channel,
    weight: u32,
}

// The turns from a channel that weigh something and were not added.
fn find_wanted(
    channels: &Channels,
    weights: &Table<u32>,
    added: &Table<bool>,
    channel: Channel,
    wanted: &mut Vec<Wanted>,
) -> Result<(), OutOfMemory> {
    'exits: for number in channels.exits(channels.to(channel)) {
        let next = Channel(number);
        let turn = channels.turn(channel, next);
        let weight = weights.get(turn);
        if weight > 0 && !added.get(turn) {
            wanted.push(Wanted {
                channel,
                next,
                weight,
            })?;
        }
    }
    Ok(())
}

/// Returns all turns that have a weight and were not added, the heaviest first.
///
/// # Errors
/// `OutOfMemory`.
pub fn heaviest(
    alloc: Global,
    channels: &Channels,
    weights: &Table<u32>,
    added: &Table<bool>,
) -> Result<Vec<Wanted>, OutOfMemory> {
    let mut wanted = Vec::new(alloc);
    'channels: for number in 0..channels.count() {
        find_wanted(channels, weights, added, Channel(number), &mut wanted)?;
    }
    wanted.sort_by_key(|turn| u32::MAX - turn.weight)?;
    Ok(wanted)
}

impl Sorting {
    /// Creates the search from `order`, without added turns.
    ///
    /// # Errors
    /// `OutOfMemory`.
    pub fn of(alloc: Global, channels: &Channels, order: &Order) -> Result<Sorting, OutOfMemory> {
        let mut places = Table::filled(alloc, channels.count(), 0u32)?;
        'channels: for number in 0..channels.count() {
            places.put(number, order.place(Channel(number)));
        }
        Ok(Sorting {
            places,
            turns: Table::filled(alloc, channels.turns(), false)?,
            marks: Table::filled(alloc, channels.count(), false)?,
            front: Vec::new(alloc),
            back: Vec::new(alloc),
            free: Vec::new(alloc),
        })
    }

    // Marks a channel that is to move.
    fn mark(&mut self, channel: Channel) -> bool {
        let is_new = !self.marks.get(channel);
        self.marks.put(channel, true);
        is_new
    }

    // Adds to those that move back the channels after one that do not stand after a place. Answers whether none of them
    // stands at it.
    fn push_after(
        &mut self,
        channels: &Channels,
        channel: Channel,
        last: u32,
        effort: &mut Effort,
    ) -> Result<bool, OutOfMemory> {
        effort.spend(channels.degree(channels.to(channel)));
        'exits: for number in channels.exits(channels.to(channel)) {
            let next = Channel(number);
            let place = self.places.get(next);
            if place > last || !self.turns.get(channels.turn(channel, next)) {
                continue;
            }
            if place == last {
                return Ok(false);
            }
            if self.mark(next) {
                self.back.push(next)?;
            }
        }
        Ok(true)
    }

    // Finds the channels from one on that do not stand after a place. Answers whether none of them stands at it.
    fn find_after(
        &mut self,
        channels: &Channels,
        channel: Channel,
        last: u32,
        effort: &mut Effort,
    ) -> Result<bool, OutOfMemory> {
        self.mark(channel);
        self.back.push(channel)?;
        'after: for place in 0..channels.count() {
            let Some(after) = self.back.get(place as usize).copied() else {
                break;
            };
            if !self.push_after(channels, after, last, effort)? {
                return Ok(false);
            }
        }
        Ok(true)
    }

    // Adds to those that move to the front the channels before one that stand after a place.
    fn push_before(
        &mut self,
        channels: &Channels,
        channel: Channel,
        first: u32,
        effort: &mut Effort,
    ) -> Result<(), OutOfMemory> {
        effort.spend(channels.degree(channels.from(channel)));
        'entries: for number in channels.exits(channels.from(channel)) {
            let before = channels.back(Channel(number));
            let is_after = self.places.get(before) > first;
            if is_after && self.turns.get(channels.turn(before, channel)) && self.mark(before) {
                self.front.push(before)?;
            }
        }
        Ok(())
    }

    // Finds the channels up to one that stand after a place.
    fn find_before(
        &mut self,
        channels: &Channels,
        channel: Channel,
        first: u32,
        effort: &mut Effort,
    ) -> Result<(), OutOfMemory> {
        self.mark(channel);
        self.front.push(channel)?;
        'before: for place in 0..channels.count() {
            let Some(before) = self.front.get(place as usize).copied() else {
                break;
            };
            self.push_before(channels, before, first, effort)?;
        }
        Ok(())
    }

    // Forgets which channels are to move.
    fn forget(&mut self) {
        'front: for channel in &self.front {
            self.marks.put(*channel, false);
        }
        'back: for channel in &self.back {
            self.marks.put(*channel, false);
        }
        self.front.clear();
        self.back.clear();
    }

    // Gives the places of the channels that are to move to those to the front first, and then to those to the back.
    fn shift(&mut self) -> Result<(), OutOfMemory> {
        let places = &self.places;
        self.front.sort_by_key(|channel| places.get(*channel))?;
        self.back.sort_by_key(|channel| places.get(*channel))?;
        self.front.extend_from_slice(&self.back)?;
        self.free.clear();
        'moved: for channel in &self.front {
            self.free.push(self.places.get(*channel))?;
        }
        self.free.sort()?;
        self.give_places();
        Ok(())
    }

    // Gives the free places, in order, to the channels that are to move.
    fn give_places(&mut self) {
        'free: for (place, channel) in self.free.iter().zip(self.front.iter()) {
            self.places.put(*channel, *place);
        }
    }

    // Moves channels so that a turn rises and those that were added still do, if that can be and some effort is left.
    fn raise(
        &mut self,
        channels: &Channels,
        channel: Channel,
        next: Channel,
        effort: &mut Effort,
    ) -> Result<bool, OutOfMemory> {
        let (first, last) = (self.places.get(next), self.places.get(channel));
        if first > last || effort.is_spent() {
            return Ok(first > last);
        }
        let may_rise = first < last && self.find_after(channels, next, last, effort)?;
        if may_rise {
            self.find_before(channels, channel, first, effort)?;
            self.shift()?;
        }
        self.forget();
        Ok(may_rise)
    }

    /// Adds the turn from `channel` to `next`, if it can rise together with all added turns, and returns whether it
    /// does.
    ///
    /// # Errors
    /// `OutOfMemory`.
    pub fn add(
        &mut self,
        channels: &Channels,
        channel: Channel,
        next: Channel,
        effort: &mut Effort,
    ) -> Result<bool, OutOfMemory> {
        let rises = self.raise(channels, channel, next, effort)?;
        if rises {
            self.turns.put(channels.turn(channel, next), true);
        }
        Ok(rises)
    }

    /// Returns which turns were added.
    pub fn added(&self) -> &Table<bool> {
        &self.turns
    }

    // Adds the turns from a channel that weigh something and rise.
    fn add_rising_after(&mut self, channels: &Channels, weights: &Table<u32>, channel: Channel) {
        let place = self.places.get(channel);
        'exits: for number in channels.exits(channels.to(channel)) {
            let turn = channels.turn(channel, Channel(number));
            if weights.get(turn) > 0 && place < self.places.get(Channel(number)) {
                self.turns.put(turn, true);
            }
        }
    }

    /// Adds all turns that have a weight and rise.
    pub fn add_rising(&mut self, channels: &Channels, weights: &Table<u32>) {
        'channels: for number in 0..channels.count() {
            self.add_rising_after(channels, weights, Channel(number));
        }
    }

    /// Adds each of the turns `wanted` that can rise together with those before, and returns the turns that cannot.
    ///
    /// # Errors
    /// `OutOfMemory`.
    pub fn add_all(
        &mut self,
        alloc: Global,
        channels: &Channels,
        wanted: &[Wanted],
        effort: &mut Effort,
    ) -> Result<Vec<Turn>, OutOfMemory> {
        let mut refused = Vec::new(alloc);
        'wanted: for wanted in wanted {
            let turn = channels.turn(wanted.channel, wanted.next);
            if !self.turns.get(turn) && !self.add(channels, wanted.channel, wanted.next, effort)? {
                refused.push(turn)?;
            }
        }
        Ok(refused)
    }

    /// Returns the order.
    ///
    /// # Errors
    /// `OutOfMemory`.
    pub fn order(&self, alloc: Global) -> Result<Order, OutOfMemory> {
        let mut sequence = Vec::with_capacity(alloc, self.places.count() as usize)?;
        'channels: for number in 0..self.places.count() {
            sequence.push(Channel(number))?;
        }
        sequence.sort_by_key(|channel| self.places.get(*channel))?;
        Order::of(alloc, sequence)
    }
}
