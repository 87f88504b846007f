//! Tables of values for things that have numbers.

use crate::amount::{Amount, Change};
use common_values::memory::OutOfMemory;
use std::alloc::Global;

/// A thing with a number, by which it is found in a table.
pub trait Numbered: Copy {
    /// Returns its number.
    #[inline]
    fn number(self) -> u32;
}

impl Numbered for u32 {
    #[inline]
    fn number(self) -> u32 {
        self
    }
}

/// A value for each number below a count. Reading any other number gives the value that all had at first, and writing
/// it has no effect.
#[derive(Drop)]
pub struct Table<T: Copy> {
    items: Vec<T>,
    first: T,
}

impl<T: Copy> Table<T> {
    /// Creates a table for no numbers.
    pub fn empty(alloc: Global, first: T) -> Table<T> {
        Table {
            items: Vec::new(alloc),
            first,
        }
    }

    /// Creates a table for the numbers below `count`, all with the value `first`.
    ///
    /// # Errors
    /// `OutOfMemory`.
    pub fn filled(alloc: Global, count: u32, first: T) -> Result<Table<T>, OutOfMemory> {
        let items = vec![in alloc; first; count as usize]?;
        Ok(Table { items, first })
    }

    /// Returns the count of numbers.
    pub fn count(&self) -> u32 {
        narrow(self.items.len())
    }

    /// Returns the value for `key`.
    #[inline]
    pub fn get<K: Numbered>(&self, key: K) -> T {
        let place = key.number() as usize;
        self.items.get(place).copied().unwrap_or(self.first)
    }

    /// Sets the value for `key`.
    #[inline]
    pub fn put<K: Numbered>(&mut self, key: K, value: T) {
        let place = key.number() as usize;
        if let Some(item) = self.items.get_mut(place) {
            *item = value;
        }
    }

    /// Adds the value for the next number.
    ///
    /// # Errors
    /// `OutOfMemory`.
    pub fn push(&mut self, value: T) -> Result<(), OutOfMemory> {
        self.items.push(value)?;
        Ok(())
    }

    /// Sets all values to the one that all had at first.
    pub fn reset(&mut self) {
        let first = self.first;
        'items: for item in self.items.iter_mut() {
            *item = first;
        }
    }
}

impl<T: Copy + Amount> Table<T> {
    /// Grows or shrinks the value for `key` by `by`.
    #[inline]
    pub fn change<K: Numbered>(&mut self, key: K, by: T, change: Change) {
        let place = key.number() as usize;
        if let Some(item) = self.items.get_mut(place) {
            *item = change.of(*item, by);
        }
    }

    /// Adds `more` to the value for `key`.
    #[inline]
    pub fn add<K: Numbered>(&mut self, key: K, more: T) {
        self.change(key, more, Change::Come);
    }
}

/// Returns the index of each thing in `list`, a list of all of them.
///
/// # Errors
/// `OutOfMemory`.
pub fn places<K: Numbered>(alloc: Global, list: &[K]) -> Result<Table<u32>, OutOfMemory> {
    let mut places = Table::filled(alloc, narrow(list.len()), 0u32)?;
    'list: for (place, key) in list.iter().enumerate() {
        places.put(*key, narrow(place));
    }
    Ok(places)
}

/// Returns `count` in four bytes, or `u32::MAX` if it is higher.
#[inline]
pub fn narrow(count: usize) -> u32 {
    u32::try_from(count).unwrap_or(u32::MAX)
}
