//! The rows that are set.

use crate::task::Task;
use common_values::memory::OutOfMemory;
use fabric_engine_channels::channels::Channel;
use fabric_engine_channels::table::Table;
use std::alloc::Global;

/// A row of a table: the port of a switch for a LID.
#[derive(Clone, Copy)]
pub struct Row {
    /// The switch.
    pub switch: u32,
    /// The LID.
    pub lid: u16,
    /// The port.
    pub port: u8,
}

/// The rows that are set, target by target.
#[derive(Drop)]
pub struct Changes {
    rows: Vec<Row>,
    // For each target how many rows are set for it and those before.
    ends: Vec<usize>,
    // For each target from how many switches no route was found, and for all together.
    losses: Vec<u32>,
    lost: u32,
}

impl Changes {
    /// For no target yet.
    pub fn none(alloc: Global) -> Changes {
        Changes {
            rows: Vec::new(alloc),
            ends: Vec::new(alloc),
            losses: Vec::new(alloc),
            lost: 0,
        }
    }

    /// Adds the rows for the next target, and from how many switches no route was found.
    pub fn push(&mut self, rows: &[Row], lost: u32) -> Result<(), OutOfMemory> {
        self.rows.extend_from_slice(rows)?;
        self.ends.push(self.rows.len())?;
        self.losses.push(lost)?;
        self.lost = self.lost.wrapping_add(lost);
        Ok(())
    }

    /// All rows.
    pub fn rows(&self) -> &[Row] {
        &self.rows
    }

    /// For how many pairs of a switch and a target no route was found.
    pub fn lost(&self) -> u32 {
        self.lost
    }

    /// Whether nothing is lost and no row is set.
    pub fn is_empty(&self) -> bool {
        self.lost == 0 && self.rows.is_empty()
    }

    /// Whether something is lost or a row is set for the target at a place.
    pub fn concerns(&self, place: usize) -> bool {
        let lost = self.losses.get(place).copied().unwrap_or(0);
        lost > 0 || !self.rows_for(place).is_empty()
    }

    /// Whether they are better than others: fewer routes are lost, or as many and fewer rows are set.
    pub fn is_better(&self, other: &Changes) -> bool {
        (self.lost, self.rows.len()) < (other.lost, other.rows.len())
    }

    /// The rows for the target at a place.
    pub fn rows_for(&self, place: usize) -> &[Row] {
        let end = self.ends.get(place).copied().unwrap_or(0);
        let first = match place.checked_sub(1) {
            Some(before) => self.ends.get(before).copied().unwrap_or(0),
            None => 0,
        };
        self.rows.get(first..end).unwrap_or(&[])
    }

    /// Puts the exits of the rows for the target at a place.
    pub fn put_exits(&self, task: Task<'_>, place: usize, exits: &mut Table<Option<Channel>>) {
        'rows: for row in self.rows_for(place) {
            exits.put(row.switch, task.channel(row.switch, row.port));
        }
    }
}
