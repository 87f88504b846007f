//! The lanes on which switches send.

ghost use Rattle.std.specs.Prelude.{◌≡◌, ◌<◌, ◌≤◌, ◌^◌, ◌+◌, ℕ, length, slice_get, IfOk, None, Some, OnOk};
ghost use Rattle.std.specs.Prelude.{OnErr};
ghost use Rattle.std.specs.Bool.{OnTrue, OnFalse};
ghost use Rattle.fabric_lane_tables.specs.Lanes.{HasNoOtherRow, HasOtherRow, HasRowAt, IsCountOf, IsLaneCount, IsRowPut, KeepsRows, lane_in};
ghost use Rattle.fabric_lane_tables.specs.Lanes.{lanes_of, told_row};

use common_values::memory::OutOfMemory;
use indexmap::IndexSet;
use std::alloc::Global;
use std::marker::Model;

/// How many service levels there are.
pub const LEVELS: usize = 16;

/// The lane that discards a packet.
pub const DISCARD: u8 = 15;

/// The most different rows.
pub const MOST_ROWS: usize = 65_535;

// The place of no row.
const UNTOLD: u16 = 65_535;

/// The lanes of each switch, port by which a packet comes in and port by which it leaves: a row of sixteen,
/// by service level, four bits for each, the one of level 0 the lowest. Port 0 is the switch itself. Equal
/// rows are kept once, so that two bytes are taken for each pair of ports.
#[derive(Drop)]
pub struct LaneRows {
    switches: usize,
    most: usize,
    count: usize,
    rows: IndexSet<u64>,
    places: Vec<u16>,
}

impl Model for LaneRows {
    ghost use Rattle.fabric_lane_tables.specs.Lanes.{LaneRowsOf, AreLaneRows};

    ghost Value = { LaneRowsOf };

    ghost view = { λ c. record {
      switches = c.switches;
      most = c.most;
      count = c.count;
      rows = c.rows.keys;
      places = c.places.items;
    } };

    ghost invariant = { λ c. AreLaneRows (record {
      switches = c.switches;
      most = c.most;
      count = c.count;
      rows = c.rows.keys;
      places = c.places.items;
    }) };
}

/// The lane of a service level in a row.
#[inline]
pub fn lane_in(row: u64, level: usize) -> u8
    requires { level < 16 }
    ensures lane { result ≡ lane_in row level }
    ensures low { result < 16 }
{
    ((row >> (4 * level)) % 16) as u8
}

// One more than the greatest lane of a row but 15, 0 if there is none.
fn lanes_in(row: u64) -> usize
    ensures { IsCountOf row result }
{
    let mut count = 0;
    'levels: for level in 0..LEVELS {
        let lane = lane_in(row, level);
        if lane < DISCARD {
            count = count.max(usize::from(lane) + 1);
        }
    }
    count
}

// So many places of no row.
fn no_places(alloc: Global, count: usize) -> Result<Vec<u16>, OutOfMemory>
    ensures count { IfOk result (λ places. length places.items ≡ count) }
    ensures none { IfOk result (λ places. (k : ℕ) → k < count → slice_get places.items k ≡ Some 65535) }
{
    let places = vec![in alloc; UNTOLD; count]?;
    Ok(places)
}

// The place at which a row is kept, which is added if it is new. A row is not added if there are the most
// rows: that is told as want of memory.
fn place_of(rows: &mut IndexSet<u64>, row: u64) -> Result<u16, OutOfMemory>
    requires { length rows.old.keys ≤ 65535 }
    ensures there { IfOk result (HasRowAt rows.new.keys row) }
    ensures kept { OnOk result (KeepsRows rows.old.keys rows.new.keys) }
    ensures same { OnErr result (rows.new.keys ≡ rows.old.keys) }
{
    if let Some(place) = rows.get_index_of(&row) {
        return Ok(place as u16);
    }
    if rows.len() >= MOST_ROWS {
        return Err(OutOfMemory);
    }
    let (place, _) = rows.insert_full(row)?;
    Ok(place as u16)
}

impl LaneRows {
    /// Those of so many switches with so many ports at most, of which none was told yet.
    pub fn new(alloc: Global, switches: usize, most: usize) -> Result<LaneRows, OutOfMemory>
        requires switches { switches ≤ 2 ^ 14 }
        requires most { most < 255 }
        ensures switches { IfOk result (λ c. c.switches ≡ switches) }
        ensures most { IfOk result (λ c. c.most ≡ most) }
        ensures none { IfOk result (λ c. (switch entry port : ℕ) → told_row c switch entry port ≡ None) }
    {
        let places = no_places(alloc, switches * (most + 1) * (most + 1))?;
        Ok(LaneRows {
            switches,
            most,
            count: 0,
            rows: IndexSet::new(alloc),
            places,
        })
    }

    /// How many switches there are.
    pub fn switches(&self) -> usize
        ensures { result ≡ self.now.switches }
    {
        self.switches
    }

    /// How many ports a switch has at most.
    pub fn most(&self) -> usize
        ensures most { result ≡ self.now.most }
        ensures low { result < 255 }
    {
        self.most
    }

    /// How many lanes there are: one more than the greatest that was told but 15, 0 if there is none.
    pub fn count(&self) -> usize
        ensures count { result ≡ self.now.count }
        ensures lanes { IsLaneCount (lanes_of self.now) result }
        ensures most { result ≤ 15 }
    {
        self.count
    }

    /// The row that was told for a switch, a port in and a port out.
    #[inline]
    pub fn told(&self, switch: usize, entry: usize, port: usize) -> Option<u64>
        requires { switch < self.now.switches }
        ensures { result ≡ told_row self.now switch entry port }
    {
        if entry > self.most || port > self.most {
            return None;
        }
        let place = self.places[(switch * (self.most + 1) + entry) * (self.most + 1) + port];
        self.rows.get_index(usize::from(place)).copied()
    }

    /// The lane on which a switch sends out of a port what came in by another port and has a service level:
    /// 15, which discards it, if none was told.
    #[inline]
    pub fn lane(&self, switch: usize, entry: usize, port: usize, level: usize) -> u8
        requires switch { switch < self.now.switches }
        requires level { level < 16 }
        ensures lane { result ≡ lanes_of self.now switch entry port level }
        ensures low { result ≤ 15 }
    {
        match self.told(switch, entry, port) {
            None => DISCARD,
            Some(row) => lane_in(row, level),
        }
    }

    // Puts a row that was not told.
    fn add(&mut self, switch: usize, entry: usize, port: usize, row: u64) -> Result<(), OutOfMemory>
        requires switch { switch < self.old.switches }
        requires entry { entry ≤ self.old.most }
        requires port { port ≤ self.old.most }
        requires none { told_row self.old switch entry port ≡ None }
        ensures switches { self.new.switches ≡ self.old.switches }
        ensures most { self.new.most ≡ self.old.most }
        ensures put { OnOk result (IsRowPut (told_row self.old) (told_row self.new) switch entry port row) }
    {
        let index = (switch * (self.most + 1) + entry) * (self.most + 1) + port;
        let place = place_of(&mut self.rows, row)?;
        self.places[index] = place;
        self.count = self.count.max(lanes_in(row));
        Ok(())
    }

    /// Puts the row of a switch, a port in and a port out. Answers whether this row stands there now: it
    /// does not if another one was put before, which stays. No memory is found for more than 65,535
    /// different rows.
    pub fn put(
        &mut self,
        switch: usize,
        entry: usize,
        port: usize,
        row: u64,
    ) -> Result<bool, OutOfMemory>
        requires switch { switch < self.old.switches }
        requires entry { entry ≤ self.old.most }
        requires port { port ≤ self.old.most }
        ensures switches { self.new.switches ≡ self.old.switches }
        ensures most { self.new.most ≡ self.old.most }
        ensures put { IfOk result (λ is.
            OnTrue is (IsRowPut (told_row self.old) (told_row self.new) switch entry port row)) }
        ensures alone { IfOk result (λ is. OnTrue is (HasNoOtherRow (told_row self.old) switch entry port row)) }
        ensures other { IfOk result (λ is. OnFalse is (HasOtherRow (told_row self.old) switch entry port row)) }
        ensures kept { IfOk result (λ is. OnFalse is (self.new ≡ self.old)) }
    {
        match self.told(switch, entry, port) {
            None => {
                self.add(switch, entry, port, row)?;
                Ok(true)
            }
            Some(had) => Ok(had == row),
        }
    }
}
