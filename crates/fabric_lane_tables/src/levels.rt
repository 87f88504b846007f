//! The service levels with which end ports send.

ghost use Rattle.std.specs.Prelude.{◌≡◌, ◌<◌, ◌≤◌, ◌^◌, ◌+◌, ◌*◌, ◌/◌, ◌%◌, ℕ, length, slice_get, slice_index_or};
ghost use Rattle.std.specs.Prelude.{slice_index, take, drop, IfOk, IfSome, IsTrue, None, Some, OnOk};
ghost use Rattle.std.specs.Int.{bit_at};
ghost use Rattle.fabric_model.specs.declared.node.EndPort.{EndPort};
ghost use Rattle.fabric_lane_tables.specs.Levels.{filled, levels_of};
ghost use Rattle.fabric_lane_tables.specs.PathLevels.{AreLevelsBelow, AreBlocksOf, AreOthersSame, ArePlaces, HasBlockAt, IsLevelAdded};
ghost use Rattle.fabric_lane_tables.specs.PathLevels.{HaveSameLevels, IsPlaced, KeepsBlocks, ReadsBlocks};
ghost use Rattle.fabric_lane_tables.specs.PathLevels.{AreWidened, SaysAsMuch, block_word, wide_place, told_levels, place_of_source, stored_at};

use crate::lanes::LEVELS;
use common_values::memory::OutOfMemory;
use fabric_model::node::EndPort;
use indexmap::IndexSet;
use std::alloc::Global;
use std::marker::Model;

// The place of no block.
const UNTOLD: u32 = 4_294_967_295;

/// The service levels with which each end port sends to each LID, as they were told: of a level a bit, that
/// of level 0 the lowest. LIDs lie by blocks of 64, and equal blocks are kept once. The levels of the end
/// port that was told last lie apart, so that what is told of one end port after another takes time in
/// proportion.
#[derive(Drop)]
pub struct LevelRows {
    ends: usize,
    switches: usize,
    blocks: usize,
    count: usize,
    rows: IndexSet<[u16; 64]>,
    places: Vec<u32>,
    current: usize,
    row: Vec<u16>,
}

impl Model for LevelRows {
    ghost use Rattle.fabric_lane_tables.specs.PathLevels.{LevelRowsOf, AreLevelRows};

    ghost Value = { LevelRowsOf };

    ghost view = { λ c. record {
      ends = c.ends;
      switches = c.switches;
      blocks = c.blocks;
      count = c.count;
      rows = c.rows.keys;
      places = c.places.items;
      current = c.current;
      row = c.row.items;
    } };

    ghost invariant = { λ c. AreLevelRows (record {
      ends = c.ends;
      switches = c.switches;
      blocks = c.blocks;
      count = c.count;
      rows = c.rows.keys;
      places = c.places.items;
      current = c.current;
      row = c.row.items;
    }) };
}

/// With which service levels end ports send.
#[derive(Drop)]
pub enum Levels {
    /// All with the same, to all LIDs.
    Same(u16),
    /// With those that were told of an end port and a LID; if none was told, with none.
    Told(LevelRows),
    /// With those that were told; if none was told, with this one, one of 0 to 15.
    Filled(LevelRows, u8),
}

// So many places of no block.
fn no_places(alloc: Global, count: usize) -> Result<Vec<u32>, OutOfMemory>
    ensures count { IfOk result (λ places. length places.items ≡ count) }
    ensures none { IfOk result (λ places. (k : ℕ) → k < count → slice_get places.items k ≡ Some 4294967295) }
{
    let places = vec![in alloc; UNTOLD; count]?;
    Ok(places)
}

// So many LIDs without levels.
fn no_levels(alloc: Global, count: usize) -> Result<Vec<u16>, OutOfMemory>
    ensures count { IfOk result (λ row. length row.items ≡ count) }
    ensures none { IfOk result (λ row. (lid : ℕ) → slice_index row.items lid ≡ 0) }
{
    let row = vec![in alloc; 0u16; count]?;
    Ok(row)
}

// The levels of a block of LIDs.
fn block_at(row: &[u16], block: usize) -> [u16; 64]
    requires { 64 * block + 64 ≤ length row.now }
    ensures { result ≡ take 64 (drop (64 * block) row.now) }
{
    let mut levels = [0u16; 64];
    levels.copy_from_slice(&row[64 * block..64 * block + 64]);
    levels
}

// The place at which a block is kept, which is added if it is new.
fn place_of(rows: &mut IndexSet<[u16; 64]>, levels: [u16; 64]) -> Result<u32, OutOfMemory>
    requires { length rows.old.keys ≤ 4294967295 }
    ensures there { IfOk result (HasBlockAt rows.new.keys levels) }
    ensures kept { KeepsBlocks rows.old.keys rows.new.keys }
{
    if let Some(place) = rows.get_index_of(&levels) {
        return Ok(place as u32);
    }
    if rows.len() >= UNTOLD as usize {
        return Err(OutOfMemory);
    }
    let (place, _) = rows.insert_full(levels)?;
    Ok(place as u32)
}

// Keeps a row of levels by blocks: their places stand from the first one on.
fn save(
    rows: &mut IndexSet<[u16; 64]>,
    places: &mut [u32],
    first: usize,
    blocks: usize,
    row: &[u16],
) -> Result<(), OutOfMemory>
    requires size { length row.now ≡ 64 * blocks }
    requires within { first + blocks ≤ length places.old }
    requires few { length rows.old.keys ≤ 4294967295 }
    requires places { ArePlaces rows.old.keys places.old }
    ensures kept { KeepsBlocks rows.old.keys rows.new.keys }
    ensures places { ArePlaces rows.new.keys places.new }
    ensures saved { OnOk result (AreBlocksOf rows.new.keys places.new first blocks row.now) }
    ensures others { AreOthersSame places.old places.new first blocks }
{
    'saving: for block in 0..blocks {
        places[first + block] = place_of(rows, block_at(row, block))?;
    }
    Ok(())
}

// The levels of a LID of an end port, by the place of the LID's block of 64.
#[inline]
fn word_at(rows: &IndexSet<[u16; 64]>, place: u32, lid: usize) -> u16
    ensures { result ≡ block_word rows.now.keys place lid }
{
    match rows.get_index(place as usize) {
        Some(levels) => levels[lid % 64],
        None => 0,
    }
}

// Reads a row of levels by blocks, of which the places stand from the first one on.
fn load(row: &mut [u16], rows: &IndexSet<[u16; 64]>, places: &[u32], first: usize, blocks: usize)
    requires size { length row.old ≡ 64 * blocks }
    requires within { first + blocks ≤ length places.now }
    ensures { ReadsBlocks rows.now.keys places.now first row.new }
{
    'lids: for lid in 0..64 * blocks {
        row[lid] = word_at(rows, places[first + lid / 64], lid);
    }
}

// The place of a block in a row of some that have so many each; one beyond them has none.
#[inline]
fn place_in(places: &[u32], old: usize, row: usize, block: usize) -> u32
    requires { block < old → row * old + block < length places.now }
    ensures { result ≡ wide_place places.now old row block }
{
    if block < old {
        return places[row * old + block];
    }
    UNTOLD
}

// The places of the blocks of so many rows, each of which gets more.
fn widened(
    alloc: Global,
    places: &[u32],
    rows: usize,
    old: usize,
    new: usize,
) -> Result<Vec<u32>, OutOfMemory>
    requires size { length places.now ≡ rows * old }
    requires rows { rows < 2 ^ 20 }
    requires new { new ≤ 1024 }
    ensures { IfOk result (λ wide. AreWidened places.now rows old new wide.items) }
{
    let mut wide = Vec::with_capacity(alloc, rows * new)?;
    'places: for index in 0..rows * new {
        wide.push(place_in(places, old, index / new, index % new))?;
    }
    Ok(wide)
}

impl LevelRows {
    /// Those of so many end ports of adapters and routers, and so many switches, to the LIDs below a
    /// number; none was told yet.
    pub fn new(
        alloc: Global,
        ends: usize,
        switches: usize,
        lids: usize,
    ) -> Result<LevelRows, OutOfMemory>
        requires ends { ends < 2 ^ 16 }
        requires switches { switches ≤ 2 ^ 14 }
        requires lids { lids ≤ 2 ^ 16 }
        ensures ends { IfOk result (λ p. p.ends ≡ ends) }
        ensures switches { IfOk result (λ p. p.switches ≡ switches) }
        ensures lids { IfOk result (λ p. lids ≤ 64 * p.blocks) }
        ensures none { IfOk result (λ p. (source : EndPort) (lid : ℕ) → told_levels p source lid ≡ 0) }
    {
        let blocks = (lids + 63) / 64;
        let places = no_places(alloc, (ends + switches) * blocks)?;
        let row = no_levels(alloc, 64 * blocks)?;
        Ok(LevelRows {
            ends,
            switches,
            blocks,
            count: 0,
            rows: IndexSet::new(alloc),
            places,
            current: 0,
            row,
        })
    }

    // The place of an end port, those of adapters and routers first.
    #[inline]
    fn place(&self, source: EndPort) -> Option<usize>
        ensures place { result ≡ place_of_source self.now source }
        ensures within { IfSome result (λ place. place < self.now.ends + self.now.switches) }
    {
        match source {
            EndPort::Host(end) => {
                if (end as usize) < self.ends {
                    return Some(end as usize);
                }
                None
            }
            EndPort::Switch(switch) => {
                if (switch as usize) < self.switches {
                    return Some(self.ends + switch as usize);
                }
                None
            }
        }
    }

    /// The levels with which an end port sends to a LID; none for a place at which there is no end port,
    /// and for a LID that is too great.
    #[inline]
    pub fn levels(&self, source: EndPort, lid: usize) -> u16
        ensures { result ≡ told_levels self.now source lid }
    {
        let Some(place) = self.place(source) else {
            return 0;
        };
        if lid >= 64 * self.blocks {
            return 0;
        }
        if place == self.current {
            return self.row[lid];
        }
        self.stored(place, lid)
    }

    // The place of a block of an end port.
    #[inline]
    fn place_of_block(&self, place: usize, block: usize) -> u32
        requires place { place < self.now.ends + self.now.switches }
        requires block { block < self.now.blocks }
        ensures { result ≡ slice_index_or self.now.places (place * self.now.blocks + block) 4294967295 }
    {
        self.places[place * self.blocks + block]
    }

    // The levels of an end port that was not told last.
    #[inline]
    fn stored(&self, place: usize, lid: usize) -> u16
        requires place { place < self.now.ends + self.now.switches }
        requires lid { lid < 64 * self.now.blocks }
        ensures { result ≡ stored_at self.now place lid }
    {
        word_at(&self.rows, self.place_of_block(place, lid / 64), lid)
    }

    /// Whether two end ports are known to send with the same levels to each LID of a block of 64. It is not known of
    /// the end port that was told last.
    pub fn are_same(&self, one: EndPort, other: EndPort, block: usize) -> bool
        ensures { IsTrue result → HaveSameLevels (told_levels self.now) one other block }
    {
        let Some(at) = self.place(one) else {
            return false;
        };
        let Some(there) = self.place(other) else {
            return false;
        };
        if at == self.current || there == self.current || block >= self.blocks {
            return false;
        }
        self.place_of_block(at, block) == self.place_of_block(there, block)
    }

    // Makes an end port the one that is told of now. What was told stays as it is.
    fn select(&mut self, place: usize) -> Result<(), OutOfMemory>
        requires { place < self.old.ends + self.old.switches }
        ensures same { OnOk result (SaysAsMuch self.old self.new) }
        ensures current { OnOk result (self.new.current ≡ place) }
    {
        if place == self.current {
            return Ok(());
        }
        let last = self.current * self.blocks;
        save(
            &mut self.rows,
            &mut self.places,
            last,
            self.blocks,
            &self.row,
        )?;
        load(
            &mut self.row,
            &self.rows,
            &self.places,
            place * self.blocks,
            self.blocks,
        );
        self.current = place;
        Ok(())
    }

    /// One more than the greatest LID for which there is room.
    pub fn lids(&self) -> usize
        ensures lids { result ≡ 64 * self.now.blocks }
        ensures most { result ≤ 2 ^ 16 }
    {
        64 * self.blocks
    }

    /// One more than the greatest level that was told, 0 if none was.
    pub fn count(&self) -> usize
        ensures most { result ≤ 16 }
        ensures below { AreLevelsBelow (told_levels self.now) result }
    {
        self.count
    }

    // Makes room for so many blocks.
    fn widen(&mut self, alloc: Global, blocks: usize) -> Result<(), OutOfMemory>
        requires more { self.old.blocks ≤ blocks }
        requires few { blocks ≤ 1024 }
        ensures ends { OnOk result (self.new.ends ≡ self.old.ends) }
        ensures switches { OnOk result (self.new.switches ≡ self.old.switches) }
        ensures blocks { OnOk result (self.new.blocks ≡ blocks) }
        ensures same { OnOk result ((source : EndPort) (lid : ℕ)
            → told_levels self.new source lid ≡ told_levels self.old source lid) }
    {
        let places = widened(
            alloc,
            &self.places,
            self.ends + self.switches,
            self.blocks,
            blocks,
        )?;
        self.row.resize(64 * blocks, 0)?;
        self.places = places;
        self.blocks = blocks;
        Ok(())
    }

    /// Makes room for a LID, if there is none, and for as many more as there were, so that LIDs one after another take time
    /// in proportion. Each level stays, and no pair has a new one. The error is out of memory.
    pub fn make_room(&mut self, alloc: Global, lid: usize) -> Result<(), OutOfMemory>
        requires { lid < 2 ^ 16 }
        ensures room { OnOk result (lid < 64 * self.new.blocks) }
        ensures less { OnOk result (self.old.blocks ≤ self.new.blocks) }
        ensures ends { OnOk result (self.new.ends ≡ self.old.ends) }
        ensures switches { OnOk result (self.new.switches ≡ self.old.switches) }
        ensures same { OnOk result ((source : EndPort) (lid : ℕ)
            → told_levels self.new source lid ≡ told_levels self.old source lid) }
    {
        if lid < 64 * self.blocks {
            return Ok(());
        }
        self.widen(alloc, (lid / 64 + 1).max(2 * self.blocks).min(1024))
    }

    /// Adds one level of an end port and a LID. If the error is out of memory, the levels are not known.
    pub fn add(&mut self, source: EndPort, lid: usize, level: usize) -> Result<(), OutOfMemory>
        requires source { IsPlaced self.old source }
        requires lid { lid < 64 * self.old.blocks }
        requires level { level < 16 }
        ensures ends { OnOk result (self.new.ends ≡ self.old.ends) }
        ensures switches { OnOk result (self.new.switches ≡ self.old.switches) }
        ensures blocks { OnOk result (self.new.blocks ≡ self.old.blocks) }
        ensures added { OnOk result (IsLevelAdded (told_levels self.old) (told_levels self.new) source lid level) }
    {
        if let Some(place) = self.place(source) {
            self.select(place)?;
            self.row[lid] = self.row[lid] | 1u16 << level;
            self.count = self.count.max(level + 1);
        }
        Ok(())
    }
}

// One more than the greatest of some levels, 0 if there is none.
fn levels_in(levels: u16) -> usize
    ensures most { result ≤ 16 }
    ensures below { (level : ℕ) → level < 16 → bit_at levels level ≡ 1 → level < result }
{
    let mut count = 0;
    'levels: for level in 0..LEVELS {
        if levels >> level & 1 == 1 {
            count = level + 1;
        }
    }
    count
}

// The levels of a pair, or the one of silent pairs if it has none; no level above 15 is one.
#[inline]
fn filled(levels: u16, silent: u8) -> u16
    ensures { result ≡ filled levels silent }
{
    if levels == 0 && silent < 16 {
        return 1u16 << silent;
    }
    levels
}

impl Levels {
    /// One more than the greatest level with which an end port may send, 0 if there is none.
    pub fn count(&self) -> usize
        ensures most { result ≤ 16 }
        ensures below { AreLevelsBelow (levels_of self.now) result }
    {
        match self {
            Levels::Same(levels) => levels_in(*levels),
            Levels::Told(told) => told.count(),
            Levels::Filled(told, level) => told.count().max(levels_in(filled(0, *level))),
        }
    }

    /// The levels with which an end port sends to a LID.
    #[inline]
    pub fn levels(&self, source: EndPort, lid: usize) -> u16
        ensures { result ≡ levels_of self.now source lid }
    {
        match self {
            Levels::Same(levels) => *levels,
            Levels::Told(told) => told.levels(source, lid),
            Levels::Filled(told, level) => filled(told.levels(source, lid), *level),
        }
    }

    /// Whether two end ports are known to send with the same levels to each LID of a block of 64.
    pub fn are_same(&self, one: EndPort, other: EndPort, block: usize) -> bool
        ensures { IsTrue result → HaveSameLevels (levels_of self.now) one other block }
    {
        match self {
            Levels::Same(_) => true,
            Levels::Told(told) => told.are_same(one, other, block),
            Levels::Filled(told, _) => told.are_same(one, other, block),
        }
    }
}
