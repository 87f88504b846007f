//! The cells of the tables.

ghost use Rattle.std.specs.Prelude.{◌≡◌, ◌<◌, ◌≤◌, ◌+◌, ◌*◌, ◌/◌, ◌^◌, ◌↔◌, ℕ, length, max, IfOk, IsTrue, OnErr, OnOk, None, Some};
ghost use Rattle.std.specs.Bool.{OnTrue, OnFalse};
ghost use Rattle.fabric_tables.specs.Cells.{AreCells, HasNoOther, HasOther, HasRow, IsPut, tables_of};

use common_values::memory::OutOfMemory;
use std::alloc::Global;
use std::marker::Model;

// What a byte says that is no port.
const NO_PORT: u8 = 255;

/// Forwarding tables, with a byte for each switch and LID. The bytes are grouped in blocks of 64 LIDs, and in each
/// block switch by switch.
#[derive(Drop)]
pub struct Cells {
    switches: usize,
    blocks: usize,
    bytes: Vec<u8>,
}

impl Model for Cells {
    ghost use Rattle.fabric_tables.specs.Cells.{CellsOf, AreCells};

    ghost Value = { CellsOf };

    ghost view = { λ c. record { switches = c.switches; blocks = c.blocks; bytes = c.bytes.items } };

    ghost invariant = { λ c. AreCells (record { switches = c.switches; blocks = c.blocks; bytes = c.bytes.items }) };
}

impl Cells {
    /// Creates tables of `switches` switches (below 1,048,576) for the LIDs below `lids` (at most 65,536), without any
    /// port. No later call except `widen` allocates.
    ///
    /// # Errors
    /// `OutOfMemory`.
    pub fn new(alloc: Global, switches: usize, lids: usize) -> Result<Cells, OutOfMemory>
        requires switches { switches < 2 ^ 20 }
        requires lids { lids ≤ 2 ^ 16 }
        ensures switches { IfOk result (λ c. c.switches ≡ switches) }
        ensures blocks { IfOk result (λ c. c.blocks ≡ (lids + 63) / 64) }
        ensures none { IfOk result (λ c. (switch lid : ℕ) → tables_of c switch lid ≡ None) }
    {
        let blocks = (lids + 63) / 64;
        let bytes = vec![in alloc; NO_PORT; blocks * switches * 64]?;
        Ok(Cells {
            switches,
            blocks,
            bytes,
        })
    }

    /// Extends the tables to all LIDs below `lids`, at most 65,536. Every port stays, and no LID gains one.
    ///
    /// # Errors
    /// `OutOfMemory`. The tables are then unchanged.
    pub fn widen(&mut self, lids: usize) -> Result<(), OutOfMemory>
        requires { lids ≤ 2 ^ 16 }
        ensures switches { self.new.switches ≡ self.old.switches }
        ensures blocks { OnOk result (self.new.blocks ≡ max self.old.blocks ((lids + 63) / 64)) }
        ensures same { (switch lid : ℕ) → tables_of self.new switch lid ≡ tables_of self.old switch lid }
        ensures unchanged { OnErr result (self.new ≡ self.old) }
    {
        let blocks = self.blocks.max((lids + 63) / 64);
        self.bytes.resize(blocks * self.switches * 64, NO_PORT)?;
        self.blocks = blocks;
        Ok(())
    }

    /// Returns the number of switches.
    pub fn switches(&self) -> usize
        ensures count { result ≡ self.now.switches }
        ensures most { result < 2 ^ 20 }
    {
        self.switches
    }

    /// Returns the number of blocks of 64 LIDs, at most 1,024. No switch has a port for a LID beyond them.
    pub fn blocks(&self) -> usize
        ensures count { result ≡ self.now.blocks }
        ensures most { result ≤ 1024 }
        ensures past { (switch lid : ℕ) → 64 * self.now.blocks ≤ lid → tables_of self.now switch lid ≡ None }
    {
        self.blocks
    }

    /// Returns the port of `switch` for LID 64 · `block` + `bit`. The caller must keep all three in range, `bit` below
    /// 64.
    pub fn port(&self, switch: usize, block: usize, bit: usize) -> Option<u8>
        requires switch { switch < self.now.switches }
        requires block { block < self.now.blocks }
        requires bit { bit < 64 }
        ensures port { result ≡ tables_of self.now switch (64 * block + bit) }
        ensures low { 64 * block + bit < 2 ^ 16 }
    {
        let port = self.bytes[(block * self.switches + switch) * 64 + bit];
        if port == NO_PORT {
            return None;
        }
        Some(port)
    }

    /// Reports whether at least one switch has a port for LID 64 · `block` + `bit`. The caller must keep both in range,
    /// `bit` below 64.
    pub fn has_row(&self, block: usize, bit: usize) -> bool
        requires block { block < self.now.blocks }
        requires bit { bit < 64 }
        ensures { IsTrue result ↔ HasRow (tables_of self.now) (64 * block + bit) }
    {
        'switches: for switch in 0..self.switches {
            if self.port(switch, block, bit).is_some() {
                return true;
            }
        }
        false
    }

    // The port of a switch for a LID.
    fn told(&self, switch: usize, lid: usize) -> Option<u8>
        requires switch { switch < self.now.switches }
        requires lid { lid < 64 * self.now.blocks }
        ensures { result ≡ tables_of self.now switch lid }
    {
        self.port(switch, lid / 64, lid % 64)
    }

    // Puts it, whatever it was.
    fn set(&mut self, switch: usize, lid: usize, port: u8)
        requires switch { switch < self.old.switches }
        requires lid { lid < 64 * self.old.blocks }
        requires port { port < 255 }
        ensures switches { self.new.switches ≡ self.old.switches }
        ensures blocks { self.new.blocks ≡ self.old.blocks }
        ensures put { IsPut (tables_of self.old) (tables_of self.new) switch lid port }
    {
        self.bytes[(lid / 64 * self.switches + switch) * 64 + lid % 64] = port;
    }

    /// Sets the port of `switch` for `lid`. The caller must keep both in range, and `port` below 255.
    ///
    /// Returns `false`, and changes nothing, if a different port is set already.
    pub fn put(&mut self, switch: usize, lid: usize, port: u8) -> bool
        requires switch { switch < self.old.switches }
        requires lid { lid < 64 * self.old.blocks }
        requires port { port < 255 }
        ensures switches { self.new.switches ≡ self.old.switches }
        ensures blocks { self.new.blocks ≡ self.old.blocks }
        ensures put { OnTrue result (IsPut (tables_of self.old) (tables_of self.new) switch lid port) }
        ensures alone { OnTrue result (HasNoOther (tables_of self.old) switch lid port) }
        ensures other { OnFalse result (HasOther (tables_of self.old) switch lid port) }
        ensures kept { OnFalse result (self.new ≡ self.old) }
    {
        match self.told(switch, lid) {
            None => {
                self.set(switch, lid, port);
                true
            }
            Some(had) => had == port,
        }
    }
}
