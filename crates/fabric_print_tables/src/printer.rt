//! The printer of tables.

ghost use Rattle.std.specs.Prelude.{◌≡◌, ◌<◌, ◌≤◌, ◌+◌, ◌*◌, ◌++◌, ℕ, None, OnOk, IfOk};
ghost use Rattle.common_lines.specs.Lines.{line_text, lines_text};
ghost use Rattle.fabric_model.specs.Fabric.{FabricOf, IsFabric, owner_of, switch_count};
ghost use Rattle.fabric_tables.specs.Cells.{tables_of};
ghost use Rattle.fabric_read_tables.specs.declared.reading.Part.TheVariants.{Dumped};
ghost use Rattle.fabric_print_tables.specs.Texts.{IsTextOf, guid_word};
ghost use Rattle.fabric_print_tables.specs.Printed.{HasPrinted, end_words, head_words, none_rows, part_at, row_words};

use common_lines::spelling::{decimal, hex_glyph, push_hex, push_line};
use common_values::memory::OutOfMemory;
use fabric_model::fabric::Fabric;
use fabric_model::node::EndPort;
use fabric_tables::cells::Cells;
use std::alloc::Global;

/// The text of tables of a fabric: for each switch a head, a row for each LID for which it has a port, whoever owns
/// the LID, and a last line. LID 0 is reserved: nobody owns it, and no switch may have a port for it. Of a fabric without
/// switches it is a plain text without rows. The error is out of memory alone.
pub fn print(alloc: Global, fabric: &Fabric, cells: &Cells) -> Result<Vec<u8>, OutOfMemory>
    requires same { switch_count fabric.now ≡ cells.now.switches }
    requires lids { 64 * cells.now.blocks ≤ 0xC000 }
    requires reserved { owner_of fabric.now 0 ≡ None → (switch : ℕ) → tables_of cells.now switch 0 ≡ None }
    ensures { IfOk result (λ text. IsTextOf fabric.now text.items (tables_of cells.now)) }
{
    if fabric.switches() == 0 {
        return print_none(alloc);
    }
    let mut text = Vec::new(alloc);
    'switches: for switch in 0..fabric.switches() {
        push_table(alloc, &mut text, fabric, cells, switch)?;
    }
    Ok(text)
}

// The text of tables of no switches.
fn print_none(alloc: Global) -> Result<Vec<u8>, OutOfMemory>
    ensures { IfOk result (λ text. text.items ≡ lines_text none_rows) }
{
    let mut text = Vec::new(alloc);
    push_line(&mut text, &[b"tables", b"1"])?;
    push_line(&mut text, &[b"end"])?;
    Ok(text)
}

// Appends the table of a switch.
fn push_table(
    alloc: Global,
    text: &mut Vec<u8>,
    fabric: &Fabric,
    cells: &Cells,
    switch: usize,
) -> Result<(), OutOfMemory>
    requires fabric { IsFabric fabric.now }
    requires switch { switch < switch_count fabric.now }
    requires same { switch_count fabric.now ≡ cells.now.switches }
    requires lids { 64 * cells.now.blocks ≤ 0xC000 }
    requires reserved { (switch : ℕ) → tables_of cells.now switch 0 ≡ None }
    ensures { OnOk result (HasPrinted fabric.now (tables_of cells.now) text.old.items (part_at switch) switch 0
        → HasPrinted fabric.now (tables_of cells.now) text.new.items (part_at (switch + 1)) (switch + 1) 0) }
{
    let guid = fabric.guid(EndPort::Switch(switch as u32));
    push_head(alloc, text, guid)?;
    push_rows(text, cells, switch)?;
    push_end(alloc, text, fabric.lids().saturating_sub(1) as u64)
}

// Appends the rows of a switch.
fn push_rows(text: &mut Vec<u8>, cells: &Cells, switch: usize) -> Result<(), OutOfMemory>
    requires switch { switch < cells.now.switches }
    requires lids { 64 * cells.now.blocks ≤ 0xC000 }
    requires reserved { (switch : ℕ) → tables_of cells.now switch 0 ≡ None }
    ensures past { (other lid : ℕ) → 64 * cells.now.blocks ≤ lid → tables_of cells.now other lid ≡ None }
    ensures printed { OnOk result ((fabric : FabricOf)
        → HasPrinted fabric (tables_of cells.now) text.old.items (Dumped switch) switch 0
        → HasPrinted fabric (tables_of cells.now) text.new.items (Dumped switch) switch (64 * cells.now.blocks)) }
{
    'lids: for lid in 0..64 * cells.blocks() {
        push_cell(text, cells, switch, lid)?;
    }
    Ok(())
}

// Appends the row of a switch for a LID, if it has a port for it.
fn push_cell(
    text: &mut Vec<u8>,
    cells: &Cells,
    switch: usize,
    lid: usize,
) -> Result<(), OutOfMemory>
    requires switch { switch < cells.now.switches }
    requires lid { lid < 64 * cells.now.blocks }
    requires lids { 64 * cells.now.blocks ≤ 0xC000 }
    requires reserved { (switch : ℕ) → tables_of cells.now switch 0 ≡ None }
    ensures { OnOk result ((fabric : FabricOf)
        → HasPrinted fabric (tables_of cells.now) text.old.items (Dumped switch) switch lid
        → HasPrinted fabric (tables_of cells.now) text.new.items (Dumped switch) switch (lid + 1)) }
{
    match port_of(cells, switch, lid) {
        Some(port) => push_row(text, lid as u16, port),
        None => Ok(()),
    }
}

// The port of a switch for a LID. Blocks have 64 LIDs.
fn port_of(cells: &Cells, switch: usize, lid: usize) -> Option<u8>
    requires switch { switch < cells.now.switches }
    requires lid { lid < 64 * cells.now.blocks }
    ensures { result ≡ tables_of cells.now switch lid }
{
    cells.port(switch, lid / 64, lid % 64)
}

// Appends the head of the table of a switch.
fn push_head(alloc: Global, text: &mut Vec<u8>, guid: u64) -> Result<(), OutOfMemory>
    ensures { OnOk result (text.new.items ≡ text.old.items ++ line_text (head_words guid)) }
{
    let word = guid_word(alloc, guid)?;
    push_line(
        text,
        &[b"Unicast", b"lids", b"of", b"switch", b"guid", &word],
    )
}

// Appends a row. Most of the text is rows, so its bytes are put at once.
fn push_row(text: &mut Vec<u8>, lid: u16, port: u8) -> Result<(), OutOfMemory>
    ensures { OnOk result (text.new.items ≡ text.old.items ++ line_text (row_words lid port)) }
{
    let row = [
        b'0',
        b'x',
        hex_glyph((lid / 16 / 16 / 16 % 16) as u8),
        hex_glyph((lid / 16 / 16 % 16) as u8),
        hex_glyph((lid / 16 % 16) as u8),
        hex_glyph((lid % 16) as u8),
        b' ',
        b'0' + port / 100,
        b'0' + port / 10 % 10,
        b'0' + port % 10,
        b'\n',
    ];
    text.extend_from_slice(&row)?;
    Ok(())
}

// Appends the last line of a table.
fn push_end(alloc: Global, text: &mut Vec<u8>, count: u64) -> Result<(), OutOfMemory>
    ensures { OnOk result (text.new.items ≡ text.old.items ++ line_text (end_words count)) }
{
    let count = decimal(alloc, count)?;
    push_line(text, &[&count, b"lids", b"dumped"])
}

/// A GUID in sixteen hexadecimal digits, after `0x`.
pub fn guid_word(alloc: Global, guid: u64) -> Result<Vec<u8>, OutOfMemory>
    ensures { IfOk result (λ word. word.items ≡ guid_word guid) }
{
    let mut word = Vec::from_slice(alloc, b"0x")?;
    push_hex(&mut word, 16, guid)?;
    Ok(word)
}
