//! A credit loop as a picture, in the language of Graphviz.

ghost use Rattle.std.specs.Prelude.{◌≡◌, ◌++◌, map, IfOk, OnOk};
ghost use Rattle.common_lines.specs.Lines.{line_text, lines_text};
ghost use Rattle.fabric_print.specs.Pictures.{arrow_row_by, picture_text, picture_text_by, style_rows, switch_row};
ghost use Rattle.fabric_print.specs.RowWords.{word_text};

use crate::answer::{LoopStep, Name};
use crate::row::RowWord::{Closed, Label, Loop, Number, Quoted, Text};
use crate::row::{HasRow, RowWord, push_row, push_rows};
use common_values::memory::OutOfMemory;
use std::alloc::Global;

/// A channel of a credit loop.
#[derive(Clone, Copy)]
pub struct Arrow {
    /// Its switch and port, with the route that takes it and the next one.
    pub step: LoopStep,
    /// The GUID of the switch to which it leads.
    pub to: u64,
    /// The port of that switch.
    pub entry: u8,
}

/// A picture of a credit loop, or of none.
#[derive(Drop)]
pub struct Picture {
    /// The word for the traffic that was judged.
    pub traffic: &'static str,
    /// The names of the switches.
    pub names: Vec<Name>,
    /// The channels, or none if there is no credit loop.
    pub arrows: Vec<Arrow>,
}

/// Returns the text of `picture`.
///
/// # Errors
/// `OutOfMemory`.
pub fn print_picture(alloc: Global, picture: &Picture) -> Result<Vec<u8>, OutOfMemory>
    ensures { IfOk result (λ text. text.items ≡ picture_text picture.now) }
{
    print_picture_by(
        alloc,
        &[Text(picture.traffic.as_bytes()), Loop(picture.arrows.len())],
        &picture.names,
        &picture.arrows,
    )
}

/// Returns the text of a picture with a title, the names of switches, and an arrow for each channel.
///
/// # Errors
/// `OutOfMemory`.
pub fn print_picture_by<T: HasRow>(
    alloc: Global,
    title: &[RowWord],
    names: &[Name],
    channels: &[T],
) -> Result<Vec<u8>, OutOfMemory>
    ensures { IfOk result (λ text.
        text.items ≡ picture_text_by T.words (map word_text title.now) names.now channels.now) }
{
    let mut text = Vec::new(alloc);
    match push_picture(alloc, &mut text, title, names, channels) {
        Ok(()) => Ok(text),
        Err(error) => Err(error),
    }
}

fn push_picture<T: HasRow>(
    alloc: Global,
    text: &mut Vec<u8>,
    title: &[RowWord],
    names: &[Name],
    channels: &[T],
) -> Result<(), OutOfMemory>
    ensures { OnOk result (text.new.items ≡ text.old.items
        ++ picture_text_by T.words (map word_text title.now) names.now channels.now) }
{
    push_row(alloc, text, Text(b"digraph cycle {"), &[])?;
    push_row(alloc, text, Text(b"label = \"traffic"), title)?;
    push_style(alloc, text)?;
    push_switches(alloc, text, names)?;
    push_rows(alloc, text, channels)?;
    push_row(alloc, text, Text(b"}"), &[])
}

// How the picture is drawn.
fn push_style(alloc: Global, text: &mut Vec<u8>) -> Result<(), OutOfMemory>
    ensures { OnOk result (text.new.items ≡ text.old.items ++ lines_text style_rows) }
{
    push_row(alloc, text, Text(b"node [ shape = box ]"), &[])?;
    push_row(alloc, text, Text(b"edge [ labeldistance = 2 ]"), &[])
}

// The switches that have names.
fn push_switches(alloc: Global, text: &mut Vec<u8>, names: &[Name]) -> Result<(), OutOfMemory>
    ensures { OnOk result (text.new.items ≡ text.old.items ++ lines_text (map switch_row names.now)) }
{
    'names: for name in names {
        push_switch(alloc, text, name)?;
    }
    Ok(())
}

fn push_switch(alloc: Global, text: &mut Vec<u8>, name: &Name) -> Result<(), OutOfMemory>
    ensures { OnOk result (text.new.items ≡ text.old.items ++ line_text (switch_row name.now)) }
{
    push_row(
        alloc,
        text,
        Quoted(name.guid),
        &[Text(b"[ label ="), Label(name.text.as_bytes()), Text(b"]")],
    )
}

impl HasRow for Arrow {
    ghost use Rattle.fabric_print.specs.Pictures.{arrow_row};

    ghost words = { arrow_row };

    fn push(&self, alloc: Global, text: &mut Vec<u8>) -> Result<(), OutOfMemory> {
        push_arrow(alloc, text, Text(b"label = \"lid"), self)
    }
}

/// Appends the row of `arrow`, whose label begins with `label`.
///
/// # Errors
/// `OutOfMemory`.
pub fn push_arrow(
    alloc: Global,
    text: &mut Vec<u8>,
    label: RowWord,
    arrow: &Arrow,
) -> Result<(), OutOfMemory>
    ensures { OnOk result
        (text.new.items ≡ text.old.items ++ line_text (arrow_row_by (word_text label.entry) arrow.now)) }
{
    push_row(
        alloc,
        text,
        Quoted(arrow.step.guid),
        &[
            Text(b"->"),
            Quoted(arrow.to),
            Text(b"[ taillabel ="),
            Number(u64::from(arrow.step.port)),
            Text(b"headlabel ="),
            Number(u64::from(arrow.entry)),
            label,
            Number(u64::from(arrow.step.lid)),
            Text(b"from"),
            Closed(arrow.step.source),
            Text(b"]"),
        ],
    )
}
