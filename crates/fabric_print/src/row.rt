//! Rows of words, as the program prints them.

ghost use Rattle.std.specs.Prelude.{◌≡◌, ◌++◌, ◌∷◌, List, ℕ, map, OnOk};
ghost use Rattle.common_lines.specs.Lines.{line_text, lines_text};
ghost use Rattle.fabric_print.specs.Answers.{guid_word};
ghost use Rattle.fabric_print.specs.Pictures.{closed_word, label_word, switch_word};
ghost use Rattle.fabric_print.specs.RowWords.{word_text};

use crate::label::{push_label, push_loop, push_on_lane};
use common_lines::spelling::push_hex;
use common_values::memory::OutOfMemory;
use common_values::text::push_decimal;
use std::alloc::{AllocError, Global};

/// A word of a row.
#[derive(Clone, Copy)]
pub enum RowWord<'a> {
    /// These bytes.
    Text(&'a [u8]),
    /// A number, in decimal.
    Number(u64),
    /// A GUID.
    Guid(u64),
    /// A GUID in quotes.
    Quoted(u64),
    /// A GUID at the end of a text in quotes.
    Closed(u64),
    /// The label of the switch with this name.
    Label(&'a [u8]),
    /// The number of channels of a loop, or 0 for no loop, at the end of a text in quotes.
    Loop(usize),
    /// The start of the label of a channel on a lane.
    OnLane {
        /// The lane.
        lane: u8,
        /// The service level of the route.
        level: u8,
    },
}

/// A value that has a row in a text.
pub trait HasRow {
    /// The words of its row.
    ghost words: { Self → List (List ℕ) };

    /// Appends its row.
    ///
    /// # Errors
    /// `OutOfMemory`.
    fn push(&self, alloc: Global, text: &mut Vec<u8>) -> Result<(), OutOfMemory>
        ensures { OnOk result (text.new.items ≡ text.old.items ++ line_text (words self.now)) };
}

/// Appends the row of each of `items`.
///
/// # Errors
/// `OutOfMemory`.
pub fn push_rows<T: HasRow>(
    alloc: Global,
    text: &mut Vec<u8>,
    items: &[T],
) -> Result<(), OutOfMemory>
    ensures { OnOk result (text.new.items ≡ text.old.items ++ lines_text (map T.words items.now)) }
{
    'items: for item in items {
        item.push(alloc, text)?;
    }
    Ok(())
}

/// Appends a row: its words, joined by single spaces, and a line feed.
///
/// # Errors
/// `OutOfMemory`.
pub fn push_row(
    alloc: Global,
    text: &mut Vec<u8>,
    first: RowWord,
    more: &[RowWord],
) -> Result<(), OutOfMemory>
    ensures { OnOk result
        (text.new.items ≡ text.old.items ++ line_text (word_text first.entry ∷ map word_text more.now)) }
{
    push_word(alloc, text, first)?;
    'words: for word in more {
        text.push(b' ')?;
        push_word(alloc, text, *word)?;
    }
    text.push(b'\n')?;
    Ok(())
}

fn push_word(alloc: Global, text: &mut Vec<u8>, word: RowWord) -> Result<(), AllocError>
    ensures { OnOk result (text.new.items ≡ text.old.items ++ word_text word.entry) }
{
    match word {
        RowWord::Text(bytes) => text.extend_from_slice(bytes),
        RowWord::Number(number) => push_decimal(alloc, text, number),
        RowWord::Guid(guid) => push_guid(text, guid),
        RowWord::Quoted(guid) => push_quoted(text, guid),
        RowWord::Closed(guid) => push_closed(text, guid),
        RowWord::Label(name) => push_label(text, name),
        RowWord::Loop(many) => push_loop(alloc, text, many),
        RowWord::OnLane { lane, level } => push_on_lane(alloc, text, lane, level),
    }
}

fn push_guid(text: &mut Vec<u8>, guid: u64) -> Result<(), AllocError>
    ensures { OnOk result (text.new.items ≡ text.old.items ++ guid_word guid) }
{
    text.extend_from_slice(b"0x")?;
    push_hex(text, 16, guid)
}

fn push_quoted(text: &mut Vec<u8>, guid: u64) -> Result<(), AllocError>
    ensures { OnOk result (text.new.items ≡ text.old.items ++ switch_word guid) }
{
    text.push(b'"')?;
    push_closed(text, guid)
}

fn push_closed(text: &mut Vec<u8>, guid: u64) -> Result<(), AllocError>
    ensures { OnOk result (text.new.items ≡ text.old.items ++ closed_word guid) }
{
    push_guid(text, guid)?;
    text.push(b'"')?;
    Ok(())
}
