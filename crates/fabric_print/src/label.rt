//! The labels of a picture.

ghost use Rattle.std.specs.Prelude.{◌≡◌, ◌++◌, ◌∷◌, [], OnOk, MatchOption};
ghost use Rattle.fabric_print.specs.Pictures.{escape, escaped, label_word, lane_label, loop_word};

use common_values::text::push_decimal;
use std::alloc::{AllocError, Global};

/// Appends the label of a switch with this name.
///
/// # Errors
/// `AllocError` if the allocation fails.
pub(crate) fn push_label(text: &mut Vec<u8>, name: &[u8]) -> Result<(), AllocError>
    ensures { OnOk result (text.new.items ≡ text.old.items ++ label_word name.now) }
{
    text.push(b'"')?;
    push_escaped(text, name)?;
    text.extend_from_slice(b"\\n\\N\"")
}

// Appends a name as it stands in a label.
fn push_escaped(text: &mut Vec<u8>, name: &[u8]) -> Result<(), AllocError>
    ensures { OnOk result (text.new.items ≡ text.old.items ++ escaped name.now) }
{
    'bytes: for byte in name {
        push_byte(text, *byte)?;
    }
    Ok(())
}

fn push_byte(text: &mut Vec<u8>, byte: u8) -> Result<(), AllocError>
    ensures { OnOk result (text.new.items ≡ text.old.items ++ escape byte) }
{
    match escape(byte) {
        Some(word) => text.extend_from_slice(word),
        None => Ok(text.push(byte)?),
    }
}

// What stands in a label for a byte that may not.
fn escape(byte: u8) -> Option<&'static [u8]>
    ensures { MatchOption result (escape byte ≡ byte ∷ []) (λ word. escape byte ≡ word.now) }
{
    match byte {
        b'"' => Some(b"\\\""),
        b'\\' => Some(b"\\\\"),
        b'&' => Some(b"&amp;"),
        0..=31 | 127 => Some(b"?"),
        _ => None,
    }
}

/// Appends how many channels a loop has, or that there is no loop, at the end of a text in quotes.
///
/// # Errors
/// `AllocError` if the allocation fails.
pub(crate) fn push_loop(alloc: Global, text: &mut Vec<u8>, many: usize) -> Result<(), AllocError>
    ensures { OnOk result (text.new.items ≡ text.old.items ++ loop_word many) }
{
    if many == 0 {
        return text.extend_from_slice(b"has no credit loop\"");
    }
    text.extend_from_slice(b"has a credit loop of ")?;
    push_decimal(alloc, text, many as u64)?;
    text.extend_from_slice(b" channels\"")?;
    Ok(())
}

/// Appends the start of the label of a channel on a lane, for a route with a service level.
///
/// # Errors
/// `AllocError` if the allocation fails.
pub(crate) fn push_on_lane(
    alloc: Global,
    text: &mut Vec<u8>,
    lane: u8,
    level: u8,
) -> Result<(), AllocError>
    ensures { OnOk result (text.new.items ≡ text.old.items ++ lane_label lane level) }
{
    text.extend_from_slice(b"label = \"lane ")?;
    push_decimal(alloc, text, u64::from(lane))?;
    text.extend_from_slice(b" level ")?;
    push_decimal(alloc, text, u64::from(level))?;
    text.extend_from_slice(b"\\nlid")
}
