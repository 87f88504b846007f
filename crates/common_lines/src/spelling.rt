//! Lines and numbers as text.

ghost use Rattle.std.specs.Prelude.{if◌then◌else◌, nat_lt, ◌≡◌, ◌<◌, ◌++◌, [], ◌∷◌, map, OnOk, IfOk};
ghost use Rattle.std.specs.Fmt.{decimal};
ghost use Rattle.common_lines.specs.Words.{hex_text, hex_glyph};
ghost use Rattle.common_lines.specs.Lines.{line_text};

use common_values::memory::OutOfMemory;
use common_values::text::push_decimal;
use std::alloc::{AllocError, Global};

/// Appends a line of `words`, joined by single spaces and followed by a line feed.
///
/// # Errors
/// `OutOfMemory` if an allocation fails. The contract then says nothing about `text`.
pub fn push_line(text: &mut Vec<u8>, words: &[&[u8]]) -> Result<(), OutOfMemory>
    ensures { OnOk result
        (text.new.items ≡ text.old.items ++ line_text (map (λ w. w.now) words.now)) }
{
    'words: for (i, word) in words.iter().enumerate() {
        push_space(text, i)?;
        text.extend_from_slice(word)?;
    }
    text.push(b'\n')?;
    Ok(())
}

// Appends a space if `place` is not that of the first word.
fn push_space(text: &mut Vec<u8>, place: usize) -> Result<(), OutOfMemory>
    ensures { OnOk result (text.new.items ≡ text.old.items ++ (if nat_lt 0 place then 32 ∷ [] else [])) }
{
    if place > 0 {
        text.push(b' ')?;
    }
    Ok(())
}

/// Returns `number` in decimal.
///
/// # Errors
/// `OutOfMemory` if an allocation fails.
pub fn decimal(alloc: Global, number: u64) -> Result<Vec<u8>, OutOfMemory>
    ensures { IfOk result (λ text. text.items ≡ decimal number) }
{
    let mut text = Vec::new(alloc);
    push_decimal(alloc, &mut text, number)?;
    Ok(text)
}

/// Appends the last `digits` hexadecimal digits of `number`.
///
/// # Errors
/// `AllocError` if an allocation fails. The contract then says nothing about `text`.
pub fn push_hex(text: &mut Vec<u8>, digits: u8, number: u64) -> Result<(), AllocError>
    ensures { OnOk result (text.new.items ≡ text.old.items ++ hex_text digits number) }
{
    if digits > 0 {
        push_hex(text, digits - 1, number / 16)?;
        text.push(hex_glyph((number % 16) as u8))?;
    }
    Ok(())
}

/// Returns the hexadecimal digit for `digit`. The caller must pass a number below 16.
pub fn hex_glyph(digit: u8) -> u8
    requires { digit < 16 }
    ensures { result ≡ hex_glyph digit }
{
    if digit < 10 {
        b'0' + digit
    } else {
        b'a' + (digit - 10)
    }
}
