//! The rows of forwarding tables.

ghost use Rattle.std.specs.Prelude.{◌≡◌, ◌≤◌, ◌&&◌, true, length};
ghost use Rattle.std.specs.Char.{is_ascii_digit};
ghost use Rattle.fabric_words.specs.Rows.{is_row, row, four_hex, three_decimal};

use crate::digits::digit_or_more;

/// Parses a row into a LID and a port: `0x` and four hexadecimal digits, a space and three decimal digits, then
/// nothing, or a space and anything.
#[inline]
pub fn row(line: &[u8]) -> Option<(u16, u8)>
    ensures { result ≡ row line.now }
{
    if is_row(line) {
        let lid = four_hex(line[2], line[3], line[4], line[5])?;
        let port = three_decimal(line[7], line[8], line[9])?;
        Some((lid, port))
    } else {
        None
    }
}

// Whether a line has the form of a row, but for its digits.
#[inline]
fn is_row(line: &[u8]) -> bool
    ensures row { result ≡ is_row line.now }
    ensures long { result ≡ true → 10 ≤ length line.now }
{
    if line.len() < 10 || line[0] != b'0' || line[1] != b'x' || line[6] != b' ' {
        return false;
    }
    line.len() == 10 || line[10] == b' '
}

// What four hexadecimal digits say.
#[inline]
fn four_hex(a: u8, b: u8, c: u8, d: u8) -> Option<u16>
    ensures { result ≡ four_hex a b c d }
{
    let high = digit_or_more(a) * 4096 + digit_or_more(b) * 256;
    let number = high + digit_or_more(c) * 16 + digit_or_more(d);
    if number > 0xffff {
        return None;
    }
    Some(number as u16)
}

// What three decimal digits say, at most 255.
#[inline]
fn three_decimal(a: u8, b: u8, c: u8) -> Option<u8>
    ensures { result ≡ three_decimal a b c }
{
    if !are_digits(a, b, c) {
        return None;
    }
    let number = (u32::from(a) - 48) * 100 + (u32::from(b) - 48) * 10 + (u32::from(c) - 48);
    if number > 255 {
        return None;
    }
    Some(number as u8)
}

#[inline]
fn are_digits(a: u8, b: u8, c: u8) -> bool
    ensures { result ≡ (is_ascii_digit a && (is_ascii_digit b && is_ascii_digit c)) }
{
    a.is_ascii_digit() && b.is_ascii_digit() && c.is_ascii_digit()
}
