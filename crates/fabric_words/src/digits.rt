//! Numbers in hexadecimal and decimal digits.

ghost use Rattle.std.specs.Prelude.{◌≡◌, ◌<◌, ◌≤◌, ◌^◌, true, false, MatchOption, IfSome};
ghost use Rattle.std.specs.Char.{is_digit, digit_value};
ghost use Rattle.std.specs.Str.Parse.{digits_value};
ghost use Rattle.fabric_words.specs.Digits.{digit_or_more, is_hex, hex, guid, hex_after, number_to, decimal};

use crate::cut::after;
use common_lines::word::number_between;

/// Parses 1 to 16 hexadecimal digits, in either case.
pub fn hex(word: &[u8]) -> Option<u64>
    ensures { result ≡ hex word.now }
{
    hex_number(word)
}

fn hex_number(word: &[u8]) -> Option<u64>
    ensures { MatchOption result (is_hex word.now ≡ false)
        (λ n. (is_hex word.now ≡ true) × (n ≡ digits_value 16 word.now)) }
{
    if word.is_empty() {
        return None;
    }
    if word.len() > 16 {
        return None;
    }
    let mut number = 0u64;
    'digits: for c in word {
        number = number * 16 + u64::from(hex_digit(*c)?);
    }
    Some(number)
}

/// Parses exactly 16 hexadecimal digits: a GUID padded with zeros.
pub fn guid(word: &[u8]) -> Option<u64>
    ensures { result ≡ guid word.now }
{
    if word.len() == 16 { hex(word) } else { None }
}

/// Parses `0x` and 1 to 16 hexadecimal digits.
pub fn hex_after(word: &[u8]) -> Option<u64>
    ensures { result ≡ hex_after word.now }
{
    hex(after(word, "0x")?)
}

/// Parses a decimal number of at most `most`; only `0` itself begins with 0.
pub fn number_to(word: &[u8], most: u64) -> Option<u64>
    ensures number { result ≡ number_to most word.now }
    ensures range { IfSome result (λ number. number ≤ most) }
{
    number_between(word, 0, most)
}

/// Parses a decimal number below 2^64; only `0` itself begins with 0.
pub fn decimal(word: &[u8]) -> Option<u64>
    ensures { result ≡ decimal word.now }
{
    number_between(word, 0, u64::MAX)
}

// What a byte that is no hexadecimal digit counts: more than four digits say.
const NONE: u32 = 0x1_0000;

// What each byte says as a hexadecimal digit, in either case. To look it up takes less time than to compare.
const DIGITS: [u32; 256] = [
    NONE, NONE, NONE, NONE, NONE, NONE, NONE, NONE, NONE, NONE, NONE, NONE, NONE, NONE, NONE, NONE,
    NONE, NONE, NONE, NONE, NONE, NONE, NONE, NONE, NONE, NONE, NONE, NONE, NONE, NONE, NONE, NONE,
    NONE, NONE, NONE, NONE, NONE, NONE, NONE, NONE, NONE, NONE, NONE, NONE, NONE, NONE, NONE, NONE,
    0, 1, 2, 3, 4, 5, 6, 7, 8, 9, NONE, NONE, NONE, NONE, NONE, NONE, NONE, 10, 11, 12, 13, 14, 15,
    NONE, NONE, NONE, NONE, NONE, NONE, NONE, NONE, NONE, NONE, NONE, NONE, NONE, NONE, NONE, NONE,
    NONE, NONE, NONE, NONE, NONE, NONE, NONE, NONE, NONE, NONE, 10, 11, 12, 13, 14, 15, NONE, NONE,
    NONE, NONE, NONE, NONE, NONE, NONE, NONE, NONE, NONE, NONE, NONE, NONE, NONE, NONE, NONE, NONE,
    NONE, NONE, NONE, NONE, NONE, NONE, NONE, NONE, NONE, NONE, NONE, NONE, NONE, NONE, NONE, NONE,
    NONE, NONE, NONE, NONE, NONE, NONE, NONE, NONE, NONE, NONE, NONE, NONE, NONE, NONE, NONE, NONE,
    NONE, NONE, NONE, NONE, NONE, NONE, NONE, NONE, NONE, NONE, NONE, NONE, NONE, NONE, NONE, NONE,
    NONE, NONE, NONE, NONE, NONE, NONE, NONE, NONE, NONE, NONE, NONE, NONE, NONE, NONE, NONE, NONE,
    NONE, NONE, NONE, NONE, NONE, NONE, NONE, NONE, NONE, NONE, NONE, NONE, NONE, NONE, NONE, NONE,
    NONE, NONE, NONE, NONE, NONE, NONE, NONE, NONE, NONE, NONE, NONE, NONE, NONE, NONE, NONE, NONE,
    NONE, NONE, NONE, NONE, NONE, NONE, NONE, NONE, NONE, NONE, NONE, NONE, NONE, NONE, NONE, NONE,
    NONE, NONE, NONE, NONE, NONE, NONE, NONE, NONE, NONE, NONE, NONE, NONE, NONE, NONE, NONE, NONE,
    NONE, NONE, NONE, NONE, NONE, NONE, NONE,
];

/// Returns the value of a hexadecimal digit, in either case, or 2^16 if `c` is not one. So one test finds out whether
/// four bytes are all digits.
#[inline]
pub fn digit_or_more(c: u8) -> u32
    ensures digit { result ≡ digit_or_more c }
    ensures most { result ≤ 2 ^ 16 }
{
    DIGITS[c as usize]
}

/// Returns the value of a hexadecimal digit, in either case.
#[inline]
pub fn hex_digit(c: u8) -> Option<u8>
    ensures digit { MatchOption result (is_digit c 16 ≡ false)
        (λ d. (is_digit c 16 ≡ true) × (d ≡ digit_value c)) }
    ensures low { IfSome result (λ d. d < 16) }
{
    let value = digit_or_more(c);
    if value < 16 { Some(value as u8) } else { None }
}
