//! The words of lines, and those that are numbers.

ghost use Rattle.std.specs.Prelude.{◌≡◌, ◌+◌, ◌-◌, ◌*◌, ◌≤◌, ◌^◌, true, false, IfSome, MatchOption};
ghost use Rattle.std.specs.List.{list_all};
ghost use Rattle.std.specs.Str.{bytes_eq};
ghost use Rattle.std.specs.Char.{is_ascii_digit};
ghost use Rattle.common_lines.specs.Words.{is_number, is_number_in, number_value};

/// Reports whether `word` is `text`.
pub fn is(word: &[u8], text: &str) -> bool
    ensures { result ≡ bytes_eq word.now text.now }
{
    word == text.as_bytes()
}

/// Reports whether `word` is a number: digits without a leading 0, or `0` itself.
pub fn is_number(word: &[u8]) -> bool
    ensures { result ≡ is_number word.now }
{
    let Some(first) = word.first() else {
        return false;
    };
    (*first != b'0' || word.len() == 1) && are_digits(word)
}

fn are_digits(bytes: &[u8]) -> bool
    ensures { result ≡ list_all is_ascii_digit bytes.now }
{
    bytes.iter().all(|c| c.is_ascii_digit())
}

/// Returns the value of `word` in decimal if it is below 2^64. The caller must pass only digits.
#[tactic(auto, unfolding(crate::specs::Words::number_value))]
pub fn number_of(word: &[u8]) -> Option<u64>
    requires digits { list_all is_ascii_digit word.now ≡ true }
    ensures { MatchOption result (2 ^ 64 ≤ number_value word.now)
        (λ n. n ≡ number_value word.now) }
{
    let mut number = 0u64;
    'digits: for c in word {
        number = with_digit(number, *c)?;
    }
    Some(number)
}

/// Returns the value of `word` if it is a number from `least` to `most`.
pub fn number_between(word: &[u8], least: u64, most: u64) -> Option<u64>
    ensures number { MatchOption result (is_number_in least most word.now ≡ false)
        (λ n. (is_number_in least most word.now ≡ true) × (n ≡ number_value word.now)) }
    ensures range { IfSome result (λ n. (least ≤ n) × (n ≤ most)) }
{
    if !is_number(word) {
        return None;
    }
    match number_of(word) {
        Some(number) if least <= number && number <= most => Some(number),
        _ => None,
    }
}

// The value of the digits of `number` followed by `digit`, if it is below 2^64.
fn with_digit(number: u64, digit: u8) -> Option<u64>
    requires least { 48 ≤ digit }
    requires most { digit ≤ 57 }
    ensures { MatchOption result (2 ^ 64 ≤ number * 10 + (digit - 48))
        (λ n. n ≡ number * 10 + (digit - 48)) }
{
    number.checked_mul(10)?.checked_add(u64::from(digit - b'0'))
}
