//! Words that are names of switches, and words that are their identifiers.

ghost use Rattle.std.specs.Prelude.{◌≡◌, ◌<◌, ◌^◌, true, false, IfSome, MatchOption};
ghost use Rattle.std.specs.List.{list_all};
ghost use Rattle.std.specs.Char.{is_digit, digit_value};
ghost use Rattle.net_names.specs.Words.{is_name, is_name_byte, is_uid, uid_value};

/// Reports whether `word` is a name: a letter, then up to 15 letters, digits and `_`.
pub fn is_name(word: &[u8]) -> bool
    ensures { result ≡ is_name word.now }
{
    let Some(first) = word.first() else {
        return false;
    };
    first.is_ascii_alphabetic() && word.len() <= 16 && are_name_bytes(word)
}

fn are_name_bytes(bytes: &[u8]) -> bool
    ensures { result ≡ list_all is_name_byte bytes.now }
{
    bytes.iter().all(|c| is_name_byte(*c))
}

fn is_name_byte(c: u8) -> bool
    ensures { result ≡ is_name_byte c }
{
    c.is_ascii_alphanumeric() || c == b'_'
}

/// Returns the value of `word` if it is an identifier: twelve hexadecimal digits in upper or lower case.
#[tactic(auto, unfolding(crate::specs::Words::uid_value))]
pub fn uid_of(word: &[u8]) -> Option<u64>
    ensures uid { MatchOption result (is_uid word.now ≡ false)
        (λ uid. (is_uid word.now ≡ true) × (uid ≡ uid_value word.now)) }
    ensures most { IfSome result (λ uid. uid < 2 ^ 48) }
{
    if word.len() != 12 {
        return None;
    }
    let mut uid = 0u64;
    'digits: for c in word {
        uid = uid * 16 + u64::from(hex_digit(*c)?);
    }
    Some(uid)
}

fn hex_digit(c: u8) -> Option<u8>
    ensures digit { MatchOption result (is_digit c 16 ≡ false)
        (λ d. (is_digit c 16 ≡ true) × (d ≡ digit_value c)) }
    ensures low { IfSome result (λ d. d < 16) }
{
    match c {
        b'0'..=b'9' => Some(c - b'0'),
        b'A'..=b'F' => Some(c - b'A' + 10),
        b'a'..=b'f' => Some(c - b'a' + 10),
        _ => None,
    }
}
