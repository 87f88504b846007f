//! Prefixes of a text.

ghost use Rattle.std.specs.Prelude.{◌≡◌, Some, None, MatchOption};
ghost use Rattle.fabric_topology.specs.Fronts.{begins, number_then, front_number};

use fabric_words::cut::cut;
use fabric_words::digits::decimal;

/// Reports whether `text` begins with `front`.
#[inline(always)]
pub fn begins(text: &[u8], front: &str) -> bool
    ensures { result ≡ begins front.now text.now }
{
    text.starts_with(front.as_bytes())
}

/// Returns the number before the first space, and what follows that space.
#[tactic(auto, unfolding(crate::specs::Fronts::number_then))]
pub fn number_then(text: &[u8]) -> Option<(u64, &[u8])>
    ensures { MatchOption result (number_then text.now ≡ None)
        (λ r. number_then text.now ≡ Some (r.0, r.1.now)) }
{
    let (word, rest) = cut(text, b' ')?;
    let number = decimal(word)?;
    Some((number, rest))
}

/// Returns the number before the first space, or the whole text as a number.
#[tactic(auto, unfolding(crate::specs::Fronts::front_number))]
pub fn front_number(text: &[u8]) -> Option<u64>
    ensures { result ≡ front_number text.now }
{
    match cut(text, b' ') {
        Some((word, _rest)) => decimal(word),
        None => decimal(text),
    }
}
