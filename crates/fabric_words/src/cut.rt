//! Cuts of a text at given bytes.

ghost use Rattle.std.specs.Prelude.{◌≡◌, Some, None, MatchOption};
ghost use Rattle.memchr.specs.Find.{FindsLastNeedle};
ghost use Rattle.fabric_words.specs.Cuts.{after, begins, cut, cut_first, cut_last};

use common_lines::line::first_of;
use memchr::arch::all::is_prefix;
use memchr::memmem;

/// Returns what follows `front`, if `text` begins with it.
#[inline(always)]
pub fn after<'a>(text: &'a [u8], front: &str) -> Option<&'a [u8]>
    ensures { MatchOption result (after front.now text.now ≡ None)
        (λ rest. after front.now text.now ≡ Some rest.now) }
{
    text.strip_prefix(front.as_bytes())
}

/// Reports whether `text` begins with `front`.
pub fn begins(text: &[u8], front: &str) -> bool
    ensures { result ≡ begins front.now text.now }
{
    after(text, front).is_some()
}

/// Returns what precedes the first `byte`, and what follows it. It expects `byte` within a few bytes.
#[inline]
pub fn cut(text: &[u8], byte: u8) -> Option<(&[u8], &[u8])>
    ensures { MatchOption result (cut byte text.now ≡ None)
        (λ parts. cut byte text.now ≡ Some (parts.0.now, parts.1.now)) }
{
    let place = first_of(text, byte)?;
    Some((&text[..place], &text[place + 1..]))
}

/// Returns what precedes the first occurrence of `bytes`, and what follows it.
pub fn cut_first<'a>(text: &'a [u8], bytes: &str) -> Option<(&'a [u8], &'a [u8])>
    ensures { MatchOption result (cut_first bytes.now text.now ≡ None)
        (λ parts. cut_first bytes.now text.now ≡ Some (parts.0.now, parts.1.now)) }
{
    let place = memmem::find(text, bytes.as_bytes())?;
    Some((&text[..place], &text[place + bytes.len()..]))
}

/// Returns what precedes the last occurrence of `bytes`, and what follows it.
#[inline]
pub fn cut_last<'a>(text: &'a [u8], bytes: &str) -> Option<(&'a [u8], &'a [u8])>
    ensures { MatchOption result (cut_last bytes.now text.now ≡ None)
        (λ parts. cut_last bytes.now text.now ≡ Some (parts.0.now, parts.1.now)) }
{
    let place = last_place(text, bytes.as_bytes())?;
    Some((&text[..place], &text[place + bytes.len()..]))
}

// Where the bytes stand last. In a line they are near its end, so to step back to them takes less time than to make a
// searcher.
#[inline]
fn last_place(text: &[u8], bytes: &[u8]) -> Option<usize>
    ensures { FindsLastNeedle text.now bytes.now result }
{
    let mut end = text.len() + 1;
    'places: while end > 0 {
        end -= 1;
        if is_prefix(&text[end..], bytes) {
            return Some(end);
        }
    }
    None
}
