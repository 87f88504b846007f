//! An input with a script and a journal.
//!
//! The lines up to `end` are read twice, here and by the reader of scripts: where an input is divided does not
//! depend on what its script says.

ghost use Rattle.std.specs.Prelude.{◌≡◌, ◌<◌, ◌∷◌, [], ℕ, List, length, map, take, IfNone, IfOk, IfSome};
ghost use Rattle.common_lines.specs.Lines.{is_blank, lines_of, without_comment, words_of};
ghost use Rattle.replay.specs.Division.{IsBack, IsDivision, after_end, from_words, has_words, is_end_line};

use common_lines::line::{first_line, first_of};
use common_values::memory::OutOfMemory;
use std::alloc::Global;

// Returns what is before the first `#`.
fn before_comment(line: &[u8]) -> &[u8]
    ensures { result.now ≡ without_comment line.now }
{
    match first_of(line, b'#') {
        Some(end) => &line[..end],
        None => line,
    }
}

fn is_blank(c: u8) -> bool
    ensures { result ≡ is_blank c }
{
    c == b' ' || c == b'\t'
}

// Returns the first two words of a line, or all if it has fewer. No more are kept, however long the line is.
fn first_words(alloc: Global, line: &[u8]) -> Result<Vec<&[u8]>, OutOfMemory>
    ensures { IfOk result (λ v. map (λ w. w.now) v.items ≡ take 2 (words_of line.now)) }
{
    Ok(
        before_comment(line)
            .split(|c| is_blank(*c))
            .filter(|w| !w.is_empty())
            .take(2)
            .collect(alloc)?,
    )
}

// Reports whether a line has words.
fn has_words(alloc: Global, line: &[u8]) -> Result<bool, OutOfMemory>
    ensures { IfOk result (λ answer. answer ≡ has_words line.now) }
{
    let words = first_words(alloc, line)?;
    Ok(!words.is_empty())
}

// Reports whether the only word of a line is `end`.
fn is_end_line(alloc: Global, line: &[u8]) -> Result<bool, OutOfMemory>
    ensures { IfOk result (λ answer. answer ≡ is_end_line line.now) }
{
    let words = first_words(alloc, line)?;
    Ok(words.len() == 1 && words[0] == b"end".as_slice())
}

// Returns what is after the first line feed, or nothing if there is none.
fn after_first(bytes: &[u8]) -> &[u8]
    ensures lines { 0 < length bytes.now
        → (line : List ℕ) × (lines_of bytes.now ≡ line ∷ lines_of result.now) }
    ensures back { IsBack bytes.now result.now }
    ensures less { 0 < length bytes.now → length result.now < length bytes.now }
{
    match first_of(bytes, b'\n') {
        Some(end) => &bytes[end + 1..],
        None => &bytes[bytes.len()..],
    }
}

// Returns the first line, without its end, and what is after it, or `None` if there are no bytes.
fn next_line(bytes: &[u8]) -> Option<(&[u8], &[u8])>
    ensures some { IfSome result (λ r. lines_of bytes.now ≡ r.0.now ∷ lines_of r.1.now) }
    ensures back { IfSome result (λ r. IsBack bytes.now r.1.now) }
    ensures less { IfSome result (λ r. length r.1.now < length bytes.now) }
    ensures none { IfNone result (lines_of bytes.now ≡ []) }
{
    match first_line(bytes) {
        Some((line, _)) => Some((line, after_first(bytes))),
        None => None,
    }
}

// Returns the bytes, starting at the first line that has words.
fn from_words(alloc: Global, bytes: &[u8]) -> Result<&[u8], OutOfMemory>
    ensures lines { IfOk result (λ rest. lines_of rest.now ≡ from_words (lines_of bytes.now)) }
    ensures back { IfOk result (λ rest. IsBack bytes.now rest.now) }
{
    let mut rest = bytes;
    'lines: while let Some((line, after)) = next_line(rest) {
        if has_words(alloc, line)? {
            return Ok(rest);
        }
        rest = after;
    }
    Ok(rest)
}

// Returns what is after the first line `end` and the lines without words that follow it.
fn after_end(alloc: Global, bytes: &[u8]) -> Result<&[u8], OutOfMemory>
    ensures lines { IfOk result (λ rest. lines_of rest.now ≡ after_end (lines_of bytes.now)) }
    ensures back { IfOk result (λ rest. IsBack bytes.now rest.now) }
{
    let mut rest = bytes;
    'lines: while let Some((line, after)) = next_line(rest) {
        rest = after;
        if is_end_line(alloc, line)? {
            return from_words(alloc, rest);
        }
    }
    Ok(rest)
}

/// Divides `bytes` into a script and, after it, a journal. If no line is `end`, all of it is the script.
///
/// # Errors
/// `OutOfMemory`, which says nothing about `bytes`.
pub fn divide(alloc: Global, bytes: &[u8]) -> Result<(&[u8], &[u8]), OutOfMemory>
    ensures { IfOk result (λ parts. IsDivision bytes.now parts.0.now parts.1.now) }
{
    let journal = after_end(alloc, bytes)?;
    Ok((&bytes[..bytes.len() - journal.len()], journal))
}
