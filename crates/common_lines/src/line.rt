//! The lines of a text, and the words of a line.

ghost use Rattle.std.specs.Prelude.{◌≡◌, ◌<◌, ◌≤◌, ◌+◌, [], ◌∷◌, length, map, take, count_by, position, ◌==◌, IfOk, IfSome, IfNone};
ghost use Rattle.std.specs.List.{list_all};
ghost use Rattle.std.specs.Str.Lines.{strip_carriage_return};
ghost use Rattle.common_lines.specs.Lines.{lines_of, words_of, parts_of, without_comment, is_line_byte, is_blank};

use common_values::memory::OutOfMemory;
use memchr::memchr;
use std::alloc::Global;

/// The maximum number of bytes of a line without its line ending.
pub const MOST_LINE: usize = 200;

/// Returns the first line of `bytes` without its line ending, and the bytes after it.
///
/// Returns `None` if `bytes` is empty.
pub fn first_line(bytes: &[u8]) -> Option<(&[u8], &[u8])>
    ensures some { IfSome result (λ r. lines_of bytes.now ≡ r.0.now ∷ lines_of r.1.now) }
    ensures less { IfSome result (λ r. length r.1.now < length bytes.now) }
    ensures none { IfNone result (lines_of bytes.now ≡ []) }
{
    if bytes.is_empty() {
        return None;
    }
    match first_far(bytes, b'\n') {
        Some(end) => Some((without_return(&bytes[..end]), &bytes[end + 1..])),
        None => Some((bytes, &bytes[bytes.len()..])),
    }
}

/// Returns the first index of `byte` in `bytes`, if it is there.
pub fn first_of(bytes: &[u8], byte: u8) -> Option<usize>
    ensures { result ≡ position (λ c. c == byte) bytes.now }
{
    bytes.iter().position(|c| *c == byte)
}

// As `first_of`, but faster if the byte is far off or absent: it checks many bytes at a time.
fn first_far(bytes: &[u8], byte: u8) -> Option<usize>
    ensures { result ≡ position (λ c. c == byte) bytes.now }
{
    memchr(byte, bytes)
}

// The bytes without the one carriage return at their end, if they have one.
fn without_return(bytes: &[u8]) -> &[u8]
    ensures { result.now ≡ strip_carriage_return bytes.now }
{
    match bytes {
        [front @ .., b'\r'] => front,
        _ => bytes,
    }
}

/// Reports whether every byte of `line` is allowed in a line: a tab, or 32 to 126.
///
/// It checks all bytes without a branch, since nearly all lines pass.
pub fn are_line_bytes(line: &[u8]) -> bool
    ensures { result ≡ list_all is_line_byte line.now }
{
    let mut fit = true;
    'bytes: for c in line {
        fit = fit & is_line_byte(*c);
    }
    fit
}

fn is_line_byte(c: u8) -> bool
    ensures { result ≡ is_line_byte c }
{
    (c == b'\t') | (b' '..=b'~').contains(&c)
}

/// Returns the words of `line`: the parts between its spaces and tabs, up to a `#`, that are not empty.
///
/// # Errors
/// `OutOfMemory` if an allocation fails.
pub fn words(alloc: Global, line: &[u8]) -> Result<Vec<&[u8]>, OutOfMemory>
    ensures { IfOk result (λ v. map (λ w. w.now) v.items ≡ words_of line.now) }
{
    parts(alloc, before_comment(line))
}

// The part of the line before the first `#`.
fn before_comment(line: &[u8]) -> &[u8]
    ensures { result.now ≡ without_comment line.now }
{
    match first_far(line, b'#') {
        Some(end) => &line[..end],
        None => line,
    }
}

// The parts between spaces and tabs that are not empty.
fn parts(alloc: Global, line: &[u8]) -> Result<Vec<&[u8]>, OutOfMemory>
    ensures { IfOk result (λ v. map (λ w. w.now) v.items ≡ parts_of line.now) }
{
    let mut parts = Vec::with_capacity(alloc, 8)?;
    'parts: for part in line.split(|c| is_blank(*c)).filter(|w| !w.is_empty()) {
        parts.push(part)?;
    }
    Ok(parts)
}

fn is_blank(c: u8) -> bool
    ensures { result ≡ is_blank c }
{
    c == b' ' || c == b'\t'
}

/// Returns the number, from 1, of the line of the byte at `place`, or of a byte after the last.
///
/// The caller must pass a `place` of at most the number of `bytes`.
pub fn line_of(bytes: &[u8], place: usize) -> usize
    requires place { place ≤ length bytes.now }
    ensures { result ≡ 1 + count_by (λ c. c == 10) (take place bytes.now) }
{
    1 + bytes[..place].iter().filter(|c| **c == b'\n').count()
}
