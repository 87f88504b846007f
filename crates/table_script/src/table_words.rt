//! The words of a line of tables, one after another.

ghost use Rattle.std.specs.Prelude.{◌≡◌, ◌<◌, ◌==◌, [], ◌∷◌, length, position, None, IfSome, IfNone};
ghost use Rattle.common_lines.specs.Lines.{is_blank, parts_of, without_comment};

use memchr::memchr;

/// Returns the part of `line` before the first `#`.
pub fn before_comment(line: &[u8]) -> &[u8]
    ensures { result.now ≡ without_comment line.now }
{
    match first_mark(line) {
        Some(end) => &line[..end],
        None => line,
    }
}

// The position of the first `#`.
fn first_mark(line: &[u8]) -> Option<usize>
    ensures { result ≡ position (λ c. c == 35) line.now }
{
    memchr(b'#', line)
}

/// Returns the first non-empty part of `text` between blanks, and the text after the blank that follows.
///
/// Returns `None` if there is no such part.
pub fn next_word(text: &[u8]) -> Option<(&[u8], &[u8])>
    ensures some { IfSome result (λ r. parts_of text.now ≡ r.0.now ∷ parts_of r.1.now) }
    ensures less { IfSome result (λ r. length r.1.now < length text.now) }
    ensures none { IfNone result (parts_of text.now ≡ []) }
{
    let mut rest = text;
    'blanks: while let Some(end) = first_blank(rest) {
        if end > 0 {
            return Some((&rest[..end], &rest[end + 1..]));
        }
        rest = &rest[1..];
    }
    last_word(rest)
}

// The same as `next_word` for a text without blanks.
fn last_word(text: &[u8]) -> Option<(&[u8], &[u8])>
    requires { position is_blank text.now ≡ None }
    ensures some { IfSome result (λ r. parts_of text.now ≡ r.0.now ∷ parts_of r.1.now) }
    ensures less { IfSome result (λ r. length r.1.now < length text.now) }
    ensures none { IfNone result (parts_of text.now ≡ []) }
{
    if text.is_empty() {
        return None;
    }
    Some((text, &text[text.len()..]))
}

// The position of the first blank.
fn first_blank(text: &[u8]) -> Option<usize>
    ensures { result ≡ position is_blank text.now }
{
    text.iter().position(|c| is_blank(*c))
}

fn is_blank(c: u8) -> bool
    ensures { result ≡ is_blank c }
{
    c == b' ' || c == b'\t'
}
