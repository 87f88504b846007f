//! The lines of a journal, and the words of a line.

ghost use Rattle.std.specs.Prelude.{◌≡◌, ◌≢◌, ◌==◌, ◌<◌, [], ◌∷◌, length, map, position, All, IfSome, IfNone, OnOk};
ghost use Rattle.std.specs.List.{list_all};
ghost use Rattle.journal.specs.Words.{words_of, is_line_byte, has_words};
ghost use Rattle.journal.specs.Texts.{IsFirstLine};

use common_lines::line::first_of;
use common_values::memory::OutOfMemory;
use memchr::memchr;

/// The maximum number of bytes of a line without its line feed.
pub const MOST_LINE: usize = 200;

/// Returns the first line of `bytes` without its line feed, and the bytes after the line feed.
///
/// Returns `None` if there is no line feed.
pub fn first_line(bytes: &[u8]) -> Option<(&[u8], &[u8])>
    ensures some { IfSome result (λ r. IsFirstLine bytes.now r.0.now r.1.now) }
    ensures less { IfSome result (λ r. length r.1.now < length bytes.now) }
    ensures none { IfNone result (All (λ c. c ≢ 10) bytes.now) }
{
    let end = first_feed(bytes)?;
    Some((&bytes[..end], &bytes[end + 1..]))
}

// The index of the first line feed.
fn first_feed(bytes: &[u8]) -> Option<usize>
    ensures { result ≡ position (λ c. c == 10) bytes.now }
{
    memchr(b'\n', bytes)
}

/// Reports whether every byte of `line` is allowed in a line: 32 to 126.
pub fn are_line_bytes(line: &[u8]) -> bool
    ensures { result ≡ list_all is_line_byte line.now }
{
    line.iter().all(|c| is_line_byte(*c))
}

fn is_line_byte(c: u8) -> bool
    ensures { result ≡ is_line_byte c }
{
    (b' '..=b'~').contains(&c)
}

/// Sets `words` to the parts of `line` between its spaces; parts can be empty.
///
/// By design, not proved, it allocates only if there are more words than ever before.
///
/// # Errors
/// `OutOfMemory` if an allocation fails. The contract then says nothing about `words`.
pub fn set_words<'a>(words: &mut Vec<&'a [u8]>, line: &'a [u8]) -> Result<(), OutOfMemory>
    ensures { OnOk result (map (λ w. w.now) words.new.items ≡ words_of line.now) }
{
    words.clear();
    let mut rest = line;
    'words: while let Some((word, after)) = first_word(rest) {
        words.push(word)?;
        rest = after;
    }
    words.push(rest)?;
    Ok(())
}

// The first of two or more words, and the part of the line after the space that follows it.
fn first_word(line: &[u8]) -> Option<(&[u8], &[u8])>
    ensures some { IfSome result (λ r. words_of line.now ≡ r.0.now ∷ words_of r.1.now) }
    ensures less { IfSome result (λ r. length r.1.now < length line.now) }
    ensures none { IfNone result (words_of line.now ≡ line.now ∷ []) }
{
    let end = first_of(line, b' ')?;
    Some((&line[..end], &line[end + 1..]))
}

/// Reports whether no word is empty.
pub fn have_bytes(words: &[&[u8]]) -> bool
    ensures { result ≡ has_words (map (λ w. w.now) words.now) }
{
    'words: for word in words {
        if word.is_empty() {
            return false;
        }
    }
    true
}
