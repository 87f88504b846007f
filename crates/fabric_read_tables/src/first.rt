//! The first line of bytes: where it ends, and the row that it may be.

ghost use Rattle.std.specs.Prelude.{◌≡◌, ◌≤◌, Ok, Some, IfSome, IsSome, length, position};
ghost use Rattle.fabric_words.specs.Rows.{row};
ghost use Rattle.fabric_read_lines.specs.Pieces.{is_feed, BeginsWith};
ghost use Rattle.fabric_read_tables.specs.TableLines.{said_in};
ghost use Rattle.fabric_read_tables.specs.declared.line.TableLine.TheVariants.{Row};

use fabric_read_lines::reader::MOST_LINE;
use fabric_words::row::row;
use memchr::memchr_iter;

/// A row for a unicast LID, which is the first line of bytes.
#[derive(Clone, Copy)]
pub struct FirstRow {
    /// Its LID.
    pub lid: u16,
    /// Its port, 255 for none.
    pub port: u8,
    /// Where the line feed stands that ends it.
    pub end: usize,
}

/// The row that is the first line of the bytes, as tools print it, if that has no fault. It is looked for in
/// its place, before the end of the line is known.
#[inline]
pub fn first_row(bytes: &[u8]) -> Option<FirstRow>
    ensures { IfSome result (λ found.
        BeginsWith bytes.now found.end (λ line. said_in line ≡ Ok (Row found.lid found.port))) }
{
    if bytes.len() < 13 {
        return None;
    }
    let (lid, port) = row(bytes)?;
    let end = row_end(bytes)?;
    if lid > 0xbfff {
        return None;
    }
    Some(FirstRow { lid, port, end })
}

// Where the first line feed stands, in bytes that begin with a row, if their line is not too long. After a bare
// row it is the second byte or the third.
#[inline]
fn row_end(bytes: &[u8]) -> Option<usize>
    requires row { IsSome (row bytes.now) }
    requires long { 13 ≤ length bytes.now }
    ensures { IfSome result (λ end. (position is_feed bytes.now ≡ Some end) × (end ≤ 4096)) }
{
    if bytes[11] == b'\n' {
        return Some(11);
    }
    if bytes[12] == b'\n' {
        return Some(12);
    }
    let end = first_feed(bytes)?;
    if end > MOST_LINE { None } else { Some(end) }
}

// Where the first line feed stands. The next bytes are looked at first, since lines are short.
#[inline]
fn first_feed(bytes: &[u8]) -> Option<usize>
    ensures { result ≡ position is_feed bytes.now }
{
    memchr_iter(b'\n', bytes).next()
}
