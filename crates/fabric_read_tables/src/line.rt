//! What a line of a text of tables says.

ghost use Rattle.std.specs.Prelude.{◌≡◌, ◌≤◌, ◌++◌, codes, false, length, map};
ghost use Rattle.fabric_words.specs.Cuts.{begins};
ghost use Rattle.fabric_words.specs.Rows.{row};
ghost use Rattle.fabric_words.specs.Says.{IsSaid};
ghost use Rattle.fabric_read_tables.specs.TableLines.{unicast, head, table_guid, plain_row, plain_table};
ghost use Rattle.fabric_read_tables.specs.TableLines.{is_lister, listed, listed_head, listed_port, listed_row, printed_row};
ghost use Rattle.fabric_read_tables.specs.TableLines.{is_count, said_by, said_by_one, said_by_two, said_by_three, said_by_four};
ghost use Rattle.fabric_read_tables.specs.TableLines.{said_by_seven, said_in};
ghost use Rattle.fabric_read_tables.specs.declared.line.TableLine.{TableLine};

use crate::cause::TablesCause;
use common_lines::line::words;
use common_lines::stop::Stop;
use common_lines::word::is;
use fabric_read_lines::reader::MOST_LINE;
use fabric_words::cut::{after, begins, cut_first};
use fabric_words::digits::{decimal, guid, hex_after};
use fabric_words::row::row;
use std::alloc::Global;

/// What a line says.
#[derive(Clone, Copy)]
pub enum TableLine {
    /// Nothing: it is blank, names columns, or warns.
    Nothing,
    /// The table of the switch with this GUID begins, in a dump.
    Head(u64),
    /// The port by which a LID's packets leave, 255 for none, as the tools print it.
    Row(u16, u8),
    /// The table of a switch ends, in a dump.
    End,
    /// The table of the switch with this GUID begins, in a list.
    ListedHead(u64),
    /// The same as of `Row`, in a list.
    ListedRow(u16, u8),
    /// A plain text begins.
    PlainHead,
    /// The rows that follow are of the switch with this GUID.
    PlainSwitch(u64),
    /// The same as of `Row`, in plain words.
    PlainRow(u16, u8),
    /// A plain text ends.
    PlainEnd,
}

/// Why a line is not taken.
pub type TablesStop = Stop<TablesCause>;

/// What a line says, without what ends it.
#[tactic(auto, unfolding(crate::specs::TableLines::said_in))]
pub fn table_line(alloc: Global, line: &[u8]) -> Result<TableLine, TablesStop>
    ensures { IsSaid result (said_in line.now) }
{
    if line.len() > MOST_LINE {
        return Err(Stop::Fault(TablesCause::LineTooLong));
    }
    if begins(line, "0x") {
        return or_stop(printed_row(line));
    }
    other_line(alloc, line)
}

// What a line says that is not too long and begins otherwise than a row.
#[tactic(auto, unfolding(crate::specs::TableLines::said_in))]
fn other_line(alloc: Global, line: &[u8]) -> Result<TableLine, TablesStop>
    requires short { length line.now ≤ 4096 }
    requires no_row { begins (codes "0x") line.now ≡ false }
    ensures { IsSaid result (said_in line.now) }
{
    if begins(line, "Unicast lids ") {
        return or_stop(head(line));
    }
    if begins(line, "*** WARNING ***") {
        return Ok(TableLine::Nothing);
    }
    let words = words(alloc, line)?;
    or_stop(said_by(&words))
}

// The same, with a cause as the reason to stop.
fn or_stop(said: Result<TableLine, TablesCause>) -> Result<TableLine, TablesStop>
    ensures { IsSaid result said }
{
    match said {
        Ok(said) => Ok(said),
        Err(cause) => Err(Stop::Fault(cause)),
    }
}

// What a row says that is printed as the tools do.
fn printed_row(line: &[u8]) -> Result<TableLine, TablesCause>
    ensures { result ≡ printed_row line.now }
{
    match row(line) {
        Some((lid, port)) => row_for(lid, TableLine::Row(lid, port)),
        None => listed_row(line),
    }
}

// What a row of a list says.
fn listed_row(line: &[u8]) -> Result<TableLine, TablesCause>
    ensures { result ≡ listed_row line.now }
{
    match listed(line) {
        Some((lid, port)) => row_for(lid, TableLine::ListedRow(lid, port)),
        None => Err(TablesCause::BadRow),
    }
}

// The LID and the port of a row of a list.
#[tactic(auto, unfolding(crate::specs::TableLines::listed))]
fn listed(line: &[u8]) -> Option<(u16, u8)>
    ensures { result ≡ listed line.now }
{
    if line.len() < 7 {
        return None;
    }
    let rest = after(&line[7..], ": ")?;
    joined_row(&line[..7], listed_port(rest))
}

// The port of such a row, and what follows it.
fn listed_port(rest: &[u8]) -> &[u8]
    ensures { result.now ≡ listed_port rest.now }
{
    if begins(rest, "UNREACHABLE") {
        return b"255";
    }
    rest
}

// What a row of a dump says whose first seven bytes, and whose others, are told. Of the others the first four count.
fn joined_row(front: &[u8], rest: &[u8]) -> Option<(u16, u8)>
    requires { length front.now ≡ 7 }
    ensures { result ≡ row (front.now ++ rest.now) }
{
    let [a, b, c, d, e, f, g] = [
        front[0], front[1], front[2], front[3], front[4], front[5], front[6],
    ];
    if rest.len() < 3 {
        return None;
    }
    if rest.len() == 3 {
        return row(&[a, b, c, d, e, f, g, rest[0], rest[1], rest[2]]);
    }
    row(&[a, b, c, d, e, f, g, rest[0], rest[1], rest[2], rest[3]])
}

// What a line says of a LID, which is to be a unicast LID.
fn row_for(lid: u16, line: TableLine) -> Result<TableLine, TablesCause>
    ensures { result ≡ unicast lid line }
{
    if lid > 0xbfff {
        return Err(TablesCause::LidRange);
    }
    Ok(line)
}

// The head of a switch's table.
fn head(line: &[u8]) -> Result<TableLine, TablesCause>
    ensures { result ≡ head line.now }
{
    match table_guid(line) {
        Some(guid) => Ok(TableLine::Head(guid)),
        None => Err(TablesCause::BadGuid),
    }
}

// The GUID in the head of a table.
fn table_guid(line: &[u8]) -> Option<u64>
    ensures { result ≡ table_guid line.now }
{
    let (_front, rest) = cut_first(line, " guid 0x")?;
    guid(&rest[..rest.len().min(16)])
}

// What words say that are no row and no head.
fn said_by(words: &[&[u8]]) -> Result<TableLine, TablesCause>
    ensures { result ≡ said_by (map (λ w. w.now) words.now) }
{
    match words {
        [] => Ok(TableLine::Nothing),
        [word] => said_by_one(word),
        [first, second] => said_by_two(first, second),
        [first, second, third] => said_by_three(first, second, third),
        [first, second, third, fourth] => said_by_four(first, second, third, fourth),
        [first, second, third, fourth, fifth, sixth, seventh] => {
            said_by_seven(first, second, third, fourth, fifth, sixth, seventh)
        }
        _ => Err(TablesCause::UnknownLine),
    }
}

fn said_by_one(word: &[u8]) -> Result<TableLine, TablesCause>
    ensures { result ≡ said_by_one word.now }
{
    if is(word, "end") {
        return Ok(TableLine::PlainEnd);
    }
    Err(TablesCause::UnknownLine)
}

fn said_by_two(first: &[u8], second: &[u8]) -> Result<TableLine, TablesCause>
    ensures { result ≡ said_by_two first.now second.now }
{
    if is(first, "switch") {
        return plain_table(second);
    }
    if is(first, "Port") && is(second, "Info") {
        return Ok(TableLine::Nothing);
    }
    if is(first, "tables") && is(second, "1") {
        return Ok(TableLine::PlainHead);
    }
    plain_row(first, second)
}

fn said_by_three(first: &[u8], second: &[u8], third: &[u8]) -> Result<TableLine, TablesCause>
    ensures { result ≡ said_by_three first.now second.now third.now }
{
    if is(first, "Lid") && is(second, "Out") && is(third, "Destination") {
        return Ok(TableLine::Nothing);
    }
    if is_count(first) && is(second, "lids") && is(third, "dumped") {
        return Ok(TableLine::End);
    }
    if is_lister(first) && is(second, "Switch") {
        return listed_head(third);
    }
    Err(TablesCause::UnknownLine)
}

fn said_by_four(
    first: &[u8],
    second: &[u8],
    third: &[u8],
    fourth: &[u8],
) -> Result<TableLine, TablesCause>
    ensures { result ≡ said_by_four first.now second.now third.now fourth.now }
{
    let is_end = is(third, "lids") && is(fourth, "dumped");
    if is_count(first) && is(second, "valid") && is_end {
        return Ok(TableLine::End);
    }
    Err(TablesCause::UnknownLine)
}

// Only the names of the columns of a list have seven words.
fn said_by_seven(
    first: &[u8],
    second: &[u8],
    third: &[u8],
    fourth: &[u8],
    fifth: &[u8],
    sixth: &[u8],
    seventh: &[u8],
) -> Result<TableLine, TablesCause>
    ensures { result ≡ said_by_seven first.now second.now third.now fourth.now fifth.now sixth.now seventh.now }
{
    let is_hops = is(fourth, ":") && is(fifth, "Hops") && is(sixth, ":") && is(seventh, "Optimal");
    if is(first, "LID") && is(second, ":") && is(third, "Port") && is_hops {
        return Ok(TableLine::Nothing);
    }
    Err(TablesCause::UnknownLine)
}

// Whether a word is the name of the function by which OpenSM, or another subnet manager, prints a list.
fn is_lister(word: &[u8]) -> bool
    ensures { result ≡ is_lister word.now }
{
    is(word, "dump_ucast_routes:") || is(word, "osm_ucast_mgr_dump_ucast_routes:")
}

// The switch to which the next rows of a list belong.
fn listed_head(word: &[u8]) -> Result<TableLine, TablesCause>
    ensures { result ≡ listed_head word.now }
{
    match hex_after(word) {
        Some(guid) => Ok(TableLine::ListedHead(guid)),
        None => Err(TablesCause::BadGuid),
    }
}

// Whether a word is one of digits.
fn is_count(word: &[u8]) -> bool
    ensures { result ≡ is_count word.now }
{
    word.iter().all(|c| c.is_ascii_digit())
}

// The switch to which the next plain rows belong.
fn plain_table(word: &[u8]) -> Result<TableLine, TablesCause>
    ensures { result ≡ plain_table word.now }
{
    match hex_after(word) {
        Some(guid) => Ok(TableLine::PlainSwitch(guid)),
        None => Err(TablesCause::BadGuid),
    }
}

// What a row of two plain words says.
fn plain_row(lid: &[u8], port: &[u8]) -> Result<TableLine, TablesCause>
    ensures { result ≡ plain_row lid.now port.now }
{
    let Some(lid) = decimal(lid) else {
        return Err(TablesCause::UnknownLine);
    };
    let Some(port) = decimal(port) else {
        return Err(TablesCause::UnknownLine);
    };
    if port > 255 {
        return Err(TablesCause::PortRange);
    }
    if lid > 0xbfff {
        return Err(TablesCause::LidRange);
    }
    Ok(TableLine::PlainRow(lid as u16, port as u8))
}
