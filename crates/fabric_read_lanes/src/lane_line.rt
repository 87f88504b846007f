//! What a line of lanes says.

ghost use Rattle.std.specs.Prelude.{◌≡◌, ◌≤◌, length, map, IfOk};
ghost use Rattle.fabric_words.specs.Says.{IsSaid};
ghost use Rattle.fabric_read_lanes.specs.LaneLines.{lanes_in, packed, port_in, row_said, said_after};
ghost use Rattle.fabric_read_lanes.specs.LaneLines.{asked_head, asked_lid, asked_row, front_lid, is_parting, said_by};
ghost use Rattle.fabric_read_lanes.specs.LaneLines.{said_in, spaced};

use common_lines::line::words;
use common_lines::stop::Stop;
use common_lines::word::{is, number_between};
use common_values::memory::OutOfMemory;
use fabric_read_lines::reader::MOST_LINE;
use fabric_words::cut::{after, begins, cut};
use fabric_words::digits::number_to;
use fabric_words::head::{NodeHead, node_head};
use fabric_words::lane_cause::{LaneCause, LaneStop};
use std::alloc::Global;

/// What a line says.
#[derive(Clone, Copy)]
pub enum LaneLine {
    /// Nothing: it is blank, or names columns.
    Nothing,
    /// The rows of a part begin, or end.
    Dashes,
    /// The part of a node begins.
    Head(NodeHead),
    /// The rows begin that the switch with this LID was asked for.
    Asked(u64),
    /// The lanes of the sixteen levels for a port in and a port out, four bits each, that of level 0 the
    /// lowest.
    Row(u8, u8, u64),
}

/// What a line says, without what ends it.
#[tactic(auto, unfolding(crate::specs::LaneLines::said_in))]
pub fn lane_line(alloc: Global, line: &[u8]) -> Result<LaneLine, LaneStop>
    ensures { IsSaid result (said_in line.now) }
{
    if line.len() > MOST_LINE {
        return Err(Stop::Fault(LaneCause::LineTooLong));
    }
    if begins(line, "#-") {
        return Ok(LaneLine::Dashes);
    }
    if begins(line, "# SL2VL table:") {
        return said(asked_head(asked_lid(line)));
    }
    if begins(line, "ports: in ") {
        let line = spaced(alloc, line)?;
        return said(asked_row(&words(alloc, &line)?));
    }
    if let Some(head) = node_head(line) {
        return Ok(LaneLine::Head(head));
    }
    said(said_by(&words(alloc, line)?))
}

// What is said, or the cause why a reader stops.
fn said(said: Result<LaneLine, LaneCause>) -> Result<LaneLine, LaneStop>
    ensures { IsSaid result said }
{
    match said {
        Ok(said) => Ok(said),
        Err(cause) => Err(Stop::Fault(cause)),
    }
}

// The LID in the head of what `smpquery sl2vl` prints.
#[tactic(auto, unfolding(crate::specs::LaneLines::asked_lid))]
fn asked_lid(line: &[u8]) -> Option<u64>
    ensures { result ≡ asked_lid line.now }
{
    let text = after(line, "# SL2VL table: Lid ")?;
    front_lid(text)
}

// The LID at the front of a text, up to a space or the end.
#[tactic(auto, unfolding(crate::specs::LaneLines::front_lid))]
fn front_lid(text: &[u8]) -> Option<u64>
    ensures { result ≡ front_lid text.now }
{
    match cut(text, b' ') {
        Some((word, _rest)) => number_to(word, 0xFFFF),
        None => number_to(text, 0xFFFF),
    }
}

// The head with it.
fn asked_head(lid: Option<u64>) -> Result<LaneLine, LaneCause>
    ensures { result ≡ asked_head lid }
{
    match lid {
        Some(lid) => Ok(LaneLine::Asked(lid)),
        None => Err(LaneCause::UnknownLine),
    }
}

// Whether a byte parts the words of a row that it prints: a colon, a comma or a bar.
fn is_parting(byte: u8) -> bool
    ensures { result ≡ is_parting byte }
{
    byte == b':' || byte == b',' || byte == b'|'
}

// The row with spaces in their places.
fn spaced(alloc: Global, line: &[u8]) -> Result<Vec<u8>, OutOfMemory>
    ensures { IfOk result (λ v. v.items ≡ spaced line.now) }
{
    let mut text = Vec::with_capacity(alloc, line.len())?;
    'bytes: for byte in line {
        text.push(if is_parting(*byte) { b' ' } else { *byte })?;
    }
    Ok(text)
}

// What its words say.
fn asked_row(words: &[&[u8]]) -> Result<LaneLine, LaneCause>
    ensures { result ≡ asked_row (map (λ w. w.now) words.now) }
{
    match words {
        [_ports, _in, entry, _out, port, lanes @ ..] => row_said(entry, port, lanes),
        _ => Err(LaneCause::UnknownLine),
    }
}

// What words say.
fn said_by(words: &[&[u8]]) -> Result<LaneLine, LaneCause>
    ensures { result ≡ said_by (map (λ w. w.now) words.now) }
{
    match words {
        [] => Ok(LaneLine::Nothing),
        [entry, port, colon, lanes @ ..] => said_after(colon, entry, port, lanes),
        _ => Err(LaneCause::UnknownLine),
    }
}

// What a row says, if a colon is before its lanes.
fn said_after(
    colon: &[u8],
    entry: &[u8],
    port: &[u8],
    lanes: &[&[u8]],
) -> Result<LaneLine, LaneCause>
    ensures { result ≡ said_after colon.now entry.now port.now (map (λ w. w.now) lanes.now) }
{
    if is(colon, ":") {
        return row_said(entry, port, lanes);
    }
    Err(LaneCause::UnknownLine)
}

// The lanes for a port in and a port out.
fn row_said(entry: &[u8], port: &[u8], lanes: &[&[u8]]) -> Result<LaneLine, LaneCause>
    ensures { result ≡ row_said entry.now port.now (map (λ w. w.now) lanes.now) }
{
    let Some(entry) = port_in(entry) else {
        return Err(LaneCause::BadRow);
    };
    let Some(port) = port_in(port) else {
        return Err(LaneCause::BadRow);
    };
    let Some(row) = lanes_in(lanes) else {
        return Err(LaneCause::BadRow);
    };
    Ok(LaneLine::Row(entry, port, row))
}

// The number of a port, at most 255.
fn port_in(word: &[u8]) -> Option<u8>
    ensures { result ≡ port_in word.now }
{
    let port = number_between(word, 0, 255)?;
    Some(port as u8)
}

// The row of sixteen lanes.
fn lanes_in(lanes: &[&[u8]]) -> Option<u64>
    ensures { result ≡ lanes_in (map (λ w. w.now) lanes.now) }
{
    if lanes.len() != 16 {
        return None;
    }
    packed(lanes)
}

// At most sixteen lanes, four bits each, the first the lowest.
fn packed(lanes: &[&[u8]]) -> Option<u64>
    requires { length lanes.now ≤ 16 }
    ensures { result ≡ packed (map (λ w. w.now) lanes.now) }
{
    let mut row = 0u64;
    let mut left = lanes.len();
    'lanes: while left > 0 {
        left -= 1;
        row = row * 16 + number_between(lanes[left], 0, 15)?;
    }
    Some(row)
}
