//! What a line of levels says.

ghost use Rattle.std.specs.Prelude.{◌≡◌, ◌≤◌, map, IfOk, IfSome};
ghost use Rattle.fabric_words.specs.Says.{IsSaid};
ghost use Rattle.fabric_read_lanes.specs.LevelLines.{HasLowLevel, level_in, level_said, path_said};
ghost use Rattle.fabric_read_lanes.specs.LevelLines.{said_by, said_by_three, said_in};

use common_lines::line::words;
use common_lines::stop::Stop;
use common_lines::word::{is, number_between};
use fabric_read_lines::reader::MOST_LINE;
use fabric_words::digits::{decimal, hex_after};
use fabric_words::head::{NodeHead, node_head};
use fabric_words::lane_cause::{LaneCause, LaneStop};
use std::alloc::Global;

/// What a line says.
#[derive(Clone, Copy)]
pub enum LevelLine {
    /// Nothing: it is blank, or names columns.
    Nothing,
    /// The part of a node begins.
    Head(NodeHead),
    /// The end port of the part sends to this LID with this level.
    Level(u16, u8),
    /// The end port with this GUID sends to this LID with this level.
    Path(u64, u16, u8),
}

/// What a line says, without what ends it.
#[tactic(auto, unfolding(crate::specs::LevelLines::said_in))]
pub fn level_line(alloc: Global, line: &[u8]) -> Result<LevelLine, LaneStop>
    ensures said { IsSaid result (said_in line.now) }
    ensures low { IfOk result HasLowLevel }
{
    if line.len() > MOST_LINE {
        return Err(Stop::Fault(LaneCause::LineTooLong));
    }
    if let Some(head) = node_head(line) {
        return Ok(LevelLine::Head(head));
    }
    let words = words(alloc, line)?;
    match said_by(&words) {
        Ok(said) => Ok(said),
        Err(cause) => Err(Stop::Fault(cause)),
    }
}

// What words say.
fn said_by(words: &[&[u8]]) -> Result<LevelLine, LaneCause>
    ensures said { result ≡ said_by (map (λ w. w.now) words.now) }
    ensures low { IfOk result HasLowLevel }
{
    match words {
        [] => Ok(LevelLine::Nothing),
        [first, second, third] => said_by_three(first, second, third),
        _ => Err(LaneCause::UnknownLine),
    }
}

fn said_by_three(first: &[u8], second: &[u8], third: &[u8]) -> Result<LevelLine, LaneCause>
    ensures said { result ≡ said_by_three first.now second.now third.now }
    ensures low { IfOk result HasLowLevel }
{
    if is(second, ":") {
        return level_said(first, third);
    }
    path_said(first, second, third)
}

// A LID in hexadecimal digits and a level.
fn level_said(lid: &[u8], level: &[u8]) -> Result<LevelLine, LaneCause>
    ensures said { result ≡ level_said lid.now level.now }
    ensures low { IfOk result HasLowLevel }
{
    let Some(lid) = hex_after(lid) else {
        return Err(LaneCause::UnknownLine);
    };
    let Some(level) = level_in(level) else {
        return Err(LaneCause::BadRow);
    };
    if lid > 0xbfff {
        return Err(LaneCause::LidRange);
    }
    Ok(LevelLine::Level(lid as u16, level))
}

// A GUID in hexadecimal digits, a LID in decimal ones and a level.
fn path_said(guid: &[u8], lid: &[u8], level: &[u8]) -> Result<LevelLine, LaneCause>
    ensures said { result ≡ path_said guid.now lid.now level.now }
    ensures low { IfOk result HasLowLevel }
{
    let Some(guid) = hex_after(guid) else {
        return Err(LaneCause::UnknownLine);
    };
    let Some(lid) = decimal(lid) else {
        return Err(LaneCause::BadRow);
    };
    let Some(level) = level_in(level) else {
        return Err(LaneCause::BadRow);
    };
    if lid > 0xbfff {
        return Err(LaneCause::LidRange);
    }
    Ok(LevelLine::Path(guid, lid as u16, level))
}

// A service level, at most 15.
fn level_in(word: &[u8]) -> Option<u8>
    ensures level { result ≡ level_in word.now }
    ensures low { IfSome result (λ level. level ≤ 15) }
{
    let level = number_between(word, 0, 15)?;
    Some(level as u8)
}
