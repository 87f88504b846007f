//! The meaning of the lines of a topology, which depends on the part of the text.

ghost use Rattle.std.specs.Prelude.{◌≡◌};
ghost use Rattle.fabric_topology.specs.Texts.{dumped_or_silent, first, says, may_end};

use crate::discovered::discovered;
use crate::dumped::{dumped, lmc_line};
use crate::fact::{Line, Part};
use crate::front::begins;
use crate::plain::{ended, is_silent, plain};
use common_lines::word::is;

/// The highest number of bytes of a line, without its line end.
pub const MOST_LINE: usize = 4_096;

/// Reports whether a text can end at part `part`.
pub fn may_end(part: Part) -> bool
    ensures { result ≡ may_end part }
{
    match part {
        Part::Start => false,
        Part::Outside => true,
        Part::Switch { guid: _ } => true,
        Part::Adapter => true,
        Part::Lmc { lmc: _ } => false,
        Part::Dumped { lmc: _ } => true,
        Part::Plain => false,
        Part::Ended => true,
    }
}

/// Parses a line of at most `MOST_LINE` bytes, at part `part`.
#[tactic(auto, unfolding(crate::specs::Texts::says))]
pub fn says(part: Part, line: &[u8]) -> Option<Line>
    ensures { result ≡ says part line.now }
{
    match part {
        Part::Start => first(line),
        Part::Outside => discovered(part, line),
        Part::Switch { guid: _ } => discovered(part, line),
        Part::Adapter => discovered(part, line),
        Part::Lmc { lmc } => dumped_or_silent(part, lmc, line),
        Part::Dumped { lmc } => dumped_or_silent(part, lmc, line),
        Part::Plain => plain(line),
        Part::Ended => ended(line),
    }
}

// What a line says of an `opensm-subnet.lst` of this LMC, once that is known.
fn dumped_or_silent(part: Part, lmc: u64, line: &[u8]) -> Option<Line>
    ensures { result ≡ dumped_or_silent part lmc line.now }
{
    if is_silent(line) {
        return Some(Line::silent(part));
    }
    dumped(lmc, line)
}

// What a line says before which only silent ones stand.
#[tactic(auto, unfolding(crate::specs::Texts::first))]
fn first(line: &[u8]) -> Option<Line>
    ensures { result ≡ first line.now }
{
    if is_silent(line) {
        return Some(Line::silent(Part::Start));
    }
    if begins(line, "{") {
        return dumped(0, line);
    }
    if begins(line, "lmc ") {
        return lmc_line(line);
    }
    if is(line, "topology 1") {
        return Some(Line::silent(Part::Plain));
    }
    discovered(Part::Outside, line)
}
