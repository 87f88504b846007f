//! What the lines of levels say so far.

ghost use Rattle.std.specs.Prelude.{◌≡◌, ◌<◌, ◌≤◌, IfOk, OnOk};
ghost use Rattle.fabric_words.specs.Says.{LedToOrWant};
ghost use Rattle.fabric_read_lanes.specs.LevelLines.{HasLowLevel};
ghost use Rattle.fabric_read_lanes.specs.Levels.{any_source, level_told, none_told, source_of, told_with};
ghost use Rattle.fabric_read_lanes.specs.LevelReadings.{IsEndOf, IsFit, told_of};

use crate::level_line::{LevelLine, level_line};
use common_lines::stop::Stop;
use common_values::memory::OutOfMemory;
use fabric_lane_tables::levels::LevelRows;
use fabric_model::fabric::Fabric;
use fabric_model::node::EndPort;
use fabric_read_lines::takes::TakesLines;
use fabric_words::head::NodeHead;
use fabric_words::lane_cause::{LaneCause, LaneStop};
use std::alloc::Global;

/// The part of a text in which the next line stands.
#[derive(Clone, Copy)]
pub enum Part {
    /// No line said anything.
    Start,
    /// Paths, of which each line names the source.
    Paths,
    /// The levels of an end port.
    Of(EndPort),
}

/// What so many lines say.
#[derive(Drop)]
pub struct Reading {
    /// The part in which the next line stands.
    part: Part,
    /// The levels that were told.
    pub rows: LevelRows,
}

impl TakesLines<LaneCause> for Reading {
    ghost use Rattle.fabric_read_lanes.specs.Levels.{AddsTo, IsEnded, IsFaultyAfter, long_line};
    ghost use Rattle.fabric_read_lanes.specs.LevelReadings.{IsFit, told_of};

    ghost is_fit = { IsFit };

    ghost count = { λ reading. 0 };

    ghost adds = { λ fabric old line new. AddsTo fabric (told_of old) line (told_of new) };

    ghost is_faulty = { λ fabric old line cause. IsFaultyAfter fabric (told_of old) line cause };

    ghost is_ended = { λ reading. IsEnded (told_of reading) };

    ghost long = { λ fabric told line. long_line fabric (told_of told) line };

    fn take(&mut self, alloc: Global, fabric: &Fabric, line: &[u8]) -> Result<(), LaneStop> {
        let said = level_line(alloc, line)?;
        self.add(alloc, fabric, said)
    }

    fn may_end(&self) -> bool {
        match self.part {
            Part::Start => false,
            Part::Paths | Part::Of(_) => true,
        }
    }
}

impl Reading {
    /// What no lines of levels of the fabric say.
    pub fn new(alloc: Global, fabric: &Fabric) -> Result<Reading, OutOfMemory>
        ensures none { IfOk result (λ reading. told_of reading ≡ none_told) }
        ensures fit { IfOk result (IsFit fabric.now) }
    {
        Ok(Reading {
            part: Part::Start,
            rows: LevelRows::new(alloc, fabric.ends(), fabric.switches(), fabric.lids())?,
        })
    }

    // Adds what a line says.
    fn add(&mut self, alloc: Global, fabric: &Fabric, said: LevelLine) -> Result<(), LaneStop>
        requires fit { IsFit fabric.now self.old }
        requires low { HasLowLevel said }
        ensures step { LedToOrWant result (told_of self.new) (told_with fabric.now (told_of self.old) said) }
        ensures fit { OnOk result (IsFit fabric.now self.new) }
    {
        match said {
            LevelLine::Nothing => Ok(()),
            LevelLine::Head(head) => self.begin(fabric, head),
            LevelLine::Level(lid, level) => self.add_level(alloc, fabric, lid, level),
            LevelLine::Path(guid, lid, level) => self.add_path(alloc, fabric, guid, lid, level),
        }
    }

    // Begins the part of a node.
    fn begin(&mut self, fabric: &Fabric, head: NodeHead) -> Result<(), LaneStop>
        requires { IsFit fabric.now self.old }
        ensures step { LedToOrWant result (told_of self.new)
            (told_with fabric.now (told_of self.old) (LevelLine.Head head)) }
        ensures fit { OnOk result (IsFit fabric.now self.new) }
    {
        match source_of(fabric, head) {
            Ok(source) => {
                self.part = Part::Of(source);
                Ok(())
            }
            Err(cause) => Err(Stop::Fault(cause)),
        }
    }

    // Adds a level of the end port of the part, if there is one.
    fn add_level(
        &mut self,
        alloc: Global,
        fabric: &Fabric,
        lid: u16,
        level: u8,
    ) -> Result<(), LaneStop>
        requires fit { IsFit fabric.now self.old }
        requires low { level ≤ 15 }
        ensures step { LedToOrWant result (told_of self.new)
            (told_with fabric.now (told_of self.old) (LevelLine.Level lid level)) }
        ensures fit { OnOk result (IsFit fabric.now self.new) }
    {
        match self.part {
            Part::Of(source) => self.put(alloc, fabric, source, lid, level),
            Part::Start | Part::Paths => Err(Stop::Fault(LaneCause::OutOfPlace)),
        }
    }

    // Adds a level of a path.
    fn add_path(
        &mut self,
        alloc: Global,
        fabric: &Fabric,
        guid: u64,
        lid: u16,
        level: u8,
    ) -> Result<(), LaneStop>
        requires fit { IsFit fabric.now self.old }
        requires low { level ≤ 15 }
        ensures step { LedToOrWant result (told_of self.new)
            (told_with fabric.now (told_of self.old) (LevelLine.Path guid lid level)) }
        ensures fit { OnOk result (IsFit fabric.now self.new) }
    {
        match any_source(fabric, guid) {
            Ok(source) => {
                self.part = Part::Paths;
                self.put(alloc, fabric, source, lid, level)
            }
            Err(cause) => Err(Stop::Fault(cause)),
        }
    }

    // Adds a level of an end port to a LID, with or without an owner.
    fn put(
        &mut self,
        alloc: Global,
        fabric: &Fabric,
        source: EndPort,
        lid: u16,
        level: u8,
    ) -> Result<(), LaneStop>
        requires fit { IsFit fabric.now self.old }
        requires source { IsEndOf fabric.now source }
        requires low { level ≤ 15 }
        ensures step { LedToOrWant result (told_of self.new) (level_told (told_of self.old) lid level source) }
        ensures fit { OnOk result (IsFit fabric.now self.new) }
    {
        let lid = usize::from(lid);
        self.rows.make_room(alloc, lid)?;
        self.rows.add(source, lid, usize::from(level))?;
        Ok(())
    }
}

// The end port of a head.
fn source_of(fabric: &Fabric, head: NodeHead) -> Result<EndPort, LaneCause>
    ensures source { result ≡ source_of fabric.now head }
    ensures within { IfOk result (IsEndOf fabric.now) }
{
    match head {
        NodeHead::Switch(guid) => match fabric.switch_with(guid) {
            Some(switch) => Ok(EndPort::Switch(switch)),
            None => Err(LaneCause::UnknownSwitch),
        },
        NodeHead::Adapter(guid) => match fabric.end_with(guid) {
            Some(end) => Ok(EndPort::Host(end)),
            None => Err(LaneCause::UnknownEnd),
        },
    }
}

// The end port with a GUID, of whatever kind.
fn any_source(fabric: &Fabric, guid: u64) -> Result<EndPort, LaneCause>
    ensures source { result ≡ any_source fabric.now guid }
    ensures within { IfOk result (IsEndOf fabric.now) }
{
    if let Some(end) = fabric.end_with(guid) {
        return Ok(EndPort::Host(end));
    }
    match fabric.switch_with(guid) {
        Some(switch) => Ok(EndPort::Switch(switch)),
        None => Err(LaneCause::UnknownEnd),
    }
}
