//! What the lines of lanes say so far.

ghost use Rattle.std.specs.Prelude.{◌≡◌, ◌<◌, ◌≤◌, IfOk, IfSome, OnOk};
ghost use Rattle.fabric_model.specs.Fabric.{owner_of, ports_of, switch_count};
ghost use Rattle.fabric_lane_tables.specs.Lanes.{told_row};
ghost use Rattle.fabric_words.specs.Says.{LedToOrWant};
ghost use Rattle.fabric_read_lanes.specs.Lanes.{asked_of, begun, dashes_told, is_open, none_told, opened, row_put};
ghost use Rattle.fabric_read_lanes.specs.Lanes.{row_told, told_with};
ghost use Rattle.fabric_read_lanes.specs.LaneReadings.{IsFit, KeepsSize, switch_in, told_of};

use crate::lane_line::{LaneLine, lane_line};
use common_lines::stop::Stop;
use common_values::memory::OutOfMemory;
use fabric_lane_tables::lanes::LaneRows;
use fabric_model::fabric::Fabric;
use fabric_model::node::EndPort;
use fabric_read_lines::takes::TakesLines;
use fabric_words::head::NodeHead;
use fabric_words::lane_cause::{LaneCause, LaneStop};
use std::alloc::Global;

/// The part of a text in which the next line stands.
#[derive(Clone, Copy)]
pub enum Part {
    /// No part began.
    Start,
    /// The last part ended.
    Between,
    /// That of a switch, before its rows.
    Switch(usize),
    /// The rows of a switch.
    SwitchRows(usize),
    /// That of an adapter or router, before its rows.
    Adapter,
    /// The rows of an adapter or router, which say nothing.
    AdapterRows,
    /// Rows that a switch was asked for. They end where another part begins, or the text.
    Asked(usize),
}

impl Part {
    // Whether it is one that has not ended.
    fn is_open(self) -> bool
        ensures { result ≡ is_open self }
    {
        match self {
            Part::Start | Part::Between | Part::Asked(_) => false,
            Part::Switch(_) | Part::SwitchRows(_) | Part::Adapter | Part::AdapterRows => true,
        }
    }
}

/// What so many lines say.
#[derive(Drop)]
pub struct Reading {
    /// The part in which the next line stands.
    part: Part,
    /// The rows that were told.
    pub rows: LaneRows,
}

impl TakesLines<LaneCause> for Reading {
    ghost use Rattle.fabric_read_lanes.specs.Lanes.{AddsTo, IsEnded, IsFaultyAfter, long_line};
    ghost use Rattle.fabric_read_lanes.specs.LaneReadings.{IsFit, told_of};

    ghost is_fit = { IsFit };

    ghost count = { λ reading. 0 };

    ghost adds = { λ fabric old line new. AddsTo fabric (told_of old) line (told_of new) };

    ghost is_faulty = { λ fabric old line cause. IsFaultyAfter fabric (told_of old) line cause };

    ghost is_ended = { λ reading. IsEnded (told_of reading) };

    ghost long = { λ fabric told line. long_line fabric (told_of told) line };

    fn take(&mut self, alloc: Global, fabric: &Fabric, line: &[u8]) -> Result<(), LaneStop> {
        let said = lane_line(alloc, line)?;
        self.add(fabric, said)
    }

    fn may_end(&self) -> bool {
        match self.part {
            Part::Between | Part::Asked(_) => true,
            Part::Start
            | Part::Switch(_)
            | Part::SwitchRows(_)
            | Part::Adapter
            | Part::AdapterRows => false,
        }
    }
}

impl Reading {
    /// What no lines of lanes of the fabric say.
    pub fn new(alloc: Global, fabric: &Fabric) -> Result<Reading, OutOfMemory>
        ensures none { IfOk result (λ reading. told_of reading ≡ none_told) }
        ensures fit { IfOk result (IsFit fabric.now) }
    {
        Ok(Reading {
            part: Part::Start,
            rows: LaneRows::new(alloc, fabric.switches(), fabric.most())?,
        })
    }

    // Adds what a line says.
    fn add(&mut self, fabric: &Fabric, said: LaneLine) -> Result<(), LaneStop>
        requires { IsFit fabric.now self.old }
        ensures step { LedToOrWant result (told_of self.new) (told_with fabric.now (told_of self.old) said) }
        ensures fit { OnOk result (IsFit fabric.now self.new) }
    {
        match said {
            LaneLine::Nothing => Ok(()),
            LaneLine::Dashes => self.add_dashes(fabric),
            LaneLine::Head(head) => self.begin(fabric, opened(fabric, head)),
            LaneLine::Asked(lid) => self.begin(fabric, asked_of(fabric, lid)),
            LaneLine::Row(entry, port, row) => self.add_row(fabric, entry, port, row),
        }
    }

    // Begins the rows of a part, or ends them.
    fn add_dashes(&mut self, fabric: &Fabric) -> Result<(), LaneStop>
        requires { IsFit fabric.now self.old }
        ensures step { LedToOrWant result (told_of self.new) (dashes_told (told_of self.old)) }
        ensures fit { OnOk result (IsFit fabric.now self.new) }
    {
        match self.part {
            Part::Switch(switch) => self.part = Part::SwitchRows(switch),
            Part::Adapter => self.part = Part::AdapterRows,
            Part::SwitchRows(_) | Part::AdapterRows => self.part = Part::Between,
            Part::Start | Part::Between | Part::Asked(_) => {
                return Err(Stop::Fault(LaneCause::OutOfPlace));
            }
        }
        Ok(())
    }

    // Begins the part of a node.
    fn begin(&mut self, fabric: &Fabric, part: Result<Part, LaneCause>) -> Result<(), LaneStop>
        requires fit { IsFit fabric.now self.old }
        requires within { IfOk part (λ part. IfSome (switch_in part) (λ switch. switch < switch_count fabric.now)) }
        ensures step { LedToOrWant result (told_of self.new) (begun (told_of self.old) part) }
        ensures fit { OnOk result (IsFit fabric.now self.new) }
    {
        if self.part.is_open() {
            return Err(Stop::Fault(LaneCause::NoEnd));
        }
        match part {
            Ok(part) => {
                self.part = part;
                Ok(())
            }
            Err(cause) => Err(Stop::Fault(cause)),
        }
    }

    // Adds a row, if one may stand here.
    fn add_row(&mut self, fabric: &Fabric, entry: u8, port: u8, row: u64) -> Result<(), LaneStop>
        requires { IsFit fabric.now self.old }
        ensures step { LedToOrWant result (told_of self.new) (row_told fabric.now (told_of self.old) entry port row) }
        ensures fit { OnOk result (IsFit fabric.now self.new) }
    {
        match self.part {
            Part::SwitchRows(switch) | Part::Asked(switch) => {
                let most = ports(fabric, switch);
                if most < usize::from(entry) || most < usize::from(port) {
                    return Err(Stop::Fault(LaneCause::NoSuchPort));
                }
                self.put(switch, entry, port, row)
            }
            Part::AdapterRows => Ok(()),
            Part::Start | Part::Between | Part::Switch(_) | Part::Adapter => {
                Err(Stop::Fault(LaneCause::OutOfPlace))
            }
        }
    }

    // Puts the row of a switch and ports, if no other was told.
    fn put(&mut self, switch: usize, entry: u8, port: u8, row: u64) -> Result<(), LaneStop>
        requires switch { switch < self.old.rows.switches }
        requires entry { entry ≤ self.old.rows.most }
        requires port { port ≤ self.old.rows.most }
        ensures step { LedToOrWant result (told_of self.new) (row_put (told_of self.old) switch entry port row
            (told_row self.old.rows switch entry port)) }
        ensures size { OnOk result (KeepsSize self.old self.new) }
    {
        match self
            .rows
            .put(switch, usize::from(entry), usize::from(port), row)
        {
            Ok(true) => Ok(()),
            Ok(false) => Err(Stop::Fault(LaneCause::LanesDiffer)),
            Err(_) => Err(Stop::OutOfMemory),
        }
    }
}

// The part of a node of the fabric.
fn opened(fabric: &Fabric, head: NodeHead) -> Result<Part, LaneCause>
    ensures part { result ≡ opened fabric.now head }
    ensures within { IfOk result (λ part. IfSome (switch_in part) (λ switch. switch < switch_count fabric.now)) }
{
    match head {
        NodeHead::Switch(guid) => match fabric.switch_with(guid) {
            Some(switch) => Ok(Part::Switch(switch as usize)),
            None => Err(LaneCause::UnknownSwitch),
        },
        NodeHead::Adapter(_) => Ok(Part::Adapter),
    }
}

// The part of the switch of the fabric that owns a LID.
fn asked_of(fabric: &Fabric, lid: u64) -> Result<Part, LaneCause>
    ensures part { result ≡ asked_of (owner_of fabric.now lid) }
    ensures within { IfOk result (λ part. IfSome (switch_in part) (λ switch. switch < switch_count fabric.now)) }
{
    // Only a fabric that is asked for its ports says that the owners of its LIDs are there.
    let _most = fabric.most();
    match fabric.owner(lid as usize) {
        Some(EndPort::Switch(switch)) => Ok(Part::Asked(switch as usize)),
        Some(EndPort::Host(_)) | None => Err(LaneCause::UnknownSwitch),
    }
}

// How many ports a switch has: no more than the one with most.
fn ports(fabric: &Fabric, switch: usize) -> usize
    requires { switch < switch_count fabric.now }
    ensures ports { result ≡ ports_of fabric.now switch }
    ensures most { result ≤ fabric.now.most }
{
    usize::from(fabric.ports(switch)).min(fabric.most())
}
