//! The command `dot` with lanes: the credit loop as a picture.

ghost use Rattle.std.specs.Prelude.{◌≡◌, ◌++◌, IfOk, OnOk};
ghost use Rattle.fabric_lane_commands.specs.Asked.{HasLowLevels};
ghost use Rattle.fabric_lane_commands.specs.Inputs.{HasPlaces, lane_sources, told_in};
ghost use Rattle.fabric_tables.specs.Cells.{tables_of};
ghost use Rattle.fabric_lane_tables.specs.Levels.{levels_of};
ghost use Rattle.fabric_lane_commands.specs.LaneCall.{IsLanesDrawn};
ghost use Rattle.fabric_lane_commands.specs.Silence.{IsMute};
ghost use Rattle.fabric_lane_commands.specs.LaneDrawn.{IsLaneDrawn, IsLanePictureOf, lane_arrow_at, lane_arrows_of, lane_switches_of};

use crate::command::{LaneCommand, answer};
use crate::input::Input;
use crate::judged::{cycle_of, judged_for, status_of};
use crate::mute::first_mute;
use crate::steps::without_lane;
use common_values::memory::OutOfMemory;
use fabric_call::command::Given;
use fabric_judge_commands::dot::arrow_for;
use fabric_judge_commands::names::names_for;
use fabric_judge_commands::words::word_of;
use fabric_lane_verdict::verdict::LaneLoopChannel;
use fabric_model::fabric::Fabric;
use fabric_model::traffic::Traffic;
use fabric_print_lanes::answer::{Asked, Mute};
use fabric_print_lanes::picture::{LaneArrow, LanePicture, print_picture};
use indexmap::IndexSet;
use outside::sink::Sink;
use outside::source::Source;
use std::alloc::Global;

// The command, for a traffic.
#[derive(Clone, Copy)]
struct DrawLanes {
    traffic: Traffic,
}

impl LaneCommand for DrawLanes {
    ghost gives = { λ draw. IsLaneDrawn draw.traffic };

    fn given(&self, alloc: Global, input: &Input, asked: Asked) -> Result<Given, OutOfMemory> {
        let judged = judged_for(alloc, input, self.traffic)?;
        let picture = picture_for(alloc, input, self.traffic, asked, cycle_of(&judged))?;
        let mute = mute_in(input, self.traffic);
        Ok(Given {
            status: status_of(&judged, mute),
            text: print_picture(alloc, &picture)?,
        })
    }
}

// The first pair that is given no service level.
fn mute_in(input: &Input, traffic: Traffic) -> Option<Mute>
    requires { HasPlaces input.now }
    ensures { IsMute input.now.topology.fabric (tables_of input.now.tables.cells) traffic
        (levels_of input.now.levels.given) result }
{
    first_mute(
        &input.topology.fabric,
        &input.tables.cells,
        &input.levels.given,
        traffic,
    )
}

// The picture of the channels of a loop.
fn picture_for(
    alloc: Global,
    input: &Input,
    traffic: Traffic,
    asked: Asked,
    cycle: &[LaneLoopChannel],
) -> Result<LanePicture, OutOfMemory>
    ensures picture { IfOk result (IsLanePictureOf traffic asked (told_in input.now) cycle.now) }
    ensures lanes { IfOk result (λ picture. picture.lanes ≡ input.now.lanes.count) }
{
    let arrows = arrows_of(alloc, &input.topology.fabric, cycle)?;
    let switches = switches_of(alloc, &arrows)?;
    let names = names_for(alloc, &input.topology.text, &switches)?;
    Ok(LanePicture {
        traffic: word_of(traffic),
        lanes: input.lanes.count() as u64,
        asked,
        names,
        arrows,
    })
}

// The channels of a loop as arrows.
fn arrows_of(
    alloc: Global,
    fabric: &Fabric,
    cycle: &[LaneLoopChannel],
) -> Result<Vec<LaneArrow>, OutOfMemory>
    ensures { IfOk result (λ arrows. arrows.items ≡ lane_arrows_of fabric.now cycle.now) }
{
    let mut arrows = Vec::with_capacity(alloc, cycle.len())?;
    'channels: for one in cycle {
        push_arrow(&mut arrows, fabric, *one)?;
    }
    Ok(arrows)
}

// Appends a channel, if it leads to a switch.
fn push_arrow(
    arrows: &mut Vec<LaneArrow>,
    fabric: &Fabric,
    one: LaneLoopChannel,
) -> Result<(), OutOfMemory>
    ensures { OnOk result (arrows.new.items ≡ arrows.old.items ++ lane_arrow_at fabric.now one) }
{
    let Some(arrow) = arrow_for(fabric, without_lane(one)) else {
        return Ok(());
    };
    arrows.push(LaneArrow {
        arrow,
        lane: one.channel.lane,
        level: one.witness.level,
    })?;
    Ok(())
}

// The switches of arrows.
fn switches_of(alloc: Global, arrows: &[LaneArrow]) -> Result<IndexSet<u64>, OutOfMemory>
    ensures { IfOk result (λ switches. switches.keys ≡ lane_switches_of arrows.now) }
{
    let mut switches = IndexSet::new(alloc);
    'arrows: for one in arrows {
        switches.insert(one.arrow.step.guid)?;
    }
    Ok(switches)
}

/// Answers `dot` with lanes: reads as `lanes` does, writes a picture of the credit loop to out, or one that says that
/// there is none, and tells the status. The answer is the number of the status, whose line goes to err, as of `lanes`. If
/// a source is wrong, those after it are left alone, and so is out.
pub fn draw_lanes<T: Source, S: Source, L: Source, P: Source, O: Sink, E: Sink>(
    alloc: Global,
    topology: &mut T,
    tables: &mut S,
    lanes: &mut L,
    levels: &mut P,
    asked: Asked,
    out: &mut O,
    err: &mut E,
    traffic: Traffic,
) -> u8
    requires { HasLowLevels asked }
    ensures { IsLanesDrawn traffic asked
        (lane_sources (T.seen topology.old) (S.seen tables.old) (L.seen lanes.old) (P.seen levels.old))
        (lane_sources (T.seen topology.new) (S.seen tables.new) (L.seen lanes.new) (P.seen levels.new))
        (O.seen out.old) (O.seen out.new) (E.seen err.old) (E.seen err.new) result }
{
    let command = DrawLanes { traffic };
    answer(
        &command, alloc, topology, tables, lanes, levels, asked, out, err,
    )
}
