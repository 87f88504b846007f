//! The command `dot`: the credit loop as a picture.

ghost use Rattle.std.specs.Prelude.{◌≡◌, ◌++◌, IfOk, OnOk};
ghost use Rattle.std.specs.Option.{option_to_list};
ghost use Rattle.fabric_model.specs.Fabric.{side_of};
ghost use Rattle.fabric_judge_commands.specs.Given.{gives_drawn};
ghost use Rattle.fabric_judge_commands.specs.Drawn.{IsPictureOf, arrow_at, arrows_of, arrow_switches};

use crate::answer::{cycle_of, status_of};
use crate::names::names_for;
use crate::steps::step_of;
use crate::words::word_of;
use common_values::memory::OutOfMemory;
use fabric_call::command::{Command, Given};
use fabric_call::input::Topology;
use fabric_model::fabric::Fabric;
use fabric_model::node::{EndPort, Side, Spot};
use fabric_model::traffic::Traffic;
use fabric_print::picture::{Arrow, Picture, print_picture};
use fabric_read_tables::reader::Tables;
use fabric_verdict::judge::judge;
use fabric_verdict::verdict::LoopChannel;
use indexmap::IndexSet;
use std::alloc::Global;

/// The command `dot`: the credit loop as a picture, or a picture that says that there is none.
#[derive(Clone, Copy)]
pub struct Dot {
    /// The traffic.
    pub traffic: Traffic,
}

impl Command for Dot {
    ghost gives = { λ dot. gives_drawn dot.traffic };

    fn given(
        &self,
        alloc: Global,
        topology: &Topology,
        tables: &Tables,
    ) -> Result<Given, OutOfMemory> {
        let judged = judge(alloc, &topology.fabric, &tables.cells, self.traffic)?;
        let picture = picture_of(alloc, topology, self.traffic, cycle_of(&judged))?;
        Ok(Given {
            status: status_of(&judged),
            text: print_picture(alloc, &picture)?,
        })
    }
}

// The picture of the channels of a loop.
fn picture_of(
    alloc: Global,
    topology: &Topology,
    traffic: Traffic,
    cycle: &[LoopChannel],
) -> Result<Picture, OutOfMemory>
    ensures { IfOk result (IsPictureOf traffic topology.now.text.items topology.now.fabric cycle.now) }
{
    let arrows = arrows_of(alloc, &topology.fabric, cycle)?;
    let switches = arrow_switches(alloc, &arrows)?;
    let names = names_for(alloc, &topology.text, &switches)?;
    Ok(Picture {
        traffic: word_of(traffic),
        names,
        arrows,
    })
}

// The channels of a loop as arrows.
fn arrows_of(
    alloc: Global,
    fabric: &Fabric,
    cycle: &[LoopChannel],
) -> Result<Vec<Arrow>, OutOfMemory>
    ensures { IfOk result (λ arrows. arrows.items ≡ arrows_of fabric.now cycle.now) }
{
    let mut arrows = Vec::with_capacity(alloc, cycle.len())?;
    'channels: for one in cycle {
        push_arrow(&mut arrows, fabric, *one)?;
    }
    Ok(arrows)
}

// Appends a channel, if it leads to a switch.
fn push_arrow(arrows: &mut Vec<Arrow>, fabric: &Fabric, one: LoopChannel) -> Result<(), OutOfMemory>
    ensures { OnOk result (arrows.new.items ≡ arrows.old.items ++ arrow_at fabric.now one) }
{
    let Some(arrow) = arrow_for(fabric, one) else {
        return Ok(());
    };
    arrows.push(arrow)?;
    Ok(())
}

/// Returns a channel as an arrow, or `None` if it leads to no switch.
pub fn arrow_for(fabric: &Fabric, one: LoopChannel) -> Option<Arrow>
    ensures { option_to_list result ≡ arrow_at fabric.now one }
{
    match side_of(fabric, one.channel) {
        Side::To(next, entry) => Some(Arrow {
            step: step_of(fabric, one),
            to: fabric.guid(EndPort::Switch(next)),
            entry,
        }),
        Side::Bare | Side::End(_) => None,
    }
}

// Where a port leads; nowhere if there is no such switch.
fn side_of(fabric: &Fabric, spot: Spot) -> Side
    ensures { result ≡ side_of fabric.now spot.switch spot.port }
{
    let switch = spot.switch as usize;
    if switch >= fabric.switches() {
        return Side::Bare;
    }
    fabric.side(switch, spot.port)
}

// The switches of arrows.
fn arrow_switches(alloc: Global, arrows: &[Arrow]) -> Result<IndexSet<u64>, OutOfMemory>
    ensures { IfOk result (λ switches. switches.keys ≡ arrow_switches arrows.now) }
{
    let mut switches = IndexSet::new(alloc);
    'arrows: for arrow in arrows {
        switches.insert(arrow.step.guid)?;
    }
    Ok(switches)
}
