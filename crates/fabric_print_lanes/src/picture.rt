//! A credit loop over lanes as a picture, in the language of Graphviz.

ghost use Rattle.std.specs.Prelude.{◌≡◌, IfOk};
ghost use Rattle.fabric_print_lanes.specs.LanePictures.{lane_picture_text};

use crate::answer::Asked;
use crate::printer::asked_words;
use common_values::memory::OutOfMemory;
use fabric_print::answer::Name;
use fabric_print::picture::{Arrow, print_picture_by, push_arrow};
use fabric_print::row::HasRow;
use fabric_print::row::RowWord::{Loop, OnLane};
use std::alloc::Global;

/// A channel of a credit loop over lanes.
#[derive(Clone, Copy)]
pub struct LaneArrow {
    /// Its link, with the route that takes it and the next one.
    pub arrow: Arrow,
    /// Its lane.
    pub lane: u8,
    /// The service level of the route.
    pub level: u8,
}

/// A picture of a credit loop over lanes, or of none.
#[derive(Drop)]
pub struct LanePicture {
    /// The word of the traffic that was judged.
    pub traffic: &'static str,
    /// How many lanes there are.
    pub lanes: u64,
    /// With which service levels it was judged.
    pub asked: Asked,
    /// The names of the switches.
    pub names: Vec<Name>,
    /// The channels, or none if there is no credit loop.
    pub arrows: Vec<LaneArrow>,
}

/// The text of a picture.
pub fn print_picture(alloc: Global, picture: &LanePicture) -> Result<Vec<u8>, OutOfMemory>
    ensures { IfOk result (λ text. text.items ≡ lane_picture_text picture.now) }
{
    let traffic = picture.traffic.as_bytes();
    let mut title = asked_words(alloc, traffic, picture.lanes, picture.asked)?;
    title.push(Loop(picture.arrows.len()))?;
    print_picture_by(alloc, &title, &picture.names, &picture.arrows)
}

impl HasRow for LaneArrow {
    ghost use Rattle.fabric_print_lanes.specs.LanePictures.{lane_arrow_row};

    ghost words = { lane_arrow_row };

    fn push(&self, alloc: Global, text: &mut Vec<u8>) -> Result<(), OutOfMemory> {
        let label = OnLane {
            lane: self.lane,
            level: self.level,
        };
        push_arrow(alloc, text, label, &self.arrow)
    }
}
