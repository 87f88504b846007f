//! Rooms for what is found of each switch, which serve for all LIDs, one after the other.

ghost use Rattle.std.specs.Prelude.{IfOk};
ghost use Rattle.fabric_counts.specs.Steps.{AreRooms};

use common_values::memory::OutOfMemory;
use fabric_routes::trace::Mark;
use std::alloc::Global;

/// The rooms.
#[derive(Drop)]
pub struct Rooms {
    /// Through how many switches the route from each switch goes.
    pub heights: Vec<u32>,
    /// How the route from each switch ends, if some are lost.
    pub marks: Vec<Mark>,
    /// The switches of a route.
    pub path: Vec<u32>,
}

impl Rooms {
    /// Rooms for so many switches.
    pub fn new(alloc: Global, switches: usize) -> Result<Rooms, OutOfMemory>
        ensures { IfOk result (AreRooms switches) }
    {
        let heights = vec![in alloc; 0u32; switches]?;
        let marks = vec![in alloc; Mark::New; switches]?;
        let path = vec![in alloc; 0u32; switches]?;
        Ok(Rooms {
            heights,
            marks,
            path,
        })
    }
}
