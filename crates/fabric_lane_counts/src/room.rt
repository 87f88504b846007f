//! Rooms for what is found of each switch, which serve for all LIDs, one after the other.

ghost use Rattle.std.specs.Prelude.{IfOk};
ghost use Rattle.fabric_lane_counts.specs.Steps.{AreRooms};

use common_values::memory::OutOfMemory;
use fabric_routes::trace::Mark;
use std::alloc::Global;

/// The rooms.
#[derive(Drop)]
pub struct Rooms {
    /// How the route from each switch ends on one lane.
    pub marks: Vec<Mark>,
    /// The switches of a route.
    pub path: Vec<u32>,
    /// With which levels what left each switch is discarded, as bits.
    pub gone: Vec<u64>,
}

impl Rooms {
    /// Rooms for so many switches.
    pub fn new(alloc: Global, switches: usize) -> Result<Rooms, OutOfMemory>
        ensures { IfOk result (AreRooms switches) }
    {
        let marks = vec![in alloc; Mark::New; switches]?;
        let path = vec![in alloc; 0u32; switches]?;
        let gone = vec![in alloc; 0u64; switches]?;
        Ok(Rooms { marks, path, gone })
    }
}
