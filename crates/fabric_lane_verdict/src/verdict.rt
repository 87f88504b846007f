//! The verdict on tables with lanes.

use fabric_lane_witness::witness::{LaneSpot, LaneWitness};

/// A channel of a credit loop, and why it depends on the next one.
#[derive(Clone, Copy)]
pub struct LaneLoopChannel {
    /// The channel.
    pub channel: LaneSpot,
    /// The route that takes it and then, directly, the next channel of the loop: the one to the least LID; of those to it
    /// the one from the end port of least GUID; of those from it the one with the least level.
    pub witness: LaneWitness,
}

/// Whether there is a credit loop, a cycle of channels of which each depends on the next. A channel is the link out of
/// a port of a switch to another switch, on a lane.
#[derive(Drop)]
pub enum LaneVerdict {
    /// There is none. The rank of each channel: 0 if it depends on none, else one more than the greatest of those on which
    /// it depends. If there are L lanes, the channel out of port p of switch s on lane v has the place
    /// (s times the most ports of a switch, plus p - 1) times L, plus v; at the places of ports that lead to no switch
    /// stands 0.
    Ranks {
        /// The ranks, by these places.
        ranks: Vec<u32>,
    },
    /// The least one: from the least channel on any, by switch, then by port, then by lane, a shortest, and of these the
    /// least as a list.
    Cycle {
        /// Its channels, of which each depends on the next, and the last on the first.
        channels: Vec<LaneLoopChannel>,
    },
}
