//! Counts of routes on lanes.

use fabric_model::node::EndPort;

/// A route with a service level that does not arrive.
#[derive(Clone, Copy)]
pub struct LostLaneRoute {
    /// The LID to which it is to lead.
    pub lid: u16,
    /// The end port that sends.
    pub source: EndPort,
    /// The service level.
    pub level: u8,
    /// The place of the switch at which it stops or is discarded, or of the least one by which it comes again
    /// and again.
    pub at: u32,
}

/// The routes that are lost by one cause.
#[derive(Clone, Copy)]
pub struct LaneLoss {
    /// How many there are.
    pub count: u64,
    /// Of those to the least LID, of these from the end port of least GUID, the one with the least level;
    /// none if there are none.
    pub least: Option<LostLaneRoute>,
}

/// The routes that are lost, by cause.
#[derive(Clone, Copy)]
pub struct LaneLosses {
    /// The table of a switch has no port for the LID.
    pub missing: LaneLoss,
    /// The port is bare.
    pub dead: LaneLoss,
    /// The port leads to an end port that does not own the LID, on a lane that is not 15.
    pub wrong: LaneLoss,
    /// The lane is 15.
    pub discard: LaneLoss,
    /// The route goes on for ever.
    pub looping: LaneLoss,
}

/// Counts of routes. Each level with which an end port sends to a LID makes a route of its own.
#[derive(Clone, Copy)]
pub struct LaneCounts {
    /// How many routes there are: those that arrive, and those that are lost.
    pub routes: u64,
    /// How many of them arrive.
    pub arrived: u64,
    /// How many of these go to a LID that nobody owns.
    pub unowned: u64,
    /// The most switches of one route that arrives; 0 if none arrives.
    pub hops: u32,
    /// Those that do not arrive.
    pub lost: LaneLosses,
    /// How many pairs of an end port and a LID to which it sends have no level among those in use, and so no route.
    pub silent: u64,
}
