//! What the program answers for tables with lanes.

use fabric_print::answer::{LoopStep, Name, Read, Routes};

/// With which service levels end ports send.
#[derive(Clone, Copy)]
pub enum LevelsAsked {
    /// Each to each LID with those that a file tells.
    File,
    /// All with this one.
    Same(u8),
    /// All with all sixteen.
    Any,
}

/// With which service levels end ports send, as a call asks.
#[derive(Clone, Copy)]
pub struct Asked {
    /// Which levels it names.
    pub levels: LevelsAsked,
    /// Whether a reply has the level of its request.
    pub replies: bool,
    /// The level of an end port and a LID for which no level was read, if the call names one.
    pub silent: Option<u8>,
}

/// A pair of an end port and a LID that is given no service level.
#[derive(Clone, Copy)]
pub struct Mute {
    /// The LID to which the end port sends.
    pub lid: u16,
    /// The GUID of the end port.
    pub source: u64,
}

/// A dependency of a cycle, by a route that makes it: the route takes the channel, and then the next one of the cycle.
#[derive(Clone, Copy)]
pub struct LaneStep {
    /// The switch and the port of the channel, and the LID and the source of the route.
    pub step: LoopStep,
    /// The lane of the channel.
    pub lane: u8,
    /// The service level of the route.
    pub level: u8,
}

/// Why a route is lost.
#[derive(Clone, Copy)]
pub enum LossCause {
    /// A switch has no port for the LID.
    Missing,
    /// The port leads nowhere.
    Dead,
    /// The port leads to an end port that does not own the LID.
    Wrong,
    /// The lane is 15.
    Discard,
    /// The route goes on for ever.
    Loop,
}

/// The least of the routes that are lost by a cause.
#[derive(Clone, Copy)]
pub struct LaneLost {
    /// Why it is lost.
    pub cause: LossCause,
    /// The LID to which it was to lead.
    pub lid: u16,
    /// The GUID of the end port from which it comes.
    pub source: u64,
    /// Its service level.
    pub level: u8,
    /// The GUID of the switch at which it is lost.
    pub at: u64,
}

/// How many routes are lost.
#[derive(Clone, Copy)]
pub struct LaneLosses {
    /// By whatever cause.
    pub all: u64,
    /// At a switch that has no port for the LID.
    pub missing: u64,
    /// At a port that leads nowhere.
    pub dead: u64,
    /// At an end port that does not own the LID.
    pub wrong: u64,
    /// At a switch that sends on lane 15.
    pub discard: u64,
    /// In a loop.
    pub looping: u64,
}

/// The answer for a topology, tables, lanes and service levels.
#[derive(Drop)]
pub struct LaneAnswer {
    /// What was read of the topology and the tables.
    pub read: Read,
    /// The word of the traffic that was judged.
    pub traffic: &'static str,
    /// How many lanes there are.
    pub lanes: u64,
    /// With which service levels it was judged.
    pub asked: Asked,
    /// The routes of the traffic, each level of an end port and a LID one.
    pub routes: Routes,
    /// How many pairs of an end port and a LID to which it sends are given no level.
    pub silent: u64,
    /// The first of them, if there are any.
    pub mute: Option<Mute>,
    /// How many channels the fabric has.
    pub channels: u64,
    /// How many dependencies the routes make.
    pub dependencies: u64,
    /// The channels of the least cycle, or none if there is no cycle.
    pub cycle: Vec<LaneStep>,
    /// How many routes are lost.
    pub losses: LaneLosses,
    /// The least lost route of each cause that occurs.
    pub lost: Vec<LaneLost>,
    /// How many switches and end ports have the base LID 65535, which nobody has set.
    pub unset: u64,
    /// The names of the nodes above.
    pub names: Vec<Name>,
}
