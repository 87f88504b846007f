//! The answers of the program.

use common_values::text::Word;

/// What was read.
#[derive(Clone, Copy)]
pub struct Read {
    /// Switches.
    pub switches: u64,
    /// End ports of adapters and routers.
    pub ends: u64,
    /// Links between switches.
    pub links: u64,
    /// Rows of tables that name a port.
    pub rows: u64,
    /// The rows for LIDs without an owner.
    pub unowned: u64,
}

/// The routes of a traffic.
#[derive(Clone, Copy)]
pub struct Routes {
    /// All of them.
    pub routes: u64,
    /// The routes that arrive.
    pub arrived: u64,
    /// The highest number of switches on a route that arrives.
    pub hops: u64,
    /// The routes that arrive at LIDs that nobody owns; `None` for a traffic without such routes.
    pub unowned: Option<u64>,
}

/// A dependency of a cycle, with a route that makes it: the route takes the channel, and then, directly, the next
/// channel of the cycle.
#[derive(Clone, Copy)]
pub struct LoopStep {
    /// The GUID of the switch of the channel.
    pub guid: u64,
    /// The port of the channel.
    pub port: u8,
    /// The LID to which the route leads.
    pub lid: u16,
    /// The GUID of the end port from which the route comes.
    pub source: u64,
}

/// Why a route is lost.
#[derive(Clone, Copy)]
pub enum WhyLost {
    /// A switch has no port for the LID.
    Missing,
    /// The port leads nowhere.
    Dead,
    /// The port leads to an end port that does not own the LID.
    Wrong,
    /// The route goes on for ever, because it revisits a switch.
    Loop,
}

/// The least of the routes that are lost for one reason.
#[derive(Clone, Copy)]
pub struct Lost {
    /// The reason.
    pub cause: WhyLost,
    /// The LID that it does not reach.
    pub lid: u16,
    /// The GUID of the end port from which it comes.
    pub source: u64,
    /// The GUID of the switch where it is lost.
    pub at: u64,
}

/// How many routes are lost.
#[derive(Clone, Copy)]
pub struct LostCounts {
    /// For whatever reason.
    pub all: u64,
    /// At a switch that has no port for the LID.
    pub missing: u64,
    /// At a port that leads nowhere.
    pub dead: u64,
    /// At an end port that does not own the LID.
    pub wrong: u64,
    /// On a loop.
    pub looping: u64,
}

/// The name that a topology gives to a node.
#[derive(Drop)]
pub struct Name {
    /// The GUID of the node.
    pub guid: u64,
    /// Its description, unchanged.
    pub text: Word,
}

/// The answer for a topology and tables.
#[derive(Drop)]
pub struct Answer {
    /// What was read.
    pub read: Read,
    /// The word for the traffic that was judged.
    pub traffic: &'static str,
    /// Its routes.
    pub routes: Routes,
    /// The number of channels of the fabric.
    pub channels: u64,
    /// The number of dependencies that the routes make.
    pub dependencies: u64,
    /// The channels of the least cycle, or none if there is no cycle.
    pub cycle: Vec<LoopStep>,
    /// The numbers of lost routes.
    pub losses: LostCounts,
    /// The least lost route for each reason that occurs.
    pub lost: Vec<Lost>,
    /// The number of ports whose base LID says that nobody has set it.
    pub unset: u64,
    /// The names of the nodes in the fields above.
    pub names: Vec<Name>,
}
