//! Counts of routes.

use fabric_model::node::EndPort;

/// A route that does not arrive.
#[derive(Clone, Copy)]
pub struct LostRoute {
    /// The LID to which it is to lead.
    pub lid: u16,
    /// The end port that sends.
    pub source: EndPort,
    /// The place of the switch at which it stops, or of the least one by which it comes again and again.
    pub at: u32,
}

/// The routes that are lost by one cause.
#[derive(Clone, Copy)]
pub struct Loss {
    /// How many there are.
    pub count: u64,
    /// Of those to the least LID the one whose end port has the least GUID; none if there are none.
    pub least: Option<LostRoute>,
}

/// The routes that are lost, by cause.
#[derive(Clone, Copy)]
pub struct Losses {
    /// The table of a switch has no port for the LID.
    pub missing: Loss,
    /// The port is bare.
    pub dead: Loss,
    /// The port leads to an end port that does not own the LID.
    pub wrong: Loss,
    /// The route goes on for ever.
    pub looping: Loss,
}

/// Counts of the routes of a traffic.
#[derive(Clone, Copy)]
pub struct Counts {
    /// How many there are: those that arrive, and those that are lost.
    pub routes: u64,
    /// How many of them arrive.
    pub arrived: u64,
    /// How many of those that arrive go to a LID that nobody owns.
    pub unowned: u64,
    /// The most switches of one route that arrives; 0 if none arrives.
    pub hops: u32,
    /// Those that do not arrive.
    pub lost: Losses,
}
