//! A route that begins.

use fabric_model::node::{EndPort, Spot};

/// A route, and the port of a switch by which it begins.
#[derive(Clone, Copy)]
pub struct BegunRoute {
    /// The LID to which it leads.
    pub lid: u16,
    /// The end port that sends.
    pub source: EndPort,
    /// The service level.
    pub level: u8,
    /// The port of a switch by which it comes in first: port 0, if the switch itself sends.
    pub start: Spot,
}
