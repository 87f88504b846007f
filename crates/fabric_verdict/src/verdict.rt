//! The verdict on tables.

use fabric_model::node::Spot;
use fabric_routes::witness::Witness;

/// A channel of a credit loop, and why it depends on the next one.
#[derive(Clone, Copy)]
pub struct LoopChannel {
    /// The port out of which it leads.
    pub channel: Spot,
    /// The route that takes it and then, directly, the next channel of the loop: the route to the lowest LID, and of
    /// those the one from the end port of lowest GUID.
    pub witness: Witness,
}

/// Whether there is a credit loop: a cycle of channels, each of which depends on the next. A channel is the link out of
/// a port of a switch to another switch.
#[derive(Drop)]
pub enum Verdict {
    /// There is no credit loop. The rank of a channel is 0 if it depends on none, else one more than the highest rank
    /// of those on which it depends. The channel out of port p of switch s has index s times the most ports of a
    /// switch, plus p - 1; a port that leads to no switch has 0 there.
    Ranks {
        /// The ranks, at these indices.
        ranks: Vec<u32>,
    },
    /// The least credit loop: it starts at the lowest channel that is on any loop, by switch and then by port, is one
    /// of the shortest through it, and of these the least as a list.
    Cycle {
        /// Its channels, each of which depends on the next, and the last on the first.
        channels: Vec<LoopChannel>,
    },
}
