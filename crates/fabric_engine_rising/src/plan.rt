//! The plan by which routes are laid.

use fabric_engine_channels::channels::{Channel, Channels};
use fabric_engine_channels::demand::{Demand, Target};
use fabric_engine_channels::order::Order;
use fabric_engine_channels::ways::{FAR, Ways};
use fabric_model::traffic::Traffic;

/// The plan by which routes are laid: the channels of a fabric and its end ports, the order along which routes rise,
/// and the traffic that must arrive.
#[derive(Clone, Copy)]
pub struct Plan<'a> {
    /// The channels of the fabric.
    pub channels: &'a Channels,
    /// Its end ports.
    pub demand: &'a Demand,
    /// The order along which routes rise.
    pub order: &'a Order,
    /// The traffic.
    pub traffic: Traffic,
    /// The highest number of channels that a route should have.
    pub most: u32,
}

/// Reports whether routes of `traffic` to `target` begin at all switches, and not only at those with end ports of
/// adapters and routers. `Rows` counts as `All`, because tables that the engine makes have no rows for unowned LIDs.
pub fn is_from_all(traffic: Traffic, target: Target) -> bool {
    match traffic {
        Traffic::Hosts | Traffic::Lids => false,
        Traffic::Managed => target.is_host(),
        Traffic::All | Traffic::Rows => true,
    }
}

/// Reports whether routes of `traffic` lead to `target`.
pub fn sends_to(traffic: Traffic, target: Target) -> bool {
    match traffic {
        Traffic::Hosts => target.is_host(),
        Traffic::Lids | Traffic::Managed | Traffic::All | Traffic::Rows => true,
    }
}

impl Plan<'_> {
    /// Reports whether routes of the traffic to at least one target at `switch` begin at all switches.
    pub fn is_from_all(self, switch: u32) -> bool {
        let mut targets = self.demand.targets_at(switch).iter();
        targets.any(|target| is_from_all(self.traffic, *target))
    }

    /// Reports whether routes of the traffic lead to `target`.
    pub fn sends_to(self, target: Target) -> bool {
        sends_to(self.traffic, target)
    }

    /// Reports whether routes of the traffic lead to at least one target at `switch`.
    pub fn sends_to_some(self, switch: u32) -> bool {
        let mut targets = self.demand.targets_at(switch).iter();
        targets.any(|target| self.sends_to(*target))
    }

    /// Returns the number of targets at `switch` to which routes of the traffic lead.
    pub fn sent_to(self, switch: u32) -> u64 {
        let targets = self.demand.targets_at(switch).iter();
        targets.filter(|target| self.sends_to(**target)).count() as u64
    }

    /// Returns the number of switches without a path at which routes of the traffic to `target` begin.
    pub fn missing(self, ways: &Ways, target: u32) -> u64 {
        let is_from_all = self.is_from_all(target);
        let mut missing = 0u64;
        'switches: for switch in 0..self.channels.switches() {
            let sends = is_from_all || self.demand.hosts(switch) > 0;
            if sends && ways.depth(switch) == FAR {
                missing = missing.wrapping_add(1);
            }
        }
        missing
    }

    /// Returns the highest number of channels on the path of a switch with end ports of adapters and routers.
    pub fn longest(self, ways: &Ways) -> u32 {
        let mut longest = 0;
        'leaves: for leaf in self.demand.leaves() {
            let depth = ways.depth(*leaf);
            if depth != FAR {
                longest = depth.max(longest);
            }
        }
        longest
    }

    /// Reports whether there are targets at `switch`, and the traffic has routes to none of them.
    pub fn leaves_out(self, switch: u32) -> bool {
        !self.demand.targets_at(switch).is_empty() && !self.sends_to_some(switch)
    }

    /// Reports whether `channel` can be an exit: it leads to the target, or the turn from it to the exit there rises.
    #[inline]
    pub fn may_follow(self, ways: &Ways, target: u32, channel: Channel) -> bool {
        let to = self.channels.to(channel);
        if to == target {
            return true;
        }
        match ways.exit(to) {
            Some(next) => self.order.rises(channel, next),
            None => false,
        }
    }

    /// Returns one more than the highest index of the exits that lead to `switch`: its own exit must not come earlier.
    pub fn least_place(self, ways: &Ways, switch: u32) -> u32 {
        let mut least = 0;
        'exits: for number in self.channels.exits(switch) {
            let back = self.channels.back(Channel(number));
            if ways.exit(self.channels.to(Channel(number))) == Some(back) {
                least = self.order.place(back).saturating_add(1).max(least);
            }
        }
        least
    }
}
