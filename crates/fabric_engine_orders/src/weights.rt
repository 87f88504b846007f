//! How many routes make each turn.

use common_values::memory::OutOfMemory;
use fabric_engine_channels::channels::{Channel, Channels};
use fabric_engine_channels::demand::Demand;
use fabric_engine_channels::table::Table;
use fabric_engine_channels::ways::{Rule, Ways};
use std::alloc::Global;

/// Routes between the end ports of adapters and routers, laid by some rule, in numbers.
#[derive(Drop)]
pub struct Weights {
    /// The number of routes that make each turn.
    pub turns: Table<u32>,
    /// The number of turns of routes that the rule would avoid.
    pub spared: u64,
    /// The number of routes, without those from an end port to itself.
    pub routes: u64,
    /// The number of channels on all routes together.
    pub hops: u64,
    /// The highest number of channels on a route.
    pub longest: u32,
    loads: Table<u64>,
    flows: Table<u32>,
}

// Gives to each switch the exit by its first port of those on shortest ways.
fn take_first_ports(channels: &Channels, ways: &mut Ways) {
    'switches: for switch in 0..channels.switches() {
        let depth = ways.depth(switch);
        let nearer = |number: &u32| {
            let to = channels.to(Channel(*number));
            ways.depth(to) < depth
        };
        let first = channels.exits(switch).find(nearer);
        ways.put_exit(switch, first.map(Channel));
    }
}

impl Weights {
    /// Creates the numbers of no routes.
    ///
    /// # Errors
    /// `OutOfMemory`.
    pub fn none(alloc: Global, channels: &Channels) -> Result<Weights, OutOfMemory> {
        Ok(Weights {
            turns: Table::filled(alloc, channels.turns(), 0u32)?,
            spared: 0,
            routes: 0,
            hops: 0,
            longest: 0,
            loads: Table::filled(alloc, channels.count(), 0u64)?,
            flows: Table::filled(alloc, channels.switches(), 0u32)?,
        })
    }

    // Adds so many routes over a channel, and then over the next one.
    fn add_turn(
        &mut self,
        channels: &Channels,
        rule: Rule<'_>,
        channel: Channel,
        next: Channel,
        routes: u32,
    ) {
        let turn = channels.turn(channel, next);
        self.turns.add(turn, routes);
        if rule.toll(channel, Some(next)) != Some(0) {
            self.spared = self.spared.wrapping_add(u64::from(routes));
        }
    }

    // Adds the routes from a switch on, to so many LIDs.
    fn add_exit(
        &mut self,
        channels: &Channels,
        rule: Rule<'_>,
        ways: &Ways,
        switch: u32,
        lids: u32,
    ) {
        let Some(channel) = ways.exit(switch) else {
            return;
        };
        let routes = self.flows.get(switch).wrapping_mul(lids);
        if routes > 0 {
            self.longest = self.longest.max(ways.depth(switch));
        }
        self.loads.add(channel, u64::from(routes));
        self.hops = self.hops.wrapping_add(u64::from(routes));
        let to = channels.to(channel);
        if let Some(next) = ways.exit(to) {
            self.add_turn(channels, rule, channel, next, routes);
        }
    }

    // Adds the routes over ways to so many LIDs at one switch.
    fn add_routes(
        &mut self,
        channels: &Channels,
        demand: &Demand,
        rule: Rule<'_>,
        ways: &Ways,
        lids: u32,
    ) {
        ways.gather(channels, demand, &mut self.flows);
        let others = u64::from(demand.host_count()).saturating_sub(1);
        self.routes = self
            .routes
            .wrapping_add(others.wrapping_mul(u64::from(lids)));
        'switches: for switch in 0..channels.switches() {
            self.add_exit(channels, rule, ways, switch, lids);
        }
    }

    /// Adds shortest routes by `rule` to the switch `target`, spread over the channels, if it has end ports. `ways`
    /// becomes their paths.
    ///
    /// # Errors
    /// `OutOfMemory`.
    pub fn add_shortest(
        &mut self,
        channels: &Channels,
        demand: &Demand,
        rule: Rule<'_>,
        ways: &mut Ways,
        target: u32,
    ) -> Result<(), OutOfMemory> {
        let lids = demand.host_lids(target);
        if lids > 0 {
            ways.grow(channels, rule, &self.loads, target)?;
            self.add_routes(channels, demand, rule, ways, lids);
        }
        Ok(())
    }

    /// Adds the routes to the switch `target` that leave every other switch by the first port that they can, if `ways`
    /// holds some shortest paths to it. `ways` becomes their paths.
    pub fn add_first_ports(
        &mut self,
        channels: &Channels,
        demand: &Demand,
        ways: &mut Ways,
        target: u32,
    ) {
        let lids = demand.host_lids(target);
        if lids > 0 {
            take_first_ports(channels, ways);
            self.add_routes(channels, demand, Rule::Any, ways, lids);
        }
    }

    /// Returns the numbers of shortest routes by `rule`, spread over the channels.
    ///
    /// # Errors
    /// `OutOfMemory`.
    pub fn shortest(
        alloc: Global,
        channels: &Channels,
        demand: &Demand,
        rule: Rule<'_>,
    ) -> Result<Weights, OutOfMemory> {
        let mut weights = Weights::none(alloc, channels)?;
        let mut ways = Ways::new(alloc, channels.switches())?;
        'leaves: for leaf in demand.leaves() {
            weights.add_shortest(channels, demand, rule, &mut ways, *leaf)?;
        }
        Ok(weights)
    }
}
