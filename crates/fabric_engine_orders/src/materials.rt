//! The materials from which orders of channels are made.

use crate::weights::Weights;
use common_values::memory::OutOfMemory;
use fabric_engine_channels::channels::Channels;
use fabric_engine_channels::demand::Demand;
use fabric_engine_channels::table::Table;
use fabric_engine_channels::ways::{Rule, Ways};
use std::alloc::Global;

/// The materials from which orders of the channels of a fabric are made.
#[derive(Drop)]
pub struct Materials {
    /// The first of the switches with the most channels.
    pub root: u32,
    /// The first switch with end ports of adapters and routers, or the root.
    pub leaf: u32,
    /// The mean number of channels on a shortest route between end ports of adapters and routers, in parts of 2^16.
    pub least_mean: u64,
    /// The highest number of channels on one of these routes.
    pub least_longest: u32,
    // How many shortest routes make each turn, where they are spread, and where they leave by first ports.
    spread: Table<u32>,
    first_ports: Table<u32>,
}

/// Which shortest routes are to break few turns.
#[derive(Clone, Copy)]
pub enum Wanted {
    /// Routes that are spread over the channels.
    Spread,
    /// Routes that leave each switch by the first port that they can.
    FirstPorts,
}

// Adds routes to all switches with end ports: those that are spread, and those that leave by first ports.
fn add_all(
    alloc: Global,
    channels: &Channels,
    demand: &Demand,
    spread: &mut Weights,
    first_ports: &mut Weights,
) -> Result<(), OutOfMemory> {
    let mut ways = Ways::new(alloc, channels.switches())?;
    'leaves: for leaf in demand.leaves() {
        spread.add_shortest(channels, demand, Rule::Any, &mut ways, *leaf)?;
        first_ports.add_first_ports(channels, demand, &mut ways, *leaf);
    }
    Ok(())
}

impl Materials {
    /// Computes the materials of a fabric.
    ///
    /// # Errors
    /// `OutOfMemory`.
    pub fn of(
        alloc: Global,
        channels: &Channels,
        demand: &Demand,
    ) -> Result<Materials, OutOfMemory> {
        let mut spread = Weights::none(alloc, channels)?;
        let mut first_ports = Weights::none(alloc, channels)?;
        add_all(alloc, channels, demand, &mut spread, &mut first_ports)?;
        let root = channels.widest();
        Ok(Materials {
            root,
            leaf: demand.leaves().first().copied().unwrap_or(root),
            least_mean: spread.hops.saturating_mul(1 << 16) / spread.routes.max(1),
            least_longest: spread.longest,
            spread: spread.turns,
            first_ports: first_ports.turns,
        })
    }

    /// Returns how many of these routes make each turn.
    pub fn weights(&self, wanted: Wanted) -> &Table<u32> {
        match wanted {
            Wanted::Spread => &self.spread,
            Wanted::FirstPorts => &self.first_ports,
        }
    }
}
