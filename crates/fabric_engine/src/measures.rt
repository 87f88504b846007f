//! How good routes are.

use fabric_engine_channels::ways::Ways;
use fabric_engine_rising::loads::Loads;
use fabric_engine_rising::plan::Plan;

/// How good routes are. All numbers except the first are of routes between the end ports of adapters and routers.
#[derive(Clone, Copy)]
pub struct Measures {
    /// The number of pairs of a switch and a LID without a path for the traffic.
    pub lost: u64,
    /// The number of routes.
    pub routes: u64,
    /// The number of channels on all these routes together.
    pub hops: u64,
    /// The highest number of channels on a route.
    pub longest: u32,
    /// The maximum link load: the highest number of routes that pass one channel.
    pub greatest: u64,
}

// A logarithm to the base 2, in parts of 2^16.
fn log2(number: u64) -> u64 {
    let number = number.max(1);
    let zeros = number.leading_zeros();
    let mut mantissa = number.wrapping_shl(zeros) >> 32;
    let mut log = 63u64.saturating_sub(u64::from(zeros));
    'bits: for _ in 0..16 {
        mantissa = mantissa.wrapping_mul(mantissa) >> 31;
        log = log.wrapping_mul(2);
        if mantissa >= 1 << 32 {
            mantissa /= 2;
            log = log.wrapping_add(1);
        }
    }
    log
}

impl Measures {
    /// The measures of no routes.
    pub const NONE: Measures = Measures {
        lost: 0,
        routes: 0,
        hops: 0,
        longest: 0,
        greatest: 0,
    };

    /// Reports whether the traffic has all its paths.
    pub fn is_complete(self) -> bool {
        self.lost == 0
    }

    /// Returns the mean number of channels on a route, in parts of 2^16.
    pub fn mean(self) -> u64 {
        self.hops.saturating_mul(1 << 16) / self.routes.max(1)
    }

    /// Returns a score; lower is better. One hundredth more hops counts as much as six hundredths more load on the
    /// busiest channel.
    pub fn score(self) -> u64 {
        log2(self.hops)
            .wrapping_mul(6)
            .wrapping_add(log2(self.greatest))
    }

    // Adds the ways to a switch: the routes to the targets there, and those that are lost.
    pub(crate) fn add_ways(&mut self, plan: Plan<'_>, ways: &Ways, target: u32) {
        let lids = u64::from(plan.demand.host_lids(target));
        let others = u64::from(plan.demand.host_count()).saturating_sub(1);
        self.routes = self.routes.wrapping_add(lids.wrapping_mul(others));
        let lost = plan
            .missing(ways, target)
            .wrapping_mul(plan.sent_to(target));
        self.lost = self.lost.wrapping_add(lost);
        if lids > 0 {
            self.longest = plan.longest(ways).max(self.longest);
        }
    }

    // Takes what the loads say.
    pub(crate) fn take_loads(&mut self, loads: &Loads) {
        self.hops = loads.sum();
        self.greatest = loads.greatest();
    }
}
