//! How many routes there are, each level one, and how many pairs of an end port and a LID have no level.

ghost use Rattle.std.specs.Prelude.{◌≢◌, ◌≤◌, ◌<◌, ◌+◌, ◌^◌, ◌⊎◌, IfNone, IfOk, IfSome};
ghost use Rattle.fabric_tables.specs.Cells.{TablesOf, tables_of};
ghost use Rattle.fabric_counts.specs.Counts.{AreCounts};
ghost use Rattle.fabric_counts.specs.Steps.{IsEndPort, place_of};
ghost use Rattle.fabric_lane_counts.specs.Keep.{IsKept};
ghost use Rattle.fabric_lane_counts.specs.LaneCounts.{AreLaneCounts, IsLaneRouteOf, IsSilent, lane_sum_of};
ghost use Rattle.fabric_lane_counts.specs.Sums.{AreAudiencesOf, AreSumsOf, IsUnowned, by_levels};
ghost use Rattle.fabric_model.specs.Fabric.{FabricOf, IsFabric};
ghost use Rattle.fabric_routes.specs.Audience.{IsAudience};
ghost use Rattle.fabric_routes.specs.Counting.{IsCountOf};
ghost use Rattle.fabric_model.specs.declared.traffic.Traffic.{Traffic};
ghost use Rattle.fabric_lane_tables.specs.Lanes.{LanesOf};
ghost use Rattle.fabric_lane_tables.specs.PathLevels.{LevelsOf};

use crate::counts::LaneCounts;
use common_values::memory::OutOfMemory;
use fabric_counts::counts::Counts;
use fabric_counts::source::{end_port_at, end_ports, unowned_of};
use fabric_lane_routes::routing::LaneRouting;
use fabric_model::node::EndPort;
use fabric_routes::audience::{Audience, audience_of, is_heard};
use std::alloc::Global;

/// How many routes there are, however they end.
#[derive(Clone, Copy)]
pub struct Sums {
    /// How many there are: one for each level with which an end port sends to a LID.
    pub routes: u64,
    /// How many of them go to LIDs that nobody owns.
    pub unowned: u64,
    /// How many pairs of an end port and a LID to which it sends have no level.
    pub silent: u64,
}

impl Sums {
    /// The counts, if by those of one lane all arrive, and each pair has a level.
    pub fn counts(self, one: &Counts) -> Option<LaneCounts>
        requires routes { self.routes ≤ 2 ^ 40 }
        requires unowned { self.unowned ≤ self.routes }
        ensures none { IfNone result ((one.now.arrived ≢ one.now.routes) ⊎ (self.silent ≢ 0)) }
        ensures counts { IfSome result (λ counts. (fabric : FabricOf) (tables : TablesOf) (lanes : LanesOf)
            (traffic : Traffic) (levels : LevelsOf) → IsFabric fabric → IsKept fabric lanes 65535
            → AreCounts fabric tables traffic one.now
            → IsCountOf (IsLaneRouteOf fabric tables traffic levels) self.routes
            → IsCountOf (IsUnowned fabric tables traffic levels) self.unowned
            → IsCountOf (IsSilent fabric tables traffic levels) self.silent
            → AreLaneCounts fabric tables lanes traffic levels counts) }
        ensures few { IfSome result (λ counts. lane_sum_of counts.lost < 2 ^ 64) }
    {
        if one.arrived != one.routes {
            return None;
        }
        if self.silent != 0 {
            return None;
        }
        let mut counts = LaneCounts::none();
        counts.add_arrived(self.routes, self.unowned, one.hops);
        Some(counts)
    }

    // With those of an end port and a LID, which has this audience.
    #[inline]
    fn with_pair(
        self,
        routing: &LaneRouting<'_>,
        audience: Audience,
        source: EndPort,
        lid: usize,
    ) -> Sums
        requires audience { IsAudience routing.now.fabric.now (tables_of routing.now.cells.now) routing.now.traffic lid
            audience }
        requires source { IsEndPort routing.now.fabric.now source }
        requires place { place_of routing.now.fabric.now source ≤ 2 ^ 17 }
        requires lid { lid < 2 ^ 16 }
        requires sums { AreSumsOf routing.now (place_of routing.now.fabric.now source) lid self }
        ensures { AreSumsOf routing.now (place_of routing.now.fabric.now source) (lid + 1) result }
    {
        if !is_heard(routing.fabric, audience, lid, source) {
            return self;
        }
        let told = routing.levels.levels(source, lid);
        if told == 0 {
            return Sums {
                routes: self.routes,
                unowned: self.unowned,
                silent: self.silent + 1,
            };
        }
        let routes = u64::from(told.count_ones());
        let unowned = unowned_of(routing.fabric, lid, routes);
        Sums {
            routes: self.routes + routes,
            unowned: self.unowned + unowned,
            silent: self.silent,
        }
    }

    // With those of an end port and each LID. LIDs have these audiences.
    fn with_source(self, routing: &LaneRouting<'_>, audiences: &[Audience], source: EndPort) -> Sums
        requires audiences { AreAudiencesOf routing.now audiences.now }
        requires source { IsEndPort routing.now.fabric.now source }
        requires place { place_of routing.now.fabric.now source ≤ 2 ^ 17 }
        requires sums { AreSumsOf routing.now (place_of routing.now.fabric.now source) 0 self }
        ensures { AreSumsOf routing.now (place_of routing.now.fabric.now source + 1) 0 result }
    {
        let mut sums = self;
        'lids: for lid in 0..64 * routing.cells.blocks() {
            sums = sums.with_pair(routing, audiences[lid], source, lid);
        }
        sums
    }
}

// The audience of each LID for which the tables have a place.
fn find_audiences(alloc: Global, routing: &LaneRouting<'_>) -> Result<Vec<Audience>, OutOfMemory>
    ensures { IfOk result (λ audiences. AreAudiencesOf routing.now audiences.items) }
{
    let lids = 64 * routing.cells.blocks();
    let mut audiences = vec![in alloc; Audience::Nobody; lids]?;
    'lids: for lid in 0..lids {
        audiences[lid] = audience_of(routing.fabric, routing.cells, routing.traffic, lid);
    }
    Ok(audiences)
}

/// How many there are of a traffic, by the levels of the routing. The error is out of memory.
pub fn sum_levels(alloc: Global, routing: &LaneRouting<'_>) -> Result<Sums, OutOfMemory>
    ensures routes { IfOk result (λ sums. IsCountOf (by_levels IsLaneRouteOf routing.now) sums.routes) }
    ensures unowned { IfOk result (λ sums. IsCountOf (by_levels IsUnowned routing.now) sums.unowned) }
    ensures silent { IfOk result (λ sums. IsCountOf (by_levels IsSilent routing.now) sums.silent) }
    ensures few { IfOk result (λ sums. sums.routes ≤ 2 ^ 40) }
    ensures few_unowned { IfOk result (λ sums. sums.unowned ≤ sums.routes) }
{
    let audiences = find_audiences(alloc, routing)?;
    let mut sums = Sums {
        routes: 0,
        unowned: 0,
        silent: 0,
    };
    'places: for place in 0..end_ports(routing.fabric) {
        sums = sums.with_source(routing, &audiences, end_port_at(routing.fabric, place));
    }
    Ok(sums)
}
