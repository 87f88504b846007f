//! The counts if all end ports send with the same levels and nothing is discarded: those of one lane, for each level.

ghost use Rattle.std.specs.Prelude.{◌≡◌, ◌≢◌, ◌<◌, ◌≤◌, ◌+◌, ◌^◌, max};
ghost use Rattle.fabric_tables.specs.Cells.{TablesOf};
ghost use Rattle.fabric_counts.specs.Counts.{AreCounts, sum_of};
ghost use Rattle.fabric_lane_counts.specs.Alike.{IsBelow, alike, least_with, loss_with, losses_with};
ghost use Rattle.fabric_lane_counts.specs.Keep.{IsKept};
ghost use Rattle.fabric_lane_counts.specs.LaneCounts.{AreCountsOf, AreLaneCounts, lane_sum_of};
ghost use Rattle.fabric_model.specs.Fabric.{FabricOf, IsFabric};
ghost use Rattle.fabric_model.specs.declared.traffic.Traffic.{Traffic};
ghost use Rattle.fabric_lane_tables.specs.Lanes.{LanesOf};

use crate::counts::{LaneCounts, LaneLoss, LaneLosses, LostLaneRoute};
use fabric_counts::counts::{Counts, Loss, Losses, LostRoute};
use fabric_routes::word::has_bit;

// The least lost route of lesser levels; if there is none, that of one lane, with a level.
fn least_with(
    level: u8,
    told: Option<LostLaneRoute>,
    least: Option<LostRoute>,
) -> Option<LostLaneRoute>
    ensures { result ≡ least_with level told least }
{
    match told {
        Some(one) => Some(one),
        None => match least {
            None => None,
            Some(found) => Some(LostLaneRoute {
                lid: found.lid,
                source: found.source,
                level,
                at: found.at,
            }),
        },
    }
}

impl LaneLoss {
    // With those of one lane, with a level.
    fn with(self, level: u8, loss: Loss) -> LaneLoss
        requires { self.count + loss.count < 2 ^ 64 }
        ensures { result ≡ loss_with level self loss }
    {
        LaneLoss {
            count: self.count + loss.count,
            least: least_with(level, self.least, loss.least),
        }
    }
}

impl LaneLosses {
    // With those of one lane, with a level.
    fn with(self, level: u8, lost: &Losses) -> LaneLosses
        requires { lane_sum_of self + sum_of lost.now < 2 ^ 64 }
        ensures { result ≡ losses_with level self lost.now }
    {
        LaneLosses {
            missing: self.missing.with(level, lost.missing),
            dead: self.dead.with(level, lost.dead),
            wrong: self.wrong.with(level, lost.wrong),
            discard: self.discard,
            looping: self.looping.with(level, lost.looping),
        }
    }
}

impl LaneCounts {
    // With those of one lane, with a level.
    fn with(self, level: u8, counts: &Counts) -> LaneCounts
        requires all { self.routes ≡ self.arrived + lane_sum_of self.lost }
        requires all_new { counts.now.routes ≡ counts.now.arrived + sum_of counts.now.lost }
        requires unowned { self.unowned ≤ self.arrived }
        requires unowned_new { counts.now.unowned ≤ counts.now.arrived }
        requires fits { self.routes + counts.now.routes < 2 ^ 64 }
        ensures { result ≡ record {
          routes = self.routes + counts.now.routes;
          arrived = self.arrived + counts.now.arrived;
          unowned = self.unowned + counts.now.unowned;
          hops = max self.hops counts.now.hops;
          lost = losses_with level self.lost counts.now.lost;
          silent = self.silent;
        } }
    {
        LaneCounts {
            routes: self.routes + counts.routes,
            arrived: self.arrived + counts.arrived,
            unowned: self.unowned + counts.unowned,
            hops: self.hops.max(counts.hops),
            lost: self.lost.with(level, &counts.lost),
            silent: self.silent,
        }
    }

    // With those of one lane, with a level, if it is one of some, as bits.
    fn with_told(self, told: u16, level: u8, counts: &Counts) -> LaneCounts
        requires level { level < 16 }
        requires all { self.routes ≡ self.arrived + lane_sum_of self.lost }
        requires all_new { counts.now.routes ≡ counts.now.arrived + sum_of counts.now.lost }
        requires unowned { self.unowned ≤ self.arrived }
        requires unowned_new { counts.now.unowned ≤ counts.now.arrived }
        requires fits { self.routes + counts.now.routes < 2 ^ 64 }
        ensures all { result.routes ≡ result.arrived + lane_sum_of result.lost }
        ensures unowned { result.unowned ≤ result.arrived }
        ensures routes { result.routes ≤ self.routes + counts.now.routes }
        ensures counts { (fabric : FabricOf) (tables : TablesOf) (lanes : LanesOf) (traffic : Traffic) → IsFabric fabric
            → IsKept fabric lanes told → AreCounts fabric tables traffic counts.now
            → AreCountsOf fabric tables lanes (IsBelow fabric tables traffic told level) self
            → AreCountsOf fabric tables lanes (IsBelow fabric tables traffic told (level + 1)) result }
    {
        if !has_bit(u64::from(told), usize::from(level)) {
            return self;
        }
        self.with(level, counts)
    }
}

// How many pairs of an end port and a LID have no level, of so many.
fn silent_of(told: u16, pairs: u64) -> u64
    ensures all { told ≡ 0 → result ≡ pairs }
    ensures none { told ≢ 0 → result ≡ 0 }
{
    if told == 0 { pairs } else { 0 }
}

/// The counts of a traffic with some levels, as bits, the same for each end port and LID, from those of one lane, if nothing
/// with one of the levels is discarded.
pub fn alike_counts(told: u16, counts: &Counts) -> LaneCounts
    requires all { counts.now.routes ≡ counts.now.arrived + sum_of counts.now.lost }
    requires unowned { counts.now.unowned ≤ counts.now.arrived }
    requires few { counts.now.routes ≤ 2 ^ 40 }
    ensures counts { (fabric : FabricOf) (tables : TablesOf) (lanes : LanesOf) (traffic : Traffic) → IsFabric fabric
        → IsKept fabric lanes told → AreCounts fabric tables traffic counts.now
        → AreLaneCounts fabric tables lanes traffic (alike told) result }
    ensures few { lane_sum_of result.lost < 2 ^ 64 }
{
    let mut all = LaneCounts::none();
    'levels: for level in 0..16u8 {
        all = all.with_told(told, level, counts);
    }
    all.silent = silent_of(told, counts.routes);
    all
}
