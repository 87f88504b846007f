//! Counts with one route more.

ghost use Rattle.std.specs.Prelude.{◌≡◌, ◌<◌, ◌≤◌, ◌+◌, ◌*◌, ◌^◌, ◌↔◌, None, Some, IsTrue, max};
ghost use Rattle.fabric_lane_counts.specs.LaneCounts.{AreCountsOf, AreLosses, IsLaneLost, IsLoss, lane_sum_of};
ghost use Rattle.fabric_lane_counts.specs.Steps.{IsBefore, IsLesser, IsSent, IsUpTo};
ghost use Rattle.fabric_lane_routes.specs.LaneRoutes.{LaneEndsAs, begin_of};
ghost use Rattle.fabric_lane_routes.specs.Routing.{by_lanes, hop_by};
ghost use Rattle.fabric_model.specs.Fabric.{switch_count};

use crate::counts::{LaneCounts, LaneLoss, LaneLosses, LostLaneRoute};
use crate::lost::lane_lost_at;
use crate::route::BegunRoute;
use fabric_counts::source::unowned_of;
use fabric_lane_routes::hop::LaneOutcome;
use fabric_lane_routes::routing::LaneRouting;
use fabric_model::fabric::Fabric;
use fabric_model::node::EndPort;
use fabric_routes::hop::Cause;

// Whether a lost route is to be told in place of the one that is: none is, or its LID is the same and its end port has a
// lesser GUID. Those from one end port come by rising level.
fn is_less(fabric: &Fabric, told: Option<LostLaneRoute>, lid: u16, source: EndPort) -> bool
    ensures { IsTrue result ↔ IsLesser fabric.now told lid source }
{
    match told {
        None => true,
        Some(one) => one.lid == lid && fabric.guid(source) < fabric.guid(one.source),
    }
}

impl BegunRoute {
    // It is lost at a switch.
    fn lost(self, at: u32) -> LostLaneRoute
        ensures { result ≡ record { lid = self.lid; source = self.source; level = self.level; at = at } }
    {
        LostLaneRoute {
            lid: self.lid,
            source: self.source,
            level: self.level,
            at,
        }
    }
}

impl LaneLoss {
    const NONE: LaneLoss = LaneLoss {
        count: 0,
        least: None,
    };

    // One lost route more.
    fn add(&mut self, routing: &LaneRouting<'_>, route: BegunRoute, outcome: LaneOutcome)
        requires few { switch_count routing.now.fabric.now ≤ 2 ^ 14 }
        requires lid { route.lid < 64 * routing.now.cells.now.blocks }
        requires level { route.level < 16 }
        requires start { route.start.switch < switch_count routing.now.fabric.now }
        requires begins { begin_of routing.now.fabric.now route.source ≡ Some route.start }
        requires fits { self.old.count < 2 ^ 40 }
        ensures count { self.new.count ≡ self.old.count + 1 }
        ensures loss { IsLaneLost outcome → IsSent routing.now route
            → LaneEndsAs (hop_by routing.now route.level route.lid) route.start outcome
            → by_lanes IsLoss routing.now (IsBefore routing.now route) outcome self.old
            → by_lanes IsLoss routing.now (IsUpTo routing.now route) outcome self.new }
    {
        self.count += 1;
        if !is_less(routing.fabric, self.least, route.lid, route.source) {
            return;
        }
        let at = lane_lost_at(routing, route, outcome);
        self.least = Some(route.lost(at));
    }
}

impl LaneLosses {
    // One lost route more.
    fn add(&mut self, routing: &LaneRouting<'_>, route: BegunRoute, outcome: LaneOutcome)
        requires few { switch_count routing.now.fabric.now ≤ 2 ^ 14 }
        requires lid { route.lid < 64 * routing.now.cells.now.blocks }
        requires level { route.level < 16 }
        requires start { route.start.switch < switch_count routing.now.fabric.now }
        requires begins { begin_of routing.now.fabric.now route.source ≡ Some route.start }
        requires lost { IsLaneLost outcome }
        requires fits { lane_sum_of self.old < 2 ^ 40 }
        ensures sum { lane_sum_of self.new ≡ lane_sum_of self.old + 1 }
        ensures losses { IsSent routing.now route
            → LaneEndsAs (hop_by routing.now route.level route.lid) route.start outcome
            → by_lanes AreLosses routing.now (IsBefore routing.now route) self.old
            → by_lanes AreLosses routing.now (IsUpTo routing.now route) self.new }
    {
        match outcome {
            LaneOutcome::Arrives(_) => {}
            LaneOutcome::Stops(cause) => match cause {
                Cause::Missing => self.missing.add(routing, route, outcome),
                Cause::Dead => self.dead.add(routing, route, outcome),
                Cause::Wrong => self.wrong.add(routing, route, outcome),
            },
            LaneOutcome::Discards => self.discard.add(routing, route, outcome),
            LaneOutcome::Loops => self.looping.add(routing, route, outcome),
        }
    }
}

impl LaneCounts {
    /// The counts of no routes.
    pub fn none() -> LaneCounts
        ensures { result ≡ record {
          routes = 0;
          arrived = 0;
          unowned = 0;
          hops = 0;
          lost = record {
            missing = record { count = 0; least = None };
            dead = record { count = 0; least = None };
            wrong = record { count = 0; least = None };
            discard = record { count = 0; least = None };
            looping = record { count = 0; least = None };
          };
          silent = 0;
        } }
    {
        LaneCounts {
            routes: 0,
            arrived: 0,
            unowned: 0,
            hops: 0,
            lost: LaneLosses {
                missing: LaneLoss::NONE,
                dead: LaneLoss::NONE,
                wrong: LaneLoss::NONE,
                discard: LaneLoss::NONE,
                looping: LaneLoss::NONE,
            },
            silent: 0,
        }
    }

    /// One route more, which ends so.
    pub fn add(&mut self, routing: &LaneRouting<'_>, route: BegunRoute, outcome: LaneOutcome)
        requires few { switch_count routing.now.fabric.now ≤ 2 ^ 14 }
        requires lid { route.lid < 64 * routing.now.cells.now.blocks }
        requires level { route.level < 16 }
        requires start { route.start.switch < switch_count routing.now.fabric.now }
        requires begins { begin_of routing.now.fabric.now route.source ≡ Some route.start }
        requires all { self.old.routes ≡ self.old.arrived + lane_sum_of self.old.lost }
        requires unowned { self.old.unowned ≤ self.old.arrived }
        requires fits { self.old.routes < 2 ^ 40 }
        ensures routes { self.new.routes ≡ self.old.routes + 1 }
        ensures all { self.new.routes ≡ self.new.arrived + lane_sum_of self.new.lost }
        ensures unowned { self.new.unowned ≤ self.new.arrived }
        ensures silent { self.new.silent ≡ self.old.silent }
        ensures counts { IsSent routing.now route
            → LaneEndsAs (hop_by routing.now route.level route.lid) route.start outcome
            → by_lanes AreCountsOf routing.now (IsBefore routing.now route) self.old
            → by_lanes AreCountsOf routing.now (IsUpTo routing.now route) self.new }
    {
        self.routes += 1;
        match outcome {
            LaneOutcome::Arrives(switches) => {
                self.arrived += 1;
                self.unowned += unowned_of(routing.fabric, route.lid as usize, 1);
                self.hops = self.hops.max(switches);
            }
            _ => self.lost.add(routing, route, outcome),
        }
    }

    /// So many more that all arrive, the longest through so many switches; and so many of them go to LIDs that nobody owns.
    pub fn add_arrived(&mut self, routes: u64, unowned: u64, switches: u32)
        requires all { self.old.arrived ≤ self.old.routes }
        requires unowned { self.old.unowned ≤ self.old.arrived }
        requires some { unowned ≤ routes }
        requires fits { self.old.routes + routes < 2 ^ 64 }
        ensures { self.new ≡ record {
          routes = self.old.routes + routes;
          arrived = self.old.arrived + routes;
          unowned = self.old.unowned + unowned;
          hops = max self.old.hops switches;
          lost = self.old.lost;
          silent = self.old.silent;
        } }
    {
        self.routes += routes;
        self.arrived += routes;
        self.unowned += unowned;
        self.hops = self.hops.max(switches);
    }
}
