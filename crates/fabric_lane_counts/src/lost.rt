//! Where a route that does not arrive is lost.

ghost use Rattle.std.specs.Prelude.{◌<◌, ◌≤◌, ◌*◌, ◌^◌};
ghost use Rattle.fabric_lane_counts.specs.LaneCounts.{IsLaneLost, IsLaneLostAt};
ghost use Rattle.fabric_lane_routes.specs.declared.hop.LaneOutcome.TheVariants.{Discards};
ghost use Rattle.fabric_lane_routes.specs.LaneRoutes.{LaneEndsAs};
ghost use Rattle.fabric_lane_routes.specs.Routing.{hop_by};
ghost use Rattle.fabric_model.specs.Fabric.{switch_count};

use crate::route::BegunRoute;
use fabric_counts::lost::lost_at;
use fabric_lane_routes::hop::{LaneHop, LaneOutcome};
use fabric_lane_routes::routing::LaneRouting;

// The switch at which a route is discarded.
fn discarded_at(routing: &LaneRouting<'_>, route: BegunRoute) -> u32
    requires level { route.level < 16 }
    requires lid { route.lid < 64 * routing.now.cells.now.blocks }
    requires start { route.start.switch < switch_count routing.now.fabric.now }
    ensures { LaneEndsAs (hop_by routing.now route.level route.lid) route.start Discards
        → IsLaneLostAt (hop_by routing.now route.level route.lid) route.start Discards result }
{
    let mut at = route.start;
    'hops: for _hops in 0..routing.fabric.switches() {
        match routing.lane_hop_at(usize::from(route.level), route.lid as usize, at) {
            LaneHop::On(_, _, next) => at = next,
            LaneHop::Arrive => return at.switch,
            LaneHop::Stop(_) => return at.switch,
            LaneHop::Discard => return at.switch,
        }
    }
    at.switch
}

/// The switch at which a route with a level that ends so, and does not arrive, stops or is discarded, or the least one by
/// which it comes again and again.
pub fn lane_lost_at(routing: &LaneRouting<'_>, route: BegunRoute, outcome: LaneOutcome) -> u32
    requires few { switch_count routing.now.fabric.now ≤ 2 ^ 14 }
    requires level { route.level < 16 }
    requires lid { route.lid < 64 * routing.now.cells.now.blocks }
    requires start { route.start.switch < switch_count routing.now.fabric.now }
    ensures { IsLaneLost outcome → LaneEndsAs (hop_by routing.now route.level route.lid) route.start outcome
        → IsLaneLostAt (hop_by routing.now route.level route.lid) route.start outcome result }
{
    match outcome {
        LaneOutcome::Discards => discarded_at(routing, route),
        _ => {
            let start = route.start.switch as usize;
            lost_at(routing.fabric, routing.cells, route.lid as usize, start) as u32
        }
    }
}
