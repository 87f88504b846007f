//! How the routes of an end port to a LID end, whatever their levels.

ghost use Rattle.std.specs.Prelude.{◌≡◌, ◌<◌, ◌≤◌, ◌*◌, ◌^◌, ℕ, cond, IfSome};
ghost use Rattle.std.specs.Int.{bit_at};
ghost use Rattle.fabric_tables.specs.Cells.{TablesOf};
ghost use Rattle.fabric_lane_counts.specs.Ends.{AreEnds, AreReady};
ghost use Rattle.fabric_lane_counts.specs.Steps.{on_lanes};
ghost use Rattle.fabric_lane_routes.specs.declared.hop.LaneOutcome.TheVariants.{Discards};
ghost use Rattle.fabric_lane_routes.specs.LaneRoutes.{LaneEndsAs, lane_hop};
ghost use Rattle.fabric_model.specs.declared.node.Spot.{Spot};
ghost use Rattle.fabric_lane_routes.specs.Routing.{by_lanes};
ghost use Rattle.fabric_model.specs.Fabric.{FabricOf, switch_count};
ghost use Rattle.fabric_routes.specs.declared.hop.Outcome.TheVariants.{Arrives};
ghost use Rattle.fabric_lane_tables.specs.Lanes.{LanesOf};

use crate::gone::gone_from;
use crate::room::Rooms;
use fabric_counts::count::end_from;
use fabric_lane_routes::hop::LaneOutcome;
use fabric_lane_routes::routing::LaneRouting;
use fabric_model::node::Spot;
use fabric_routes::hop::Outcome;
use fabric_routes::word::has_bit;

/// How they end, from a port of a switch on.
#[derive(Clone, Copy)]
pub struct Ends {
    /// How they end if they are not discarded: the same with each level, as on one lane.
    pub outcome: Outcome,
    /// The levels, as bits, with which they are discarded.
    pub gone: u64,
}

// How a route ends that ends so on one lane, if it is discarded, and if it is not.
fn on_lanes(outcome: Outcome, is_gone: bool) -> LaneOutcome
    ensures { result ≡ cond is_gone Discards (on_lanes outcome) }
{
    if is_gone {
        return LaneOutcome::Discards;
    }
    match outcome {
        Outcome::Arrives(switches) => LaneOutcome::Arrives(switches),
        Outcome::Stops(cause) => LaneOutcome::Stops(cause),
        Outcome::Loops => LaneOutcome::Loops,
    }
}

impl Ends {
    /// How the route with a level ends.
    pub fn with_level(self, level: u8) -> LaneOutcome
        requires { level < 16 }
        ensures { (fabric : FabricOf) (tables : TablesOf) (lanes : LanesOf) (lid : ℕ) (start : Spot)
            → AreEnds fabric tables lanes lid start self
            → LaneEndsAs (lane_hop fabric tables lanes level lid) start result }
    {
        on_lanes(self.outcome, has_bit(self.gone, usize::from(level)))
    }

    /// Through how many switches the routes go, if with all levels of some, as bits, they arrive.
    pub fn all_arrive(self, told: u16) -> Option<u32>
        ensures { IfSome result (λ switches. (self.outcome ≡ Arrives switches)
            × ((level : ℕ) → bit_at told level ≡ 1 → bit_at self.gone level ≡ 1 → ⊥)) }
    {
        if u64::from(told) & self.gone != 0 {
            return None;
        }
        match self.outcome {
            Outcome::Arrives(switches) => Some(switches),
            Outcome::Stops(_) => None,
            Outcome::Loops => None,
        }
    }
}

impl Rooms {
    /// How the routes to a LID end, from a port of a switch on.
    pub fn ends_from(&mut self, routing: &LaneRouting<'_>, lid: u16, start: Spot) -> Ends
        requires few { switch_count routing.now.fabric.now ≤ 2 ^ 14 }
        requires lid { lid < 64 * routing.now.cells.now.blocks }
        requires start { start.switch < switch_count routing.now.fabric.now }
        requires ready { by_lanes AreReady routing.now lid self.old }
        ensures ready { by_lanes AreReady routing.now lid self.new }
        ensures ends { by_lanes AreEnds routing.now lid start result }
    {
        let at = start.switch as usize;
        let outcome = end_from(
            routing.fabric,
            routing.cells,
            lid,
            &mut self.marks,
            &mut self.path,
            at,
        );
        let gone = gone_from(routing, lid, &self.gone, start);
        Ends { outcome, gone }
    }
}
