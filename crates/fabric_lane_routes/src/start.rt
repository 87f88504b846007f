//! Where routes on lanes begin.

ghost use Rattle.std.specs.Prelude.{◌≡◌, ◌<◌, IfSome};
ghost use Rattle.fabric_model.specs.Fabric.{switch_count};
ghost use Rattle.fabric_model.specs.declared.traffic.Traffic.{Traffic};
ghost use Rattle.fabric_routes.specs.Routes.{IsSource};
ghost use Rattle.fabric_lane_routes.specs.LaneRoutes.{begin_of};

use fabric_model::fabric::Fabric;
use fabric_model::node::{EndPort, Spot};

/// The port of a switch by which the routes of an end port come in first; port 0 is the switch itself. There is none for an
/// end port that is not cabled.
#[inline]
pub fn begin_at(fabric: &Fabric, source: EndPort) -> Option<Spot>
    ensures begin { result ≡ begin_of fabric.now source }
    ensures within { (traffic : Traffic) → IsSource fabric.now traffic source
        → IfSome result (λ start. start.switch < switch_count fabric.now) }
{
    match source {
        EndPort::Host(end) => fabric.cable_of(end as usize),
        EndPort::Switch(switch) => Some(Spot { switch, port: 0 }),
    }
}
