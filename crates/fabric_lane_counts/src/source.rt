//! Where the routes of an end port begin.

ghost use Rattle.std.specs.Prelude.{◌≡◌, ◌<◌, Some, IfSome, MatchOption};
ghost use Rattle.fabric_lane_routes.specs.LaneRoutes.{begin_of};
ghost use Rattle.fabric_model.specs.Fabric.{switch_count};
ghost use Rattle.fabric_routes.specs.Audience.{IsHeard};

use fabric_lane_routes::start::begin_at;
use fabric_model::fabric::Fabric;
use fabric_model::node::{EndPort, Spot};
use fabric_routes::audience::{Audience, is_heard};

/// The port of a switch by which the routes of an end port to a LID begin, if it sends to it: if it is of the audience of
/// the LID.
pub fn sender_begin(
    fabric: &Fabric,
    audience: Audience,
    lid: usize,
    source: EndPort,
) -> Option<Spot>
    ensures begin { MatchOption result (IsHeard fabric.now audience lid source → ⊥)
        (λ start. IsHeard fabric.now audience lid source × (begin_of fabric.now source ≡ Some start)) }
    ensures within { IfSome result (λ start. start.switch < switch_count fabric.now) }
{
    if !is_heard(fabric, audience, lid, source) {
        return None;
    }
    begin_at(fabric, source)
}
