//! Follows one route.

ghost use Rattle.std.specs.Prelude.{◌≡◌, ◌<◌, ◌*◌, ◌↔◌, false, length, replicate, IsTrue};
ghost use Rattle.fabric_model.specs.Fabric.{switch_count};
ghost use Rattle.fabric_lane_routes.specs.Routing.{hop_by};
ghost use Rattle.fabric_lane_witness.specs.Search.{GoesBy};
ghost use Rattle.fabric_lane_witness.specs.Witness.{lane_channel_of};

use crate::witness::LaneSpot;
use fabric_lane_routes::hop::LaneHop;
use fabric_lane_routes::routing::LaneRouting;
use fabric_model::node::Spot;

// Takes the marks away.
fn clear(marks: &mut [bool])
    ensures { marks.new ≡ replicate (length marks.old) false }
{
    marks.fill(false);
}

// Whether what goes out of a port on a lane, from a place, goes by a channel.
#[inline]
fn leaves_by(at: Spot, port: u8, lane: u8, channel: LaneSpot) -> bool
    ensures { IsTrue result ↔ ((at.switch ≡ channel.switch) × (port ≡ channel.port) × (lane ≡ channel.lane)) }
{
    at.switch == channel.switch && port == channel.port && lane == channel.lane
}

/// Whether the route of what has a level and goes to a LID, from a port of a switch on, goes by a channel.
/// Each switch to which it comes is marked. If it comes to one again, it has gone by all channels that it
/// ever will.
pub fn goes_by(
    routing: &LaneRouting<'_>,
    level: usize,
    lid: usize,
    channel: LaneSpot,
    start: Spot,
    marks: &mut [bool],
) -> bool
    requires level { level < 16 }
    requires lid { lid < 64 * routing.now.cells.now.blocks }
    requires start { start.switch < switch_count routing.now.fabric.now }
    requires marks { length marks.old ≡ switch_count routing.now.fabric.now }
    ensures { IsTrue result
        ↔ GoesBy (hop_by routing.now level lid) start (lane_channel_of channel) }
{
    clear(marks);
    let mut at = start;
    'hops: loop {
        let LaneHop::On(port, lane, next) = routing.lane_hop_at(level, lid, at) else {
            return false;
        };
        if leaves_by(at, port, lane, channel) {
            return true;
        }
        if marks[at.switch as usize] {
            return false;
        }
        marks[at.switch as usize] = true;
        at = next;
    }
}
