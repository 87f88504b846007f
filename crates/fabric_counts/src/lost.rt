//! Where a route that does not arrive is lost.

ghost use Rattle.std.specs.Prelude.{◌≡◌, ◌<◌, ◌*◌};
ghost use Rattle.fabric_model.specs.Fabric.{IsFabric, switch_count};
ghost use Rattle.fabric_tables.specs.Cells.{tables_of};
ghost use Rattle.fabric_routes.specs.declared.hop.Outcome.{Outcome};
ghost use Rattle.fabric_routes.specs.Routes.{EndsAs};
ghost use Rattle.fabric_counts.specs.Counts.{IsLost, IsLostAt, hop_for};
ghost use Rattle.fabric_counts.specs.Lost.{IsFar, IsLeastOf};

use fabric_model::fabric::Fabric;
use fabric_routes::hop::{Hop, hop_at};
use fabric_tables::cells::Cells;

// The switch to which the route to a LID comes by as many hops as there are switches, or at which it ends
// before.
fn far_on(fabric: &Fabric, cells: &Cells, lid: usize, start: usize) -> usize
    requires same { switch_count fabric.now ≡ cells.now.switches }
    requires lid { lid < 64 * cells.now.blocks }
    requires start { start < switch_count fabric.now }
    ensures within { result < switch_count fabric.now }
    ensures fabric { IsFabric fabric.now }
    ensures far { IsFar (hop_for fabric.now (tables_of cells.now) lid) (switch_count fabric.now) start
        result }
{
    let mut at = start;
    'hops: for _hops in 0..fabric.switches() {
        match hop_at(fabric, cells, at, lid) {
            Hop::On(_, next) => at = next as usize,
            Hop::Arrive => return at,
            Hop::Stop(_) => return at,
        }
    }
    at
}

// The least of the switches to which it comes by no more hops than there are switches.
fn least_on(fabric: &Fabric, cells: &Cells, lid: usize, start: usize) -> usize
    requires same { switch_count fabric.now ≡ cells.now.switches }
    requires lid { lid < 64 * cells.now.blocks }
    requires start { start < switch_count fabric.now }
    ensures within { result < switch_count fabric.now }
    ensures least { IsLeastOf (hop_for fabric.now (tables_of cells.now) lid) (switch_count fabric.now) start
        result }
{
    let mut at = start;
    let mut least = start;
    'hops: for _hops in 0..fabric.switches() {
        match hop_at(fabric, cells, at, lid) {
            Hop::On(_, next) => {
                at = next as usize;
                least = at.min(least);
            }
            Hop::Arrive => return least,
            Hop::Stop(_) => return least,
        }
    }
    least
}

/// The switch at which the route to a LID from a switch stops, or the least one by which it comes again and
/// again.
pub fn lost_at(fabric: &Fabric, cells: &Cells, lid: usize, start: usize) -> usize
    requires same { switch_count fabric.now ≡ cells.now.switches }
    requires lid { lid < 64 * cells.now.blocks }
    requires start { start < switch_count fabric.now }
    ensures within { result < switch_count fabric.now }
    ensures lost { (outcome : Outcome) → IsLost outcome
        → EndsAs (hop_for fabric.now (tables_of cells.now) lid) start outcome
        → IsLostAt (hop_for fabric.now (tables_of cells.now) lid) start outcome result }
{
    let far = far_on(fabric, cells, lid, start);
    least_on(fabric, cells, lid, far)
}
