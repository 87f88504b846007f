//! What switches do by tables that may have cells for more LIDs, or for fewer, than others.

ghost use Rattle.std.specs.Prelude.{◌≡◌, ◌<◌, ◌≤◌, ◌^◌, ◌↔◌, IsTrue};
ghost use Rattle.fabric_tables.specs.Cells.{tables_of};
ghost use Rattle.fabric_model.specs.Fabric.{switch_count};
ghost use Rattle.fabric_routes.specs.Routes.{hop};
ghost use Rattle.fabric_routes.specs.Waves.{IsByLink};
ghost use Rattle.fabric_mixtures.specs.Steps.{ArePast};

use fabric_model::fabric::Fabric;
use fabric_routes::hop::{Cause, Hop, hop_at};
use fabric_tables::cells::Cells;

// One more than the greatest LID for which one of two tables has cells.
pub(crate) fn lids_of(old: &Cells, new: &Cells) -> usize
    ensures past { ArePast (tables_of old.now) (tables_of new.now) result }
    ensures most { result ≤ 2 ^ 16 }
{
    64 * old.blocks().max(new.blocks())
}

// The port of a switch for a LID. Where there are no cells there is none.
#[inline]
pub(crate) fn port_for(cells: &Cells, switch: usize, lid: usize) -> Option<u8>
    requires { switch < cells.now.switches }
    ensures { result ≡ tables_of cells.now switch lid }
{
    let block = lid / 64;
    if block >= cells.blocks() {
        return None;
    }
    cells.port(switch, block, lid % 64)
}

// What a switch does with what goes to a LID.
#[inline]
#[tactic(auto, unfolding(fabric_routes::specs::Routes::hop))]
pub(crate) fn hop_for(fabric: &Fabric, cells: &Cells, switch: usize, lid: usize) -> Hop
    requires same { switch_count fabric.now ≡ cells.now.switches }
    requires switch { switch < switch_count fabric.now }
    ensures hop { result ≡ hop fabric.now (tables_of cells.now) switch lid }
    ensures link { IsByLink fabric.now switch result }
{
    if lid / 64 >= cells.blocks() {
        return Hop::Stop(Cause::Missing);
    }
    hop_at(fabric, cells, switch, lid)
}

// Whether two rows have the same port, or neither has one.
#[inline]
pub(crate) fn are_same(one: Option<u8>, other: Option<u8>) -> bool
    ensures { IsTrue result ↔ (one ≡ other) }
{
    one == other
}
