//! How many rows two tables have not alike.

ghost use Rattle.std.specs.Prelude.{◌≡◌, ◌≢◌, ◌<◌, ◌≤◌, ◌^◌, ◌↔◌, IsTrue};
ghost use Rattle.fabric_tables.specs.Cells.{tables_of};
ghost use Rattle.fabric_model.specs.Fabric.{switch_count};
ghost use Rattle.fabric_routes.specs.Counting.{IsCountOf};
ghost use Rattle.fabric_mixtures.specs.Steps.{IsChangedFor};
ghost use Rattle.fabric_mixtures.specs.Verdict.{IsChanged};

use crate::look::{lids_of, port_for};
use fabric_model::fabric::Fabric;
use fabric_tables::cells::Cells;

// Whether a row is changed.
fn differs(old: &Cells, new: &Cells, switch: usize, lid: usize) -> bool
    requires switch { switch < old.now.switches }
    requires switch_new { switch < new.now.switches }
    ensures { IsTrue result ↔ (tables_of old.now switch lid ≢ tables_of new.now switch lid) }
{
    port_for(old, switch, lid) != port_for(new, switch, lid)
}

// How many rows for a LID are.
fn count_for(fabric: &Fabric, old: &Cells, new: &Cells, lid: usize) -> u64
    requires same { switch_count fabric.now ≡ old.now.switches }
    requires same_new { switch_count fabric.now ≡ new.now.switches }
    ensures count { IsCountOf
        (IsChangedFor fabric.now (tables_of old.now) (tables_of new.now) lid (switch_count fabric.now)) result }
    ensures few { result ≤ 2 ^ 14 }
{
    let mut count = 0u64;
    'switches: for switch in 0..fabric.switches() {
        count += u64::from(differs(old, new, switch, lid));
    }
    count
}

/// How many rows have not the same port in both tables, for LIDs with or without an owner.
pub fn count_changed(fabric: &Fabric, old: &Cells, new: &Cells) -> u64
    requires same { switch_count fabric.now ≡ old.now.switches }
    requires same_new { switch_count fabric.now ≡ new.now.switches }
    ensures { IsCountOf (IsChanged fabric.now (tables_of old.now) (tables_of new.now)) result }
{
    let mut count = 0u64;
    'lids: for lid in 0..lids_of(old, new) {
        count += count_for(fabric, old, new, lid);
    }
    count
}
