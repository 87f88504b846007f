//! Base LIDs, and which end ports have none.

ghost use Rattle.std.specs.Prelude.{◌≡◌};
ghost use Rattle.fabric_read_topology.specs.Facts.{base_of};
ghost use Rattle.fabric_topology.specs.Unset.{if_unset, unset_end};

use fabric_topology::fact::Fact;

// What an end port tells as its base LID if nothing has given it one.
const UNSET: u64 = 0xFFFF;

/// Returns the base LID that `number` means: 65535 means none, as 0 does.
pub fn base_of(number: u64) -> u64
    ensures { result ≡ base_of number }
{
    if number == UNSET { 0 } else { number }
}

/// Returns the GUID of the switch or end port that has the base LID 65535, by this fact.
pub fn unset_end(fact: Fact) -> Option<u64>
    ensures { result ≡ unset_end fact }
{
    match fact {
        Fact::Switch {
            guid,
            ports: _,
            base,
            lmc: _,
        } => if_unset(guid, base),
        Fact::Host { guid, base, lmc: _ } => if_unset(guid, base),
        Fact::Link { one: _, other: _ } => None,
        Fact::Neighbour { guid: _, base: _ } => None,
        Fact::HasSwitch { guid: _ } => None,
    }
}

// The GUID, if the base LID is 65535.
fn if_unset(guid: u64, base: u64) -> Option<u64>
    ensures { result ≡ if_unset guid base }
{
    if base == UNSET { Some(guid) } else { None }
}
