//! What the answers of `route` come to. No function here has code of its own.

ghost use Rattle.std.specs.Prelude.{ℕ, List};
ghost use Rattle.fabric_tables.specs.Cells.{TablesOf};
ghost use Rattle.fabric_read_topology.specs.Fabrics.{IsFabricText};
ghost use Rattle.fabric_model.specs.Fabric.{FabricOf};
ghost use Rattle.fabric_model.specs.declared.traffic.Traffic.{Traffic};
ghost use Rattle.fabric_route_command.specs.Joined.{AllJoined};
ghost use Rattle.fabric_verdict.specs.Verdict.{AllArrive};

use fabric_read_topology::law::{a_text_is_of_a_fabric, links_have_two_ends};

/// If any tables let each route of a traffic arrive, links join each end port to all to which it sends. So if
/// `route` tells an end port that they do not join, no tables do better.
pub fn arrived_are_joined()
    ensures { (text : List ℕ) (fabric : FabricOf) (tables : TablesOf) (traffic : Traffic)
        → IsFabricText text fabric → AllArrive fabric tables traffic → AllJoined fabric traffic }
{
    a_text_is_of_a_fabric();
    links_have_two_ends();
}
