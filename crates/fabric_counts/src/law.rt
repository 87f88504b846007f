//! What the counts mean. No function here has code.

ghost use Rattle.std.specs.Prelude.{◌≡◌, ℕ};
ghost use Rattle.fabric_tables.specs.Cells.{TablesOf};
ghost use Rattle.fabric_counts.specs.Counts.{IsOf, Route, RouteEnds};
ghost use Rattle.fabric_model.specs.Fabric.{FabricOf, IsFabric};
ghost use Rattle.fabric_routes.specs.declared.hop.Outcome.{Outcome};
ghost use Rattle.fabric_model.specs.declared.traffic.Traffic.{Traffic};

/// Each route of a traffic ends in one way: it arrives by so many switches, stops by one cause, or goes on
/// for ever.
pub fn each_route_ends_in_one_way()
    ensures ends { (fabric : FabricOf) (tables : TablesOf) (traffic : Traffic) (route : Route)
        → IsFabric fabric → IsOf fabric tables traffic route
        → (outcome : Outcome) × RouteEnds fabric tables route outcome }
    ensures one { (fabric : FabricOf) (tables : TablesOf) (route : Route) (one other : Outcome)
        → RouteEnds fabric tables route one → RouteEnds fabric tables route other → one ≡ other }
{}
