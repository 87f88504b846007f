//! What lanes and service levels change. No function here has code but the call of a law.

ghost use Rattle.std.specs.Prelude.{◌≡◌, ℕ};
ghost use Rattle.common_graph.specs.Cycles.{HasNoCycle};
ghost use Rattle.fabric_tables.specs.Cells.{TablesOf};
ghost use Rattle.fabric_lane_tables.specs.Lanes.{LanesOf};
ghost use Rattle.fabric_lane_tables.specs.PathLevels.{AreLevelsAmong, LevelsOf};
ghost use Rattle.fabric_model.specs.Fabric.{FabricOf};
ghost use Rattle.fabric_model.specs.declared.traffic.Traffic.{Traffic};
ghost use Rattle.fabric_routes.specs.Routes.{DependsOn};
ghost use Rattle.fabric_lane_routes.specs.LaneFound.{link_of};
ghost use Rattle.fabric_lane_routes.specs.LaneRoutes.{LaneChannel, LaneDependsOn};
ghost use Rattle.fabric_lane_verdict.specs.LaneVerdict.{LaneAllArrive, NoneIsDiscarded, any_level};
ghost use Rattle.fabric_verdict.specs.Traffics.{IsNoMore};
ghost use Rattle.fabric_verdict.specs.Verdict.{AllArrive};

use fabric_verdict::law::fewer_routes_fewer_dependencies;

/// One lane suffices: tables without a credit loop on one lane have none with any lanes, whatever the service levels with
/// which end ports send. If all routes arrive on one lane, they all arrive with any lanes that discard none of them.
pub fn one_lane_suffices()
    ensures depends { (fabric : FabricOf) (tables : TablesOf) (lanes : LanesOf) (traffic : Traffic)
        (levels : LevelsOf) (channel next : LaneChannel)
        → LaneDependsOn fabric tables lanes traffic levels channel next
        → DependsOn fabric tables traffic (link_of channel) (link_of next) }
    ensures cycle { (fabric : FabricOf) (tables : TablesOf) (lanes : LanesOf) (traffic : Traffic)
        (levels : LevelsOf)
        → HasNoCycle (DependsOn fabric tables traffic)
        → HasNoCycle (LaneDependsOn fabric tables lanes traffic levels) }
    ensures arrive { (fabric : FabricOf) (tables : TablesOf) (lanes : LanesOf) (traffic : Traffic)
        (levels : LevelsOf)
        → AllArrive fabric tables traffic → NoneIsDiscarded fabric tables lanes traffic levels
        → LaneAllArrive fabric tables lanes traffic levels }
{}

/// More levels, more dependencies: a dependency stays one if end ports send with more service levels. So what passes for
/// more levels passes for fewer, and what passes with all sixteen for each end port and LID passes with any.
pub fn more_levels_more_dependencies()
    ensures depends { (fabric : FabricOf) (tables : TablesOf) (lanes : LanesOf) (traffic : Traffic)
        (levels others : LevelsOf) (channel next : LaneChannel)
        → AreLevelsAmong levels others → LaneDependsOn fabric tables lanes traffic levels channel next
        → LaneDependsOn fabric tables lanes traffic others channel next }
    ensures pass { (fabric : FabricOf) (tables : TablesOf) (lanes : LanesOf) (traffic : Traffic)
        (levels others : LevelsOf)
        → AreLevelsAmong levels others → HasNoCycle (LaneDependsOn fabric tables lanes traffic others)
        → LaneAllArrive fabric tables lanes traffic others
        → HasNoCycle (LaneDependsOn fabric tables lanes traffic levels)
        × LaneAllArrive fabric tables lanes traffic levels }
    ensures any { (fabric : FabricOf) (tables : TablesOf) (lanes : LanesOf) (traffic : Traffic) (levels : LevelsOf)
        → HasNoCycle (LaneDependsOn fabric tables lanes traffic any_level)
        → LaneAllArrive fabric tables lanes traffic any_level
        → HasNoCycle (LaneDependsOn fabric tables lanes traffic levels)
        × LaneAllArrive fabric tables lanes traffic levels }
{}

/// Fewer routes, fewer dependencies, on lanes too. Of two traffics the one may stand before the other in `hosts`, `lids`,
/// `managed`, `all`, `rows`. Then what depends by the one depends by the other, so what passes for the other passes for the
/// one.
pub fn fewer_routes_fewer_lane_dependencies()
    ensures depends { (fabric : FabricOf) (tables : TablesOf) (lanes : LanesOf) (one other : Traffic)
        (levels : LevelsOf) (channel next : LaneChannel)
        → IsNoMore one other → LaneDependsOn fabric tables lanes one levels channel next
        → LaneDependsOn fabric tables lanes other levels channel next }
    ensures pass { (fabric : FabricOf) (tables : TablesOf) (lanes : LanesOf) (one other : Traffic)
        (levels : LevelsOf)
        → IsNoMore one other → HasNoCycle (LaneDependsOn fabric tables lanes other levels)
        → LaneAllArrive fabric tables lanes other levels
        → HasNoCycle (LaneDependsOn fabric tables lanes one levels)
        × LaneAllArrive fabric tables lanes one levels }
{
    fewer_routes_fewer_dependencies();
}
