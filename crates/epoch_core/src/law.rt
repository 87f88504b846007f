//! Theorems about one epoch at one life, as a function of the accepted bodies. No function here has code.

ghost use Rattle.std.specs.Prelude.{◌≡◌, ◌+◌, ◌≤◌, ℕ, suc, [], ◌∷◌, ◌++◌, if◌then◌else◌, length, reverse, Option, None, Some, false};
ghost use Rattle.an_base.specs.Values.{TopoOf};
ghost use Rattle.an_base.specs.Order.{PortsRise};
ghost use Rattle.an_base.specs.declared.body.Body.TheVariants.{Topo};
ghost use Rattle.epoch_core.specs.Log.{CardOf, OnPort, Log, on_port};
ghost use Rattle.epoch_core.specs.Epoch.{position, version, has_moved, is_named, is_stable, finish, adds, sent, went_out};
ghost use Rattle.epoch_core.specs.Laws.{moves, topos, IsSteady, IsAtMost, OnlyLowers};

/// The version is one more than the number of items that changed the position.
pub fn version_counts_changes()
    ensures { (card : CardOf) (log : Log) → version card log ≡ 1 + moves card log }
{}

/// The version is at most one more than the number of items.
pub fn version_is_at_most_one_more()
    ensures { (card : CardOf) (log : Log) → version card log ≤ 1 + length log }
{}

/// If the offers on each port only decrease along the log, the position never increases.
pub fn positions_only_get_less()
    ensures { (card : CardOf) (later log : Log) → OnlyLowers (later ++ log)
        → IsAtMost (position card (later ++ log)) (position card log) }
{}

/// A topology changes neither the position, nor the version, nor whether the life is stable.
pub fn a_topology_moves_nothing()
    ensures { (card : CardOf) (port : ℕ) (topo : TopoOf) (log : Log)
        → IsSteady card (record { port = port; body = Topo topo }) log }
{}

/// A topology that does not name the life makes it send nothing, and does not make it finish.
pub fn an_unnamed_topology_adds_nothing()
    ensures adds { (card : CardOf) (port : ℕ) (topo : TopoOf) (log : Log) → is_named card.me topo ≡ false
        → adds card (record { port = port; body = Topo topo } ∷ log) ≡ [] }
    ensures finish { (card : CardOf) (port : ℕ) (topo : TopoOf) (log : Log) → is_named card.me topo ≡ false
        → finish card (record { port = port; body = Topo topo } ∷ log) ≡ finish card log }
{}

/// A life that has finished keeps the topology that it finished with.
pub fn a_finish_stays()
    ensures { (card : CardOf) (x : OnPort) (log : Log) (topo : TopoOf) → finish card log ≡ Some topo
        → finish card (x ∷ log) ≡ Some topo }
{}

/// A life whose links are in ascending order of port sends at most one topology on each port.
pub fn one_topology_on_each_port()
    ensures { (card : CardOf) (port : ℕ) (log : Log) → PortsRise card.links → topos (sent card port log) ≤ 1 }
{}

/// The bodies that went out on a port, read from the last, are those sent on that port.
pub fn what_went_out_was_sent()
    ensures { (card : CardOf) (port : ℕ) (log : Log)
        → sent card port log ≡ reverse (on_port port (went_out card log)) }
{}
