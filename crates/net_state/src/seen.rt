//! The parts of a fabric that a packet's hop reads, as a `HopView`.

use crate::plan::Plan;
use crate::ports::{is_host, switch_behind};
use crate::stations::Stations;
use an_base::place::Place;
use an_base::port::Port;
use host_traffic::view::HopView;
use net_graph::wiring::Far;
use table_build::table::Table;
use wire_set::wires::WireSet;

/// The parts of a fabric that a packet's hop reads: the script, the links, and the stations of the switches.
#[derive(Clone, Copy)]
pub struct Seen<'a> {
    /// The part of the script that a run reads.
    pub plan: &'a Plan,
    /// The links.
    pub wires: &'a WireSet,
    /// The stations of the switches.
    pub stations: &'a Stations,
}

impl HopView for Seen<'_> {
    ghost use Rattle.net_state.specs.Kept.{fabric_of_parts};
    ghost use Rattle.net_state.specs.Fabric.{host_at, next_at, table_at};

    ghost table_at = { λ seen. table_at (fabric_of_parts seen.plan.now seen.wires.now seen.stations.now) };

    ghost host_at = { λ seen. host_at (fabric_of_parts seen.plan.now seen.wires.now seen.stations.now) };

    ghost next_at = { λ seen. next_at (fabric_of_parts seen.plan.now seen.wires.now seen.stations.now) };

    fn table(&self, s: Place) -> Option<&Table> {
        self.stations.table(s)
    }

    fn host(&self, s: Place, port: Port) -> Option<(u16, u64)> {
        let side = self.wires.side(s, port);
        if !side.is_up || !is_host(self.stations.port(s, port).state) {
            return None;
        }
        match side.far {
            Some(Far::HostAt { host }) => Some((host, self.plan.host(host).uid)),
            _ => None,
        }
    }

    fn next(&self, s: Place, port: Port) -> Option<(Place, Port)> {
        let side = self.wires.side(s, port);
        if side.is_up {
            switch_behind(side.far)
        } else {
            None
        }
    }
}
