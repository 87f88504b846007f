//! Whether some levels are on lane 15 at no port by which a packet may come in and go out.

ghost use Rattle.std.specs.Prelude.{◌≡◌, ◌<◌, IfSome};
ghost use Rattle.std.specs.Bool.{OnTrue};
ghost use Rattle.fabric_lane_counts.specs.Keep.{AreCablesKept, AreLinksKept, AreSwitchesKept, IsCableKept, IsKept};
ghost use Rattle.fabric_lane_counts.specs.Keep.{IsKeptAt, IsKeptBy, IsSideKept};
ghost use Rattle.fabric_model.specs.Fabric.{IsFabric, LeadsWithin, switch_count};
ghost use Rattle.fabric_lane_tables.specs.Lanes.{lanes_of};

use crate::gone::gone_by;
use fabric_lane_tables::lanes::LaneRows;
use fabric_model::fabric::Fabric;
use fabric_model::node::{Side, Spot};

// Whether nothing with one of some levels, as bits, that came in by a port is discarded at another.
fn is_kept_by(fabric: &Fabric, lanes: &LaneRows, used: u64, at: Spot, port: u8) -> bool
    requires lanes { switch_count fabric.now ≡ lanes.now.switches }
    requires at { at.switch < switch_count fabric.now }
    ensures { OnTrue result (IsKeptBy fabric.now (lanes_of lanes.now) used at port) }
{
    match fabric.side(at.switch as usize, port) {
        Side::Bare => true,
        Side::To(_, _) => gone_by(lanes, at, port) & used == 0,
        Side::End(_) => gone_by(lanes, at, port) & used == 0,
    }
}

// At none.
fn is_kept_at(fabric: &Fabric, lanes: &LaneRows, used: u64, at: Spot) -> bool
    requires lanes { switch_count fabric.now ≡ lanes.now.switches }
    requires at { at.switch < switch_count fabric.now }
    ensures { OnTrue result (IsKeptAt fabric.now (lanes_of lanes.now) used at) }
{
    'ports: for port in 0..fabric.most() + 1 {
        if !is_kept_by(fabric, lanes, used, at, port as u8) {
            return false;
        }
    }
    true
}

// The same of what comes in by a link, if a side is one,
fn is_side_kept(fabric: &Fabric, lanes: &LaneRows, used: u64, side: Side) -> bool
    requires lanes { switch_count fabric.now ≡ lanes.now.switches }
    requires within { LeadsWithin (switch_count fabric.now) side }
    ensures { OnTrue result (IsSideKept fabric.now (lanes_of lanes.now) used side) }
{
    match side {
        Side::Bare => true,
        Side::To(switch, port) => is_kept_at(fabric, lanes, used, Spot { switch, port }),
        Side::End(_) => true,
    }
}

// .. of what comes in by all links,
fn are_links_kept(fabric: &Fabric, lanes: &LaneRows, used: u64) -> bool
    requires { switch_count fabric.now ≡ lanes.now.switches }
    ensures kept { OnTrue result (AreLinksKept fabric.now (lanes_of lanes.now) used) }
    ensures fabric { IsFabric fabric.now }
{
    let places = fabric.switches() * fabric.most();
    'places: for place in 0..places {
        if !is_side_kept(fabric, lanes, used, fabric.side_at(place)) {
            return false;
        }
    }
    true
}

// .. from an adapter or router, if it is cabled,
fn is_cable_kept(fabric: &Fabric, lanes: &LaneRows, used: u64, cable: Option<Spot>) -> bool
    requires lanes { switch_count fabric.now ≡ lanes.now.switches }
    requires within { IfSome cable (λ spot. spot.switch < switch_count fabric.now) }
    ensures { OnTrue result (IsCableKept fabric.now (lanes_of lanes.now) used cable) }
{
    match cable {
        None => true,
        Some(spot) => is_kept_at(fabric, lanes, used, spot),
    }
}

// .. from all of these,
fn are_cables_kept(fabric: &Fabric, lanes: &LaneRows, used: u64) -> bool
    requires { switch_count fabric.now ≡ lanes.now.switches }
    ensures { OnTrue result (AreCablesKept fabric.now (lanes_of lanes.now) used) }
{
    'ends: for end in 0..fabric.ends() {
        if !is_cable_kept(fabric, lanes, used, fabric.cable_of(end)) {
            return false;
        }
    }
    true
}

// .. and from a switch itself.
fn are_switches_kept(fabric: &Fabric, lanes: &LaneRows, used: u64) -> bool
    requires { switch_count fabric.now ≡ lanes.now.switches }
    ensures kept { OnTrue result (AreSwitchesKept fabric.now (lanes_of lanes.now) used) }
    ensures fabric { IsFabric fabric.now }
{
    let switches = fabric.switches();
    'switches: for switch in 0..switches {
        let at = Spot {
            switch: switch as u32,
            port: 0,
        };
        if !is_kept_at(fabric, lanes, used, at) {
            return false;
        }
    }
    true
}

/// Whether it is certain that nothing with one of some levels, as bits, is discarded anywhere.
pub fn is_kept(fabric: &Fabric, lanes: &LaneRows, used: u64) -> bool
    requires { switch_count fabric.now ≡ lanes.now.switches }
    ensures kept { OnTrue result (IsKept fabric.now (lanes_of lanes.now) used) }
    ensures fabric { IsFabric fabric.now }
{
    if !are_links_kept(fabric, lanes, used) {
        return false;
    }
    if !are_cables_kept(fabric, lanes, used) {
        return false;
    }
    are_switches_kept(fabric, lanes, used)
}
