//! With which levels what goes to a LID is discarded.

ghost use Rattle.std.specs.Prelude.{◌≡◌, ◌<◌, ◌*◌, ◌↔◌, ℕ, length};
ghost use Rattle.std.specs.Int.{bit_at};
ghost use Rattle.std.specs.Bool.{OnTrue, OnFalse};
ghost use Rattle.fabric_tables.specs.Cells.{tables_of};
ghost use Rattle.fabric_lane_counts.specs.Gone.{AreGone, AreOnFifteen, IsGoneAt, IsGoneFrom, IsGoneNext, IsJoined};
ghost use Rattle.fabric_lane_counts.specs.Gone.{IsSettled, lane_by_row};
ghost use Rattle.fabric_lane_routes.specs.LaneExits.{IsExit, exit_of};
ghost use Rattle.fabric_lane_routes.specs.Routing.{by_lanes};
ghost use Rattle.fabric_model.specs.Fabric.{switch_count};
ghost use Rattle.fabric_lane_tables.specs.Lanes.{lanes_of};

use fabric_lane_routes::hop::{Exit, find_exit};
use fabric_lane_routes::routing::LaneRouting;
use fabric_lane_tables::lanes::{DISCARD, LaneRows, lane_in};
use fabric_model::node::{Side, Spot};
use fabric_routes::word::{fresh_of, joined, with_bit};

// All sixteen levels, as bits.
const ALL: u64 = 0xFFFF;

// The levels of a row on lane 15, as bits.
fn on_fifteen(row: u64) -> u64
    ensures { AreOnFifteen (lane_by_row row) result }
{
    let mut word = 0u64;
    'levels: for level in 0..16usize {
        if lane_in(row, level) == DISCARD {
            word = with_bit(word, level);
        }
    }
    word
}

/// The levels, as bits, that are on lane 15 from a port of a switch to another: all, if no row was told for these.
pub fn gone_by(lanes: &LaneRows, at: Spot, port: u8) -> u64
    requires { at.switch < lanes.now.switches }
    ensures { AreOnFifteen (lanes_of lanes.now at.switch at.port port) result }
{
    match lanes.told(at.switch as usize, usize::from(at.port), usize::from(port)) {
        None => ALL,
        Some(row) => on_fifteen(row),
    }
}

// By which port a switch sends what goes to a LID. Blocks have 64 LIDs.
fn exit_to(routing: &LaneRouting<'_>, lid: u16, switch: usize) -> Exit
    requires lid { lid < 64 * routing.now.cells.now.blocks }
    requires switch { switch < switch_count routing.now.fabric.now }
    ensures exit { result ≡ exit_of routing.now.fabric.now switch (tables_of routing.now.cells.now switch lid) }
    ensures within { IsExit routing.now.fabric.now switch result }
{
    let lid = lid as usize;
    find_exit(routing.fabric, routing.cells, switch, lid / 64, lid % 64)
}

// The levels, as bits, with which a switch discards what goes to a LID and came in by a port.
fn gone_at(routing: &LaneRouting<'_>, lid: u16, at: Spot) -> u64
    requires lid { lid < 64 * routing.now.cells.now.blocks }
    requires at { at.switch < switch_count routing.now.fabric.now }
    ensures { (level : ℕ) → ((bit_at result level ≡ 1) ↔ by_lanes IsGoneAt routing.now lid at level) }
{
    match exit_to(routing, lid, at.switch as usize) {
        Exit::Nowhere => 0,
        Exit::Own => 0,
        Exit::By(port, side) => match side {
            Side::Bare => 0,
            Side::To(_, _) => gone_by(routing.lanes, at, port),
            Side::End(_) => gone_by(routing.lanes, at, port),
        },
    }
}

// Those with which it is discarded after it left a switch: at the next one, or after that as the words tell.
fn gone_next(routing: &LaneRouting<'_>, lid: u16, gone: &[u64], switch: usize) -> u64
    requires lid { lid < 64 * routing.now.cells.now.blocks }
    requires count { length gone.now ≡ switch_count routing.now.fabric.now }
    requires switch { switch < switch_count routing.now.fabric.now }
    ensures { (level : ℕ) → ((bit_at result level ≡ 1) ↔ by_lanes IsGoneNext routing.now lid gone.now switch level) }
{
    match exit_to(routing, lid, switch) {
        Exit::Nowhere => 0,
        Exit::Own => 0,
        Exit::By(_, side) => match side {
            Side::Bare => 0,
            Side::To(next, entry) => {
                let at = Spot {
                    switch: next,
                    port: entry,
                };
                gone_at(routing, lid, at) | gone[next as usize]
            }
            Side::End(_) => 0,
        },
    }
}

// Joins the word of a switch by those. Answers whether it changed.
fn join_next(routing: &LaneRouting<'_>, lid: u16, gone: &mut [u64], switch: usize) -> bool
    requires lid { lid < 64 * routing.now.cells.now.blocks }
    requires count { length gone.old ≡ switch_count routing.now.fabric.now }
    requires switch { switch < switch_count routing.now.fabric.now }
    ensures joined { OnTrue result (by_lanes IsJoined routing.now lid switch gone.old gone.new) }
    ensures same { OnFalse result (gone.new ≡ gone.old) }
    ensures settled { OnFalse result (by_lanes IsSettled routing.now lid gone.old switch) }
{
    let had = gone[switch];
    let fresh = fresh_of(gone_next(routing, lid, gone, switch), had);
    if fresh == 0 {
        return false;
    }
    gone[switch] = joined(had, fresh);
    true
}

/// Puts for each switch the levels, as bits, with which what goes to a LID is discarded after it left the switch.
pub fn put_gone(routing: &LaneRouting<'_>, lid: u16, gone: &mut [u64])
    requires lid { lid < 64 * routing.now.cells.now.blocks }
    requires count { length gone.old ≡ switch_count routing.now.fabric.now }
    ensures { by_lanes AreGone routing.now lid gone.new }
{
    let switches = routing.fabric.switches();
    gone.fill(0);
    let mut fresh = true;
    'rounds: while fresh {
        fresh = false;
        'switches: for switch in 0..switches {
            if join_next(routing, lid, gone, switch) {
                fresh = true;
            }
        }
    }
}

/// The levels, as bits, with which what goes to a LID is discarded, from a port of a switch on by which it came in.
pub fn gone_from(routing: &LaneRouting<'_>, lid: u16, gone: &[u64], at: Spot) -> u64
    requires lid { lid < 64 * routing.now.cells.now.blocks }
    requires at { at.switch < switch_count routing.now.fabric.now }
    requires count { length gone.now ≡ switch_count routing.now.fabric.now }
    requires gone { by_lanes AreGone routing.now lid gone.now }
    ensures { (level : ℕ) → ((bit_at result level ≡ 1) ↔ by_lanes IsGoneFrom routing.now lid at level) }
{
    gone_at(routing, lid, at) | gone[at.switch as usize]
}
