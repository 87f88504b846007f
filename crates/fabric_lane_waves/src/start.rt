//! The routes to the LIDs of a block begin.

ghost use Rattle.std.specs.Prelude.{◌≡◌, ◌<◌, ◌≤◌, ◌+◌, ◌*◌, ◌^◌, ◌↔◌, ℕ, Some, length, slice_get};
ghost use Rattle.std.specs.Int.{bit_at};
ghost use Rattle.fabric_model.specs.declared.node.Spot.{Spot};
ghost use Rattle.fabric_model.specs.Fabric.{owner_of, switch_count};
ghost use Rattle.fabric_tables.specs.Cells.{tables_of};
ghost use Rattle.fabric_lane_tables.specs.Levels.{levels_of};
ghost use Rattle.fabric_lane_tables.specs.PathLevels.{AreLevelsBelow, HasLevel};
ghost use Rattle.fabric_routes.specs.Routes.{IsSource};
ghost use Rattle.fabric_routes.specs.Waves.{HasBit};
ghost use Rattle.fabric_lane_routes.specs.LaneExits.{IsExit, exit_of};
ghost use Rattle.fabric_lane_waves.specs.LaneGates.{AreGatesOn, source_at, source_count};
ghost use Rattle.fabric_lane_waves.specs.LaneBlocks.{AreBegunOf, AreOwned, AreSent, AreSetBy, IsFirstHop, IsOfGate, IsOfGates};
ghost use Rattle.fabric_lane_waves.specs.LaneBlocks.{AreTargetsOf, IsSentBy, StandsOf};
ghost use Rattle.fabric_lane_waves.specs.LaneSteps.{place_count};

use crate::block::BlockRoutes;
use crate::departure::{Departure, place_of};
use crate::gate::{Gates, place_of_source, source_of, sources};
use crate::mark::{clear, mark};
use common_graph::bits::{lowest, without};
use fabric_lane_routes::hop::{Exit, LaneHop, find_exit, hop_through};
use fabric_lane_routes::routing::LaneRouting;
use fabric_lane_tables::levels::Levels;
use fabric_model::fabric::Fabric;
use fabric_model::node::{EndPort, Spot};
use fabric_routes::audience::{Targets, targets_of};
use fabric_routes::word::{fresh_of, has_bit, with_bit};

// Sets the bit of a LID of a block in the word of the end port that owns it.
fn add_owner(fabric: &Fabric, block: usize, bit: usize, owned: &mut [u64])
    requires block { block < 1024 }
    requires bit { bit < 64 }
    requires size { length owned.old ≡ source_count fabric.now }
    ensures { AreSetBy owned.old owned.new (λ place other. (other ≡ bit) × (place < source_count fabric.now)
        × (owner_of fabric.now (64 * block + bit) ≡ Some (source_at fabric.now place))) }
{
    let Some(owner) = fabric.owner(64 * block + bit) else {
        return;
    };
    let Some(place) = place_of_source(fabric, owner) else {
        return;
    };
    mark(owned, place, bit);
}

/// Puts for each end port the LIDs of a block that it owns.
pub fn put_owned(fabric: &Fabric, block: usize, owned: &mut [u64])
    requires block { block < 1024 }
    requires size { length owned.old ≡ source_count fabric.now }
    ensures { AreOwned fabric.now block owned.new }
{
    clear(owned);
    'bits: for bit in 0..64usize {
        add_owner(fabric, block, bit, owned);
    }
}

// Sets the bits of a word in those of some levels of a gate.
#[inline]
fn add_levels(sent: &mut [u64], row: usize, levels: u16, word: u64)
    requires { (level : ℕ) → level < 16 → bit_at levels level ≡ 1 → row + level < length sent.old }
    ensures { AreSetBy sent.old sent.new (λ place bit. (level : ℕ) × (level < 16) × (bit_at levels level ≡ 1)
        × (place ≡ row + level) × (bit_at word bit ≡ 1)) }
{
    let mut left = u64::from(levels);
    'levels: while left > 0 {
        let level = lowest(left);
        sent[row + level] = sent[row + level] | word;
        left = without(left, level);
    }
}

// The same of the levels of an end port, for each LID of the word its own.
#[inline]
fn add_told(levels: &Levels, block: usize, source: EndPort, row: usize, word: u64, sent: &mut [u64])
    requires block { block < 1024 }
    requires room { (lid level : ℕ) → HasLevel (levels_of levels.now) source lid level → row + level < length sent.old }
    ensures { AreSetBy sent.old sent.new (λ place bit. (level : ℕ)
        × HasLevel (levels_of levels.now) source (64 * block + bit) level
        × (place ≡ row + level) × (bit_at word bit ≡ 1)) }
{
    let mut left = word;
    'bits: while left > 0 {
        let bit = lowest(left);
        let has = levels.levels(source, 64 * block + bit);
        add_levels(sent, row, has, with_bit(0, bit));
        left = without(left, bit);
    }
}

// Adds the LIDs of a block to which an end port of a gate sends, with each of its levels.
#[inline]
fn add_source(
    levels: &Levels,
    block: usize,
    source: EndPort,
    row: usize,
    word: u64,
    sent: &mut [u64],
)
    requires block { block < 1024 }
    requires room { (lid level : ℕ) → HasLevel (levels_of levels.now) source lid level → row + level < length sent.old }
    ensures { AreSetBy sent.old sent.new (λ place bit. (level : ℕ)
        × HasLevel (levels_of levels.now) source (64 * block + bit) level
        × (place ≡ row + level) × (bit_at word bit ≡ 1)) }
{
    match levels {
        Levels::Same(same) => add_levels(sent, row, *same, word),
        _ => add_told(levels, block, source, row, word, sent),
    }
}

// The LIDs of a block to which the end port of a place sends, if it sends at all: without its own.
#[inline]
fn sent_by(routes: &BlockRoutes<'_>, targets: Targets, owned: &[u64], place: usize) -> u64
    requires place { place < source_count routes.now.routing.fabric.now }
    requires low { place < 2 ^ 17 }
    requires size { length owned.now ≡ source_count routes.now.routing.fabric.now }
    requires owned { AreOwned routes.now.routing.fabric.now routes.now.block owned.now }
    requires targets { AreTargetsOf routes.now targets }
    ensures { IsSource routes.now.routing.fabric.now routes.now.routing.traffic
        (source_at routes.now.routing.fabric.now place) → IsSentBy routes.now place result }
{
    let source = source_of(routes.routing.fabric, place);
    fresh_of(targets.sent_by(source), owned[place])
}

// Of the LIDs of a block to which the end port of a place sends, those that stand in the words of its gate already: those
// to which the one before sends, if it has the same gate and the same levels.
#[inline]
fn stand_already(
    routes: &BlockRoutes<'_>,
    targets: Targets,
    gates: &Gates,
    owned: &[u64],
    place: usize,
    gate: u32,
) -> u64
    requires place { place < length owned.now }
    requires few { place < 2 ^ 17 }
    requires size { length owned.now ≡ source_count routes.now.routing.fabric.now }
    requires owned { AreOwned routes.now.routing.fabric.now routes.now.block owned.now }
    requires targets { AreTargetsOf routes.now targets }
    requires gates { AreGatesOn routes.now.routing gates.now }
    ensures { (bit : ℕ) → bit_at result bit ≡ 1 → StandsOf routes.now gates.now.gates.items place gate bit }
{
    if place == 0 {
        return 0;
    }
    let Some(other) = gates.gates[place - 1] else {
        return 0;
    };
    if other != gate {
        return 0;
    }
    let LaneRouting { fabric, levels, .. } = routes.routing;
    let before = source_of(fabric, place - 1);
    if !levels.are_same(source_of(fabric, place), before, routes.block) {
        return 0;
    }
    sent_by(routes, targets, owned, place - 1)
}

/// Puts for each gate and level below a number the LIDs of a block to which some end port of the gate sends with the level.
pub fn put_sent(
    routes: &BlockRoutes<'_>,
    gates: &Gates,
    top: usize,
    owned: &[u64],
    sent: &mut [u64],
)
    requires gates { AreGatesOn routes.now.routing gates.now }
    requires few { top ≤ 16 }
    requires top { AreLevelsBelow (levels_of routes.now.routing.levels.now) top }
    requires size { length owned.now ≡ source_count routes.now.routing.fabric.now }
    requires owned { AreOwned routes.now.routing.fabric.now routes.now.block owned.now }
    requires sent { length sent.old ≡ length gates.now.spots.items * top }
    ensures { AreSent routes.now.routing.fabric.now (tables_of routes.now.routing.cells.now) routes.now.routing.traffic
        (levels_of routes.now.routing.levels.now) gates.now.gates.items (length gates.now.spots.items) routes.now.block top
        sent.new }
{
    let routing = &routes.routing;
    let targets = targets_of(routing.fabric, routing.cells, routing.traffic, routes.block);
    clear(sent);
    'sources: for place in 0..sources(routing.fabric) {
        if let Some(gate) = gates.gates[place] {
            let word = sent_by(routes, targets, owned, place);
            let had = stand_already(routes, targets, gates, owned, place, gate);
            let source = source_of(routing.fabric, place);
            add_source(
                routing.levels,
                routes.block,
                source,
                gate as usize * top,
                fresh_of(word, had),
                sent,
            );
        }
    }
}

// Takes the first hop of the routes of a gate to a LID of a block with a level. Answers whether it stops, or one has
// before.
#[inline]
fn begin_one(
    routes: &BlockRoutes<'_>,
    spot: Spot,
    exit: Exit,
    level: usize,
    bit: usize,
    seen: &mut [u64],
    stopped: bool,
) -> bool
    requires spot { spot.switch < switch_count routes.now.routing.fabric.now }
    requires exit { IsExit routes.now.routing.fabric.now spot.switch exit }
    requires told { exit ≡ exit_of routes.now.routing.fabric.now spot.switch
        (tables_of routes.now.routing.cells.now spot.switch (64 * routes.now.block + bit)) }
    requires level { level < 16 }
    requires bit { bit < 64 }
    requires room { place_count routes.now.routing (level + 1) ≤ length seen.old }
    ensures { AreBegunOf routes.now (IsFirstHop spot level bit) seen.old seen.new stopped result }
{
    let LaneRouting { fabric, lanes, .. } = routes.routing;
    match hop_through(fabric, lanes, level, 64 * routes.block + bit, spot, exit) {
        LaneHop::On(_, lane, _) => {
            let departure = Departure {
                level,
                switch: spot.switch as usize,
                lane: usize::from(lane),
            };
            let place = place_of(fabric.switches(), lanes.count(), departure);
            mark(seen, place, bit);
            stopped
        }
        LaneHop::Arrive => stopped,
        LaneHop::Stop(_) => true,
        LaneHop::Discard => true,
    }
}

// The same with each level of which the word has the bit.
#[inline]
fn begin_bit(
    routes: &BlockRoutes<'_>,
    spot: Spot,
    words: &[u64],
    bit: usize,
    seen: &mut [u64],
    stopped: bool,
) -> bool
    requires spot { spot.switch < switch_count routes.now.routing.fabric.now }
    requires few { length words.now ≤ 16 }
    requires bit { bit < 64 }
    requires room { place_count routes.now.routing (length words.now) ≤ length seen.old }
    ensures { AreBegunOf routes.now (λ at level other. IsOfGate spot words.now at level other × (other ≡ bit))
        seen.old seen.new stopped result }
{
    let LaneRouting { fabric, cells, .. } = routes.routing;
    let exit = find_exit(fabric, cells, spot.switch as usize, routes.block, bit);
    let mut stops = stopped;
    'levels: for level in 0..words.len() {
        if has_bit(words[level], bit) {
            stops = begin_one(routes, spot, exit, level, bit, seen, stops);
        }
    }
    stops
}

// The bits that some word has.
fn union(words: &[u64]) -> u64
    ensures { (bit : ℕ) → ((bit_at result bit ≡ 1) ↔ ((level : ℕ) × (level < length words.now) × HasBit words.now level bit)) }
{
    let mut all = 0u64;
    'levels: for word in words {
        all = all | *word;
    }
    all
}

// Begins the routes of a gate to the LIDs of a block. It has a word for each level.
fn begin(
    routes: &BlockRoutes<'_>,
    spot: Spot,
    words: &[u64],
    seen: &mut [u64],
    stopped: bool,
) -> bool
    requires spot { spot.switch < switch_count routes.now.routing.fabric.now }
    requires few { length words.now ≤ 16 }
    requires room { place_count routes.now.routing (length words.now) ≤ length seen.old }
    ensures { AreBegunOf routes.now (IsOfGate spot words.now) seen.old seen.new stopped result }
{
    let mut left = union(words);
    let mut stops = stopped;
    'bits: while left > 0 {
        let bit = lowest(left);
        stops = begin_bit(routes, spot, words, bit, seen, stops);
        left = without(left, bit);
    }
    stops
}

/// Begins the routes of all gates to the LIDs of a block. Answers whether one stops at its first switch, or one has before.
pub fn begin_all(
    routes: &BlockRoutes<'_>,
    spots: &[Spot],
    top: usize,
    sent: &[u64],
    seen: &mut [u64],
    stopped: bool,
) -> bool
    requires spots { (gate : ℕ) (spot : Spot) → slice_get spots.now gate ≡ Some spot
        → spot.switch < switch_count routes.now.routing.fabric.now }
    requires top { top ≤ 16 }
    requires sent { length sent.now ≡ length spots.now * top }
    requires room { place_count routes.now.routing top ≤ length seen.old }
    ensures { AreBegunOf routes.now (IsOfGates spots.now sent.now top) seen.old seen.new stopped result }
{
    let mut stops = stopped;
    'gates: for gate in 0..spots.len() {
        let row = gate * top;
        let words = &sent[row..row + top];
        stops = begin(routes, spots[gate], words, seen, stops);
    }
    stops
}
