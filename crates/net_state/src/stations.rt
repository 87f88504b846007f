//! The stations of all switches, with a tally that each change updates, so that no call has to count them.

ghost use Rattle.std.specs.Prelude.{◌≡◌, ◌+◌, ◌-◌, ◌<◌, ◌≤◌, ◌^◌, nat_le, nat_lt, true, false, length, map, slice_index_or, Some, IfOk, option_copied};
ghost use Rattle.std.specs.List.{list_any, range_with_len};
ghost use Rattle.std.specs.Option.{option_map, option_map_or};
ghost use Rattle.net_state.specs.declared.hand.Hand.TheVariants as in_hand;
ghost use Rattle.net_state.specs.declared.stations.TheConstants.{MOST_TICK};
ghost use Rattle.net_state.specs.Fabric.{full_among, is_due_at, is_empty, no_view};
ghost use Rattle.net_state.specs.Effects.{ShowsOnly, restarted, showing};
ghost use Rattle.net_state.specs.Starts.{begun_station};
ghost use Rattle.net_state.specs.Tallies.{IsCounted, IsCountedAnew, one_if, station_in, with_station_in};

use crate::hand::Hand;
use crate::station::{Station, started_note};
use an_base::place::Place;
use an_base::port::{Note, Port, PortState, PortView, Sample};
use common_values::memory::OutOfMemory;
use net_graph::wiring::Wiring;
use std::alloc::Global;
use std::marker::Model;
use switch_core::switch::TableFor;
use table_build::table::Table;

// The highest tick of a network.
const MOST_TICK: u32 = 1_000_000;

// The numbers of stations of each kind: those that hold something, have a clock event due, have a load due, have a
// body that is not acknowledged, and are spent.
#[derive(Clone, Copy)]
struct Tally {
    full: u32,
    clocks: u32,
    loads: u32,
    unacked: u32,
    spent: u32,
}

/// The clock of the network, and the stations of its switches.
///
/// A tally is kept of the stations that hold something, have a clock event or a load due, have a body that
/// is not acknowledged, or are spent, so each of these is known at once.
#[derive(Drop)]
pub struct Stations {
    tick: u32,
    items: Vec<Station>,
    tally: Tally,
}

impl Model for Stations {
    ghost use Rattle.net_state.specs.Tallies.{StationsOf, IsTally};

    ghost Value = { StationsOf };

    ghost view = { λ s. record { tick = s.tick; items = s.items.items } };

    ghost invariant = { λ s. IsTally s.tick s.items.items s.tally };
}

// A port that shows nothing.
const NO_VIEW: PortView = PortView {
    state: PortState::Dead,
    peer: None,
};

// A count of stations after one of them changed.
fn recounted(count: u32, before: bool, after: bool) -> u32
    requires some { before ≡ true → 1 ≤ count }
    requires room { count < 2 ^ 31 }
    ensures { result + one_if before ≡ count + one_if after }
{
    let others = if before { count - 1 } else { count };
    if after { others + 1 } else { others }
}

// What is shown of `port`, in a list of what is shown of all ports.
fn view_in(views: &[PortView], port: Port) -> PortView
    ensures { result ≡ slice_index_or views.now (port - 1) no_view }
{
    match views.get(usize::from(port).saturating_sub(1)) {
        Some(view) => *view,
        None => NO_VIEW,
    }
}

impl Tally {
    // The tally after a switch shows something else.
    fn after(self, station: &Station, note: &Note, spent: bool) -> Tally
        requires some { IsCounted self station.now }
        ensures { IsCountedAnew self result station.now note.now spent }
    {
        let before = station.note();
        Tally {
            loads: recounted(self.loads, before.load_due, note.load_due),
            unacked: recounted(self.unacked, before.unacked, note.unacked),
            spent: recounted(self.spent, station.is_spent(), spent),
            ..self
        }
    }
}

// The station of every switch at the start.
fn begun(alloc: Global, wiring: &Wiring, epoch: u64) -> Result<Vec<Station>, OutOfMemory>
    ensures { IfOk result (λ stations. stations.items
        ≡ map (begun_station wiring.now epoch) (range_with_len 0 (length wiring.now.switches))) }
{
    let count = wiring.count();
    let mut stations = Vec::with_capacity(alloc, usize::from(count))?;
    'switches: for s in 0..count {
        stations.push(Station::begin(started_note(wiring.life(Place(s)), epoch)))?;
    }
    Ok(stations)
}

impl Stations {
    /// Creates the stations of the switches of a wiring, at tick 0: each shows a switch as it starts, and each
    /// clock event is due.
    ///
    /// # Errors
    /// `OutOfMemory` if an allocation fails.
    pub fn begin(alloc: Global, wiring: &Wiring, epoch: u64) -> Result<Self, OutOfMemory>
        ensures { IfOk result (λ stations. stations ≡ record {
          tick = 0;
          items = map (begun_station wiring.now epoch) (range_with_len 0 (length wiring.now.switches));
        }) }
    {
        let items = begun(alloc, wiring, epoch)?;
        Ok(Stations {
            tick: 0,
            items,
            tally: Tally {
                full: 0,
                clocks: u32::from(wiring.count()),
                loads: 0,
                unacked: 0,
                spent: 0,
            },
        })
    }

    /// Returns the current tick of the network.
    pub fn now(&self) -> u32
        ensures { result ≡ self.now.tick }
    {
        self.tick
    }

    /// Returns the stations of the switches, by index.
    pub fn as_slice(&self) -> &[Station]
        ensures { result.now ≡ self.now.items }
    {
        &self.items
    }

    /// Returns the station of switch `s`, which must exist.
    pub fn get(&self, s: Place) -> &Station
        requires { s < length self.now.items }
        ensures { result.now ≡ station_in self.now s }
    {
        &self.items[usize::from(s)]
    }

    /// Returns the table in use at switch `s`; `None` if there is no such switch.
    pub fn table(&self, s: Place) -> Option<&Table>
        ensures { option_copied result ≡ option_map (λ used. used.table) (station_in self.now s).table }
    {
        match self.items.get(usize::from(s)) {
            Some(station) => station.table(),
            None => None,
        }
    }

    /// Returns the epoch of the table in use at switch `s`, 0 if there is no table or no such switch.
    pub fn epoch_in_use(&self, s: Place) -> u64
        ensures { result ≡ option_map_or (λ used. used.epoch) (station_in self.now s).table 0 }
    {
        match self.items.get(usize::from(s)) {
            Some(station) => station.epoch_in_use(),
            None => 0,
        }
    }

    /// Returns what switch `s` shows of `port`; nothing if there is no such switch or the port is above 12.
    pub fn port(&self, s: Place, port: Port) -> PortView
        ensures { result ≡ slice_index_or (station_in self.now s).note.ports (port - 1) no_view }
    {
        match self.items.get(usize::from(s)) {
            Some(station) => view_in(station.note().ports.as_slice(), port),
            None => NO_VIEW,
        }
    }

    /// Reports whether the clock event of switch `s`, which must exist, is due.
    pub fn is_clock_due(&self, s: Place) -> bool
        requires { s < length self.now.items }
        ensures { result ≡ nat_le (station_in self.now s).clock self.now.tick }
    {
        self.get(s).clock() <= self.tick
    }

    /// Returns the number of switches that hold something.
    pub fn full(&self) -> u32
        ensures { result ≡ full_among self.now.items }
    {
        self.tally.full
    }

    /// Reports whether some switch holds something.
    pub fn is_some_full(&self) -> bool
        ensures { result ≡ nat_lt 0 (full_among self.now.items) }
    {
        self.tally.full > 0
    }

    /// Reports whether some clock event is due.
    pub fn is_some_clock_due(&self) -> bool
        ensures { result ≡ list_any (is_due_at self.now.tick) self.now.items }
    {
        self.tally.clocks > 0
    }

    /// Reports whether some load is due.
    pub fn is_some_load_due(&self) -> bool
        ensures { result ≡ list_any (λ at. at.note.load_due) self.now.items }
    {
        self.tally.loads > 0
    }

    /// Reports whether some body is not acknowledged.
    pub fn is_some_unacked(&self) -> bool
        ensures { result ≡ list_any (λ at. at.note.unacked) self.now.items }
    {
        self.tally.unacked > 0
    }

    /// Reports whether some switch is spent.
    pub fn is_some_spent(&self) -> bool
        ensures { result ≡ list_any (λ at. at.spent) self.now.items }
    {
        self.tally.spent > 0
    }

    /// Advances the clock by one tick, at which every clock event is due.
    ///
    /// No clock event must be due before, and the tick must be below 1,000,000.
    pub fn tick(&mut self)
        requires none_due { list_any (is_due_at self.old.tick) self.old.items ≡ false }
        requires room { self.old.tick < MOST_TICK }
        ensures { self.new ≡ record self.old { tick = self.old.tick + 1 } }
    {
        self.tick += 1;
        self.tally.clocks = self.items.len() as u32;
    }

    /// Lets switch `s` take its clock event, with these samples.
    ///
    /// The switch must exist and hold nothing, and its clock event must be due.
    pub fn take_clock(&mut self, s: Place, samples: [Sample; 12])
        requires within { s < length self.old.items }
        requires empty { is_empty (station_in self.old s).hand ≡ true }
        requires due { (station_in self.old s).clock ≤ self.old.tick }
        ensures { self.new ≡ with_station_in s
            (record (station_in self.old s) {
              hand = in_hand.Clock self.old.tick samples;
              clock = self.old.tick + 1;
            })
            self.old }
    {
        let now = self.tick;
        let station = &mut self.items[usize::from(s)];
        station.take(Hand::Clock { now, samples });
        station.set_clock(now + 1);
        self.tally.full += 1;
        self.tally.clocks -= 1;
    }

    /// Lets switch `s` take a frame from `port`. The switch must exist and hold nothing.
    pub fn take_frame(&mut self, s: Place, port: Port)
        requires within { s < length self.old.items }
        requires empty { is_empty (station_in self.old s).hand ≡ true }
        ensures { self.new ≡ with_station_in s
            (record (station_in self.old s) { hand = in_hand.Frame port }) self.old }
    {
        self.items[usize::from(s)].take(Hand::Frame { port: port.as_u8() });
        self.tally.full += 1;
    }

    /// Removes what switch `s` holds. The switch must exist and hold something.
    pub fn empty(&mut self, s: Place)
        requires within { s < length self.old.items }
        requires full { is_empty (station_in self.old s).hand ≡ false }
        ensures { self.new ≡ with_station_in s
            (record (station_in self.old s) { hand = in_hand.Empty }) self.old }
    {
        self.items[usize::from(s)].take(Hand::Empty);
        self.tally.full -= 1;
    }

    /// Records what switch `s`, which must exist, shows now.
    ///
    /// If it has joined another epoch, its table goes out of use.
    pub fn show(&mut self, s: Place, note: &Note, spent: bool)
        requires within { s < length self.old.items }
        ensures { self.new ≡ with_station_in s (showing note.now spent (station_in self.old s)) self.old }
    {
        let station = &mut self.items[usize::from(s)];
        self.tally = self.tally.after(station, note, spent);
        station.show(note, spent);
    }

    /// Does the same as `show`, for a note that differs from the one before only in `port`, 1 to 12.
    pub fn show_port(&mut self, s: Place, port: Port, note: &Note, spent: bool)
        requires within { s < length self.old.items }
        requires least { 1 ≤ port }
        requires most { port ≤ 12 }
        requires only { ShowsOnly port (station_in self.old s).note note.now }
        ensures { self.new ≡ with_station_in s (showing note.now spent (station_in self.old s)) self.old }
    {
        let station = &mut self.items[usize::from(s)];
        self.tally = self.tally.after(station, note, spent);
        station.show_port(port, note, spent);
    }

    /// Puts a table into use at switch `s`, which must exist, and records what the switch shows.
    pub fn load(&mut self, s: Place, table: TableFor, note: &Note)
        requires within { s < length self.old.items }
        ensures { self.new ≡ with_station_in s
            (record (station_in self.old s) { table = Some table; note = note.now }) self.old }
    {
        let station = &mut self.items[usize::from(s)];
        self.tally = self.tally.after(station, note, station.is_spent());
        station.load(table, note);
    }

    /// Starts the next life of switch `s`, which must exist, and records what it shows: its clock event is due,
    /// and it uses no table.
    pub fn restart(&mut self, s: Place, note: Note)
        requires within { s < length self.old.items }
        ensures { self.new ≡ with_station_in s
            (restarted self.old.tick note (station_in self.old s)) self.old }
    {
        let is_due = self.is_clock_due(s);
        let station = &mut self.items[usize::from(s)];
        self.tally = self.tally.after(station, &note, false);
        self.tally.clocks = recounted(self.tally.clocks, is_due, true);
        station.restart(self.tick, note);
    }
}
