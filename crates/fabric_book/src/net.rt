//! A network on one thread: a book together with its switches.

ghost use Rattle.std.specs.Prelude.{◌≡◌, ◌++◌, ◌<◌, ◌≤◌, true, false, [], length, nat_lt, Err, IfOk, OnOk, option_copied};
ghost use Rattle.an_base.specs.declared.event.Event.TheVariants as events;
ghost use Rattle.net_script.specs.Commands.{is_restart};
ghost use Rattle.net_script.specs.Scripts.{IsScript};
ghost use Rattle.net_state.specs.Agree.{ending_of};
ghost use Rattle.net_state.specs.Choices.{event_of_drive, event_of_work, next_drive, next_work};
ghost use Rattle.net_state.specs.Fabric.{is_full_at, load_due_at, station, table_at};
ghost use Rattle.net_state.specs.Lawful.{is_command, is_lawful};
ghost use Rattle.net_world.specs.Histories.{IsLawful, fabric_of, last_taken, world_of};
ghost use Rattle.net_world.specs.Lines.{lines_of};
ghost use Rattle.net_world.specs.Solo.{worker_event};
ghost use Rattle.fabric_book.specs.declared.net.StepRefusal.TheVariants as refusal;
ghost use Rattle.fabric_book.specs.Nets.{AreStarted, all_powers, history_of, with_events, with_step};
ghost use Rattle.fabric_book.specs.Rounds.{drive_lines};

use crate::book::Book;
use crate::handling::{handle_at, load_at};
use crate::lines::Lines;
use crate::power::PowerOn;
use an_base::event::{Event, Journal};
use an_base::life::Life;
use an_base::place::Place;
use an_base::port::{Note, Port};
use common_values::memory::OutOfMemory;
use frame_region::buffer::FrameBuf;
use net_graph::wiring::Wiring;
use net_script::script::Script;
use net_state::ending::Ending;
use net_state::fabric::Fabric;
use net_state::line::Line;
use net_state::station::started_note;
use net_state::work::{Drive, Work};
use std::alloc::Global;
use std::marker::Model;
use switch_core::out::Out;
use switch_core::switch::Switch;
use table_build::table::Table;

/// Why an event was not made.
#[derive(Clone, Copy, PartialEq, Eq)]
pub enum StepRefusal {
    /// The event is not lawful; nothing has changed.
    NotLawful,
    /// An allocation failed; the network can then only be dropped.
    OutOfMemory,
}

impl From<OutOfMemory> for StepRefusal {
    ghost use Rattle.fabric_book.specs.declared.net.StepRefusal.TheVariants as refusal;

    ghost from_gives = { λ _ wanting. wanting ≡ refusal.OutOfMemory };

    fn from(_error: OutOfMemory) -> StepRefusal {
        StepRefusal::OutOfMemory
    }
}

/// A network on one thread. While a switch does something, the network is marked as lost. If memory runs out it
/// stays marked, because the switch and the book no longer agree, and it can only be dropped.
#[derive(Drop)]
pub struct Net {
    alloc: Global,
    lost: bool,
    book: Book,
    powers: Vec<PowerOn>,
    switches: Vec<Switch>,
    bytes: Vec<FrameBuf>,
    out: Out,
    note: Note,
    room: Note,
    puts: Vec<Option<Line>>,
}

// Returns what each switch of a script is started with.
fn powers(alloc: Global, script: &Script) -> Result<Vec<PowerOn>, OutOfMemory>
    ensures { IfOk result (λ powers. powers.items ≡ all_powers script.now) }
{
    let count = script.wiring().count();
    let mut powers = Vec::with_capacity(alloc, usize::from(count))?;
    'switches: for s in 0..count {
        powers.push(PowerOn::of(script, Place(s)))?;
    }
    Ok(powers)
}

// Starts each switch of a wiring in its first life.
fn start_all(alloc: Global, wiring: &Wiring, powers: &[PowerOn]) -> Result<Vec<Switch>, OutOfMemory>
    requires { length powers.now ≡ length wiring.now.switches }
    ensures { IfOk result (λ switches. AreStarted powers.now wiring.now switches.items) }
{
    let count = wiring.count();
    let mut switches = Vec::with_capacity(alloc, usize::from(count))?;
    'switches: for s in 0..count {
        let power = powers[usize::from(s)];
        switches.push(power.start(alloc, wiring.life(Place(s)))?)?;
    }
    Ok(switches)
}

// Returns what each switch of a script is started with, and the switches, each in its first life.
fn started(alloc: Global, script: &Script) -> Result<(Vec<PowerOn>, Vec<Switch>), OutOfMemory>
    ensures powers { IfOk result (λ r. r.0.items ≡ all_powers script.now) }
    ensures switches { IfOk result (λ r. AreStarted r.0.items script.now.wires r.1.items) }
{
    let powers = powers(alloc, script)?;
    let switches = start_all(alloc, script.wiring(), &powers)?;
    Ok((powers, switches))
}

// Returns `count` buffers.
fn buffers(alloc: Global, count: u8) -> Result<Vec<FrameBuf>, OutOfMemory>
    ensures { IfOk result (λ buffers. length buffers.items ≡ count) }
{
    let mut all = Vec::with_capacity(alloc, usize::from(count))?;
    'buffers: for _ in 0..count {
        all.push(FrameBuf::new(alloc)?)?;
    }
    Ok(all)
}

impl Model for Net {
    ghost use Rattle.fabric_book.specs.Nets.{NetOf, IsNetKept};

    ghost Value = { NetOf };

    ghost view = { λ n. record { script = n.book.script; events = n.book.events; lost = n.lost } };

    ghost invariant = { λ n. IsNetKept n.book n.lost n.powers.items n.switches.items n.bytes.items };
}

impl Net {
    /// Creates the network of `script`, in which no event has come.
    ///
    /// # Errors
    /// `OutOfMemory` if an allocation fails.
    pub fn begin(alloc: Global, script: &Script) -> Result<Self, OutOfMemory>
        ensures { IfOk result (λ net. net ≡ record { script = script.now; events = []; lost = false }) }
    {
        let (powers, switches) = started(alloc, script)?;
        let bytes = buffers(alloc, script.wiring().count())?;
        let note = started_note(Life::new(0, 1), 0);
        Ok(Net {
            alloc,
            lost: false,
            book: Book::begin(alloc, script)?,
            powers,
            switches,
            bytes,
            out: Out::new(alloc),
            room: note.copy(),
            note,
            puts: Vec::new(alloc),
        })
    }

    /// Returns the state of the network.
    pub fn fabric(&self) -> &Fabric
        ensures { result.now ≡ fabric_of (history_of self.now) }
    {
        self.book.fabric()
    }

    /// Returns the end that has come, if one has.
    pub fn end(&self) -> Option<Ending>
        ensures { result ≡ ending_of (fabric_of (history_of self.now)) }
    {
        self.fabric().end()
    }

    /// Returns the tick of the network's clock.
    pub fn now(&self) -> u32
        ensures { result ≡ (fabric_of (history_of self.now)).tick }
    {
        self.fabric().now()
    }

    /// Returns the present life of the switch `s`, which must be one of the script's.
    pub fn life(&self, s: Place) -> Life
        requires { s < length self.now.script.wires.switches }
        ensures { result ≡ (station (fabric_of (history_of self.now)) s).note.life }
    {
        self.fabric().station(s).note().life
    }

    /// Returns the table in use at the switch `s`, if there is one. It accepts every value of `s`.
    pub fn table(&self, s: Place) -> Option<&Table>
        ensures { option_copied result ≡ table_at (fabric_of (history_of self.now)) s }
    {
        self.fabric().table(s)
    }

    /// Returns the history as a journal.
    pub fn into_journal(self) -> Journal
        ensures all { result ≡ self.events }
        ensures lawful { IsLawful self.script self.events }
    {
        self.book.into_journal()
    }

    /// Makes `event`, and adds the lines that report it. The network must not be marked as lost.
    ///
    /// # Errors
    /// `NotLawful` if the event is not lawful; the network and the lines are then unchanged. `OutOfMemory` if an
    /// allocation fails; both are then unspecified.
    pub fn step(&mut self, event: &Event, lines: &mut Lines) -> Result<(), StepRefusal>
        requires { self.old.lost ≡ false }
        ensures lawful { OnOk result (is_lawful (fabric_of (history_of self.old)) event.now ≡ true) }
        ensures stepped { OnOk result (self.new ≡ with_step event.now self.old) }
        ensures told { OnOk result (lines.new ≡ lines.old ++ lines_of (world_of (history_of self.old)) event.now) }
        ensures refused { result ≡ Err refusal.NotLawful → is_lawful (fabric_of (history_of self.old)) event.now ≡ false }
        ensures unchanged { result ≡ Err refusal.NotLawful → self.new ≡ self.old }
        ensures untold { result ≡ Err refusal.NotLawful → lines.new ≡ lines.old }
    {
        if !self.fabric().is_lawful(event) {
            return Err(StepRefusal::NotLawful);
        }
        self.make(*event, lines)?;
        Ok(())
    }

    // Makes a lawful event.
    fn make(&mut self, event: Event, lines: &mut Lines) -> Result<(), OutOfMemory>
        requires here { self.old.lost ≡ false }
        requires lawful { is_lawful (fabric_of (history_of self.old)) event ≡ true }
        ensures stepped { OnOk result (self.new ≡ with_step event self.old) }
        ensures told { OnOk result (lines.new ≡ lines.old ++ lines_of (world_of (history_of self.old)) event) }
    {
        match event {
            Event::Tick => {
                self.tick();
                Ok(())
            }
            Event::Clock { s } => {
                self.clock(s);
                Ok(())
            }
            Event::Take { s, port } => self.take(s, port, lines),
            Event::Handle { s } => self.handle(s, lines),
            Event::Load { s } => self.load(s, lines),
            Event::Move { packet } => self.hop(packet, lines),
            Event::Restart { s } => self.restart(s, lines),
            command => self.command(command, lines),
        }
    }

    // Advances the clock of the network.
    fn tick(&mut self)
        requires here { self.old.lost ≡ false }
        requires lawful { is_lawful (fabric_of (history_of self.old)) events.Tick ≡ true }
        ensures { self.new ≡ with_step events.Tick self.old }
    {
        self.book.tick();
    }

    // Puts its clock in the hand of a switch.
    fn clock(&mut self, s: Place)
        requires here { self.old.lost ≡ false }
        requires lawful { is_lawful (fabric_of (history_of self.old)) (events.Clock s) ≡ true }
        ensures { self.new ≡ with_step (events.Clock s) self.old }
    {
        let samples = self.fabric().samples(s);
        self.book.clock(s, samples);
    }

    // Puts a frame in the hand of a switch. If a copy was lost, adds a line that names the end that sent it.
    fn take(&mut self, s: Place, port: Port, lines: &mut Lines) -> Result<(), OutOfMemory>
        requires here { self.old.lost ≡ false }
        requires lawful { is_lawful (fabric_of (history_of self.old)) (events.Take s port) ≡ true }
        ensures stepped { OnOk result (self.new ≡ with_step (events.Take s port) self.old) }
        ensures told { OnOk result (lines.new ≡ lines.old ++ lines_of (world_of (history_of self.old)) (events.Take s port)) }
    {
        lines.push_some(self.book.take_at(s, port, &mut self.bytes[usize::from(s)]))
    }

    // Makes a switch handle what it has in hand.
    fn handle(&mut self, s: Place, lines: &mut Lines) -> Result<(), OutOfMemory>
        requires here { self.old.lost ≡ false }
        requires lawful { is_lawful (fabric_of (history_of self.old)) (events.Handle s) ≡ true }
        ensures stepped { OnOk result (self.new ≡ with_step (events.Handle s) self.old) }
        ensures told { OnOk result (lines.new ≡ lines.old ++ lines_of (world_of (history_of self.old)) (events.Handle s)) }
    {
        self.lost = true;
        let place = usize::from(s);
        handle_at(
            &mut self.book,
            &mut self.switches[place],
            self.bytes[place].bytes(),
            s,
            &mut self.out,
            &mut self.note,
            &mut self.room,
            &mut self.puts,
            lines,
        )?;
        self.lost = false;
        Ok(())
    }

    // Makes a switch load the table that is due.
    fn load(&mut self, s: Place, lines: &mut Lines) -> Result<(), OutOfMemory>
        requires here { self.old.lost ≡ false }
        requires lawful { is_lawful (fabric_of (history_of self.old)) (events.Load s) ≡ true }
        ensures stepped { OnOk result (self.new ≡ with_step (events.Load s) self.old) }
        ensures told { OnOk result (lines.new ≡ lines.old ++ lines_of (world_of (history_of self.old)) (events.Load s)) }
    {
        self.lost = true;
        load_at(&mut self.book, &mut self.switches[usize::from(s)], s, lines)?;
        self.lost = false;
        Ok(())
    }

    // Moves a packet by one hop.
    fn hop(&mut self, packet: u32, lines: &mut Lines) -> Result<(), OutOfMemory>
        requires here { self.old.lost ≡ false }
        requires lawful { is_lawful (fabric_of (history_of self.old)) (events.Move packet) ≡ true }
        ensures stepped { OnOk result (self.new ≡ with_step (events.Move packet) self.old) }
        ensures told { OnOk result (lines.new ≡ lines.old ++ lines_of (world_of (history_of self.old)) (events.Move packet)) }
    {
        lines.push(self.book.hop(packet))
    }

    // Begins the next life of a switch. It is apart from `make`, which would otherwise make room for a new switch
    // at each call, though a restart is rare.
    #[cold]
    #[inline(never)]
    fn restart(&mut self, s: Place, lines: &mut Lines) -> Result<(), OutOfMemory>
        requires here { self.old.lost ≡ false }
        requires lawful { is_lawful (fabric_of (history_of self.old)) (events.Restart s) ≡ true }
        ensures stepped { OnOk result (self.new ≡ with_step (events.Restart s) self.old) }
        ensures told { OnOk result (lines.new ≡ lines.old ++ lines_of (world_of (history_of self.old)) (events.Restart s)) }
    {
        self.lost = true;
        let place = usize::from(s);
        let (life, told) = self.book.restart(s);
        let power = self.powers[place];
        self.switches[place] = power.start(self.alloc, life)?;
        self.lost = false;
        lines.push(told)
    }

    // Does the next command.
    fn command(&mut self, command: Event, lines: &mut Lines) -> Result<(), OutOfMemory>
        requires here { self.old.lost ≡ false }
        requires lawful { is_lawful (fabric_of (history_of self.old)) command ≡ true }
        requires command { is_command (fabric_of (history_of self.old)) command ≡ true }
        requires other { is_restart command ≡ false }
        ensures stepped { OnOk result (self.new ≡ with_step command self.old) }
        ensures told { OnOk result (lines.new ≡ lines.old ++ lines_of (world_of (history_of self.old)) command) }
    {
        lines.push_some(self.book.command(&command))
    }

    // Gives a switch whose hand is empty its next work, as the book chooses it. Returns false if it has none.
    fn take_work(&mut self, s: Place) -> Result<bool, OutOfMemory>
        requires here { self.old.lost ≡ false }
        requires within { s < length self.old.script.wires.switches }
        requires empty { is_full_at (fabric_of (history_of self.old)) s ≡ false }
        ensures taken { OnOk result (self.new ≡ with_events
            (event_of_work s (next_work (fabric_of (history_of self.old)) s (last_taken s self.old.events))) self.old) }
        ensures some { IfOk result (λ more. more ≡ nat_lt 0
            (length (event_of_work s (next_work (fabric_of (history_of self.old)) s (last_taken s self.old.events))))) }
    {
        let place = usize::from(s);
        let (work, _told) = self.book.take(s, &mut self.bytes[place]);
        match work {
            Work::Nothing { why: _ } => Ok(false),
            Work::Restart { life } => {
                self.lost = true;
                let power = self.powers[place];
                self.switches[place] = power.start(self.alloc, life)?;
                self.lost = false;
                Ok(true)
            }
            Work::Clock { now: _, samples: _ } => Ok(true),
            Work::Frame { port: _ } => Ok(true),
        }
    }

    // Reports whether a switch has a table to load.
    fn load_due(&self, s: Place) -> bool
        requires { s < length self.now.script.wires.switches }
        ensures { result ≡ load_due_at (fabric_of (history_of self.now)) s }
    {
        self.fabric().station(s).note().load_due
    }

    // Does the next thing of a worker. Returns false if it has none.
    pub(crate) fn turn(&mut self, s: Place, lines: &mut Lines) -> Result<bool, OutOfMemory>
        requires here { self.old.lost ≡ false }
        requires within { s < length self.old.script.wires.switches }
        ensures turned { OnOk result (self.new ≡ with_events
            (worker_event (world_of (history_of self.old)) s (last_taken s self.old.events)) self.old) }
        ensures some { IfOk result (λ more. more
            ≡ nat_lt 0 (length (worker_event (world_of (history_of self.old)) s (last_taken s self.old.events)))) }
        ensures room { OnOk result (length self.new.events ≤ self.new.script.limits.events) }
    {
        if self.book.fabric().station(s).is_full() {
            self.handle(s, lines)?;
            return Ok(true);
        }
        if self.book.fabric().is_barred() {
            return Ok(false);
        }
        if self.load_due(s) {
            self.load(s, lines)?;
            return Ok(true);
        }
        self.take_work(s)
    }

    // Does the next thing of the driver, and adds the lines that report it.
    pub(crate) fn drive(&mut self, lines: &mut Lines) -> Result<Drive, OutOfMemory>
        requires { self.old.lost ≡ false }
        ensures script { OnOk result (IsScript self.new.script) }
        ensures did { IfOk result (λ did. did ≡ next_drive (fabric_of (history_of self.old))) }
        ensures driven { IfOk result (λ did. self.new ≡ with_events (event_of_drive did) self.old) }
        ensures room { OnOk result (length self.new.events ≤ self.new.script.limits.events) }
        ensures told { IfOk result (λ did. lines.new
            ≡ lines.old ++ drive_lines (world_of (history_of self.old)) did) }
    {
        let drive = self.book.fabric().drive();
        let Drive::Did(event) = &drive else {
            return Ok(drive);
        };
        self.make(*event, lines)?;
        Ok(drive)
    }
}
