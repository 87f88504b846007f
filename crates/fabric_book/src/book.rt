//! The book of a network.

ghost use Rattle.std.specs.Prelude.{◌≡◌, ◌+◌, ◌++◌, ◌<◌, ◌≤◌, ◌&&◌, ◌==◌, ◌∷◌, ℕ, [], length, option_to_list, true, false, All, IfOk};
ghost use Rattle.std.specs.List.{flat_map};
ghost use Rattle.an_base.specs.declared.event.Event.TheVariants as events;
ghost use Rattle.net_script.specs.Commands.{is_restart};
ghost use Rattle.switch_core.specs.Bytes.{IsFrameOut};
ghost use Rattle.net_state.specs.declared.ending.Ending.TheVariants as ending;
ghost use Rattle.net_state.specs.declared.hand.Hand.TheVariants as in_hand;
ghost use Rattle.net_state.specs.declared.work.Drive.TheVariants as drive;
ghost use Rattle.net_state.specs.Choices.{event_of_work};
ghost use Rattle.net_state.specs.Fabric.{count, full_hands, held_bytes, is_full_at, samples_of, station};
ghost use Rattle.net_state.specs.Agree.{is_settled};
ghost use Rattle.net_state.specs.Effects.{ShowsOnly, all_put_out, shows};
ghost use Rattle.net_state.specs.Fits.{IsHandPort};
ghost use Rattle.net_state.specs.Lawful.{is_barred, is_command, is_lawful};
ghost use Rattle.net_state.specs.Lines.{lost_lines};
ghost use Rattle.net_state.specs.Starts.{next_life_at};
ghost use Rattle.net_state.specs.declared.line.Line.TheVariants as line;
ghost use Rattle.net_world.specs.Histories.{IsLawful, fabric_of, owner_of, with_event, world_of};
ghost use Rattle.net_world.specs.Accounts.{placed};
ghost use Rattle.net_world.specs.Lines.{all_lines, lines_of};
ghost use Rattle.net_world.specs.Sound.{AllMayCome};
ghost use Rattle.net_world.specs.Turns.{AnswersAsk, AreTold, Drives, Handled, HasBytes, IsDone, IsFit, IsToLoad, LoadsOrNot, TakesWork};
ghost use Rattle.net_world.proofs.FitLemmas.{fit_stays};
ghost use Rattle.net_settling.specs.Settling.{HasTime, SettlesSoon};
ghost use Rattle.fabric_book.specs.Kept.{HasSamples, IsDrivers, history_with};

use an_base::event::{Event, Journal};
use an_base::life::Life;
use an_base::place::Place;
use an_base::port::{Note, Port, Sample};
use common_values::memory::OutOfMemory;
use fabric_turn::Staged;
use frame_region::buffer::FrameBuf;
use net_script::script::Script;
use net_state::fabric::Fabric;
use net_state::hand::Hand;
use net_state::line::{Line, PlacedLine};
use net_state::work::{Drive, Work};
use net_world::ask::{Ask, Done, Parcel, Reply, Sheet};
use std::alloc::Global;
use std::marker::Model;
use switch_core::out::FrameOut;
use switch_core::switch::TableFor;

/// The book of a network: its whole history, and the state that it makes of the network (`Fabric`). From the
/// beginning it has room for all events that the script allows.
#[derive(Drop)]
pub struct Book {
    fabric: Fabric,
    entries: Vec<Event>,
    taken: Vec<Port>,
}

impl Model for Book {
    ghost use Rattle.std.specs.Prelude.{vec_capacity};
    ghost use Rattle.net_world.specs.Histories.{HistoryOf};
    ghost use Rattle.net_world.proofs.FitLemmas.{fit_stays};
    ghost use Rattle.fabric_book.specs.Kept.{IsKept};

    ghost Value = { HistoryOf };

    ghost view = { λ b. record { script = b.fabric.script; events = b.entries.items } };

    ghost invariant = { λ b. IsKept b.fabric b.entries.items b.taken.items (vec_capacity b.entries) };
}

// Sends the frames of a switch in turn, and notes the line that reports each, if any.
fn put_all(fabric: &mut Fabric, s: Place, frames: &[FrameOut], puts: &mut [Option<Line>])
    requires within { s < count fabric.old }
    requires spelled { All IsFrameOut frames.now }
    requires room { length puts.old ≡ length frames.now }
    ensures put { fabric.new ≡ record fabric.old { wires = all_put_out s frames.now fabric.old.wires } }
    ensures told { flat_map option_to_list puts.new ≡ lost_lines s frames.now fabric.old.wires }
    ensures room { length puts.new ≡ length puts.old }
{
    'frames: for place in 0..frames.len() {
        puts[place] = fabric.put(s, &frames[place]);
    }
}

// Shows what the switch shows after it has handled what it had in hand. After a frame, only the port by which it
// came can change.
fn show(fabric: &mut Fabric, s: Place, hand: Hand, note: &Note, spent: bool)
    requires within { s < count fabric.old }
    requires room { fabric.old.events + full_hands fabric.old < fabric.old.script.limits.events }
    requires port { IsHandPort hand }
    requires only { (port : ℕ) → hand ≡ in_hand.Frame port → ShowsOnly port (station fabric.old s).note note.now }
    ensures { fabric.new ≡ shows s note.now spent fabric.old }
{
    match hand {
        Hand::Frame { port } => fabric.show_port(s, Port(port), note, spent),
        Hand::Empty | Hand::Clock { now: _, samples: _ } => fabric.show(s, note, spent),
    }
}

impl Book {
    /// Creates the book of a network of `script`, in which no event has come. Later calls do not allocate.
    ///
    /// # Errors
    /// `OutOfMemory` if an allocation fails.
    pub fn begin(alloc: Global, script: &Script) -> Result<Self, OutOfMemory>
        ensures { IfOk result (λ book. book ≡ record { script = script.now; events = [] }) }
    {
        let entries = Vec::with_capacity(alloc, script.limits().events as usize)?;
        let taken = vec![in alloc; Port(0); usize::from(script.wiring().count())]?;
        Ok(Book {
            fabric: Fabric::begin(alloc, script)?,
            entries,
            taken,
        })
    }

    /// Returns the state of the network.
    pub fn fabric(&self) -> &Fabric
        ensures { result.now ≡ fabric_of self.now }
    {
        &self.fabric
    }

    /// Returns the history.
    pub fn entries(&self) -> &[Event]
        ensures all { result.now ≡ self.now.events }
        ensures lawful { IsLawful self.now.script self.now.events }
        ensures room { length self.now.events + full_hands (fabric_of self.now) ≤ self.now.script.limits.events }
    {
        &self.entries
    }

    /// Returns the history as a journal.
    pub fn into_journal(self) -> Journal
        ensures all { result ≡ self.events }
        ensures lawful { IsLawful self.script self.events }
    {
        Journal::of(self.entries)
    }

    /// Reports whether the network is settled and no hand is full.
    pub fn settled(&self) -> bool
        ensures { result ≡ (full_hands (fabric_of self.now) == 0 && is_settled (fabric_of self.now)) }
    {
        self.fabric.settled()
    }

    // Returns a line of the last event, with its place.
    fn at_its_place(&self, line: Line) -> PlacedLine
        ensures { result ≡ record { event = (fabric_of self.now).events; line = line } }
    {
        PlacedLine {
            event: self.fabric.events(),
            line,
        }
    }

    // Returns the line that reports the last event, with its place.
    fn placed(&self, line: Option<Line>) -> Option<PlacedLine>
        ensures { option_to_list result ≡ placed (fabric_of self.now).events (option_to_list line) }
    {
        match line {
            Some(line) => Some(self.at_its_place(line)),
            None => None,
        }
    }

    /// Chooses and begins the next work of the switch `s`: a restart, a clock, a frame, whose bytes are then in
    /// `out`, or nothing. Returns it with the line that reports it, if there is one.
    ///
    /// The caller must pass a switch of the script that has nothing in hand.
    pub fn take(&mut self, s: Place, out: &mut FrameBuf) -> (Work, Option<PlacedLine>)
        requires within { s < length self.old.script.wires.switches }
        requires empty { is_full_at (fabric_of self.old) s ≡ false }
        ensures script { self.new.script ≡ self.old.script }
        ensures work { TakesWork self.old.script self.old.events s result.0 out.new result.1 self.new.events }
    {
        let work = self.fabric.work(s, self.taken[usize::from(s)]);
        let line = self.begin_work(s, &work, out);
        (work, self.placed(line))
    }

    // Begins the next work of a switch, whose event must be lawful. Returns the line that reports it.
    fn begin_work(&mut self, s: Place, work: &Work, out: &mut FrameBuf) -> Option<Line>
        requires next { AllMayCome (fabric_of self.old) (event_of_work s work.now) }
        requires samples { HasSamples work.now (fabric_of self.old) s }
        ensures event { self.new ≡ history_with (event_of_work s work.now) self.old }
        ensures bytes { HasBytes work.now (fabric_of self.new) s out.new }
        ensures told { option_to_list result ≡ all_lines (world_of self.old) (event_of_work s work.now) }
    {
        match *work {
            Work::Restart { life: _ } => {
                let (_life, told) = self.restart(s);
                Some(told)
            }
            Work::Clock { now: _, samples } => {
                self.clock(s, samples);
                None
            }
            Work::Frame { port } => self.take_at(s, port, out),
            Work::Nothing { why: _ } => None,
        }
    }

    /// Sends the frames in `done`, notes in `puts` the line that reports each, and shows what the switch `s` now
    /// shows. Returns the place of the event in the history, from 1.
    ///
    /// The caller must pass what came of what `s` had in hand, and a place in `puts` for each frame.
    pub fn put(&mut self, s: Place, done: &Done, puts: &mut [Option<Line>]) -> u32
        requires within { s < length self.old.script.wires.switches }
        requires done { IsDone (world_of self.old) s done.now }
        requires room { length puts.old ≡ length done.now.frames }
        ensures handled { self.new ≡ with_event (events.Handle s) self.old }
        ensures told { AreTold (fabric_of self.old) s done.now.frames puts.new }
        ensures number { result ≡ (fabric_of self.new).events }
    {
        self.handle(s, done.frames.as_slice(), &done.note, done.spent, puts);
        self.fabric.events()
    }

    /// Makes `s` use the table of `sheet`, and shows the note in it. Returns `NotNow` with the sheet, and changes
    /// nothing, if and only if a switch is spent or too little room is left for events.
    ///
    /// The caller must pass a table that `s` is to load now.
    pub fn load(&mut self, s: Place, sheet: Box<Sheet>) -> Reply
        requires within { s < length self.old.script.wires.switches }
        requires load { IsToLoad (world_of self.old) s sheet.value.table sheet.value.note }
        ensures script { self.new.script ≡ self.old.script }
        ensures reply { LoadsOrNot (is_barred (fabric_of self.old)) sheet result s self.old.script self.old.events
            self.new.events }
    {
        if self.fabric.is_barred() {
            return Reply::NotNow { sheet };
        }
        let Sheet { table, note } = Box::into_inner(sheet);
        let line = self.load_now(s, table, &note);
        Reply::Loaded {
            told: self.at_its_place(line),
        }
    }

    /// Does the next thing of the driver. Returns it with the line that reports it, if there is one. The history
    /// settles as soon as is claimed of each lawful one. A history that had the time to settle does not get the end
    /// `Unsettled`.
    pub fn drive(&mut self) -> (Drive, Option<PlacedLine>)
        ensures script { self.new.script ≡ self.old.script }
        ensures did { Drives self.old.script self.old.events result.0 result.1 self.new.events }
        ensures settles { SettlesSoon self.new.script self.new.events }
        ensures in_time { result.0 ≡ drive.Ended ending.Unsettled → ¬ HasTime self.new.script self.new.events }
    {
        let drive = self.fabric.drive();
        let Drive::Did(event) = &drive else {
            return (drive, None);
        };
        let line = self.drive_by(*event);
        (drive, self.placed(line))
    }

    // Makes an event of the driver, which must be lawful. Returns the line that reports it.
    fn drive_by(&mut self, event: Event) -> Option<Line>
        requires lawful { is_lawful (fabric_of self.old) event ≡ true }
        requires driver { IsDrivers (fabric_of self.old) event }
        ensures made { self.new ≡ with_event event self.old }
        ensures told { option_to_list result ≡ lines_of (world_of self.old) event }
    {
        match event {
            Event::Tick => {
                self.tick();
                None
            }
            Event::Move { packet } => Some(self.hop(packet)),
            command => self.command(&command),
        }
    }

    // ---- Each lawful event ------------------------------------------------------------------------------

    // Advances the clock of the network.
    pub(crate) fn tick(&mut self)
        requires { is_lawful (fabric_of self.old) events.Tick ≡ true }
        ensures { self.new ≡ with_event events.Tick self.old }
    {
        self.fabric.tick();
        self.entries.push_reserved(Event::Tick);
    }

    // Puts the clock in the hand of a switch, with what the hardware now says of its ports.
    pub(crate) fn clock(&mut self, s: Place, samples: [Sample; 12])
        requires lawful { is_lawful (fabric_of self.old) (events.Clock s) ≡ true }
        requires samples { samples ≡ samples_of (fabric_of self.old) s }
        ensures { self.new ≡ with_event (events.Clock s) self.old }
    {
        self.fabric.clock(s, samples);
        self.entries.push_reserved(Event::Clock { s });
    }

    // Takes a frame from the wire into a port, and puts it in the hand of a switch. Returns the line that reports
    // it.
    pub(crate) fn take_at(&mut self, s: Place, port: Port, out: &mut FrameBuf) -> Option<Line>
        requires { is_lawful (fabric_of self.old) (events.Take s port) ≡ true }
        ensures taken { self.new ≡ with_event (events.Take s port) self.old }
        ensures bytes { out.new ≡ held_bytes (fabric_of self.new) s }
        ensures told { option_to_list result ≡ lines_of (world_of self.old) (events.Take s port) }
    {
        let told = self.fabric.take(s, port, out);
        self.taken[usize::from(s)] = port;
        self.entries.push_reserved(Event::Take { s, port });
        told
    }

    // Ends what a switch had in hand: sends `frames`, shows `note`, and notes the line that reports each frame.
    pub(crate) fn handle(
        &mut self,
        s: Place,
        frames: &[FrameOut],
        note: &Note,
        spent: bool,
        puts: &mut [Option<Line>],
    )
        requires within { s < length self.old.script.wires.switches }
        requires done { Handled (world_of self.old) s frames.now note.now spent }
        requires spelled { All IsFrameOut frames.now }
        requires room { length puts.old ≡ length frames.now }
        ensures handled { self.new ≡ with_event (events.Handle s) self.old }
        ensures told { AreTold (fabric_of self.old) s frames.now puts.new }
        ensures room { length puts.new ≡ length puts.old }
    {
        let hand = self.fabric.station(s).hand();
        self.fabric.release(s);
        put_all(&mut self.fabric, s, frames, puts);
        show(&mut self.fabric, s, hand, note, spent);
        self.entries.push_reserved(Event::Handle { s });
    }

    // Makes a switch use `table`, and shows `note`. Returns the line that reports it.
    pub(crate) fn load_now(&mut self, s: Place, table: TableFor, note: &Note) -> Line
        requires lawful { is_lawful (fabric_of self.old) (events.Load s) ≡ true }
        requires load { IsToLoad (world_of self.old) s table note.now }
        ensures loaded { self.new ≡ with_event (events.Load s) self.old }
        ensures told { result ∷ [] ≡ lines_of (world_of self.old) (events.Load s) }
    {
        let told = self.fabric.load(s, table, note);
        self.entries.push_reserved(Event::Load { s });
        told
    }

    // Begins the next life of a switch. Returns this life, and the line that reports it.
    pub(crate) fn restart(&mut self, s: Place) -> (Life, Line)
        requires { is_lawful (fabric_of self.old) (events.Restart s) ≡ true }
        ensures restarted { self.new ≡ with_event (events.Restart s) self.old }
        ensures life { result.0 ≡ next_life_at (fabric_of self.old) s }
        ensures told { result.1 ≡ line.Restarted s }
    {
        let begun = self.fabric.restart(s);
        self.entries.push_reserved(Event::Restart { s });
        begun
    }

    // Does the next command, which is no restart. Returns the line that reports it.
    pub(crate) fn command(&mut self, command: &Event) -> Option<Line>
        requires lawful { is_lawful (fabric_of self.old) command.now ≡ true }
        requires command { is_command (fabric_of self.old) command.now ≡ true }
        requires other { is_restart command.now ≡ false }
        ensures done { self.new ≡ with_event command.now self.old }
        ensures told { option_to_list result ≡ lines_of (world_of self.old) command.now }
    {
        let told = self.fabric.command(command);
        self.entries.push_reserved(*command);
        told
    }

    // Moves a packet by one hop. Returns the line that reports it.
    pub(crate) fn hop(&mut self, packet: u32) -> Line
        requires { is_lawful (fabric_of self.old) (events.Move packet) ≡ true }
        ensures moved { self.new ≡ with_event (events.Move packet) self.old }
        ensures told { result ∷ [] ≡ lines_of (world_of self.old) (events.Move packet) }
    {
        let told = self.fabric.hop(packet);
        self.entries.push_reserved(Event::Move { packet });
        told
    }
}

impl Staged for Book {
    type Ask = Ask;

    type Reply = Reply;

    type Entry = Event;

    type Start = Script;

    ghost start = { λ b. b.script };

    ghost history = { λ b. b.events };

    ghost owner = { owner_of };

    ghost fit = { IsFit };

    ghost answers = { λ script history _ ask reply after. AnswersAsk script history ask reply after };

    fn act(&mut self, _caller: u32, ask: Ask) -> Reply {
        match ask {
            Ask::Take { s, mut letter } => {
                let (work, told) = self.take(s, &mut letter.buffer);
                letter.work = work;
                letter.told = told;
                Reply::Take { letter }
            }
            Ask::Put { s, mut parcel } => {
                let Parcel { done, puts, event } = &mut *parcel;
                *event = self.put(s, done, puts);
                Reply::Put { parcel }
            }
            Ask::Load { s, sheet } => self.load(s, sheet),
            Ask::Drive { mut slip } => {
                let (drive, told) = self.drive();
                slip.drive = drive;
                slip.told = told;
                Reply::Drive { slip }
            }
        }
    }

    ghost stays_fit = { fit_stays };
}
