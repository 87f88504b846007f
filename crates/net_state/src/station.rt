//! The visible state of a switch.

ghost use Rattle.std.specs.Prelude.{◌≡◌, ◌==◌, ◌≤◌, None, Some, false, not, option_copied};
ghost use Rattle.std.specs.Option.{option_map, option_map_or};
ghost use Rattle.net_state.specs.declared.hand.Hand.TheVariants as in_hand;
ghost use Rattle.net_state.specs.Fabric.{is_empty};
ghost use Rattle.net_state.specs.Effects.{ShowsOnly, kept_table};
ghost use Rattle.net_state.specs.Starts.{started_note};

use crate::hand::Hand;
use an_base::life::Life;
use an_base::port::{Note, Port, Ports};
use std::marker::Model;
use switch_core::switch::TableFor;
use table_build::table::Table;

/// The visible state of a switch: what it holds, the tick at which its next clock event is due, the table
/// in use, what the switch shows of itself, and whether its epochs are spent.
#[derive(Drop)]
pub struct Station {
    hand: Hand,
    clock: u32,
    table: Option<TableFor>,
    note: Note,
    spent: bool,
}

impl Model for Station {
    ghost use Rattle.net_state.specs.Fabric.{StationOf};

    ghost Value = { StationOf };

    ghost view = { λ s. record {
      hand = s.hand;
      clock = s.clock;
      table = s.table;
      note = s.note;
      spent = s.spent;
    } };
}

/// Returns what a switch shows of itself when it starts in this life and epoch.
pub fn started_note(life: Life, epoch: u64) -> Note
    ensures { result ≡ started_note life epoch }
{
    Note {
        life,
        epoch,
        ports: Ports::new(),
        load_due: false,
        unacked: false,
    }
}

/// Overwrites `to` with `note`, in its memory.
pub fn write_note(to: &mut Note, note: &Note)
    ensures { to.new ≡ note.now }
{
    to.life = note.life;
    to.epoch = note.epoch;
    to.ports = note.ports.copy();
    to.load_due = note.load_due;
    to.unacked = note.unacked;
}

// Does the same, where only `port` can be shown differently than before.
fn write_port(to: &mut Note, port: Port, note: &Note)
    requires least { 1 ≤ port }
    requires most { port ≤ 12 }
    requires only { ShowsOnly port to.old note.now }
    ensures { to.new ≡ note.now }
{
    let _before = to.ports.as_slice();
    let _after = note.ports.as_slice();
    to.epoch = note.epoch;
    let number = port.as_u8();
    to.ports.set(number, note.ports.get(number));
    to.load_due = note.load_due;
    to.unacked = note.unacked;
}

impl Station {
    // The station at the start: its clock event is due, nothing is held, and no table is in use.
    pub(crate) fn begin(note: Note) -> Self
        ensures { result ≡ record {
          hand = in_hand.Empty;
          clock = 0;
          table = None;
          note = note;
          spent = false;
        } }
    {
        Station {
            hand: Hand::Empty,
            clock: 0,
            table: None,
            note,
            spent: false,
        }
    }

    /// Returns what the switch holds.
    pub fn hand(&self) -> Hand
        ensures { result ≡ self.now.hand }
    {
        self.hand
    }

    /// Reports whether the switch holds something.
    pub fn is_full(&self) -> bool
        ensures { result ≡ not (is_empty self.now.hand) }
    {
        match self.hand {
            Hand::Empty => false,
            Hand::Clock { now: _, samples: _ } => true,
            Hand::Frame { port: _ } => true,
        }
    }

    /// Returns the tick at which the next clock event of the switch is due.
    pub fn clock(&self) -> u32
        ensures { result ≡ self.now.clock }
    {
        self.clock
    }

    // The epoch of the table in use, 0 if there is none.
    pub(crate) fn epoch_in_use(&self) -> u64
        ensures { result ≡ option_map_or (λ used. used.epoch) self.now.table 0 }
    {
        match &self.table {
            Some(used) => used.epoch,
            None => 0,
        }
    }

    /// Returns the table in use.
    pub fn table(&self) -> Option<&Table>
        ensures { option_copied result ≡ option_map (λ used. used.table) self.now.table }
    {
        match &self.table {
            Some(used) => Some(&used.table),
            None => None,
        }
    }

    /// Returns what the switch shows of itself.
    pub fn note(&self) -> &Note
        ensures { result.now ≡ self.now.note }
    {
        &self.note
    }

    /// Reports whether the epochs of the switch are spent.
    pub fn is_spent(&self) -> bool
        ensures { result ≡ self.now.spent }
    {
        self.spent
    }

    // Lets the switch take this.
    pub(crate) fn take(&mut self, hand: Hand)
        ensures { self.new ≡ record self.old { hand = hand } }
    {
        self.hand = hand;
    }

    // Sets the tick at which the next clock event is due.
    pub(crate) fn set_clock(&mut self, clock: u32)
        ensures { self.new ≡ record self.old { clock = clock } }
    {
        self.clock = clock;
    }

    // Prepares the join of this epoch, which the note then shows: if it is another one, the table goes out of use.
    fn join(&mut self, epoch: u64)
        ensures { self.new ≡ record self.old {
          table = kept_table (epoch == self.old.note.epoch) self.old.table;
        } }
    {
        if epoch != self.note.epoch {
            self.table = None;
        }
    }

    // Records what the switch shows now. If it has joined another epoch, the table goes out of use.
    pub(crate) fn show(&mut self, note: &Note, spent: bool)
        ensures { self.new ≡ record self.old {
          table = kept_table (note.now.epoch == self.old.note.epoch) self.old.table;
          note = note.now;
          spent = spent;
        } }
    {
        self.join(note.epoch);
        write_note(&mut self.note, note);
        self.spent = spent;
    }

    // Does the same, where only `port`, 1 to 12, can be shown differently than before.
    pub(crate) fn show_port(&mut self, port: Port, note: &Note, spent: bool)
        requires least { 1 ≤ port }
        requires most { port ≤ 12 }
        requires only { ShowsOnly port self.old.note note.now }
        ensures { self.new ≡ record self.old {
          table = kept_table (note.now.epoch == self.old.note.epoch) self.old.table;
          note = note.now;
          spent = spent;
        } }
    {
        self.join(note.epoch);
        write_port(&mut self.note, port, note);
        self.spent = spent;
    }

    // Puts a table into use, and records what the switch shows.
    pub(crate) fn load(&mut self, table: TableFor, note: &Note)
        ensures { self.new ≡ record self.old { table = Some table; note = note.now } }
    {
        self.table = Some(table);
        write_note(&mut self.note, note);
    }

    // Starts the next life of the switch at this tick.
    pub(crate) fn restart(&mut self, tick: u32, note: Note)
        ensures { self.new ≡ record self.old { clock = tick; table = None; note = note; spent = false } }
    {
        self.clock = tick;
        self.table = None;
        self.note = note;
        self.spent = false;
    }
}
