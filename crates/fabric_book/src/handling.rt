//! What a switch does with what it has in hand, and with a table that is due.

ghost use Rattle.std.specs.Prelude.{◌≡◌, ◌+◌, ◌<◌, ◌^◌, ◌++◌, false, true, ℕ, List, [], is_some, OnOk, OnErr};
ghost use Rattle.std.specs.List.{flat_map};
ghost use Rattle.an_base.specs.declared.event.Event.TheVariants as events;
ghost use Rattle.net_script.specs.Scripts.{IsScript};
ghost use Rattle.port_monitor.specs.Histories.{externals};
ghost use Rattle.switch_core.specs.Switch.{SwitchOf, finish_of, note_of, started_as};
ghost use Rattle.switch_core.specs.Kept.{IsWorking, StandsFor};
ghost use Rattle.net_state.specs.Fabric.{is_empty};
ghost use Rattle.net_state.specs.Fits.{IsHandPort};
ghost use Rattle.net_state.specs.Lawful.{is_lawful};
ghost use Rattle.net_world.specs.Histories.{fabric_of, with_event, world_of};
ghost use Rattle.net_world.specs.Lines.{finish_lines, join_lines, lines_of, port_line, no_epoch_lines};
ghost use Rattle.net_world.specs.World.{handles};
ghost use Rattle.fabric_book.specs.Nets.{IsHandled, IsSameOrNext, IsSwitchKept};
ghost use Rattle.fabric_book.specs.Told.{hand_lines};

use crate::book::Book;
use crate::lines::Lines;
use crate::telling::{tell_finish, tell_noise, tell_port, tell_ports};
use an_base::place::Place;
use an_base::port::{Note, Port};
use common_values::memory::OutOfMemory;
use net_state::hand::Hand;
use net_state::line::Line;
use net_state::station::write_note;
use switch_core::out::Out;
use switch_core::switch::{ClockRefusal, Switch};

// Makes a switch do what it does with what it has in hand. If memory runs out it is as it was started, and no frame
// goes out.
fn work(switch: &mut Switch, hand: Hand, bytes: &[u8], out: &mut Out) -> Result<(), OutOfMemory>
    requires full { is_empty hand ≡ false }
    requires port { IsHandPort hand }
    requires works { switch.old.works < 2 ^ 28 }
    requires working { IsWorking switch.old }
    ensures start { switch.new.start ≡ switch.old.start }
    ensures works { switch.new.works ≡ switch.old.works + 1 }
    ensures handled { (x : SwitchOf) → StandsFor switch.old x
        → OnOk result (IsHandled x hand bytes.now switch.new out.new) }
    ensures lost { OnErr result (StandsFor switch.new (started_as switch.old.start)) }
    ensures nothing { OnErr result (out.new ≡ record { frames = []; noframe = false }) }
{
    match hand {
        Hand::Empty => unreachable!(),
        Hand::Clock { now, samples } => match switch.clock(u64::from(now), &samples, out) {
            Ok(()) => Ok(()),
            Err(ClockRefusal::EpochsSpent) => Ok(()),
            Err(ClockRefusal::OutOfMemory) => Err(OutOfMemory),
        },
        Hand::Frame { port } => switch.handle(bytes, port, out),
    }
}

// Adds a line for an epoch that the switch joined, one for an epoch that it finished, and one if no epoch is left
// for it.
fn tell_epochs(
    s: Place,
    before: u64,
    had_finished: bool,
    epoch: u64,
    switch: &Switch,
    lines: &mut Lines,
) -> Result<(), OutOfMemory>
    ensures { (old new : SwitchOf) → StandsFor switch.now new → before ≡ old.epoch → epoch ≡ new.epoch
        → had_finished ≡ is_some (finish_of old) → OnOk result (lines.new ≡ lines.old
        ++ join_lines s old new ++ no_epoch_lines s new ++ finish_lines s old new) }
{
    let joined = epoch != before;
    lines.push_if(joined, Line::Join { s, epoch })?;
    lines.push_if(switch.is_spent(), Line::Spent { s })?;
    if joined || !had_finished {
        return tell_finish(s, epoch, switch, lines);
    }
    Ok(())
}

// Updates `note`, which is what the switch showed before it handled what it had in hand, and adds a line for each
// port whose state changed. After a frame this can only be the port by which it came.
fn show(
    switch: &Switch,
    s: Place,
    hand: Hand,
    note: &mut Note,
    room: &mut Note,
    lines: &mut Lines,
) -> Result<(), OutOfMemory>
    requires port { IsHandPort hand }
    ensures note { (x : SwitchOf) (bytes : List ℕ) → StandsFor switch.now (handles hand bytes x).switch
        → note.old ≡ note_of x → note.new ≡ note_of (handles hand bytes x).switch }
    ensures told { (x : SwitchOf) (bytes : List ℕ) → StandsFor switch.now (handles hand bytes x).switch
        → note.old ≡ note_of x → OnOk result (lines.new ≡ lines.old
        ++ flat_map (port_line s (note_of x) (note_of (handles hand bytes x).switch)) externals) }
{
    match hand {
        Hand::Frame { port } => {
            let old = note.ports.get(port);
            switch.show_port(port, note);
            tell_port(s, Port(port), old, note.ports.get(port), lines)
        }
        Hand::Empty | Hand::Clock { now: _, samples: _ } => {
            switch.show(room);
            let told = tell_ports(s, note, room, lines);
            write_note(note, room);
            told
        }
    }
}

/// Makes the switch at `s` handle `hand`, and, if `note` is what it showed before, adds all lines of it except
/// those about frames, and updates `note` to what it now shows. `room` is scratch space for a note.
///
/// The caller must pass a working switch with fewer than 2^28 works, and a hand that is not empty.
///
/// # Errors
/// `OutOfMemory` if an allocation fails. The contents of `out`, `note` and `lines` are then unspecified.
pub fn handle(
    switch: &mut Switch,
    s: Place,
    hand: Hand,
    bytes: &[u8],
    out: &mut Out,
    note: &mut Note,
    room: &mut Note,
    lines: &mut Lines,
) -> Result<(), OutOfMemory>
    requires full { is_empty hand ≡ false }
    requires port { IsHandPort hand }
    requires works { switch.old.works < 2 ^ 28 }
    requires working { IsWorking switch.old }
    ensures start { switch.new.start ≡ switch.old.start }
    ensures works { switch.new.works ≡ switch.old.works + 1 }
    ensures handled { (x : SwitchOf) → StandsFor switch.old x
        → OnOk result (IsHandled x hand bytes.now switch.new out.new) }
    ensures note { (x : SwitchOf) → StandsFor switch.old x → note.old ≡ note_of x
        → OnOk result (note.new ≡ note_of (handles hand bytes.now x).switch) }
    ensures told { (x : SwitchOf) → StandsFor switch.old x → note.old ≡ note_of x
        → OnOk result (lines.new ≡ lines.old ++ hand_lines s hand bytes.now x (handles hand bytes.now x).switch) }
{
    let before = note.epoch;
    let had_finished = switch.finish().is_some();
    work(switch, hand, bytes, out)?;
    show(switch, s, hand, note, room, lines)?;
    tell_noise(s, hand, out.noframe, lines)?;
    tell_epochs(s, before, had_finished, note.epoch, switch, lines)?;
    Ok(())
}

/// Makes the switch at `s` handle what it has in hand, records the result in the book, and adds the lines.
pub(crate) fn handle_at(
    book: &mut Book,
    switch: &mut Switch,
    bytes: &[u8],
    s: Place,
    out: &mut Out,
    note: &mut Note,
    room: &mut Note,
    puts: &mut Vec<Option<Line>>,
    lines: &mut Lines,
) -> Result<(), OutOfMemory>
    requires script { IsScript book.old.script }
    requires lawful { is_lawful (fabric_of book.old) (events.Handle s) ≡ true }
    requires kept { IsSwitchKept (world_of book.old) s switch.old bytes.now }
    ensures came { OnOk result (book.new ≡ with_event (events.Handle s) book.old) }
    ensures kept { OnOk result (IsSwitchKept (world_of book.new) s switch.new bytes.now) }
    ensures told { OnOk result (lines.new ≡ lines.old ++ lines_of (world_of book.old) (events.Handle s)) }
    ensures lost { OnErr result (IsSameOrNext (events.Handle s) book.old book.new) }
{
    let station = book.fabric().station(s);
    let hand = station.hand();
    write_note(note, station.note());
    handle(switch, s, hand, bytes, out, note, room, lines)?;
    let frames = out.frames.as_slice();
    puts.resize(frames.len(), None)?;
    book.handle(s, frames, note, switch.is_spent(), puts.as_mut_slice());
    lines.push_all(puts)
}

/// Makes the switch at `s` load the table that is due, records it in the book, and adds the line.
pub(crate) fn load_at(
    book: &mut Book,
    switch: &mut Switch,
    s: Place,
    lines: &mut Lines,
) -> Result<(), OutOfMemory>
    requires script { IsScript book.old.script }
    requires lawful { is_lawful (fabric_of book.old) (events.Load s) ≡ true }
    requires kept { (buffer : List ℕ) × IsSwitchKept (world_of book.old) s switch.old buffer }
    ensures came { OnOk result (book.new ≡ with_event (events.Load s) book.old) }
    ensures kept { (buffer : List ℕ) → IsSwitchKept (world_of book.old) s switch.old buffer
        → OnOk result (IsSwitchKept (world_of book.new) s switch.new buffer) }
    ensures told { OnOk result (lines.new ≡ lines.old ++ lines_of (world_of book.old) (events.Load s)) }
    ensures lost { OnErr result (IsSameOrNext (events.Load s) book.old book.new) }
{
    let table = switch.load()?;
    let note = switch.note();
    let told = book.load_now(s, table, &note);
    lines.push(told)
}
