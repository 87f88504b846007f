//! The lines of an event.

ghost use Rattle.std.specs.Prelude.{◌≡◌, ◌==◌, ◌++◌, ◌∷◌, [], List, codes, slice_get, IfOk, IfSome, OnOk, Some};
ghost use Rattle.std.specs.Option.{option_map_or};
ghost use Rattle.std.specs.List.{list_any};
ghost use Rattle.std.specs.Fmt.{decimal};
ghost use Rattle.an_base.specs.declared.event.Event.{Event};
ghost use Rattle.net_script.specs.Scripts.{ScriptOf};
ghost use Rattle.row_text.specs.Names.{life_text};
ghost use Rattle.net_world.specs.Lines.{rows_after};
ghost use Rattle.net_world.specs.Histories.{fabric_of};
ghost use Rattle.fabric_book.specs.Nets.{history_of};
ghost use Rattle.report.specs.Retellings.{Comes, HasCome};
ghost use Rattle.report.specs.Events.{all_told, course_after, deliver_words, drop_word, ending_words, has_line, host_text};
ghost use Rattle.report.specs.Events.{line_of_end, loss_words, packet_words, peer_words, place_words, rows_in_use};
ghost use Rattle.report.specs.Events.{rows_text, spaced, state_word, switch_text, told_text, told_words};
ghost use Rattle.wire_set.specs.declared.side.Loss.TheVariants as loss;
ghost use Rattle.net_state.specs.declared.ending.Ending.TheVariants as ending;
ghost use Rattle.net_state.specs.declared.line.Line.TheVariants as told;

use crate::course::Course;
use crate::listener::Listener;
use an_base::event::Event;
use an_base::life::{End, Life};
use an_base::place::Place;
use an_base::port::{Port, PortState};
use an_base::row::Row;
use common_values::memory::OutOfMemory;
use fabric_book::net::Net;
use host_traffic::hop::DropCause;
use itoa::Buffer;
use net_script::script::Script;
use net_state::ending::Ending;
use net_state::line::Line;
use row_text::decimals::Decimals;
use row_text::piece::push_life;
use row_text::row::push_row_line;
use std::alloc::Global;
use wire_set::side::Loss;

// Appends a word after a space.
fn push_word(text: &mut Vec<u8>, word: &[u8]) -> Result<(), OutOfMemory>
    ensures { OnOk result (text.new.items ≡ text.old.items ++ spaced (word.now ∷ [])) }
{
    text.push(b' ')?;
    text.extend_from_slice(word)?;
    Ok(())
}

// Appends a number.
fn push_digits(text: &mut Vec<u8>, number: u64) -> Result<(), OutOfMemory>
    ensures { OnOk result (text.new.items ≡ text.old.items ++ decimal number) }
{
    let mut buffer = Buffer::new();
    text.extend_from_slice(buffer.format(number).as_bytes())?;
    Ok(())
}

// Appends a number after a space.
fn push_number(text: &mut Vec<u8>, number: u64) -> Result<(), OutOfMemory>
    ensures { OnOk result (text.new.items ≡ text.old.items ++ spaced (decimal number ∷ [])) }
{
    text.push(b' ')?;
    push_digits(text, number)
}

// Returns the word for the state of a port.
fn state_word(state: PortState) -> &'static str
    ensures { result.now ≡ state_word state }
{
    match state {
        PortState::Dead => "s.dead",
        PortState::Checking => "s.checking",
        PortState::Host => "s.host",
        PortState::Who => "s.switch.who",
        PortState::Loop => "s.switch.loop",
        PortState::Good => "s.switch.good",
    }
}

// Returns the word for why a packet was dropped.
fn drop_word(cause: DropCause) -> &'static str
    ensures { result.now ≡ drop_word cause }
{
    match cause {
        DropCause::NoPort => "no-port",
        DropCause::NoTable => "no-table",
        DropCause::NoHost => "no-host",
        DropCause::WrongHost => "wrong-host",
        DropCause::NoExit => "no-exit",
        DropCause::LinkDown => "link-down",
    }
}

// Appends that space ran out for a frame: the blocks that it needs, and those that were free.
fn push_room(text: &mut Vec<u8>, need: u32, free: u32) -> Result<(), OutOfMemory>
    ensures { OnOk result (text.new.items ≡ text.old.items ++ spaced (loss_words (loss.NoRoom need free))) }
{
    push_word(text, b"room")?;
    push_word(text, b"need")?;
    push_number(text, u64::from(need))?;
    push_word(text, b"free")?;
    push_number(text, u64::from(free))
}

// Appends the words for why a frame was lost.
fn push_loss(text: &mut Vec<u8>, cause: Loss) -> Result<(), OutOfMemory>
    ensures { OnOk result (text.new.items ≡ text.old.items ++ spaced (loss_words cause)) }
{
    match cause {
        Loss::Down => push_word(text, b"down"),
        Loss::Told => push_word(text, b"told"),
        Loss::NoRoom { need, free } => push_room(text, need, free),
    }
}

// Appends the words for why a packet was dropped.
fn push_drop(text: &mut Vec<u8>, cause: DropCause) -> Result<(), OutOfMemory>
    ensures { OnOk result (text.new.items ≡ text.old.items ++ spaced (codes "drop" ∷ drop_word cause ∷ [])) }
{
    push_word(text, b"drop")?;
    push_word(text, drop_word(cause).as_bytes())
}

// Reports whether an entry has rows.
fn has_rows(rows: &[Row], entry: u8) -> bool
    ensures { result ≡ list_any (λ row. row.entry == entry) rows.now }
{
    rows.iter().any(|row| row.entry == entry)
}

// Reports whether the rows of an entry have a line: entry 0 has one, and each other entry that has rows.
fn has_line(rows: &[Row], entry: u8) -> bool
    ensures { result ≡ has_line rows.now entry }
{
    entry == 0 || has_rows(rows, entry)
}

/// Returns the first line of a report.
pub(crate) fn first_line(alloc: Global) -> Result<Vec<u8>, OutOfMemory>
    ensures { IfOk result (λ text. text.items ≡ codes "report 1\n") }
{
    Ok(Vec::from_slice(alloc, b"report 1\n")?)
}

/// What a report is printed with: the script, and how far its network has come.
#[derive(Drop)]
pub(crate) struct Telling<'a> {
    alloc: Global,
    script: &'a Script,
    decimals: Decimals,
    course: Course,
}

impl<'a> Telling<'a> {
    /// Creates what a report starts with.
    pub(crate) fn begin(alloc: Global, script: &'a Script) -> Result<Self, OutOfMemory>
        ensures { IfOk result (λ telling. HasCome telling.script.now telling.course script.now []) }
    {
        Ok(Telling {
            alloc,
            script,
            decimals: Decimals::new(alloc)?,
            course: Course::begin(alloc, script)?,
        })
    }

    /// Returns how far the network has come.
    pub(crate) fn course(&self) -> &Course
        ensures { result.now ≡ self.now.course }
    {
        &self.course
    }

    /// Follows a lawful event.
    pub(crate) fn follow(&mut self, event: &Event)
        requires { (script : ScriptOf) × (history : List Event) × Comes script history event.now self.old.course }
        ensures script { self.new.script.now ≡ self.old.script.now }
        ensures course { (script : ScriptOf) (history : List Event) → Comes script history event.now self.old.course
            → self.new.course ≡ course_after script (history ++ event.now ∷ []) }
    {
        self.course.follow(event);
    }

    // Appends a life after a space.
    fn push_life(&self, text: &mut Vec<u8>, life: Life) -> Result<(), OutOfMemory>
        ensures { OnOk result (text.new.items
            ≡ text.old.items ++ spaced (life_text self.now.script.now life ∷ [])) }
    {
        text.push(b' ')?;
        push_life(self.alloc, text, self.script, life)?;
        Ok(())
    }

    // Returns the word for a life, if it is the first one of the switch at an index: the name there, which is found
    // without a search.
    fn first_word(&self, s: Place, life: Life) -> Option<&'a [u8]>
        ensures { IfSome result (λ word. word.now ≡ life_text self.now.script.now life) }
    {
        let wiring = self.script.wiring();
        if s.as_u8() >= wiring.count() || wiring.life(s) != life {
            return None;
        }
        Some(self.script.switch_names().get(usize::from(s)))
    }

    // Appends the life of the switch at an index after a space.
    fn push_life_at(&self, text: &mut Vec<u8>, s: Place, life: Life) -> Result<(), OutOfMemory>
        ensures { OnOk result (text.new.items
            ≡ text.old.items ++ spaced (life_text self.now.script.now life ∷ [])) }
    {
        match self.first_word(s, life) {
            None => self.push_life(text, life),
            Some(word) => push_word(text, word),
        }
    }

    // Appends a switch after a space.
    fn push_switch(&self, text: &mut Vec<u8>, s: Place) -> Result<(), OutOfMemory>
        ensures { OnOk result (text.new.items
            ≡ text.old.items ++ spaced (switch_text self.now.script.now self.now.course.lives s ∷ [])) }
    {
        match self.course.life(s) {
            None => push_word(text, b""),
            Some(life) => self.push_life_at(text, s, life),
        }
    }

    // Appends a switch, a word and a number, each after a space.
    fn push_at(
        &self,
        text: &mut Vec<u8>,
        s: Place,
        word: &[u8],
        number: u64,
    ) -> Result<(), OutOfMemory>
        ensures { OnOk result (text.new.items ≡ text.old.items
            ++ spaced (switch_text self.now.script.now self.now.course.lives s
            ∷ word.now ∷ decimal number ∷ [])) }
    {
        self.push_switch(text, s)?;
        push_word(text, word)?;
        push_number(text, number)
    }

    // Appends a word, a switch and a port, each after a space.
    fn push_end(
        &self,
        text: &mut Vec<u8>,
        word: &[u8],
        s: Place,
        port: Port,
    ) -> Result<(), OutOfMemory>
        ensures { OnOk result (text.new.items ≡ text.old.items
            ++ spaced (word.now
            ∷ switch_text self.now.script.now self.now.course.lives s ∷ decimal port ∷ [])) }
    {
        push_word(text, word)?;
        self.push_switch(text, s)?;
        push_number(text, u64::from(port))
    }

    // Appends a host after a space.
    fn push_host(&self, text: &mut Vec<u8>, host: u16) -> Result<(), OutOfMemory>
        ensures { OnOk result (text.new.items
            ≡ text.old.items ++ spaced (host_text self.now.script.now host ∷ [])) }
    {
        let names = self.script.names_of_hosts();
        if usize::from(host) >= names.len() {
            return push_word(text, b"");
        }
        push_word(text, names.get(usize::from(host)))
    }

    // Appends the other end of a link: its life and port.
    fn push_far(&self, text: &mut Vec<u8>, end: End) -> Result<(), OutOfMemory>
        ensures { OnOk result (text.new.items ≡ text.old.items
            ++ spaced (life_text self.now.script.now end.life ∷ decimal end.port ∷ [])) }
    {
        self.push_life(text, end.life)?;
        push_number(text, u64::from(end.port))
    }

    // Appends the other end of a good port.
    fn push_peer(
        &self,
        text: &mut Vec<u8>,
        state: PortState,
        peer: Option<End>,
    ) -> Result<(), OutOfMemory>
        ensures { OnOk result (text.new.items
            ≡ text.old.items ++ spaced (peer_words self.now.script.now state peer)) }
    {
        match (state, peer) {
            (PortState::Good, Some(end)) => self.push_far(text, end),
            _ => Ok(()),
        }
    }

    // Appends a packet, who sent it, and to whom.
    fn push_packet(
        &self,
        text: &mut Vec<u8>,
        packet: u32,
        host: u16,
        to: u16,
    ) -> Result<(), OutOfMemory>
        ensures { OnOk result (text.new.items ≡ text.old.items
            ++ spaced (codes "packet" ∷ decimal packet ∷ host_text self.now.script.now host
            ∷ codes "to" ∷ host_text self.now.script.now to ∷ [])) }
    {
        push_word(text, b"packet")?;
        push_number(text, u64::from(packet))?;
        self.push_host(text, host)?;
        push_word(text, b"to")?;
        self.push_host(text, to)
    }

    // Appends a packet, and where it was.
    fn push_move(&self, text: &mut Vec<u8>, packet: u32, s: Place) -> Result<(), OutOfMemory>
        ensures { OnOk result (text.new.items ≡ text.old.items
            ++ spaced (codes "move" ∷ decimal packet
            ∷ switch_text self.now.script.now self.now.course.lives s ∷ [])) }
    {
        push_word(text, b"move")?;
        push_number(text, u64::from(packet))?;
        self.push_switch(text, s)
    }

    // Appends that a packet was delivered to a host.
    fn push_delivered(&self, text: &mut Vec<u8>, host: u16) -> Result<(), OutOfMemory>
        ensures { OnOk result (text.new.items
            ≡ text.old.items ++ spaced (deliver_words self.now.script.now (Some host))) }
    {
        push_word(text, b"deliver")?;
        self.push_host(text, host)
    }

    // Appends the host to which a packet was delivered, if it was.
    fn push_delivery(&self, text: &mut Vec<u8>, host: Option<u16>) -> Result<(), OutOfMemory>
        ensures { OnOk result (text.new.items
            ≡ text.old.items ++ spaced (deliver_words self.now.script.now host)) }
    {
        match host {
            None => Ok(()),
            Some(host) => self.push_delivered(text, host),
        }
    }

    // Appends by which epoch, entry and exit a packet moved, and to which host it was delivered, if it was.
    fn push_hop(
        &self,
        text: &mut Vec<u8>,
        epoch: u64,
        entry: Port,
        exit: Port,
        host: Option<u16>,
    ) -> Result<(), OutOfMemory>
        ensures { OnOk result (text.new.items ≡ text.old.items
            ++ spaced (codes "epoch" ∷ decimal epoch ∷ codes "from" ∷ decimal entry
            ∷ codes "out" ∷ decimal exit ∷ deliver_words self.now.script.now host)) }
    {
        push_word(text, b"epoch")?;
        push_number(text, epoch)?;
        push_word(text, b"from")?;
        push_number(text, u64::from(entry))?;
        push_word(text, b"out")?;
        push_number(text, u64::from(exit))?;
        self.push_delivery(text, host)
    }

    // Appends the report of a port that changed its state.
    fn push_port(
        &self,
        text: &mut Vec<u8>,
        s: Place,
        port: Port,
        state: PortState,
        peer: Option<End>,
    ) -> Result<(), OutOfMemory>
        ensures { OnOk result (text.new.items ≡ text.old.items
            ++ spaced (told_words self.now.script.now self.now.course.lives (told.Port s port state peer))) }
    {
        self.push_at(text, s, b"port", u64::from(port))?;
        push_word(text, state_word(state).as_bytes())?;
        self.push_peer(text, state, peer)
    }

    // Appends the report of a switch whose epochs are spent.
    fn push_spent(&self, text: &mut Vec<u8>, s: Place) -> Result<(), OutOfMemory>
        ensures { OnOk result (text.new.items ≡ text.old.items
            ++ spaced (told_words self.now.script.now self.now.course.lives (told.Spent s))) }
    {
        self.push_switch(text, s)?;
        push_word(text, b"spent")
    }

    // Appends the report of a switch that finished an epoch.
    fn push_finish(
        &self,
        text: &mut Vec<u8>,
        s: Place,
        epoch: u64,
        root: Life,
        members: u8,
    ) -> Result<(), OutOfMemory>
        ensures { OnOk result (text.new.items ≡ text.old.items
            ++ spaced (told_words self.now.script.now self.now.course.lives
            (told.Finish s epoch root members))) }
    {
        self.push_at(text, s, b"finish", epoch)?;
        push_word(text, b"root")?;
        self.push_life(text, root)?;
        push_word(text, b"members")?;
        push_number(text, u64::from(members))
    }

    // Appends the report of a frame that was lost.
    fn push_lost(
        &self,
        text: &mut Vec<u8>,
        s: Place,
        port: Port,
        why: Loss,
    ) -> Result<(), OutOfMemory>
        ensures { OnOk result (text.new.items ≡ text.old.items
            ++ spaced (told_words self.now.script.now self.now.course.lives (told.Lost s port why))) }
    {
        self.push_end(text, b"lost", s, port)?;
        push_loss(text, why)
    }

    // Appends the report of a table that was loaded, without its rows.
    fn push_load(
        &self,
        text: &mut Vec<u8>,
        s: Place,
        epoch: u64,
        number: u8,
    ) -> Result<(), OutOfMemory>
        ensures { OnOk result (text.new.items ≡ text.old.items
            ++ spaced (told_words self.now.script.now self.now.course.lives (told.Load s epoch number))) }
    {
        self.push_at(text, s, b"load", epoch)?;
        push_word(text, b"number")?;
        push_number(text, u64::from(number))
    }

    // Appends the report of a link that went down.
    fn push_cut(
        &self,
        text: &mut Vec<u8>,
        s: Place,
        port: Port,
        dropped: u32,
    ) -> Result<(), OutOfMemory>
        ensures { OnOk result (text.new.items ≡ text.old.items
            ++ spaced (told_words self.now.script.now self.now.course.lives (told.Cut s port dropped))) }
    {
        self.push_end(text, b"fail", s, port)?;
        push_word(text, b"dropped")?;
        push_number(text, u64::from(dropped))
    }

    // Appends the report of a switch that began its next life.
    fn push_restarted(&self, text: &mut Vec<u8>, s: Place) -> Result<(), OutOfMemory>
        ensures { OnOk result (text.new.items ≡ text.old.items
            ++ spaced (told_words self.now.script.now self.now.course.lives (told.Restarted s))) }
    {
        push_word(text, b"restart")?;
        self.push_switch(text, s)
    }

    // Appends the report of a packet that was sent.
    fn push_sent(
        &self,
        text: &mut Vec<u8>,
        packet: u32,
        host: u16,
        to: u16,
        address: u16,
    ) -> Result<(), OutOfMemory>
        ensures { OnOk result (text.new.items ≡ text.old.items
            ++ spaced (told_words self.now.script.now self.now.course.lives
            (told.Packet packet host to address))) }
    {
        self.push_packet(text, packet, host, to)?;
        push_word(text, b"address")?;
        push_number(text, u64::from(address))
    }

    // Appends the report of a packet that was not sent.
    fn push_unsent(
        &self,
        text: &mut Vec<u8>,
        packet: u32,
        host: u16,
        to: u16,
        why: DropCause,
    ) -> Result<(), OutOfMemory>
        ensures { OnOk result (text.new.items ≡ text.old.items
            ++ spaced (told_words self.now.script.now self.now.course.lives (told.Unsent packet host to why))) }
    {
        self.push_packet(text, packet, host, to)?;
        push_drop(text, why)
    }

    // Appends the report of a packet that was dropped on its way.
    fn push_fell(
        &self,
        text: &mut Vec<u8>,
        packet: u32,
        s: Place,
        why: DropCause,
    ) -> Result<(), OutOfMemory>
        ensures { OnOk result (text.new.items ≡ text.old.items
            ++ spaced (told_words self.now.script.now self.now.course.lives (told.Fell packet s why))) }
    {
        self.push_move(text, packet, s)?;
        push_drop(text, why)
    }

    // Appends the words that report an event of a packet.
    fn push_told_of_packet(&self, text: &mut Vec<u8>, line: &Line) -> Result<(), OutOfMemory>
        ensures { OnOk result (text.new.items ≡ text.old.items
            ++ spaced (packet_words self.now.script.now self.now.course.lives line.now)) }
    {
        match *line {
            Line::Packet {
                packet,
                host,
                to,
                address,
            } => self.push_sent(text, packet, host, to, address),
            Line::Unsent {
                packet,
                host,
                to,
                cause,
            } => self.push_unsent(text, packet, host, to, cause),
            Line::Moved {
                packet,
                s,
                epoch,
                entry,
                exit,
                host,
            } => {
                self.push_move(text, packet, s)?;
                self.push_hop(text, epoch, entry, exit, host)
            }
            Line::Fell { packet, s, cause } => self.push_fell(text, packet, s, cause),
            _ => Ok(()),
        }
    }

    // Appends the words that report an event.
    fn push_told(&self, text: &mut Vec<u8>, line: &Line) -> Result<(), OutOfMemory>
        ensures { OnOk result (text.new.items ≡ text.old.items
            ++ spaced (told_words self.now.script.now self.now.course.lives line.now)) }
    {
        match *line {
            Line::Port {
                s,
                port,
                state,
                peer,
            } => self.push_port(text, s, port, state, peer),
            Line::NoFrame { s, port } => self.push_at(text, s, b"noframe", u64::from(port)),
            Line::Join { s, epoch } => self.push_at(text, s, b"join", epoch),
            Line::Spent { s } => self.push_spent(text, s),
            Line::Finish {
                s,
                epoch,
                root,
                members,
            } => self.push_finish(text, s, epoch, root, members),
            Line::Lost { s, port, cause } => self.push_lost(text, s, port, cause),
            Line::Load { s, epoch, number } => self.push_load(text, s, epoch, number),
            Line::Cut { s, port, dropped } => self.push_cut(text, s, port, dropped),
            Line::Mended { s, port } => self.push_end(text, b"repair", s, port),
            Line::Restarted { s } => self.push_restarted(text, s),
            Line::Packet { .. } | Line::Unsent { .. } | Line::Moved { .. } | Line::Fell { .. } => {
                self.push_told_of_packet(text, line)
            }
        }
    }

    // Appends the rows of a table of a life.
    fn push_table(&self, text: &mut Vec<u8>, life: Life, rows: &[Row]) -> Result<(), OutOfMemory>
        ensures { OnOk result (text.new.items
            ≡ text.old.items ++ rows_in_use self.now.script.now life rows.now) }
    {
        'entries: for entry in 0..13u8 {
            if has_line(rows, entry) {
                push_row_line(
                    self.alloc,
                    text,
                    self.script,
                    &self.decimals,
                    life,
                    rows,
                    entry,
                )?;
            }
        }
        Ok(())
    }

    // Appends these rows of the table that a switch has in use.
    fn push_used(&self, text: &mut Vec<u8>, s: Place, rows: &[Row]) -> Result<(), OutOfMemory>
        ensures { OnOk result (text.new.items ≡ text.old.items
            ++ option_map_or (λ life. rows_in_use self.now.script.now life rows.now)
            (slice_get self.now.course.lives s) []) }
    {
        let Some(life) = self.course.life(s) else {
            return Ok(());
        };
        self.push_table(text, life, rows)
    }

    // Appends the rows that follow a line.
    fn push_rows(&self, text: &mut Vec<u8>, line: &Line, rows: &[Row]) -> Result<(), OutOfMemory>
        ensures { OnOk result (text.new.items ≡ text.old.items
            ++ rows_text self.now.script.now self.now.course.lives rows.now line.now) }
    {
        match *line {
            Line::Load { s, .. } => self.push_used(text, s, rows),
            _ => Ok(()),
        }
    }

    /// Appends a line, with the rows after it.
    pub(crate) fn push_line(
        &self,
        text: &mut Vec<u8>,
        line: &Line,
        rows: &[Row],
    ) -> Result<(), OutOfMemory>
        ensures { OnOk result (text.new.items ≡ text.old.items
            ++ told_text self.now.script.now self.now.course rows.now line.now) }
    {
        push_digits(text, u64::from(self.course.events()))?;
        self.push_told(text, line)?;
        text.push(b'\n')?;
        self.push_rows(text, line, rows)
    }

    /// Appends the lines of an event.
    pub(crate) fn push_lines(
        &self,
        text: &mut Vec<u8>,
        lines: &[Line],
        rows: &[Row],
    ) -> Result<(), OutOfMemory>
        ensures { OnOk result (text.new.items ≡ text.old.items
            ++ all_told self.now.script.now self.now.course rows.now lines.now) }
    {
        'lines: for line in lines {
            self.push_line(text, line, rows)?;
        }
        Ok(())
    }

    // Appends that the epochs of a life are spent.
    fn push_no_epoch(&self, text: &mut Vec<u8>, life: Life) -> Result<(), OutOfMemory>
        ensures { OnOk result (text.new.items
            ≡ text.old.items ++ spaced (ending_words self.now.script.now (ending.Spent life))) }
    {
        push_word(text, b"spent")?;
        self.push_life(text, life)
    }

    // Appends the words for an end.
    fn push_ending(&self, text: &mut Vec<u8>, end: &Ending) -> Result<(), OutOfMemory>
        ensures { OnOk result (text.new.items
            ≡ text.old.items ++ spaced (ending_words self.now.script.now end.now)) }
    {
        match *end {
            Ending::Settled => push_word(text, b"settled"),
            Ending::Unsettled => push_word(text, b"unsettled"),
            Ending::Full => push_word(text, b"full"),
            Ending::Spent(life) => self.push_no_epoch(text, life),
        }
    }

    // Appends the tick, and the number of events.
    fn push_place(&self, text: &mut Vec<u8>) -> Result<(), OutOfMemory>
        ensures { OnOk result (text.new.items ≡ text.old.items ++ spaced (place_words self.now.course)) }
    {
        push_word(text, b"tick")?;
        push_number(text, u64::from(self.course.tick()))?;
        push_word(text, b"events")?;
        push_number(text, u64::from(self.course.events()))
    }

    /// Appends the last line.
    pub(crate) fn push_end_line(&self, text: &mut Vec<u8>, end: &Ending) -> Result<(), OutOfMemory>
        ensures { OnOk result (text.new.items ≡ text.old.items
            ++ line_of_end self.now.script.now self.now.course end.now) }
    {
        text.extend_from_slice(b"end")?;
        self.push_ending(text, end)?;
        self.push_place(text)?;
        text.push(b'\n')?;
        Ok(())
    }
}

// Returns the rows after an event: those of the table in use after a load, and none after others.
fn rows_after<'a>(net: &'a Net, event: &Event) -> &'a [Row]
    ensures { result.now ≡ rows_after (fabric_of (history_of net.now)) event.now }
{
    let Event::Load { s } = *event else {
        return &[];
    };
    match net.table(s) {
        Some(table) => table.as_slice(),
        None => &[],
    }
}

impl Listener for Telling<'_> {
    ghost use Rattle.std.specs.Prelude.{codes};
    ghost use Rattle.net_world.specs.World.{world_after};
    ghost use Rattle.report.specs.Events.{course_after, event_text, line_of_end};
    ghost use Rattle.report.specs.Retellings.{HasCome};

    ghost first = { codes "report 1\n" };

    ghost told = { λ script moment. event_text script (world_after script moment.before) moment.event };

    ghost last = { λ script history end. line_of_end script (course_after script history) end };

    ghost stands = { λ t script history. HasCome t.script.now t.course script history };

    fn hear(
        &mut self,
        net: &Net,
        event: &Event,
        lines: &[Line],
        text: &mut Vec<u8>,
    ) -> Result<(), OutOfMemory> {
        self.follow(event);
        let rows = rows_after(net, event);
        self.push_lines(text, lines, rows)
    }

    fn finish(&self, _net: &Net, end: &Ending, text: &mut Vec<u8>) -> Result<(), OutOfMemory> {
        self.push_end_line(text, end)
    }
}
