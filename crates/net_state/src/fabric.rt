//! The fabric of a network: all of its state except what only its switches know.

ghost use Rattle.std.specs.Prelude.{◌≡◌, ◌==◌, ◌+◌, ◌-◌, ◌&&◌, ◌<◌, ◌≤◌, ◌^◌, ◌++◌, length, not, true, false, Some, All, AllPairs, IfOk, option_copied, option_to_list, [], ◌∷◌};
ghost use Rattle.std.specs.List.{list_all};
ghost use Rattle.std.specs.Option.{option_map};
ghost use Rattle.an_base.specs.declared.event.Event.TheVariants as events;
ghost use Rattle.net_graph.specs.Wires.{IsLink};
ghost use Rattle.net_script.specs.Commands.{is_restart};
ghost use Rattle.net_script.specs.Scripts.{IsScript};
ghost use Rattle.wire_set.specs.WireState.{hand_of};
ghost use Rattle.switch_core.specs.Bytes.{IsFrameOut};
ghost use Rattle.host_traffic.specs.Packets.{first_packet, packet_of};
ghost use Rattle.net_state.specs.Fabric.{are_wires_empty, clock_due_at, count, due_command, end_shown, full_hands};
ghost use Rattle.net_state.specs.Fabric.{held_bytes, host_at, host_on, is_full_at, is_switch, is_up, port_shown, room};
ghost use Rattle.net_state.specs.Fabric.{samples_of, side_of_port, station, switch_behind, table_at};
ghost use Rattle.net_state.specs.Agree.{agrees, are_peers, ending_of, first_spent, host_agrees, is_good_to, is_idle};
ghost use Rattle.net_state.specs.Agree.{is_settled, is_unsettled, link_agrees};
ghost use Rattle.net_state.specs.Lawful.{is_barred, is_command, is_lawful, is_paced, is_ready, is_tick_due};
ghost use Rattle.net_state.specs.Effects.{address_for, admitted_as, after_clock, after_command, after_load, after_move};
ghost use Rattle.net_state.specs.Effects.{after_restart, after_send, after_take, after_tick, emptied};
ghost use Rattle.net_state.specs.Effects.{hop_of, put_out, released, shows};
ghost use Rattle.net_state.specs.Effects.{ShowsOnly};
ghost use Rattle.net_state.specs.Lines.{command_lines, lost_line, move_lines, send_line, take_lines};
ghost use Rattle.net_state.specs.declared.line.Line.TheVariants as line;
ghost use Rattle.net_state.specs.Fits.{HoldsFor};
ghost use Rattle.net_state.specs.Choices.{command_or_move, next_drive, next_port, next_work};
ghost use Rattle.net_state.specs.Starts.{begun_fabric, next_life_at, next_note_at};

use crate::ending::Ending;
use crate::hand::Hand;
use crate::line::Line;
use crate::past::Past;
use crate::plan::Plan;
use crate::ports::{
    is_dead, is_external, is_good, is_host, is_loop, port_above, samples, switch_behind,
};
use crate::seen::Seen;
use crate::station::{Station, started_note};
use crate::stations::Stations;
use crate::telling::{copy_line, hop_line, loss_line, sent_line};
use crate::work::{Drive, Why, Work};
use an_base::event::Event;
use an_base::life::{End, Life};
use an_base::place::Place;
use an_base::port::{Note, Port, PortView, Sample};
use common_values::memory::OutOfMemory;
use frame_region::buffer::FrameBuf;
use host_traffic::hop::{DropCause, Hop};
use host_traffic::traffic::Traffic;
use host_traffic::view::HopView;
use net_graph::wiring::{HostOn, LinkAt};
use net_script::script::Script;
use std::alloc::Global;
use std::marker::Model;
use switch_core::out::FrameOut;
use switch_core::switch::TableFor;
use table_build::table::Table;
use wire_set::side::is_link;
use wire_set::wires::WireSet;

// Bytes that do not form a frame.
const NOISE: [u8; 64] = [0; 64];

/// The fabric of a network: its script, the clock, the links and wires with the frames on them and held by
/// switches, the visible state of each switch (its station), the packets in flight, and the number of
/// commands that are done.
///
/// Switches and hosts are known by their index in the script, from 0; external ports are 1 to 12.
#[derive(Drop)]
pub struct Fabric {
    plan: Plan,
    wires: WireSet,
    stations: Stations,
    traffic: Traffic,
    sent: u32,
    past: Past,
}

impl Model for Fabric {
    ghost use Rattle.net_state.specs.Fabric.{FabricOf};
    ghost use Rattle.net_state.specs.Kept.{IsKept, fabric_of_all};

    ghost Value = { FabricOf };

    ghost view = { λ f. fabric_of_all f.plan f.wires f.stations f.traffic f.sent f.past };

    ghost invariant = { λ f.
        IsKept (fabric_of_all f.plan f.wires f.stations f.traffic f.sent f.past) f.traffic };
}

// Drops from the wires what a switch holds.
fn give_up(wires: &mut WireSet, s: Place, hand: Hand)
    requires { HoldsFor hand (hand_of wires.old s) }
    ensures { wires.new ≡ released hand s wires.old }
{
    if let Hand::Frame { port: _ } = hand {
        wires.release(s);
    }
}

// Adds a packet, if it has an address. Its number must be above all others.
fn admit(
    traffic: &mut Traffic,
    packet: u32,
    from: HostOn,
    to: HostOn,
    address: Result<u16, DropCause>,
)
    requires room { length traffic.old.packets < traffic.old.most }
    requires above { All (λ other. other.packet < packet) traffic.old.packets }
    requires address { IfOk address (λ address. address < 2 ^ 12) }
    ensures { traffic.new ≡ record traffic.old {
      packets = traffic.old.packets ++ admitted_as packet from to address;
    } }
{
    if let Ok(address) = address {
        traffic.send(packet, from.s, from.port, address, to.uid);
    }
}

impl Fabric {
    /// Creates the fabric that a network of this script starts with, and allocates all its memory.
    ///
    /// All links are up, the wires are empty, and the first clock event of each switch is due.
    ///
    /// # Errors
    /// `OutOfMemory` if an allocation fails.
    pub fn begin(alloc: Global, script: &Script) -> Result<Self, OutOfMemory>
        ensures { IfOk result (λ fabric. fabric ≡ begun_fabric script.now) }
    {
        let wiring = script.wiring();
        Ok(Fabric {
            plan: Plan::of(alloc, script)?,
            wires: WireSet::begin(alloc, wiring, script.limits().blocks)?,
            stations: Stations::begin(alloc, wiring, script.epoch())?,
            traffic: Traffic::begin(alloc, script.commands().len() as u32)?,
            sent: 0,
            past: Past::begin(),
        })
    }

    // ---- What is read of it ---------------------------------------------------------------------------

    /// Returns the number of switches, 0 to 126.
    pub fn count(&self) -> u8
        ensures { result ≡ count self.now }
    {
        self.plan.count()
    }

    /// Returns the current tick, 0 to 1,000,000.
    pub fn now(&self) -> u32
        ensures { result ≡ self.now.tick }
    {
        self.stations.now()
    }

    /// Returns the number of events so far, 0 to 16,000,000.
    pub fn events(&self) -> u32
        ensures events { result ≡ self.now.events }
        ensures most { result ≤ 16000000 }
        ensures kept { IsScript self.now.script }
    {
        self.past.events
    }

    /// Returns the station of switch `s`, which must exist.
    pub fn station(&self, s: Place) -> &Station
        requires { s < count self.now }
        ensures { result.now ≡ station self.now s }
    {
        self.stations.get(s)
    }

    /// Returns the table in use at switch `s`; `None` if there is no such switch.
    pub fn table(&self, s: Place) -> Option<&Table>
        ensures { option_copied result ≡ table_at self.now s }
    {
        self.stations.table(s)
    }

    /// Returns the host at a port, by its index and identifier; `None` if the port does not show a host or its
    /// link is down.
    pub fn host(&self, s: Place, port: Port) -> Option<(u16, u64)>
        ensures { result ≡ host_at self.now s port }
    {
        self.seen().host(s, port)
    }

    /// Reports whether the clock event of switch `s`, which must exist, is due.
    pub fn is_clock_due(&self, s: Place) -> bool
        requires { s < count self.now }
        ensures { result ≡ clock_due_at self.now s }
    {
        self.stations.is_clock_due(s)
    }

    /// Returns the number of events that there is still room for, not counting those that handle what switches
    /// hold.
    pub fn room(&self) -> u32
        ensures { result ≡ room self.now }
    {
        self.plan.limits().events - self.past.events - self.stations.full()
    }

    /// Returns the event of the next command, if it is due.
    pub fn due_command(&self) -> Option<Event>
        ensures { result ≡ due_command self.now }
    {
        let command = self.plan.commands().get(self.past.done)?;
        if command.time <= self.now() {
            Some(command.event)
        } else {
            None
        }
    }

    /// Returns the lowest packet number in flight; `None` if and only if no packet is in flight.
    pub fn first_packet(&self) -> Option<u32>
        ensures first { result ≡ first_packet self.now.packets }
        ensures rising { AllPairs (λ one other. one.packet < other.packet) self.now.packets }
    {
        self.traffic.first()
    }

    // The switch and port at the far end of a link of two switch ports, up or down. It returns a value for all
    // arguments.
    fn far_switch(&self, s: Place, port: Port) -> Option<(Place, Port)>
        ensures { result ≡ switch_behind (side_of_port self.now s port).far }
    {
        switch_behind(self.wires.side(s, port).far)
    }

    // The part of the fabric that a hop reads.
    fn seen(&self) -> Seen<'_>
        ensures plan { result.plan.now ≡ self.now.script }
        ensures wires { result.wires.now ≡ self.now.wires }
        ensures stations { result.stations.now ≡ record { tick = self.now.tick; items = self.now.stations } }
    {
        Seen {
            plan: &self.plan,
            wires: &self.wires,
            stations: &self.stations,
        }
    }

    // Reports whether the link of a port is up, if there is one.
    fn is_up(&self, s: Place, port: Port) -> bool
        ensures { result ≡ is_up self.now s port }
    {
        self.wires.side(s, port).is_up
    }

    // What a switch shows of a port.
    fn port(&self, s: Place, port: Port) -> PortView
        ensures { result ≡ port_shown self.now s port }
    {
        self.stations.port(s, port)
    }

    // ---- Ends -------------------------------------------------------------------------------------------

    // Reports whether a switch shows that a port is good, and has `peer` at its far end.
    fn is_good_to(&self, peer: End, s: Place, port: Port) -> bool
        ensures { result ≡ is_good_to peer (port_shown self.now s port) }
    {
        let view = self.port(s, port);
        is_good(view.state) && view.peer == Some(peer)
    }

    // The end of the link at a port of a switch.
    fn end_at(&self, s: Place, port: Port) -> End
        requires within { s < count self.now }
        requires least { 1 ≤ port }
        requires most { port ≤ 12 }
        ensures { result ≡ end_shown self.now s port }
    {
        End::new(self.station(s).note().life, port.as_u8())
    }

    // Reports whether each end of a link is good, and names the current life and port of the other.
    fn are_peers(&self, link: &LinkAt) -> bool
        requires { IsLink (count self.now) link.now }
        ensures { result ≡ are_peers self.now link.now }
    {
        self.is_good_to(self.end_at(link.b, link.b_port), link.a, link.a_port)
            && self.is_good_to(self.end_at(link.a, link.a_port), link.b, link.b_port)
    }

    // Reports whether a link and the states at its ends agree.
    fn link_agrees(&self, link: &LinkAt) -> bool
        requires { IsLink (count self.now) link.now }
        ensures { result ≡ link_agrees self.now link.now }
    {
        let one = self.port(link.a, link.a_port).state;
        let other = self.port(link.b, link.b_port).state;
        if !self.is_up(link.a, link.a_port) {
            is_dead(one) && is_dead(other)
        } else if link.a == link.b {
            is_loop(one) && is_loop(other)
        } else {
            self.are_peers(link)
        }
    }

    // Reports whether the link of a host agrees with the state of its port.
    fn host_agrees(&self, host: &HostOn) -> bool
        ensures { result ≡ host_agrees self.now host.now }
    {
        let state = self.port(host.s, host.port).state;
        if self.is_up(host.s, host.port) {
            is_host(state)
        } else {
            is_dead(state)
        }
    }

    // Reports whether each link of switch ports agrees with the states at its ends.
    fn do_links_agree(&self) -> bool
        ensures { result ≡ list_all (link_agrees self.now) self.now.script.wires.links }
    {
        'links: for link in self.plan.links() {
            if !self.link_agrees(link) {
                return false;
            }
        }
        true
    }

    // Reports whether each link of a host agrees with the state of its port.
    fn do_hosts_agree(&self) -> bool
        ensures { result ≡ list_all (host_agrees self.now) self.now.script.wires.hosts }
    {
        self.plan.hosts().iter().all(|host| self.host_agrees(host))
    }

    // Reports whether all links and the states at their ends agree.
    fn agrees(&self) -> bool
        ensures { result ≡ agrees self.now }
    {
        self.do_links_agree() && self.do_hosts_agree()
    }

    // Reports whether the wires are empty. If no switch holds anything, they are if and only if all blocks are free.
    fn are_wires_empty(&self) -> bool
        requires { full_hands self.now ≡ 0 }
        ensures { result ≡ are_wires_empty self.now }
    {
        self.wires.free() == self.plan.limits().blocks
    }

    // Reports whether nothing is left to do except to wait for a command or the next tick.
    fn is_idle(&self) -> bool
        requires { full_hands self.now ≡ 0 }
        ensures { result ≡ is_idle self.now }
    {
        self.traffic.is_empty()
            && !self.stations.is_some_clock_due()
            && !self.stations.is_some_load_due()
            && self.are_wires_empty()
    }

    // Reports whether all commands are done, the network is quiet, and it agrees.
    fn is_settled(&self) -> bool
        requires { full_hands self.now ≡ 0 }
        ensures { result ≡ is_settled self.now }
    {
        self.past.done >= self.plan.commands().len()
            && self.is_idle()
            && !self.stations.is_some_unacked()
            && self.agrees()
    }

    // Reports whether the last tick has come, and nothing is left to do before another one.
    fn is_unsettled(&self) -> bool
        requires { full_hands self.now ≡ 0 }
        ensures { result ≡ is_unsettled self.now }
    {
        self.now() == self.plan.limits().ticks && self.due_command().is_none() && self.is_idle()
    }

    // The life of the first switch that is spent.
    fn first_spent(&self) -> Option<Life>
        ensures { result ≡ first_spent self.now }
    {
        let spent = self
            .stations
            .as_slice()
            .iter()
            .find(|station| station.is_spent())?;
        Some(spent.note().life)
    }

    /// Returns the ending of the history, if it has ended.
    #[tactic(auto, using(crate::proofs::QueryLemmas::ending_is))]
    pub fn end(&self) -> Option<Ending>
        ensures { result ≡ ending_of self.now }
    {
        if self.stations.is_some_full() {
            None
        } else if self.stations.is_some_spent() {
            self.first_spent().map(|life| Ending::Spent(life))
        } else if self.is_settled() {
            Some(Ending::Settled)
        } else if self.room() < 2 {
            Some(Ending::Full)
        } else if self.is_unsettled() {
            Some(Ending::Unsettled)
        } else {
            None
        }
    }

    /// Reports whether no switch holds anything, all commands are done, the network is quiet, and it agrees.
    pub fn settled(&self) -> bool
        ensures { result ≡ (full_hands self.now == 0 && is_settled self.now) }
    {
        self.stations.full() == 0 && self.is_settled()
    }

    // ---- Which events may come next --------------------------------------------------------------------

    /// Reports whether only what switches hold can still be handled: a switch is spent, or there is no room for
    /// an event and its consequences.
    pub fn is_barred(&self) -> bool
        ensures { result ≡ is_barred self.now }
    {
        self.stations.is_some_spent() || self.room() < 2
    }

    // Reports whether enough events came since the last tick, if the script sets a pace.
    fn is_paced(&self) -> bool
        ensures { result ≡ is_paced self.now.script.pace self.now.since }
    {
        match self.plan.pace() {
            Some(pace) => pace <= self.past.since,
            None => false,
        }
    }

    // Reports whether a tick is lawful.
    fn is_tick_due(&self) -> bool
        ensures { result ≡ is_tick_due self.now }
    {
        if self.due_command().is_some()
            || !self.traffic.is_empty()
            || self.stations.is_some_full()
        {
            return false;
        }
        if self.stations.is_some_clock_due() || self.now() >= self.plan.limits().ticks {
            return false;
        }
        (self.are_wires_empty() && !self.stations.is_some_load_due()) || self.is_paced()
    }

    // Reports whether the event is that of the next command, which is due.
    fn is_command(&self, event: Event) -> bool
        ensures { result ≡ is_command self.now event }
    {
        match self.due_command() {
            Some(due) => due == event,
            None => false,
        }
    }

    // Reports whether this is the index of a switch that holds nothing.
    fn is_free(&self, s: Place) -> bool
        ensures { result ≡ (is_switch self.now s && not (is_full_at self.now s)) }
    {
        s.as_u8() < self.count() && !self.station(s).is_full()
    }

    // Reports whether a frame that has come on a port can be taken.
    fn may_take(&self, s: Place, port: Port) -> bool
        ensures { result ≡ is_ready self.now (events.Take s port) }
    {
        self.is_free(s)
            && is_external(port)
            && !self.is_clock_due(s)
            && self.wires.has_frame(s, port)
    }

    // Reports whether the further conditions of the event hold.
    fn is_ready(&self, event: Event) -> bool
        ensures { result ≡ is_ready self.now event }
    {
        match event {
            Event::Tick => self.is_tick_due(),
            Event::Clock { s } => self.is_free(s) && self.is_clock_due(s),
            Event::Take { s, port } => self.may_take(s, port),
            Event::Handle { s } => s.as_u8() < self.count() && self.station(s).is_full(),
            Event::Load { s } => self.is_free(s) && self.station(s).note().load_due,
            Event::Move { packet } => self.traffic.place(packet).is_some(),
            Event::Restart { s } => self.is_command(event) && self.is_free(s),
            _ => self.is_command(event),
        }
    }

    /// Reports whether `event`, whatever its fields, is lawful next.
    #[tactic(auto, unfolding(crate::specs::Lawful::is_lawful))]
    pub fn is_lawful(&self, event: &Event) -> bool
        ensures { result ≡ is_lawful self.now event.now }
    {
        let handles = matches!(*event, Event::Handle { s: _ });
        (handles || !self.is_barred()) && self.is_ready(*event) && self.end().is_none()
    }

    // ---- What comes next ---------------------------------------------------------------------------------

    // The life after the current one of a switch.
    fn next_life(&self, s: Place) -> Life
        requires within { s < count self.now }
        requires boot { (station self.now s).note.life.boot < 2 ^ 32 - 1 }
        ensures { result ≡ next_life_at self.now s }
    {
        Life::new(self.plan.uid(s), self.station(s).note().life.boot() + 1)
    }

    // The port that a switch takes from next, after `last`.
    fn next_port(&self, s: Place, last: Port) -> Option<Port>
        requires { s < count self.now }
        ensures { result ≡ next_port self.now s last }
    {
        match port_above(&self.wires, s, last) {
            Some(port) => Some(port),
            None => port_above(&self.wires, s, Port(0)),
        }
    }

    /// Returns what switch `s` does next when it holds nothing; `last` is the port that it last took a frame
    /// from, or 0.
    ///
    /// The switch must exist, and its boot must be below 2^32 - 1.
    pub fn work(&self, s: Place, last: Port) -> Work
        requires within { s < count self.now }
        requires boot { (station self.now s).note.life.boot < 2 ^ 32 - 1 }
        ensures { result ≡ next_work self.now s last }
    {
        if self.stations.is_some_spent() {
            return Work::Nothing { why: Why::Spent };
        }
        if self.room() < 2 {
            return Work::Nothing { why: Why::Full };
        }
        if self.is_command(Event::Restart { s }) {
            return Work::Restart {
                life: self.next_life(s),
            };
        }
        if self.is_clock_due(s) {
            return Work::Clock {
                now: self.now(),
                samples: self.samples(s),
            };
        }
        match self.next_port(s, last) {
            Some(port) => Work::Frame { port },
            None => Work::Nothing { why: Why::Idle },
        }
    }

    // The next action of the driver, if nothing bars it.
    fn drive_on(&self) -> Drive
        ensures { result ≡ command_or_move (due_command self.now) self.now }
    {
        if let Some(event) = self.due_command() {
            if !matches!(event, Event::Restart { s: _ }) {
                return Drive::Did(event);
            }
        }
        match self.first_packet() {
            Some(packet) => Drive::Did(Event::Move { packet }),
            None if self.is_tick_due() => Drive::Did(Event::Tick),
            None => Drive::Waits,
        }
    }

    /// Returns the next action of the driver.
    pub fn drive(&self) -> Drive
        ensures { result ≡ next_drive self.now }
    {
        match self.end() {
            Some(end) => Drive::Ended(end),
            None if self.is_barred() => Drive::Waits,
            None => self.drive_on(),
        }
    }

    // ---- Events ------------------------------------------------------------------------------------------

    /// Advances the clock of the network by one tick, which must be lawful.
    pub fn tick(&mut self)
        requires { is_lawful self.old events.Tick ≡ true }
        ensures { self.new ≡ after_tick self.old }
    {
        self.stations.tick();
        self.past.tick();
    }

    /// Returns what the hardware now says of the ports of switch `s`, in ascending order of port, for all
    /// values of `s`.
    pub fn samples(&self, s: Place) -> [Sample; 12]
        ensures { result ≡ samples_of self.now s }
    {
        samples(&self.wires, s)
    }

    /// Lets switch `s` take its clock event, with the current `samples` of its ports. No line reports it.
    ///
    /// The event must be lawful.
    pub fn clock(&mut self, s: Place, samples: [Sample; 12])
        requires lawful { is_lawful self.old (events.Clock s) ≡ true }
        requires samples { samples ≡ samples_of self.old s }
        ensures { self.new ≡ after_clock s self.old }
    {
        self.stations.take_clock(s, samples);
        self.past.event();
    }

    /// Lets switch `s` take a frame from the wire into `port`, and copies its bytes to `out`.
    ///
    /// Returns the line that reports the loss of a copy of the frame, if that was lost. The event must be
    /// lawful.
    pub fn take(&mut self, s: Place, port: Port, out: &mut FrameBuf) -> Option<Line>
        requires { is_lawful self.old (events.Take s port) ≡ true }
        ensures taken { self.new ≡ after_take s port self.old }
        ensures bytes { out.new ≡ held_bytes self.new s }
        ensures told { option_to_list result ≡ take_lines s port self.old }
    {
        let far = self.far_switch(s, port);
        let taken = self.wires.take(s, port, out);
        self.stations.take_frame(s, port);
        self.past.event();
        copy_line(far, taken.copied)
    }

    /// Drops what switch `s` holds, which must be something: the first of the three parts of handling.
    ///
    /// Then call `put` for each frame that goes out, and `show` or `show_port`.
    pub fn release(&mut self, s: Place)
        requires within { s < count self.old }
        requires full { is_full_at self.old s ≡ true }
        ensures { self.new ≡ emptied s self.old }
    {
        let hand = self.station(s).hand();
        give_up(&mut self.wires, s, hand);
        self.stations.empty(s);
    }

    /// Puts a frame of switch `s` on its wire, if its port has a link of two switch ports.
    ///
    /// Returns the line that reports its loss, if it was lost. The switch must exist.
    pub fn put(&mut self, s: Place, frame: &FrameOut) -> Option<Line>
        requires within { s < count self.old }
        requires frame { IsFrameOut frame.now }
        ensures put { self.new ≡ record self.old { wires = put_out s frame.now self.old.wires } }
        ensures told { option_to_list result ≡ lost_line s frame.now self.old.wires }
    {
        let port = Port(frame.port());
        if !is_link(self.wires.side(s, port).far) {
            return None;
        }
        loss_line(s, port, self.wires.put(s, port, frame.bytes()))
    }

    /// Records what switch `s` shows now, and counts the event: the last of the three parts of handling.
    ///
    /// If the switch has joined another epoch, its table goes out of use. The switch must exist, and there
    /// must be room for the event.
    pub fn show(&mut self, s: Place, note: &Note, spent: bool)
        requires within { s < count self.old }
        requires room { self.old.events + full_hands self.old < self.old.script.limits.events }
        ensures { self.new ≡ shows s note.now spent self.old }
    {
        self.stations.show(s, note, spent);
        self.past.event();
    }

    /// Does the same as `show`, for a note that differs from the one before only in `port`, 1 to 12, as after
    /// a frame that came in on it.
    pub fn show_port(&mut self, s: Place, port: Port, note: &Note, spent: bool)
        requires within { s < count self.old }
        requires room { self.old.events + full_hands self.old < self.old.script.limits.events }
        requires least { 1 ≤ port }
        requires most { port ≤ 12 }
        requires only { ShowsOnly port (station self.old s).note note.now }
        ensures { self.new ≡ shows s note.now spent self.old }
    {
        self.stations.show_port(s, port, note, spent);
        self.past.event();
    }

    /// Puts a table into use at switch `s`, records what the switch then shows, and returns the line that
    /// reports it.
    ///
    /// The event must be lawful.
    pub fn load(&mut self, s: Place, table: TableFor, note: &Note) -> Line
        requires { is_lawful self.old (events.Load s) ≡ true }
        ensures loaded { self.new ≡ after_load s table note.now self.old }
        ensures told { result ≡ line.Load s table.epoch table.table.number }
    {
        let told = Line::Load {
            s,
            epoch: table.epoch,
            number: table.table.number(),
        };
        self.stations.load(s, table, note);
        self.past.event();
        told
    }

    /// Restarts switch `s`, as the next command says; returns its next life, and the line that reports it.
    ///
    /// The event must be lawful, and the switch's boot below 2^32 - 1.
    pub fn restart(&mut self, s: Place) -> (Life, Line)
        requires lawful { is_lawful self.old (events.Restart s) ≡ true }
        requires boot { (station self.old s).note.life.boot < 2 ^ 32 - 1 }
        ensures restarted { self.new ≡ after_restart s (next_note_at self.old s) self.old }
        ensures life { result.0 ≡ next_life_at self.old s }
        ensures told { result.1 ≡ line.Restarted s }
    {
        let life = self.next_life(s);
        self.stations
            .restart(s, started_note(life, self.plan.epoch()));
        self.past.command();
        (life, Line::Restarted { s })
    }

    // The address of a packet, or the reason why it is dropped before its first hop.
    fn address_for(&self, from: &HostOn, to: &HostOn) -> Result<u16, DropCause>
        ensures address { result ≡ address_for self.now from.now to.now }
        ensures small { IfOk result (λ address. address < 2 ^ 12) }
    {
        if self.host(from.s, from.port).is_none() {
            return Err(DropCause::NoPort);
        }
        match self.table(to.s) {
            Some(table) => Ok(u16::from(table.number()) * 16 + u16::from(to.port.as_u8())),
            None => Err(DropCause::NoTable),
        }
    }

    // Lets a host send a packet to another one, as the next command says. Returns the line that reports it.
    fn send(&mut self, host: u16, to: u16) -> Line
        requires { is_lawful self.old (events.Send host to) ≡ true }
        ensures sent { self.new ≡ after_send host to self.old }
        ensures told { result ≡ send_line host to self.old }
    {
        let from = self.plan.host(host);
        let target = self.plan.host(to);
        let address = self.address_for(&from, &target);
        self.sent += 1;
        admit(&mut self.traffic, self.sent, from, target, address);
        self.past.command();
        sent_line(self.sent, host, to, address)
    }

    /// Executes the next command, and returns the line that reports it, if there is one.
    ///
    /// The command must be due, its event lawful, and no restart.
    pub fn command(&mut self, event: &Event) -> Option<Line>
        requires lawful { is_lawful self.old event.now ≡ true }
        requires command { is_command self.old event.now ≡ true }
        requires other { is_restart event.now ≡ false }
        ensures done { self.new ≡ after_command event.now self.old }
        ensures told { option_to_list result ≡ command_lines event.now self.old }
    {
        if let Event::Send { host, to } = *event {
            return Some(self.send(host, to));
        }
        self.past.command();
        match *event {
            Event::Fail { s, port } => {
                let dropped = self.wires.fail(s, port);
                Some(Line::Cut { s, port, dropped })
            }
            Event::Repair { s, port } => {
                self.wires.repair(s, port);
                Some(Line::Mended { s, port })
            }
            Event::Noise { s, port, n } => {
                let put = self.wires.put(s, port, &NOISE[..n as usize]);
                loss_line(s, port, put)
            }
            Event::Lose { s, port, n } => {
                self.wires.lose(s, port, n);
                None
            }
            Event::Again { s, port, n } => {
                self.wires.again(s, port, n);
                None
            }
            Event::Swap { s, port, n } => {
                self.wires.swap(s, port, n);
                None
            }
            _ => unreachable!(),
        }
    }

    // Moves a packet by one hop, and returns the hop.
    fn make_hop(&mut self, packet: u32) -> Hop
        requires { is_lawful self.old (events.Move packet) ≡ true }
        ensures moved { self.new ≡ after_move packet self.old }
        ensures hop { Some result ≡ option_map (hop_of self.old) (packet_of packet self.old.packets) }
    {
        let seen = Seen {
            plan: &self.plan,
            wires: &self.wires,
            stations: &self.stations,
        };
        let hop = self.traffic.hop(packet, &seen);
        self.past.event();
        hop
    }

    /// Moves a packet by one hop, and returns the line that reports it. The event must be lawful.
    pub fn hop(&mut self, packet: u32) -> Line
        requires { is_lawful self.old (events.Move packet) ≡ true }
        ensures moved { self.new ≡ after_move packet self.old }
        ensures told { result ∷ [] ≡ move_lines (packet_of packet self.old.packets) self.old }
    {
        let (s, entry) = self.traffic.place(packet).unwrap();
        let epoch = self.stations.epoch_in_use(s);
        let hop = self.make_hop(packet);
        hop_line(packet, s, epoch, entry, hop)
    }
}
