//! What a switch keeps, and how it processes frames, clock events and loads.

ghost use Rattle.std.specs.Prelude.{◌≡◌, ◌+◌, ◌<◌, ◌≤◌, ◌^◌, ◌∷◌, ◌++◌, [], ℕ, None, Some, map, IfOk, IfSome, IsSome, OnErr, OnOk, option_copied, ◌-◌, List, true, false, not, is_some, ◌||◌};
ghost use Rattle.an_base.specs.declared.limits.TheConstants.{LAST_PORT};
ghost use Rattle.frame_codec.specs.Spelling.{spelling};
ghost use Rattle.an_base.specs.declared.frame.Frame.TheVariants.{Carry, Probe, Reply};
ghost use Rattle.switch_core.specs.Switch.{CameBy, counts, finish_of, good_links, note_of, port_of, ports_of, started, view_of, SwitchOf};
ghost use Rattle.switch_core.specs.Steps.{all_pushed, all_resent, answers_body, are_same_links, fills, framed, joins, on_ack, on_carry, peer_among, pushed, resends_on};
ghost use Rattle.switch_core.specs.Bytes.{BytesOut};
ghost use Rattle.switch_core.specs.Sessions.{IsOutAt};
ghost use Rattle.switch_core.specs.Stands.{answered, Accepts, AcceptsInTurn, Clocks, Does, HasAccepting, HasNumbers, HasRoom, HasState, HasWindows, IsSame, MayJoin, Carries, probed, ReceivesBody, Stands};
ghost use Rattle.switch_core.specs.Kept.{Counts, Handles, Loads, bodies, is_noframe};
ghost use Rattle.switch_core.specs.Sound.{carries, counted};

use crate::out::Frames;
use crate::session::Sessions;
use an_base::body::{Body, TopoBody};
use an_base::frame::{CarryFrame, Frame};
use an_base::life::{End, Life};
use an_base::links::{Links, PortLink};
use an_base::port::{Note, PortState, PortView, Ports, Sample};
use common_values::memory::OutOfMemory;
use epoch_core::epoch::Core;
use epoch_core::sends::{Outgoing, Sends};
use frame_codec::reading::{DecodeRefusal, decode};
use frame_codec::writing::{CarryHead, encode, encode_carry};
use frame_region::buffer::FrameBuf;
use ordered_link::receiver::Verdict;
use ordered_link::sender::WINDOW;
use port_monitor::monitor::Monitor;
use std::alloc::Global;
use table_build::table::Table;
use topo_graph::graph::Graph;

/// What a switch keeps of its history.
#[derive(Drop)]
pub struct Control {
    /// The allocator of all that it makes.
    pub alloc: Global,
    /// The life of the switch.
    pub life: Life,
    /// Whether its tables have all legal routes, not only the shortest ones.
    pub any: bool,
    /// The states of its ports.
    pub monitor: Monitor,
    /// The epoch that it joined last.
    pub epoch: u64,
    /// What it knows of that epoch, once it has joined one.
    pub core: Option<Core>,
    /// The good links that it joined the epoch with.
    pub links: Links,
    /// The sessions over its links.
    pub sessions: Sessions,
    /// The number that it had last, which it proposes when it joins.
    pub number: u8,
    /// Whether it has finished, and a load of its table is due.
    pub load_due: bool,
    /// The tick of the last clock event.
    pub tick: u64,
    /// Whether its epochs are spent: a change is due and no epoch is left for it.
    pub spent: bool,
    /// The buffer in which it encodes a frame.
    pub buffer: FrameBuf,
}

/// What a switch is started with.
#[derive(Clone, Copy)]
pub struct PowerOn {
    /// The life that it starts.
    pub life: Life,
    /// The epoch that it is in, but has not joined.
    pub epoch: u64,
    /// The number that it had before, 1 to 126.
    pub had: u8,
    /// Whether its tables are to have all legal routes, not only the shortest ones.
    pub any: bool,
}

/// The kind of bytes that came in.
#[derive(Clone, Copy)]
pub enum Arrival {
    /// They are no frame.
    NoFrame,
    /// They are a frame without a body.
    Bodiless,
    /// They are a frame with a body.
    Body,
}

impl Arrival {
    // The kind of the bytes of a frame.
    fn of(frame: &Frame) -> Self
        ensures frame { is_noframe result ≡ false }
        ensures bodies { bodies result ≡ carries frame.now }
    {
        match frame {
            Frame::Carry(_) => Arrival::Body,
            Frame::Ack { .. } | Frame::Probe { .. } | Frame::Reply { .. } => Arrival::Bodiless,
        }
    }

    /// Reports whether the bytes are no frame.
    pub fn is_noframe(self) -> bool
        ensures { result ≡ is_noframe self }
    {
        match self {
            Arrival::NoFrame => true,
            Arrival::Bodiless | Arrival::Body => false,
        }
    }

    /// Returns the number of bodies in the bytes, at most one.
    pub fn bodies(self) -> u32
        ensures bodies { result ≡ bodies self }
        ensures few { result ≤ 1 }
    {
        match self {
            Arrival::NoFrame | Arrival::Bodiless => 0,
            Arrival::Body => 1,
        }
    }
}

// The other end of the link at a port, if there is one.
fn peer_of(links: &Links, port: u8) -> Option<End>
    ensures peer { result ≡ peer_among links.now port }
    ensures range { IfSome result (λ _. (1 ≤ port) × (port ≤ LAST_PORT)) }
{
    'links: for link in links.as_slice() {
        if link.port() == port {
            return Some(link.peer());
        }
    }
    None
}

impl Control {
    /// Creates a switch at power-on, with a buffer in which frames are encoded.
    ///
    /// # Errors
    /// `OutOfMemory` if an allocation fails.
    pub fn start(alloc: Global, on: &PowerOn) -> Result<Control, OutOfMemory>
        ensures { IfOk result (λ control. Stands control (started on.now.life on.now.epoch on.now.had on.now.any)) }
    {
        Ok(Control {
            alloc,
            life: on.life,
            any: on.any,
            monitor: Monitor::new(on.life),
            epoch: on.epoch,
            core: None,
            links: Links::new(),
            sessions: Sessions::new(alloc),
            number: on.had,
            load_due: false,
            tick: 0,
            spent: false,
            buffer: FrameBuf::new(alloc)?,
        })
    }

    /// Resets the switch to power-on, without allocating.
    pub fn restart(&mut self, on: &PowerOn)
        ensures { Stands self.new (started on.now.life on.now.epoch on.now.had on.now.any) }
    {
        let alloc = self.alloc;
        self.life = on.life;
        self.any = on.any;
        self.monitor = Monitor::new(on.life);
        self.epoch = on.epoch;
        self.core = None;
        self.links = Links::new();
        self.sessions = Sessions::new(alloc);
        self.number = on.had;
        self.load_due = false;
        self.tick = 0;
        self.spent = false;
    }

    // The end of this switch at a port.
    fn end_at(&self, port: u8) -> End
        requires least { 1 ≤ port }
        requires most { port ≤ LAST_PORT }
        ensures { result ≡ record { life = self.now.life; port = port } }
    {
        End::new(self.life, port)
    }

    // Sends a frame on a port.
    fn put(&mut self, port: u8, frame: &Frame, out: &mut Frames) -> Result<(), OutOfMemory>
        requires least { 1 ≤ port }
        requires most { port ≤ LAST_PORT }
        ensures same { OnOk result (IsSame self.old self.new) }
        ensures out { OnOk result (out.new ≡ out.old ++ record { port = port; bytes = spelling frame.now } ∷ []) }
    {
        encode(frame, &mut self.buffer);
        out.push(port, self.buffer.bytes())?;
        Ok(())
    }

    // Sends outstanding body `k` of the session at a port.
    fn carry(&mut self, port: u8, peer: End, k: u32, out: &mut Frames) -> Result<(), OutOfMemory>
        requires least { 1 ≤ port }
        requires most { port ≤ LAST_PORT }
        requires number { IsOutAt self.old.sessions port k }
        ensures same { OnOk result (IsSame self.old self.new) }
        ensures out { OnOk result (Carries self.old port peer k out.old out.new) }
    {
        let head = CarryHead {
            epoch: self.epoch,
            from: self.end_at(port),
            to: peer,
            k,
        };
        encode_carry(&head, self.sessions.body(port, k), &mut self.buffer);
        out.push(port, self.buffer.bytes())?;
        Ok(())
    }

    // Pushes a body in the session of its port, and sends it if the window permits.
    fn push(&mut self, outgoing: Outgoing, out: &mut Frames) -> Result<(), OutOfMemory>
        requires { HasNumbers self.old (outgoing ∷ []) }
        ensures { OnOk result (Does (pushed outgoing) self.old self.new out.old out.new) }
    {
        let port = outgoing.port;
        let Some(peer) = peer_of(&self.links, port) else {
            return Ok(());
        };
        if let Some(k) = self.sessions.push(port, outgoing.body, self.tick)? {
            self.carry(port, peer, k, out)?;
        }
        Ok(())
    }

    // Pushes bodies in their order.
    fn push_all(&mut self, sends: Sends, out: &mut Frames) -> Result<(), OutOfMemory>
        requires { HasNumbers self.old sends }
        ensures { OnOk result (Does (all_pushed sends) self.old self.new out.old out.new) }
    {
        'sends: for outgoing in sends.into_vec() {
            self.push(outgoing, out)?;
        }
        Ok(())
    }

    // Joins an epoch with the current good links.
    fn join(&mut self, epoch: u64, out: &mut Frames) -> Result<(), OutOfMemory>
        requires { MayJoin self.old }
        ensures { OnOk result (Does (joins epoch) self.old self.new out.old out.new) }
    {
        let links = self.monitor.good_links();
        let mut sends = Sends::new(self.alloc);
        let core = Core::join(
            self.alloc,
            self.life,
            epoch,
            self.number,
            &links,
            &mut sends,
        )?;
        self.epoch = epoch;
        self.load_due = core.finish().is_some();
        self.core = Some(core);
        self.links = links;
        self.sessions = Sessions::new(self.alloc);
        self.push_all(sends, out)?;
        Ok(())
    }

    // Sends waiting bodies of the session at a port until its window is full.
    fn fill(&mut self, port: u8, peer: End, out: &mut Frames) -> Result<(), OutOfMemory>
        requires least { 1 ≤ port }
        requires most { port ≤ LAST_PORT }
        ensures { OnOk result (Does (fills 7 port peer) self.old self.new out.old out.new) }
    {
        'window: for _ in 0..WINDOW - 1 {
            let Some(k) = self.sessions.more(port, self.tick) else {
                return Ok(());
            };
            self.carry(port, peer, k, out)?;
        }
        Ok(())
    }

    // Processes an acknowledgement by the peer of a good port.
    fn on_ack(
        &mut self,
        port: u8,
        peer: End,
        epoch: u64,
        n: u32,
        out: &mut Frames,
    ) -> Result<(), OutOfMemory>
        requires least { 1 ≤ port }
        requires most { port ≤ LAST_PORT }
        ensures { OnOk result (Does (on_ack port peer epoch n) self.old self.new out.old out.new) }
    {
        if epoch != self.epoch {
            return Ok(());
        }
        if let Some(k) = self.sessions.on_ack(port, n, self.tick) {
            self.carry(port, peer, k, out)?;
            self.fill(port, peer, out)?;
        }
        Ok(())
    }

    // Accepts a wanted body that came on a port, and each held one that follows it.
    fn accept(&mut self, port: u8, body: Body, sends: &mut Sends) -> Result<(), OutOfMemory>
        requires least { 1 ≤ port }
        requires most { port ≤ LAST_PORT }
        requires core { HasAccepting self.old.core }
        ensures { OnOk result (Accepts port body self.old self.new sends.old sends.new) }
    {
        let Some(core) = &mut self.core else {
            unreachable!()
        };
        let had_finished = core.finish().is_some();
        accept_in_turn(core, &mut self.sessions, port, body, sends)?;
        if !had_finished && core.finish().is_some() {
            self.load_due = true;
        }
        Ok(())
    }

    // Receives a body in the session at a port, and appends to `sends` what the bodies that this accepts add. Returns
    // whether the body is acknowledged.
    fn receive(
        &mut self,
        port: u8,
        k: u32,
        body: Body,
        sends: &mut Sends,
    ) -> Result<bool, OutOfMemory>
        requires least { 1 ≤ port }
        requires most { port ≤ LAST_PORT }
        requires core { HasAccepting self.old.core }
        ensures { IfOk result (ReceivesBody port k body self.old self.new sends.old sends.new) }
    {
        match self.sessions.on_carry(port, k, body) {
            Verdict::Accepted(body) => {
                self.accept(port, body, sends)?;
                Ok(true)
            }
            Verdict::Held { .. } => Ok(true),
            Verdict::Repeat { .. } => Ok(true),
            Verdict::Ahead { .. } => Ok(false),
        }
    }

    // Acknowledges all bodies that were accepted at a port.
    fn acknowledge(&mut self, port: u8, peer: End, out: &mut Frames) -> Result<(), OutOfMemory>
        requires least { 1 ≤ port }
        requires most { port ≤ LAST_PORT }
        ensures { OnOk result (Does (answered port peer) self.old self.new out.old out.new) }
    {
        let ack = Frame::Ack {
            epoch: self.epoch,
            from: self.end_at(port),
            to: peer,
            n: self.sessions.last(port),
        };
        self.put(port, &ack, out)?;
        Ok(())
    }

    // Processes a body of the current epoch by the peer of a good port.
    fn answer_body(
        &mut self,
        port: u8,
        peer: End,
        k: u32,
        body: Body,
        out: &mut Frames,
    ) -> Result<(), OutOfMemory>
        requires least { 1 ≤ port }
        requires most { port ≤ LAST_PORT }
        requires room { HasRoom self.old }
        requires joined { IsSome self.old.core }
        ensures { OnOk result (Does (answers_body port peer k body) self.old self.new out.old out.new) }
    {
        let mut sends = Sends::new(self.alloc);
        if self.receive(port, k, body, &mut sends)? {
            self.acknowledge(port, peer, out)?;
        }
        self.push_all(sends, out)?;
        Ok(())
    }

    // Processes a body by the peer of a good port. If its epoch is higher, the switch joins that epoch first.
    fn on_carry(&mut self, port: u8, carry: CarryFrame, out: &mut Frames) -> Result<(), OutOfMemory>
        requires least { 1 ≤ port }
        requires most { port ≤ LAST_PORT }
        requires room { HasRoom self.old }
        requires joined { IsSome self.old.core }
        ensures { OnOk result (Does (on_carry port carry) self.old self.new out.old out.new) }
    {
        if carry.epoch < self.epoch {
            return Ok(());
        }
        if carry.epoch > self.epoch {
            self.join(carry.epoch, out)?;
        }
        self.answer_body(port, carry.from, carry.k, carry.body, out)?;
        Ok(())
    }

    // Reports whether a frame of a session that came on a port counts.
    fn counts(&self, port: u8, from: End, to: End) -> bool
        requires least { 1 ≤ port }
        requires most { port ≤ LAST_PORT }
        ensures { (s : SwitchOf) → Stands self.now s → result ≡ counts s port from to }
    {
        if self.monitor.state(port) != PortState::Good {
            return false;
        }
        self.monitor.peer(port) == Some(from) && to == self.end_at(port)
    }

    // Processes a probe that came on a port.
    fn on_probe(
        &mut self,
        port: u8,
        from: End,
        nonce: u64,
        out: &mut Frames,
    ) -> Result<(), OutOfMemory>
        requires least { 1 ≤ port }
        requires most { port ≤ LAST_PORT }
        ensures { OnOk result (Does (framed port (Probe from nonce)) self.old self.new out.old out.new) }
    {
        if let Some(reply) = self.monitor.on_probe(port, from, nonce) {
            self.put(port, &reply, out)?;
        }
        Ok(())
    }

    // Processes a reply that came on a port.
    fn on_reply(&mut self, port: u8, from: End, to: End, nonce: u64)
        requires least { 1 ≤ port }
        requires most { port ≤ LAST_PORT }
        ensures { (out : List BytesOut) → Does (framed port (Reply from to nonce)) self.old self.new out out }
    {
        if to == self.end_at(port) {
            self.monitor.on_reply(port, from, nonce);
        }
    }

    /// Processes a frame that came on `port`, 1 to 12, and appends the frames to be sent to `out`.
    ///
    /// The numbers of the switch must be far from their limits, and its epochs not spent (`HasRoom`).
    ///
    /// # Errors
    /// `OutOfMemory` if an allocation fails. The switch and `out` are then unspecified; call `restart`.
    pub fn on_frame(&mut self, port: u8, frame: Frame, out: &mut Frames) -> Result<(), OutOfMemory>
        requires least { 1 ≤ port }
        requires most { port ≤ LAST_PORT }
        requires room { HasRoom self.old }
        ensures { OnOk result (Does (framed port frame) self.old self.new out.old out.new) }
    {
        match frame {
            Frame::Carry(carry) => {
                if !self.counts(port, carry.from, carry.to) {
                    return Ok(());
                }
                self.on_carry(port, carry, out)
            }
            Frame::Ack { epoch, from, to, n } => {
                if !self.counts(port, from, to) {
                    return Ok(());
                }
                self.on_ack(port, from, epoch, n, out)
            }
            Frame::Probe { from, nonce } => self.on_probe(port, from, nonce, out),
            Frame::Reply { from, to, nonce } => {
                self.on_reply(port, from, to, nonce);
                Ok(())
            }
        }
    }

    /// Processes bytes that came on `port`, 1 to 12, puts the frames to be sent into the empty `out`, and
    /// returns the kind of the bytes.
    ///
    /// The numbers of the switch must be far from their limits, and its epochs not spent (`HasRoom`).
    ///
    /// # Errors
    /// `OutOfMemory` if an allocation fails. The switch and `out` are then unspecified; call `restart`.
    pub fn handle(
        &mut self,
        bytes: &[u8],
        port: u8,
        out: &mut Frames,
    ) -> Result<Arrival, OutOfMemory>
        requires least { 1 ≤ port }
        requires most { port ≤ LAST_PORT }
        requires room { HasRoom self.old }
        requires none { out.old ≡ [] }
        ensures handled { (s : SwitchOf) → Stands self.old s
            → IfOk result (λ arrival. Handles port bytes.now s (Stands self.new) (record { frames = out.new; noframe = is_noframe arrival })) }
        ensures counts { (before : ℕ) → IfOk result (λ arrival. Counts bytes.now self.old.epoch self.new.epoch before (counted self.old.epoch self.new.epoch before (bodies arrival))) }
        ensures state { (works carried : ℕ) → HasState works carried self.old
            → IfOk result (λ arrival. HasState (works + 1) (counted self.old.epoch self.new.epoch carried (bodies arrival)) self.new) }
        ensures working { OnOk result (self.new.spent ≡ false) }
    {
        match decode(self.alloc, bytes) {
            Ok(frame) => {
                let arrival = Arrival::of(&frame);
                self.on_frame(port, frame, out)?;
                Ok(arrival)
            }
            Err(DecodeRefusal::NotAFrame) => Ok(Arrival::NoFrame),
            Err(DecodeRefusal::OutOfMemory) => Err(OutOfMemory),
        }
    }

    // Processes the samples of a clock event, and sends the probes.
    fn sample(
        &mut self,
        now: u64,
        samples: &[Sample; 12],
        out: &mut Frames,
    ) -> Result<(), OutOfMemory>
        requires room { HasRoom self.old }
        ensures { OnOk result (Does (probed now samples.now) self.old self.new out.old out.new) }
    {
        self.tick = now;
        'ports: for port in EXTERNALS {
            let sample = samples[usize::from(port - 1)];
            if let Some(nonce) = self.monitor.sample(port, sample) {
                let from = self.end_at(port);
                self.put(port, &Frame::Probe { from, nonce }, out)?;
            }
        }
        Ok(())
    }

    // Sends again what is due in the session at the port of a link.
    fn resend(&mut self, link: &PortLink, out: &mut Frames) -> Result<(), OutOfMemory>
        requires { HasWindows self.old }
        ensures { OnOk result (Does (resends_on link.now) self.old self.new out.old out.new) }
    {
        let port = link.port();
        'window: for _ in 0..WINDOW {
            let Some(k) = self.sessions.due(port, self.tick) else {
                return Ok(());
            };
            self.carry(port, link.peer(), k, out)?;
            self.sessions.resent(port, k, self.tick);
        }
        Ok(())
    }

    // Sends again what is due in the session of each link, in ascending order of port.
    fn resend_all(&mut self, out: &mut Frames) -> Result<(), OutOfMemory>
        requires { HasWindows self.old }
        ensures { OnOk result (Does (λ s. all_resent s.card.links s) self.old self.new out.old out.new) }
    {
        let links = self.links.copy();
        'links: for link in links.as_slice() {
            self.resend(link, out)?;
        }
        Ok(())
    }

    // Reports whether a change is due: at the first clock event, or if the good links differ from `before`.
    fn is_change_due(&self, before: &Links) -> bool
        ensures { (s : SwitchOf) → Stands self.now s → result ≡ (not s.joined || not (are_same_links before.now (good_links s))) }
    {
        if self.core.is_none() {
            return true;
        }
        before.as_slice() != self.monitor.good_links().as_slice()
    }

    /// Processes a clock event at tick `now` with a sample of each port, and appends the frames to be sent.
    ///
    /// Returns whether a change is due for which no epoch is left. The numbers of the switch must be far from
    /// their limits, and its epochs not spent (`HasRoom`).
    ///
    /// # Errors
    /// `OutOfMemory` if an allocation fails. The switch and `out` are then unspecified; call `restart`.
    pub fn clock(
        &mut self,
        now: u64,
        samples: &[Sample; 12],
        out: &mut Frames,
    ) -> Result<bool, OutOfMemory>
        requires room { HasRoom self.old }
        ensures clocks { IfOk result (Clocks now samples.now self.old self.new out.old out.new) }
        ensures spent { IfOk result (λ spent. self.new.spent ≡ spent) }
    {
        let before = self.monitor.good_links();
        self.sample(now, samples, out)?;
        if !self.is_change_due(&before) {
            self.resend_all(out)?;
            return Ok(false);
        }
        if self.epoch == u64::MAX {
            self.spent = true;
            return Ok(true);
        }
        self.join(self.epoch + 1, out)?;
        Ok(false)
    }

    /// Returns the topology that the life has finished with in its current epoch, if it has finished.
    pub fn finish(&self) -> Option<&TopoBody>
        ensures { (s : SwitchOf) → Stands self.now s → option_copied result ≡ finish_of s }
    {
        self.core.as_ref()?.finish()
    }

    // The state and the peer of a port.
    fn view(&self, port: u8) -> PortView
        requires least { 1 ≤ port }
        requires most { port ≤ LAST_PORT }
        ensures { (s : SwitchOf) → Stands self.now s → result ≡ view_of (port_of s port) }
    {
        PortView {
            state: self.monitor.state(port),
            peer: self.monitor.peer(port),
        }
    }

    // Sets the state and the peer of each port.
    fn show_ports(&self, ports: &mut Ports)
        ensures { (s : SwitchOf) → Stands self.now s → ports.new ≡ map view_of (ports_of s) }
    {
        let _twelve = ports.as_slice();
        'ports: for port in EXTERNALS {
            ports.set(port, self.view(port));
        }
    }

    /// Sets `note` to what the switch shows of itself.
    pub fn show(&self, note: &mut Note)
        ensures { (s : SwitchOf) → Stands self.now s → note.new ≡ note_of s }
    {
        note.life = self.life;
        note.epoch = self.epoch;
        self.show_ports(&mut note.ports);
        note.load_due = self.load_due;
        note.unacked = self.sessions.is_unacked();
    }

    /// Updates `note` from what the switch showed before something came on `port`, 1 to 12, to what it shows
    /// now.
    pub fn show_port(&self, port: u8, note: &mut Note)
        requires least { 1 ≤ port }
        requires most { port ≤ LAST_PORT }
        ensures { (before s : SwitchOf) → Stands self.now s → note.old ≡ note_of before → CameBy port before s → note.new ≡ note_of s }
    {
        note.epoch = self.epoch;
        note.ports.set(port, self.view(port));
        note.load_due = self.load_due;
        note.unacked = self.sessions.is_unacked();
    }

    /// Returns what the switch shows of itself, without allocating.
    pub fn note(&self) -> Note
        ensures { (s : SwitchOf) → Stands self.now s → result ≡ note_of s }
    {
        let mut note = Note {
            life: self.life,
            epoch: self.epoch,
            ports: Ports::new(),
            load_due: false,
            unacked: false,
        };
        self.show(&mut note);
        note
    }

    /// Returns the table for the topology that the life has finished with, and takes its number from it.
    ///
    /// A load must be due, and the switch sound (`HasState`).
    ///
    /// # Errors
    /// `OutOfMemory` if an allocation fails. The switch is then unchanged.
    pub fn load(&mut self) -> Result<Table, OutOfMemory>
        requires state { (works carried : ℕ) × HasState works carried self.old }
        requires due { self.old.load_due ≡ true }
        ensures ok { (s : SwitchOf) → Stands self.old s → IfOk result (Loads s (Stands self.new)) }
        ensures err { OnErr result (self.new ≡ self.old) }
    {
        let topo = self.finish().unwrap();
        let graph = Graph::of(self.alloc, topo.entries())?;
        prove!(graph.entries().len() == topo.numbers().as_slice().len());
        let table = Table::build(self.alloc, &graph, topo.numbers(), self.life, self.any)?;
        self.number = table.number();
        self.load_due = false;
        Ok(table)
    }
}

// The external ports, in ascending order.
const EXTERNALS: [u8; 12] = [1, 2, 3, 4, 5, 6, 7, 8, 9, 10, 11, 12];

// Accepts a body, and each held one that follows it, in the order of their numbers.
fn accept_in_turn(
    core: &mut Core,
    sessions: &mut Sessions,
    port: u8,
    body: Body,
    sends: &mut Sends,
) -> Result<(), OutOfMemory>
    requires least { 1 ≤ port }
    requires most { port ≤ LAST_PORT }
    requires room { core.old.version + 8 ≤ 2 ^ 30 }
    ensures { OnOk result (AcceptsInTurn port body core.old core.new sessions.old sessions.new sends.old sends.new) }
{
    core.accept(port, body, sends)?;
    'held: for _ in 0..WINDOW - 1 {
        let Some(body) = sessions.next(port) else {
            return Ok(());
        };
        core.accept(port, body, sends)?;
    }
    Ok(())
}
