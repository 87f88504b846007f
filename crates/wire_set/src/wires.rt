//! The wires. Each is stored at the port it leads to, and the frame that a switch holds at the switch's port 0.

ghost use Rattle.std.specs.Prelude.{◌≡◌, ◌+◌, ◌*◌, ◌<◌, ◌≤◌, ◌/◌, ◌%◌, ℕ, true, [], length, map, IfOk};
ghost use Rattle.std.specs.Prelude.{◌^◌, ◌-◌};
ghost use Rattle.std.specs.List.{range_with_len};
ghost use Rattle.net_graph.specs.Wires.{far_at};
ghost use Rattle.wire_set.specs.Frames.{clear, occupied};
ghost use Rattle.frame_region.specs.declared.buffer.TheConstants.{MOST_FRAME};
ghost use Rattle.frame_region.specs.declared.region.TheConstants.{MOST_BLOCKS};
ghost use Rattle.wire_set.specs.WireState.{HasLink, IsUsed, WiresOf, again_on, copied_from, dropped_at};
ghost use Rattle.wire_set.specs.WireState.{fail_at};
ghost use Rattle.wire_set.specs.WireState.{far_place, hand_of, has_frame_on, held_from, how_taken, is_link, is_second};
ghost use Rattle.wire_set.specs.WireState.{link_set};
ghost use Rattle.wire_set.specs.WireState.{lose_on, place, put_into, release_from, repair_at, side_at};
ghost use Rattle.wire_set.specs.WireState.{side_of};
ghost use Rattle.wire_set.specs.WireState.{start, swap_on, take_from, taken_frame, what_becomes};
ghost use Rattle.wire_set.specs.WireState.{what_copy_becomes};
ghost use Rattle.wire_set.specs.WireState.{wire_at, wire_out};

use crate::frames::Frames;
use crate::side::{Loss, Put, Side, Taken, is_link};
use an_base::place::Place;
use an_base::port::Port;
use common_values::memory::OutOfMemory;
use frame_region::buffer::FrameBuf;
use frame_region::region::NoRoom;
use net_graph::wiring::{Far, Wiring};
use std::alloc::Global;
use std::marker::Model;

/// The wires of a network, with the frame that each switch holds.
#[derive(Drop)]
pub struct WireSet {
    sides: Vec<Side>,
    frames: Frames,
}

impl Model for WireSet {
    ghost use Rattle.wire_set.specs.WireState.{WiresOf, IsSound};

    ghost Value = { WiresOf };

    ghost view = { λ w. record { sides = w.sides.items; frames = w.frames } };

    ghost invariant = { λ w. IsSound (record { sides = w.sides.items; frames = w.frames }) };
}

// A port without a link.
const UNUSED: Side = Side {
    far: None,
    is_up: false,
    lose: 0,
    again: 0,
    swap: 0,
};

// The number of indices of a switch: twelve ports, and port 0, whose queue has the frame that the switch holds.
const PLACES: usize = 13;

// The index of a port of a switch.
fn place_of(s: Place, port: Port) -> usize
    ensures { result ≡ place s port }
{
    PLACES * usize::from(s) + usize::from(port)
}

// The index of the port at the other end of a link.
fn far_place(far: Option<Far>) -> usize
    ensures { result ≡ far_place far }
{
    match &far {
        Some(Far::Switch { s, port }) => place_of(*s, *port),
        _ => 0,
    }
}

// The sides of all ports, with all links up.
fn sides_of(alloc: Global, wiring: &Wiring) -> Result<Vec<Side>, OutOfMemory>
    ensures sides { IfOk result (λ sides. sides.items
        ≡ map (λ at. side_of (far_at wiring.now (at / 13) (at % 13)))
        (range_with_len 0 (13 * length wiring.now.switches))) }
    ensures far { IfOk result (λ sides. (at : ℕ) → at < 13 * length wiring.now.switches
        → is_link (far_at wiring.now (at / 13) (at % 13)) ≡ true
        → far_place (far_at wiring.now (at / 13) (at % 13)) < 13 * length wiring.now.switches) }
{
    let count = PLACES * usize::from(wiring.count());
    let mut sides = Vec::with_capacity(alloc, count)?;
    'places: for at in 0..count {
        let far = wiring.far(Place((at / PLACES) as u8), Port((at % PLACES) as u8));
        sides.push(Side {
            far,
            is_up: far.is_some(),
            lose: 0,
            again: 0,
            swap: 0,
        })?;
    }
    Ok(sides)
}

impl WireSet {
    /// Creates the wires of a wiring, with `blocks` blocks for their frames, at most 1,048,576.
    ///
    /// All links are up, and the wires are empty.
    ///
    /// # Errors
    /// `OutOfMemory` if an allocation fails.
    pub fn begin(alloc: Global, wiring: &Wiring, blocks: u32) -> Result<Self, OutOfMemory>
        requires { blocks ≤ MOST_BLOCKS }
        ensures { IfOk result (λ wires. wires ≡ start wiring.now blocks) }
    {
        let sides = sides_of(alloc, wiring)?;
        let frames = Frames::new(alloc, sides.len(), blocks)?;
        Ok(WireSet { sides, frames })
    }

    /// Puts a frame, of 1 to 22,591 `bytes`, on the wire out of switch `s` at `port`, without allocating.
    ///
    /// The port must have a link of two switch ports. The frame is lost for the first reason that holds: the
    /// link is down; a loss is still to come, of which there is then one less; or too few blocks are free.
    pub fn put(&mut self, s: Place, port: Port, bytes: &[u8]) -> Put
        requires link { HasLink self.old s port }
        requires least { 1 ≤ length bytes.now }
        requires most { length bytes.now ≤ MOST_FRAME }
        ensures put { self.new ≡ put_into (place s port) (wire_out self.old s port) bytes.now self.old }
        ensures what { result ≡ what_becomes (place s port) (wire_out self.old s port) bytes.now self.old }
    {
        let here = place_of(s, port);
        let wire = far_place(self.sides[here].far);
        self.put_into(here, wire, bytes)
    }

    /// Takes a frame from the wire into switch `s` at `port`, and copies its bytes to `out`, without
    /// allocating.
    ///
    /// It is the second frame if an exchange is still to come and there are two, and the first otherwise. The
    /// switch holds the frame and its blocks until `release`. If a copy is still to come, it is then put at
    /// the end of the wire. The port must have a link of two switch ports, the wire a frame, and the switch
    /// must hold none.
    pub fn take(&mut self, s: Place, port: Port, out: &mut FrameBuf) -> Taken
        requires link { HasLink self.old s port }
        requires some { 1 ≤ length (wire_at self.old (place s port)) }
        requires none_held { hand_of self.old s ≡ [] }
        ensures out { out.new ≡ taken_frame (place s port) self.old }
        ensures taken { self.new ≡ take_from (place s port) (place s 0) self.old }
        ensures how { result ≡ how_taken (place s port) (place s 0) self.old }
    {
        let wire = place_of(s, port);
        let second = self.hold(wire, place_of(s, Port(0)), out);
        let copied = self.copy(wire, out.bytes());
        Taken { second, copied }
    }

    /// Drops the frame that switch `s` holds, which must be there, and frees its blocks, without allocating.
    pub fn release(&mut self, s: Place)
        requires { 1 ≤ length (hand_of self.old s) }
        ensures { self.new ≡ release_from (place s 0) self.old }
    {
        self.frames.clear(place_of(s, Port(0)));
    }

    /// Takes the link of a port down, drops the frames of its two wires, and returns their number.
    ///
    /// The port must have a link or a host. Does not allocate.
    pub fn fail(&mut self, s: Place, port: Port) -> u32
        requires { IsUsed self.old s port }
        ensures failed { self.new ≡ fail_at (place s port) self.old }
        ensures dropped { result ≡ dropped_at (place s port) self.old }
    {
        let here = place_of(s, port);
        let far = self.sides[here].far;
        self.set_link(here, false);
        match &far {
            Some(Far::Switch { s, port }) => self.drop_frames(here, place_of(*s, *port)),
            _ => 0,
        }
    }

    /// Takes the link of a port up, without allocating. The port must have a link or a host.
    pub fn repair(&mut self, s: Place, port: Port)
        requires { IsUsed self.old s port }
        ensures { self.new ≡ repair_at (place s port) self.old }
    {
        self.set_link(place_of(s, port), true);
    }

    /// Returns the side of `port`, 0 to 12: what is at its far side, whether its link is up, and the counts of the wire
    /// into it.
    ///
    /// It returns a value for all arguments; for a port above 12, that at index 13 s + port.
    pub fn side(&self, s: Place, port: Port) -> Side
        ensures { result ≡ side_at self.now (place s port) }
    {
        match self.sides.get(place_of(s, port)) {
            Some(side) => *side,
            None => UNUSED,
        }
    }

    /// Reports whether the link of a port to another port or to a host is up. The port must have one of them.
    pub fn is_up(&self, s: Place, port: Port) -> bool
        requires { IsUsed self.now s port }
        ensures { result ≡ (side_at self.now (place s port)).is_up }
    {
        self.sides[place_of(s, port)].is_up
    }

    /// Adds `n` losses to those still to come on the wire out of switch `s` at `port`, up to 2^32 - 1.
    ///
    /// The port must have a link of two switch ports.
    pub fn lose(&mut self, s: Place, port: Port, n: u32)
        requires { HasLink self.old s port }
        ensures { self.new ≡ lose_on (wire_out self.old s port) n self.old }
    {
        let wire = far_place(self.sides[place_of(s, port)].far);
        let side = &mut self.sides[wire];
        side.lose = side.lose.saturating_add(n);
    }

    /// Adds `n` copies to those still to come on the wire out of switch `s` at `port`, up to 2^32 - 1.
    ///
    /// The port must have a link of two switch ports.
    pub fn again(&mut self, s: Place, port: Port, n: u32)
        requires { HasLink self.old s port }
        ensures { self.new ≡ again_on (wire_out self.old s port) n self.old }
    {
        let wire = far_place(self.sides[place_of(s, port)].far);
        let side = &mut self.sides[wire];
        side.again = side.again.saturating_add(n);
    }

    /// Adds `n` exchanges to those still to come on the wire out of switch `s` at `port`, up to 2^32 - 1.
    ///
    /// The port must have a link of two switch ports.
    pub fn swap(&mut self, s: Place, port: Port, n: u32)
        requires { HasLink self.old s port }
        ensures { self.new ≡ swap_on (wire_out self.old s port) n self.old }
    {
        let wire = far_place(self.sides[place_of(s, port)].far);
        let side = &mut self.sides[wire];
        side.swap = side.swap.saturating_add(n);
    }

    /// Reports whether `port`, 0 to 12, has a link of two switch ports and the wire into it a frame.
    ///
    /// It returns a value for all arguments; for a port above 12, that at index 13 s + port.
    pub fn has_frame(&self, s: Place, port: Port) -> bool
        ensures { result ≡ has_frame_on self.now (place s port) }
    {
        let wire = place_of(s, port);
        match self.sides.get(wire) {
            // Most wires are empty, so that is checked first.
            Some(side) => self.frames.len(wire) > 0 && is_link(side.far),
            None => false,
        }
    }

    /// Returns the number of frames on the wire into switch `s` at `port`, which must have a link of two switch
    /// ports.
    pub fn len(&self, s: Place, port: Port) -> u32
        requires { HasLink self.now s port }
        ensures { result ≡ length (wire_at self.now (place s port)) }
    {
        self.frames.len(place_of(s, port))
    }

    /// Returns the number of free blocks: those of no frame on a wire or held by a switch.
    pub fn free(&self) -> u32
        ensures free { result ≡ self.now.frames.free }
        ensures law { self.now.frames.free + occupied self.now.frames ≡ self.now.frames.limit }
    {
        self.frames.free()
    }

    // Puts a frame on a wire from the port at its other end.
    fn put_into(&mut self, from: usize, wire: usize, bytes: &[u8]) -> Put
        requires from { from < length self.old.sides }
        requires wire { wire < length self.old.sides }
        requires least { 1 ≤ length bytes.now }
        requires most { length bytes.now ≤ MOST_FRAME }
        ensures put { self.new ≡ put_into from wire bytes.now self.old }
        ensures what { result ≡ what_becomes from wire bytes.now self.old }
    {
        if !self.sides[from].is_up {
            return Put::Lost { cause: Loss::Down };
        }
        if self.sides[wire].lose > 0 {
            self.sides[wire].lose -= 1;
            return Put::Lost { cause: Loss::Told };
        }
        match self.frames.put(wire, bytes) {
            Ok(()) => Put::Kept,
            Err(NoRoom { need, free }) => Put::Lost {
                cause: Loss::NoRoom { need, free },
            },
        }
    }

    // Moves a frame from a wire to a switch that holds none, and returns whether it was the second one.
    fn hold(&mut self, wire: usize, hand: usize, out: &mut FrameBuf) -> bool
        requires hand { hand < length self.old.sides }
        requires some { 1 ≤ length (wire_at self.old wire) }
        requires empty { wire_at self.old hand ≡ [] }
        ensures out { out.new ≡ taken_frame wire self.old }
        ensures least { 1 ≤ length out.new }
        ensures held { self.new ≡ held_from wire hand self.old }
        ensures second { result ≡ is_second wire self.old }
    {
        if self.sides[wire].swap == 0 || self.frames.len(wire) < 2 {
            self.frames.move_first(wire, hand, out);
            return false;
        }
        self.sides[wire].swap -= 1;
        self.frames.move_second(wire, hand, out);
        true
    }

    // Puts a copy of a frame that was taken at the end of its wire, if a copy is still to come.
    fn copy(&mut self, wire: usize, bytes: &[u8]) -> Option<Put>
        requires link { is_link (side_at self.old wire).far ≡ true }
        requires least { 1 ≤ length bytes.now }
        requires most { length bytes.now ≤ MOST_FRAME }
        ensures copied { self.new ≡ copied_from wire bytes.now self.old }
        ensures what { result ≡ what_copy_becomes wire bytes.now self.old }
    {
        let side = self.sides[wire];
        if side.again == 0 {
            return None;
        }
        self.sides[wire] = Side {
            again: side.again - 1,
            ..side
        };
        Some(self.put_into(far_place(side.far), wire, bytes))
    }

    // Sets the link of a port up or down, at both its ends.
    fn set_link(&mut self, here: usize, is_up: bool)
        requires { here < length self.old.sides }
        ensures { self.new ≡ link_set is_up (side_at self.old here).far here self.old }
    {
        let far = self.sides[here].far;
        self.sides[here].is_up = is_up;
        if let Some(Far::Switch { s, port }) = &far {
            self.sides[place_of(*s, *port)].is_up = is_up;
        }
    }

    // Drops the frames of two wires, and returns their number.
    fn drop_frames(&mut self, here: usize, far: usize) -> u32
        requires here { here < length self.old.sides }
        requires far { far < length self.old.sides }
        ensures count { result ≡ length (wire_at self.old here) + length (wire_at self.old far) }
        ensures dropped { self.new ≡ record self.old { frames = clear far (clear here self.old.frames) } }
    {
        let count = self.frames.len(here) + self.frames.len(far);
        self.frames.clear(here);
        self.frames.clear(far);
        count
    }
}
