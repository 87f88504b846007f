//! Requests in the order of asking. A granted request leaves a gap; gaps are closed together, when slots run short.

ghost use Rattle.std.specs.Prelude.{◌≡◌, ◌≢◌, ◌<◌, ◌≤◌, ◌/◌, ◌↔◌, [], ◌∷◌, ◌++◌, count_by, length};
ghost use Rattle.std.specs.Prelude.{vec_capacity, IfOk, IsTrue};
ghost use Rattle.an_base.specs.Rows.{ArePorts, ExitsRise};
ghost use Rattle.fcfc_router.specs.Router.{IsGranted, IsLowest};
ghost use Rattle.fcfc_router.specs.Calls.{MayAsk};
ghost use Rattle.fcfc_router.specs.Shown.{HasSets, is_taken, ports_of, set_at, shown};

use crate::tree::PortTree;
use common_values::memory::OutOfMemory;
use std::alloc::Global;
use std::marker::Model;

/// A packet that is granted a port.
#[derive(Clone, Copy, PartialEq, Eq)]
pub struct Grant {
    /// The packet.
    pub packet: u32,
    /// The port, 1 to 12.
    pub port: u8,
}

// A place for a request: the packet and the set of its ports, which is empty if nobody waits there.
#[derive(Clone, Copy)]
struct Slot {
    packet: u32,
    ports: u16,
}

/// The requests that wait at a switch. Contracts see them as a list, oldest first.
#[derive(Drop)]
pub struct Router {
    // In the order of asking. The place of a request that was granted stays empty until the places end.
    slots: Vec<Slot>,
    tree: PortTree,
    most: u32,
}

impl Model for Router {
    ghost use Rattle.std.specs.Prelude.{vec_capacity};
    ghost use Rattle.fcfc_router.specs.Shown.{RouterOf, shown, IsIndex};

    ghost Value = { RouterOf };

    ghost view = { λ r. record { most = r.most; waiting = shown r.slots.items } };

    ghost invariant = { λ r. IsIndex r.most (vec_capacity r.slots) r.slots.items r.tree };
}

fn set_of(ports: &[u8]) -> u16
    requires ports { ArePorts ports.now }
    requires rising { ExitsRise ports.now }
    ensures { ports_of result ≡ ports.now }
{
    let mut set = 0;
    'ports: for port in ports {
        set |= 1u16 << *port;
    }
    set
}

// The lowest port of a set that is not empty.
fn lowest_of(set: u16) -> u8
    requires { set ≢ 0 }
    ensures lowest { IsLowest set result }
    ensures below { result < 16 }
{
    set.trailing_zeros() as u8
}

// The set of ports at a place, which is empty after the last one.
fn set_at(slots: &[Slot], place: usize) -> u16
    ensures { result ≡ set_at slots.now place }
{
    match slots.get(place) {
        Some(slot) => slot.ports,
        None => 0,
    }
}

// At how many places somebody waits.
fn count_taken(slots: &[Slot]) -> usize
    ensures { result ≡ count_by is_taken slots.now }
{
    slots.iter().filter(|slot| slot.ports != 0).count()
}

// Whether nobody waits at half of the places that are used, or at more.
fn is_sparse(slots: &[Slot]) -> bool
    ensures { IsTrue result ↔ count_by is_taken slots.now ≤ length slots.now / 2 }
{
    count_taken(slots) <= slots.len() / 2
}

// Moves those that wait to the first places, in their order.
fn close_gaps(slots: &mut Vec<Slot>, tree: &mut PortTree)
    requires sets { HasSets slots.old.items tree.old }
    requires used { length slots.old.items ≤ length tree.old }
    ensures sets { HasSets slots.new.items tree.new }
    ensures shown { shown slots.new.items ≡ shown slots.old.items }
    ensures count { length slots.new.items ≡ length (shown slots.old.items) }
    ensures places { length tree.new ≡ length tree.old }
    ensures capacity { vec_capacity slots.new ≡ vec_capacity slots.old }
{
    let used = slots.len();
    slots.retain(|slot| slot.ports != 0);
    'places: for place in 0..used {
        tree.put(place, set_at(slots, place));
    }
}

// Sees to it that a place is left for one more request: the first one if nobody waits. Gaps are closed
// before the tree keeps more places, if there are enough of them, and at the latest when all are used.
fn make_room(slots: &mut Vec<Slot>, tree: &mut PortTree)
    requires sets { HasSets slots.old.items tree.old }
    requires used { length slots.old.items ≤ length tree.old }
    requires room { length (shown slots.old.items) < length tree.old }
    ensures sets { HasSets slots.new.items tree.new }
    ensures shown { shown slots.new.items ≡ shown slots.old.items }
    ensures free { length slots.new.items < length tree.new }
    ensures places { length tree.new ≡ length tree.old }
    ensures capacity { vec_capacity slots.new ≡ vec_capacity slots.old }
{
    if tree.is_empty() {
        slots.clear();
        return;
    }
    let used = slots.len();
    if used == tree.places() || (used == tree.kept() && is_sparse(slots)) {
        close_gaps(slots, tree);
    }
}

impl Router {
    /// Creates a router with no requests, and with space for `most` requests.
    ///
    /// The caller must pass a number from 1 to 10,012.
    ///
    /// # Errors
    /// `OutOfMemory` if an allocation fails.
    pub fn new(alloc: Global, most: u32) -> Result<Self, OutOfMemory>
        requires least { 1 ≤ most }
        requires limit { most ≤ 10012 }
        ensures { IfOk result (λ router. router ≡ record { most = most; waiting = [] }) }
    {
        let places = (most as usize + most as usize / 2).next_power_of_two();
        Ok(Router {
            slots: Vec::with_capacity(alloc, places)?,
            tree: PortTree::new(alloc, places)?,
            most,
        })
    }

    /// Adds the request of `packet` for one of `ports`, after all others. It does not allocate.
    ///
    /// The caller must pass a packet that does not wait, and 1 to 12 ports, each from 1 to 12, in ascending
    /// order; and the router must have space.
    pub fn ask(&mut self, packet: u32, ports: &[u8])
        requires { MayAsk self.old.most self.old.waiting (record { packet = packet; ports = ports.now }) }
        ensures { self.new ≡ record self.old {
          waiting = self.old.waiting ++ (record { packet = packet; ports = ports.now } ∷ []);
        } }
    {
        self.ask_set(packet, set_of(ports));
    }

    /// Does as `ask`, for a set of ports that has port `p` if and only if its bit `p` is set.
    pub fn ask_set(&mut self, packet: u32, ports: u16)
        requires { MayAsk self.old.most self.old.waiting
            (record { packet = packet; ports = ports_of ports }) }
        ensures { self.new ≡ record self.old {
          waiting = self.old.waiting ++ (record { packet = packet; ports = ports_of ports } ∷ []);
        } }
    {
        make_room(&mut self.slots, &mut self.tree);
        let place = self.slots.len();
        self.tree.put(place, ports);
        match self.slots.push(Slot { packet, ports }) {
            Ok(()) => (),
            Err(_) => unreachable!(),
        }
    }

    /// Removes the oldest request that names a free port, and grants it the lowest free port that it names.
    ///
    /// Port `p` is free if and only if bit `p` of `free` is set. Returns `None`, and changes nothing, if and
    /// only if no request names a free port. It does not allocate.
    pub fn grant(&mut self, free: u16) -> Option<Grant>
        ensures granted { IsGranted free self.old.waiting self.new.waiting result }
        ensures most { self.new.most ≡ self.old.most }
    {
        let place = self.tree.first(free)?;
        let slot = self.slots[place];
        self.slots[place] = Slot {
            packet: slot.packet,
            ports: 0,
        };
        self.tree.put(place, 0);
        Some(Grant {
            packet: slot.packet,
            port: lowest_of(slot.ports & free),
        })
    }
}
