//! The cache of one host: the most recent sender is first, and is replaced last.

ghost use Rattle.std.specs.Prelude.{◌≡◌, ◌≤◌, [], ◌∷◌, All, find, IfOk, List};
ghost use Rattle.std.specs.Option.{ForSome};
ghost use Rattle.host_names.specs.Caches.{ArrivalOf, choice_by, choice_of, is_from, kept_of, with_arrival};

use crate::choice::Choice;
use common_values::memory::OutOfMemory;
use std::alloc::Global;
use std::marker::Model;

/// The number of senders that a host remembers.
pub const PLACES: usize = 16;

/// The number of ticks for which a host uses what it remembers of a sender.
pub const TICKS: u32 = 64;

// A sender, the address that its last packet came from, and the tick at which that came.
#[derive(Clone, Copy)]
struct Heard {
    uid: u64,
    address: u16,
    tick: u32,
}

impl Model for Heard {
    ghost use Rattle.host_names.specs.Caches.{ArrivalOf};

    ghost Value = { ArrivalOf };

    ghost view = { λ h. record { uid = h.uid; address = h.address; tick = h.tick } };

    ghost inverse = { λ v. record { uid = v.uid; address = v.address; tick = v.tick } };
}

// Returns the last arrival of a sender, if one is kept.
fn last_of(heard: &[Heard], uid: u64) -> Option<Heard>
    ensures { result ≡ find (is_from uid) heard.now }
{
    heard.iter().copied().find(|h| h.uid == uid)
}

// Returns where a host sends, given the last arrival of the receiver.
fn choice_by(last: Option<Heard>, now: u32) -> Choice
    requires { ForSome last (λ arrival. arrival.tick ≤ now) }
    ensures { result ≡ choice_by now last }
{
    match last {
        Some(last) if now - last.tick < TICKS => Choice::Known {
            address: last.address,
        },
        _ => Choice::Broadcast,
    }
}

/// What a host remembers of those that sent to it. Contracts see it as a list of arrivals, the
/// newest first: the last arrival of each of at most 16 senders.
#[derive(Drop)]
pub struct Cache {
    heard: Vec<Heard>,
}

impl Model for Cache {
    ghost use Rattle.std.specs.Prelude.{◌≤◌, List, length, vec_capacity};
    ghost use Rattle.host_names.specs.Caches.{ArrivalOf};
    ghost use Rattle.host_names.specs.declared.cache.TheConstants.{PLACES};

    ghost Value = { List ArrivalOf };

    ghost view = { λ c. c.heard.items };

    ghost invariant = { λ c. (length c.heard.items ≤ PLACES) × (PLACES ≤ vec_capacity c.heard) };
}

impl Cache {
    /// Creates an empty cache, with space for 16 senders.
    ///
    /// # Errors
    /// `OutOfMemory` if the allocation fails.
    pub fn new(alloc: Global) -> Result<Self, OutOfMemory>
        ensures { IfOk result (λ cache. cache ≡ []) }
    {
        Ok(Cache {
            heard: Vec::with_capacity(alloc, PLACES)?,
        })
    }

    /// Records a packet from `uid` at `address`, making it the most recent sender.
    ///
    /// If 16 senders are stored, a new one replaces the least recent. The caller must pass a `now`
    /// at least as high as at any earlier arrival. Does not allocate.
    pub fn arrived(&mut self, uid: u64, address: u16, now: u32)
        requires { All (λ arrival. arrival.tick ≤ now) self.old }
        ensures kept { self.new
            ≡ with_arrival (record { uid = uid; address = address; tick = now }) self.old }
        ensures ticks { All (λ arrival. arrival.tick ≤ now) self.new }

        // If the cache was what is kept after a list of arrivals, it is now what is kept after one
        // more.
        ensures after { (arrivals : List ArrivalOf) → self.old ≡ kept_of arrivals
            → self.new ≡ kept_of (record { uid = uid; address = address; tick = now } ∷ arrivals) }
    {
        self.heard.retain(|h| h.uid != uid);
        self.heard.truncate(PLACES - 1);
        let heard = Heard {
            uid,
            address,
            tick: now,
        };
        let _added = self.heard.insert(0, heard);
    }

    /// Returns where the host sends a packet for `uid`: to the address that it remembers, for less
    /// than 64 ticks, otherwise to all hosts.
    ///
    /// The caller must pass a `now` at least as high as at any arrival. Does not allocate.
    pub fn choose(&self, uid: u64, now: u32) -> Choice
        requires { All (λ arrival. arrival.tick ≤ now) self.now }
        ensures { result ≡ choice_of self.now uid now }
    {
        choice_by(last_of(&self.heard, uid), now)
    }
}
