//! Which workers are woken to check again whether there is something to do.
//!
//! A worker that found nothing to do checks again only once it is woken: by a worker that sent it a frame, or by
//! the driver. Which workers are woken is a heuristic, and the result of a run does not depend on it: a worker that
//! is woken in vain finds nothing again, and all are woken again in each round, after the driver's steps.

use an_base::limits::{MOST_SWITCHES, PORTS};
use an_base::place::Place;
use an_base::port::Port;
use net_graph::wiring::Far;
use net_script::script::Script;
use std::mem::replace;
use switch_core::out::FrameOut;

// The most parties that share the workers: one for each switch.
const MOST_PARTIES: usize = MOST_SWITCHES;

// The most workers in a party.
const MOST_WORKERS: usize = 64;

// The number of ports of a switch, with port 0.
const ALL_PORTS: usize = PORTS + 1;

/// Which workers of a party are woken, by their indices among them.
#[derive(Clone, Copy)]
pub(crate) struct Roused {
    bits: u64,
}

// Returns the bit of the worker at an index.
fn bit(place: usize) -> u64 {
    1u64 << (place % MOST_WORKERS)
}

impl Roused {
    /// Returns the set with no worker.
    pub fn none() -> Roused {
        Roused { bits: 0 }
    }

    /// Reports whether the worker at the index `place` is woken.
    pub fn has(self, place: usize) -> bool {
        self.bits & bit(place) != 0
    }
}

/// Which workers of each party are woken.
#[derive(Drop)]
pub(crate) struct Rousing {
    // The number of workers in each party, except for the last one, which can have fewer.
    each: usize,
    // The number of parties.
    parties: usize,
    roused: [u64; MOST_PARTIES],
}

// Returns all workers of a party, or none if there is no such party.
fn all_of(party: usize, parties: usize) -> u64 {
    if party < parties { u64::MAX } else { 0 }
}

impl Rousing {
    /// Wakes all workers of `parties` parties with `each` workers.
    pub fn new(parties: usize, each: usize) -> Rousing {
        let mut rousing = Rousing {
            each,
            parties,
            roused: [0; MOST_PARTIES],
        };
        rousing.rouse_all();
        rousing
    }

    /// Returns the party of the worker at an index in the order of the script.
    pub fn party_of(&self, worker: usize) -> usize {
        worker.checked_div(self.each).unwrap_or(0)
    }

    /// Wakes the worker at an index in the order of the script. It must be in a party: no round would end with a
    /// woken worker that nobody takes back.
    pub fn rouse(&mut self, worker: usize) {
        let party = self.party_of(worker);
        if let Some(roused) = self.roused.get_mut(party) {
            *roused |= bit(worker.checked_rem(self.each).unwrap_or(0));
        }
    }

    /// Wakes all workers.
    pub fn rouse_all(&mut self) {
        for (party, roused) in self.roused.iter_mut().enumerate() {
            *roused = all_of(party, self.parties);
        }
    }

    /// Reports whether a worker of a party is woken.
    pub fn has(&self, party: usize) -> bool {
        self.roused.get(party).is_some_and(|roused| *roused != 0)
    }

    /// Reports whether any worker is woken.
    pub fn has_any(&self) -> bool {
        let mut parties = self.roused.iter().take(self.parties);
        parties.any(|roused| *roused != 0)
    }

    /// Returns the woken workers of a party, and clears them.
    pub fn take(&mut self, party: usize) -> Roused {
        let bits = match self.roused.get_mut(party) {
            Some(roused) => replace(roused, 0),
            None => 0,
        };
        Roused { bits }
    }
}

/// The switches to which the links of a switch lead, by its ports. They are copied from the script so that a worker
/// finds them next to its own data.
#[derive(Clone, Copy)]
pub(crate) struct Neighbours {
    switches: [Option<Place>; ALL_PORTS],
}

impl Neighbours {
    /// Returns the neighbours of the switch `s` of the script.
    pub fn of(script: &Script, s: Place) -> Neighbours {
        let mut switches = [None; ALL_PORTS];
        'ports: for port in 0..ALL_PORTS as u8 {
            if let Some(Far::Switch { s, port: _ }) = &script.wiring().far(s, Port(port)) {
                switches[usize::from(port)] = Some(*s);
            }
        }
        Neighbours { switches }
    }

    /// Wakes the workers of the switches at the other ends of the links on which frames were sent.
    pub fn rouse(&self, frames: &[FrameOut], rousing: &mut Rousing) {
        'frames: for frame in frames {
            if let Some(Some(s)) = self.switches.get(usize::from(frame.port())) {
                rousing.rouse(usize::from(*s));
            }
        }
    }
}
