//! How a far end becomes known and is lost: each step judges one probe by the first reply to it.

ghost use Rattle.std.specs.Prelude.{◌≡◌, ◌≢◌, ◌<◌, ◌^◌, false};
ghost use Rattle.connectivity.specs.Connections.{unknown, probed, replied, judged, forgotten, is_end, asked, met, held_by, doubted};
ghost use Rattle.connectivity.specs.declared.conn.Conn.TheVariants.{Who};

use crate::conn::Conn;
use an_base::life::End;
use skeptic::Skeptic;
use std::marker::Model;

/// What is known of the far end of a link between two switch ports.
#[derive(Clone, Copy)]
pub struct Connectivity {
    me: End,
    conn: Conn,
    skeptic: Skeptic,
    nonce: u64,
    answer: Option<End>,
    candidate: Option<End>,
    streak: u8,
    missed: bool,
}

impl Model for Connectivity {
    ghost use Rattle.std.specs.Prelude.{◌^◌};
    ghost use Rattle.skeptic.specs.Skeptics.{hold};
    ghost use Rattle.connectivity.specs.Connections.{ConnectivityOf, IsFew};

    ghost Value = { ConnectivityOf };

    ghost view = { λ c. record { me = c.me; conn = c.conn; skeptic = c.skeptic; nonce = c.nonce; answer = c.answer; candidate = c.candidate; streak = c.streak; missed = c.missed } };

    ghost invariant = { λ c. IsFew c.conn c.streak (hold c.skeptic) };

    ghost inverse = { λ v. record { me = v.me; conn = v.conn; skeptic = v.skeptic; nonce = v.nonce; answer = v.answer; candidate = v.candidate; streak = v.streak; missed = v.missed } };
}

impl Connectivity {
    /// Creates the state of the link at end `me`, whose far end is not known.
    pub fn new(me: End) -> Self
        ensures { result ≡ unknown me }
    {
        Connectivity {
            me,
            conn: Conn::Who,
            skeptic: Skeptic::new(),
            nonce: 0,
            answer: None,
            candidate: None,
            streak: 0,
            missed: false,
        }
    }

    /// Returns what is known of the far end.
    pub fn conn(&self) -> Conn
        ensures { result ≡ self.now.conn }
    {
        self.conn
    }

    /// Returns the number of the last probe, 0 before the first.
    pub fn nonce(&self) -> u64
        ensures { result ≡ self.now.nonce }
    {
        self.nonce
    }

    /// Starts the next probe, and returns its number.
    ///
    /// Fewer than 2^63 probes must have been started before.
    pub fn probe(&mut self) -> u64
        requires { self.old.nonce < 2 ^ 63 }
        ensures nonce { result ≡ self.new.nonce }
        ensures after { self.new ≡ probed self.old }
    {
        self.nonce += 1;
        self.answer = None;
        self.nonce
    }

    /// Records a reply by end `from` to probe `nonce`, if it is the first reply to the last probe.
    pub fn on_reply(&mut self, from: End, nonce: u64)
        ensures { self.new ≡ replied from nonce self.old }
    {
        if nonce == self.nonce && 0 < nonce && self.answer.is_none() {
            self.answer = Some(from);
        }
    }

    /// Judges the last probe, before the next one starts, and returns what is then known.
    pub fn step(&mut self) -> Conn
        ensures conn { result ≡ self.new.conn }
        ensures after { self.new ≡ judged self.old }
    {
        let conn = self.conn;
        match conn {
            Conn::Who => self.ask(),
            Conn::Loop(peer) | Conn::Good(peer) => self.keep(peer),
        }
        self.conn
    }

    /// Forgets the far end, and any reply to the last probe.
    ///
    /// The hold-down level and the number of the last probe stay.
    pub fn clear(&mut self)
        ensures { self.new ≡ forgotten self.old }
    {
        self.conn = Conn::Who;
        self.answer = None;
        self.candidate = None;
        self.streak = 0;
        self.missed = false;
    }

    // Reports whether this end answered the probes before.
    fn is_candidate(&self, from: End) -> bool
        ensures { result ≡ is_end self.now.candidate from }
    {
        match self.candidate {
            Some(candidate) => candidate == from,
            None => false,
        }
    }

    // Judges the last probe while the peer is not known.
    fn ask(&mut self)
        requires { self.old.conn ≡ Who }
        ensures { self.new ≡ asked self.old.answer self.old }
    {
        let Some(from) = self.answer else {
            self.candidate = None;
            self.streak = 0;
            return;
        };
        self.streak = if self.is_candidate(from) {
            self.streak + 1
        } else {
            1
        };
        self.candidate = Some(from);
        if u32::from(self.streak) == self.skeptic.hold() {
            self.conn = met(self.me, from);
            self.skeptic.clear();
            self.missed = false;
        }
    }

    // Judges the last probe while `peer` is the peer.
    fn keep(&mut self, peer: End)
        requires { self.old.conn ≢ Who }
        ensures { self.new ≡ held_by peer self.old.answer self.old }
    {
        let answer = self.answer;
        match answer {
            Some(from) if from == peer => {
                self.skeptic.good();
                self.missed = false;
            }
            None if !self.missed => {
                self.skeptic.clear();
                self.missed = true;
            }
            _ => self.doubt(),
        }
    }

    // Loses the peer.
    fn doubt(&mut self)
        ensures { self.new ≡ doubted self.old }
    {
        self.conn = Conn::Who;
        self.skeptic.fail();
        self.candidate = None;
        self.streak = 0;
        self.missed = false;
    }
}

// What an end that replied is: this switch itself, or another one.
fn met(me: End, from: End) -> Conn
    ensures { result ≡ met me from }
{
    if from.life.uid == me.life.uid {
        Conn::Loop(from)
    } else {
        Conn::Good(from)
    }
}
