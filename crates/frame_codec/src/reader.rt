//! Decodes from the left, part by part. Each part rejects what no frame has there, so only the end remains to check.

ghost use Rattle.std.specs.Prelude.{◌≡◌, ◌==◌, ◌≤◌, None, ◌<◌, ◌^◌, ◌+◌, ◌++◌, List, ℕ, length, IfOk};
ghost use Rattle.an_base.specs.declared.limits.TheConstants.{LAST_PORT, MOST_NUMBER};
ghost use Rattle.frame_codec.specs.Frames.{IsWithin};
ghost use Rattle.frame_codec.specs.Reading.{Reads, ReadsAs, byte_at, number_at, within_at, counted_at};
ghost use Rattle.frame_codec.specs.Reading.{truth_at, life_at, end_at, position_at, link_above_at};
ghost use Rattle.frame_codec.specs.Reading.{links_from, links_at, entry_at, entry_above_at, entries_from};
ghost use Rattle.frame_codec.specs.Reading.{entries_at, numbers_at, pos_at, answer_at, topo_at, body_at};
ghost use Rattle.frame_codec.specs.Reading.{carry_at, ack_at, probe_at, reply_at, frame_at};

use crate::order::are_numbers;
use crate::reading::DecodeRefusal;
use an_base::body::{AnswerBody, Body, PosBody, TopoBody};
use an_base::entry::{Entries, Entry};
use an_base::frame::{CarryFrame, Frame};
use an_base::life::{End, Life};
use an_base::limits::{LAST_PORT, MOST_LEVEL, MOST_NUMBER};
use an_base::links::{Links, PortLink};
use an_base::numbers::Numbers;
use an_base::position::Position;
use std::alloc::Global;
use std::marker::Model;

// An entry that the ones read overwrite.
fn no_entry() -> Entry {
    let life = Life::new(0, 1);
    Entry {
        life,
        position: Position::new(life, 0, life, 0),
        proposed: 1,
        links: Links::new(),
    }
}

/// The bytes that are still to be read.
#[derive(Drop)]
pub struct Reader<'a> {
    rest: &'a [u8],
}

impl<'a> Model for Reader<'a> {
    ghost use Rattle.std.specs.Prelude.{List, ℕ};

    ghost Value = { List ℕ };

    ghost view = { λ r. r.rest.now };
}

impl<'a> Reader<'a> {
    /// Creates a reader of all of `bytes`.
    pub fn new(bytes: &'a [u8]) -> Self
        ensures { result ≡ bytes.now }
    {
        Reader { rest: bytes }
    }

    /// Reports whether all bytes were read.
    pub fn is_empty(&self) -> bool
        ensures { result ≡ (length self.now == 0) }
    {
        self.rest.is_empty()
    }

    fn byte(&mut self) -> Result<u8, DecodeRefusal>
        ensures { Reads byte_at result self.old self.new }
    {
        match self.rest {
            [] => Err(DecodeRefusal::NotAFrame),
            [byte, rest @ ..] => {
                self.rest = rest;
                Ok(*byte)
            }
        }
    }

    #[tactic(auto, unfolding(crate::specs::Reading::number_at))]
    fn number_32(&mut self) -> Result<u32, DecodeRefusal>
        ensures { Reads (number_at 4) result self.old self.new }
    {
        let [a, b, c, d, rest @ ..] = self.rest else {
            return Err(DecodeRefusal::NotAFrame);
        };
        let number = u32::from_be_bytes([*a, *b, *c, *d]);
        self.rest = rest;
        Ok(number)
    }

    #[tactic(auto, unfolding(crate::specs::Reading::number_at))]
    fn number_48(&mut self) -> Result<u64, DecodeRefusal>
        ensures reads { Reads (number_at 6) result self.old self.new }
        ensures within { IfOk result (λ n. n < 2 ^ 48) }
    {
        let [a, b, c, d, e, f, rest @ ..] = self.rest else {
            return Err(DecodeRefusal::NotAFrame);
        };
        let number = u64::from_be_bytes([0, 0, *a, *b, *c, *d, *e, *f]);
        self.rest = rest;
        Ok(number)
    }

    #[tactic(auto, unfolding(crate::specs::Reading::number_at))]
    fn number_64(&mut self) -> Result<u64, DecodeRefusal>
        ensures { Reads (number_at 8) result self.old self.new }
    {
        let [a, b, c, d, e, f, g, h, rest @ ..] = self.rest else {
            return Err(DecodeRefusal::NotAFrame);
        };
        let number = u64::from_be_bytes([*a, *b, *c, *d, *e, *f, *g, *h]);
        self.rest = rest;
        Ok(number)
    }

    // A byte from `least` to `most`.
    fn within(&mut self, least: u8, most: u8) -> Result<u8, DecodeRefusal>
        ensures reads { Reads (within_at least most) result self.old self.new }
        ensures within { IfOk result (IsWithin least most) }
    {
        let byte = self.byte()?;
        if byte < least {
            return Err(DecodeRefusal::NotAFrame);
        }
        if byte > most {
            return Err(DecodeRefusal::NotAFrame);
        }
        Ok(byte)
    }

    // Four bytes that are not 0.
    fn counted(&mut self) -> Result<u32, DecodeRefusal>
        ensures reads { Reads counted_at result self.old self.new }
        ensures least { IfOk result (λ n. 1 ≤ n) }
    {
        let number = self.number_32()?;
        if number < 1 {
            return Err(DecodeRefusal::NotAFrame);
        }
        Ok(number)
    }

    fn truth(&mut self) -> Result<bool, DecodeRefusal>
        ensures { Reads truth_at result self.old self.new }
    {
        let byte = self.within(0, 1)?;
        Ok(byte == 1)
    }

    #[tactic(auto, unfolding(crate::specs::Reading::life_at))]
    fn life(&mut self) -> Result<Life, DecodeRefusal>
        ensures { Reads life_at result self.old self.new }
    {
        let uid = self.number_48()?;
        let boot = self.counted()?;
        Ok(Life::new(uid, boot))
    }

    #[tactic(auto, unfolding(crate::specs::Reading::end_at))]
    fn end(&mut self) -> Result<End, DecodeRefusal>
        ensures { Reads end_at result self.old self.new }
    {
        let life = self.life()?;
        let port = self.within(1, LAST_PORT)?;
        Ok(End::new(life, port))
    }

    #[tactic(auto, unfolding(crate::specs::Reading::position_at))]
    fn position(&mut self) -> Result<Position, DecodeRefusal>
        ensures { Reads position_at result self.old self.new }
    {
        let root = self.life()?;
        let level = self.within(0, MOST_LEVEL)?;
        let parent = self.life()?;
        let port = self.within(0, LAST_PORT)?;
        Ok(Position::new(root, level, parent, port))
    }

    // A link whose port is above `above`.
    #[tactic(auto, unfolding(crate::specs::Reading::link_above_at))]
    fn link(&mut self, above: u8) -> Result<PortLink, DecodeRefusal>
        requires { above ≤ LAST_PORT }
        ensures reads { Reads (link_above_at above) result self.old self.new }
        ensures above { IfOk result (λ k. IsWithin (above + 1) LAST_PORT k.port) }
    {
        let port = self.within(above + 1, LAST_PORT)?;
        let peer = self.end()?;
        Ok(PortLink::new(port, peer))
    }

    // Sets `links` to the next `count` links, in ascending order of port.
    fn links_of(&mut self, count: u8, links: &mut Links) -> Result<(), DecodeRefusal>
        requires { count ≤ LAST_PORT }
        ensures { ReadsAs (λ _. links.new) (links_from 0 count) result self.old self.new }
    {
        *links = Links::new();
        let mut above = 0;
        'links: for _ in 0..count {
            let link = self.link(above)?;
            above = link.port();
            links.push(link);
        }
        Ok(())
    }

    // Sets links to the next ones.
    #[tactic(auto, unfolding(crate::specs::Reading::links_at))]
    fn links(&mut self, links: &mut Links) -> Result<(), DecodeRefusal>
        ensures { ReadsAs (λ _. links.new) links_at result self.old self.new }
    {
        let count = self.within(0, LAST_PORT)?;
        self.links_of(count, links)
    }

    // Sets an entry to the next one.
    #[tactic(auto, unfolding(crate::specs::Reading::entry_at))]
    fn entry(&mut self, entry: &mut Entry) -> Result<(), DecodeRefusal>
        ensures { ReadsAs (λ _. entry.new) entry_at result self.old self.new }
    {
        entry.life = self.life()?;
        entry.position = self.position()?;
        entry.proposed = self.within(1, MOST_NUMBER)?;
        self.links(&mut entry.links)
    }

    // Sets an entry to the next one, whose life must be above `above`, if there is one.
    #[tactic(auto, unfolding(crate::specs::Reading::entry_above_at))]
    fn entry_above(&mut self, above: Option<Life>, entry: &mut Entry) -> Result<(), DecodeRefusal>
        ensures { ReadsAs (λ _. entry.new) (entry_above_at above) result self.old self.new }
    {
        self.entry(entry)?;
        if let Some(above) = above {
            if above >= entry.life {
                return Err(DecodeRefusal::NotAFrame);
            }
        }
        Ok(())
    }

    // The next `count` entries, in ascending order of life.
    fn entries_of(&mut self, alloc: Global, count: u8) -> Result<Vec<Entry>, DecodeRefusal>
        ensures { ReadsAs (λ v. v.items) (entries_from None count) result self.old self.new }
    {
        let mut entries = Vec::with_capacity(alloc, usize::from(count))?;
        let mut above = None;
        let mut entry = no_entry();
        'entries: for _ in 0..count {
            self.entry_above(above, &mut entry)?;
            above = Some(entry.life);
            entries.push_reserved(entry.copy());
        }
        Ok(entries)
    }

    #[tactic(auto, unfolding(crate::specs::Reading::entries_at))]
    fn entries(&mut self, alloc: Global) -> Result<Entries, DecodeRefusal>
        ensures { Reads entries_at result self.old self.new }
    {
        let count = self.within(1, MOST_NUMBER)?;
        let entries = self.entries_of(alloc, count)?;
        Ok(Entries::new(entries))
    }

    #[tactic(auto, unfolding(crate::specs::Reading::numbers_at))]
    fn numbers(&mut self, alloc: Global, count: usize) -> Result<Numbers, DecodeRefusal>
        requires { IsWithin 1 MOST_NUMBER count }
        ensures reads { Reads (numbers_at count) result self.old self.new }
        ensures as_many { IfOk result (λ numbers. length numbers ≡ count) }
    {
        if self.rest.len() < count {
            return Err(DecodeRefusal::NotAFrame);
        }
        let (numbers, rest) = self.rest.split_at(count);
        if !are_numbers(numbers) {
            return Err(DecodeRefusal::NotAFrame);
        }
        self.rest = rest;
        Ok(Numbers::new(Vec::from_slice(alloc, numbers)?))
    }

    #[tactic(auto, unfolding(crate::specs::Reading::pos_at))]
    fn pos(&mut self) -> Result<PosBody, DecodeRefusal>
        ensures { Reads pos_at result self.old self.new }
    {
        let version = self.counted()?;
        let root = self.life()?;
        let level = self.within(0, MOST_LEVEL)?;
        let to_parent = self.truth()?;
        Ok(PosBody::new(version, root, level, to_parent))
    }

    #[tactic(auto, unfolding(crate::specs::Reading::answer_at))]
    fn answer(&mut self) -> Result<AnswerBody, DecodeRefusal>
        ensures { Reads answer_at result self.old self.new }
    {
        let version = self.counted()?;
        let to_parent = self.truth()?;
        Ok(AnswerBody::new(version, to_parent))
    }

    #[tactic(auto, unfolding(crate::specs::Reading::topo_at))]
    fn topo(&mut self, alloc: Global) -> Result<TopoBody, DecodeRefusal>
        ensures { Reads topo_at result self.old self.new }
    {
        let entries = self.entries(alloc)?;
        let count = entries.as_slice().len();
        let numbers = self.numbers(alloc, count)?;
        Ok(TopoBody::new(entries, numbers))
    }

    #[tactic(auto, unfolding(crate::specs::Reading::body_at))]
    fn body(&mut self, alloc: Global) -> Result<Body, DecodeRefusal>
        ensures { Reads body_at result self.old self.new }
    {
        let kind = self.byte()?;
        match kind {
            1 => Ok(Body::Pos(self.pos()?)),
            2 => Ok(Body::Answer(self.answer()?)),
            3 => {
                let entries = self.entries(alloc)?;
                Ok(Body::Stable { entries })
            }
            4 => Ok(Body::Topo(self.topo(alloc)?)),
            _ => Err(DecodeRefusal::NotAFrame),
        }
    }

    #[tactic(auto, unfolding(crate::specs::Reading::carry_at))]
    fn carry(&mut self, alloc: Global) -> Result<CarryFrame, DecodeRefusal>
        ensures { Reads carry_at result self.old self.new }
    {
        let epoch = self.number_64()?;
        let from = self.end()?;
        let to = self.end()?;
        let k = self.counted()?;
        let body = self.body(alloc)?;
        Ok(CarryFrame::new(epoch, from, to, k, body))
    }

    #[tactic(auto, unfolding(crate::specs::Reading::ack_at))]
    fn ack(&mut self) -> Result<Frame, DecodeRefusal>
        ensures { Reads ack_at result self.old self.new }
    {
        let epoch = self.number_64()?;
        let from = self.end()?;
        let to = self.end()?;
        let n = self.number_32()?;
        Ok(Frame::Ack { epoch, from, to, n })
    }

    #[tactic(auto, unfolding(crate::specs::Reading::probe_at))]
    fn probe(&mut self) -> Result<Frame, DecodeRefusal>
        ensures { Reads probe_at result self.old self.new }
    {
        let from = self.end()?;
        let nonce = self.number_64()?;
        Ok(Frame::Probe { from, nonce })
    }

    #[tactic(auto, unfolding(crate::specs::Reading::reply_at))]
    fn reply(&mut self) -> Result<Frame, DecodeRefusal>
        ensures { Reads reply_at result self.old self.new }
    {
        let from = self.end()?;
        let to = self.end()?;
        let nonce = self.number_64()?;
        Ok(Frame::Reply { from, to, nonce })
    }

    /// Reads a frame, after which bytes can follow.
    ///
    /// # Errors
    /// `NotAFrame` if no frame starts there; or `OutOfMemory`, which says nothing about the bytes.
    #[tactic(auto, unfolding(crate::specs::Reading::frame_at))]
    pub fn frame(&mut self, alloc: Global) -> Result<Frame, DecodeRefusal>
        ensures { Reads frame_at result self.old self.new }
    {
        let kind = self.byte()?;
        match kind {
            1 => Ok(Frame::Carry(self.carry(alloc)?)),
            2 => self.ack(),
            3 => self.probe(),
            4 => self.reply(),
            _ => Err(DecodeRefusal::NotAFrame),
        }
    }
}
