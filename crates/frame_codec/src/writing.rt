//! Encodes frames. Kinds and counts precede what they describe, and numbers start with their highest byte.

ghost use Rattle.std.specs.Prelude.{◌≡◌, ◌≤◌, ◌<◌, ◌^◌, ◌+◌, ◌*◌, [], ◌∷◌, ◌++◌, length, All};
ghost use Rattle.std.specs.List.{flat_map};
ghost use Rattle.frame_codec.specs.Spelling.{number_bytes, life_bytes, end_bytes, truth_bytes};
ghost use Rattle.frame_codec.specs.Spelling.{position_bytes, link_bytes, links_bytes, entry_bytes};
ghost use Rattle.frame_codec.specs.Spelling.{entries_bytes, pos_bytes, answer_bytes, topo_bytes, body_bytes};
ghost use Rattle.frame_codec.specs.Spelling.{carry_bytes, carried, spelling};
ghost use Rattle.an_base.specs.declared.frame.Frame.TheVariants.{Carry};
ghost use Rattle.frame_codec.specs.Frames.{IsLife, IsEnd, IsPosition, IsLink, AreLinks, IsEntry, AreEntries};
ghost use Rattle.frame_codec.specs.Frames.{IsPos, IsCounted, IsTopo, IsBody, IsCarry, IsFrame};
ghost use Rattle.frame_region.specs.declared.buffer.TheConstants.{MOST_FRAME};

use an_base::body::{AnswerBody, Body, PosBody, TopoBody};
use an_base::entry::{Entries, Entry};
use an_base::frame::Frame;
use an_base::life::{End, Life};
use an_base::links::{Links, PortLink};
use an_base::position::Position;
use byteorder::{BigEndian, ByteOrder};
use frame_region::buffer::FrameBuf;

#[tactic(auto, unfolding(crate::specs::Spelling::number_bytes))]
fn put_number_32(out: &mut FrameBuf, number: u32)
    requires { length out.old + 4 ≤ MOST_FRAME }
    ensures spelled { out.new ≡ out.old ++ number_bytes 4 number }
    ensures longer { length out.new ≡ length out.old + 4 }
{
    let mut bytes = [0; 4];
    BigEndian::write_u32(&mut bytes, number);
    out.add_few(&bytes);
}

#[tactic(auto, unfolding(crate::specs::Spelling::number_bytes))]
fn put_number_64(out: &mut FrameBuf, number: u64)
    requires { length out.old + 8 ≤ MOST_FRAME }
    ensures spelled { out.new ≡ out.old ++ number_bytes 8 number }
    ensures longer { length out.new ≡ length out.old + 8 }
{
    let mut bytes = [0; 8];
    BigEndian::write_u64(&mut bytes, number);
    out.add_few(&bytes);
}

fn put_truth(out: &mut FrameBuf, truth: bool)
    requires { length out.old + 1 ≤ MOST_FRAME }
    ensures spelled { out.new ≡ out.old ++ truth_bytes truth }
    ensures longer { length out.new ≡ length out.old + 1 }
{
    if truth {
        out.add_few(&[1]);
    } else {
        out.add_few(&[0]);
    }
}

#[tactic(auto, unfolding(crate::specs::Spelling::number_bytes))]
fn put_life(out: &mut FrameBuf, life: Life)
    requires { length out.old + 10 ≤ MOST_FRAME }
    ensures spelled { out.new ≡ out.old ++ life_bytes life }
    ensures within { IsLife life }
    ensures longer { length out.new ≡ length out.old + 10 }
{
    let mut uid = [0; 6];
    BigEndian::write_uint(&mut uid, life.uid(), 6);
    out.add_few(&uid);
    put_number_32(out, life.boot());
}

fn put_end(out: &mut FrameBuf, end: End)
    requires { length out.old + 11 ≤ MOST_FRAME }
    ensures spelled { out.new ≡ out.old ++ end_bytes end }
    ensures within { IsEnd end }
    ensures longer { length out.new ≡ length out.old + 11 }
{
    put_life(out, end.life());
    out.add_few(&[end.port()]);
}

fn put_position(out: &mut FrameBuf, position: &Position)
    requires { length out.old + 22 ≤ MOST_FRAME }
    ensures spelled { out.new ≡ out.old ++ position_bytes position.now }
    ensures within { IsPosition position.now }
    ensures longer { length out.new ≡ length out.old + 22 }
{
    put_life(out, position.root);
    out.add_few(&[position.level]);
    put_life(out, position.parent);
    out.add_few(&[position.port]);
}

fn put_link(out: &mut FrameBuf, link: &PortLink)
    requires { length out.old + 12 ≤ MOST_FRAME }
    ensures spelled { out.new ≡ out.old ++ link_bytes link.now }
    ensures within { IsLink link.now }
    ensures longer { length out.new ≡ length out.old + 12 }
{
    out.add_few(&[link.port()]);
    put_end(out, link.peer());
}

// Appends the links that follow their count.
fn put_each_link(out: &mut FrameBuf, links: &[PortLink])
    requires { length out.old + 12 * length links.now ≤ MOST_FRAME }
    ensures spelled { out.new ≡ out.old ++ flat_map link_bytes links.now }
    ensures within { All IsLink links.now }
    ensures longer { length out.new ≤ length out.old + 12 * length links.now }
{
    'links: for link in links {
        put_link(out, link);
    }
}

fn put_links(out: &mut FrameBuf, links: &Links)
    requires { length out.old + 145 ≤ MOST_FRAME }
    ensures spelled { out.new ≡ out.old ++ links_bytes links.now }
    ensures within { AreLinks links.now }
    ensures longer { length out.new ≤ length out.old + 145 }
{
    let links = links.as_slice();
    out.add_few(&[links.len() as u8]);
    put_each_link(out, links);
}

fn put_entry(out: &mut FrameBuf, entry: &Entry)
    requires { length out.old + 178 ≤ MOST_FRAME }
    ensures spelled { out.new ≡ out.old ++ entry_bytes entry.now }
    ensures within { IsEntry entry.now }
    ensures longer { length out.new ≤ length out.old + 178 }
{
    put_life(out, entry.life);
    put_position(out, &entry.position);
    out.add_few(&[entry.proposed]);
    put_links(out, &entry.links);
}

// Appends the entries that follow their count.
fn put_each_entry(out: &mut FrameBuf, entries: &[Entry])
    requires { length out.old + 178 * length entries.now ≤ MOST_FRAME }
    ensures spelled { out.new ≡ out.old ++ flat_map entry_bytes entries.now }
    ensures within { All IsEntry entries.now }
    ensures longer { length out.new ≤ length out.old + 178 * length entries.now }
{
    'entries: for entry in entries {
        put_entry(out, entry);
    }
}

fn put_entries(out: &mut FrameBuf, entries: &Entries)
    requires { length out.old + 22429 ≤ MOST_FRAME }
    ensures spelled { out.new ≡ out.old ++ entries_bytes entries.now }
    ensures within { AreEntries entries.now }
    ensures longer { length out.new ≤ length out.old + 22429 }
{
    let entries = entries.as_slice();
    out.add_few(&[entries.len() as u8]);
    put_each_entry(out, entries);
}

fn put_pos(out: &mut FrameBuf, body: PosBody)
    requires { length out.old + 16 ≤ MOST_FRAME }
    ensures spelled { out.new ≡ out.old ++ pos_bytes body }
    ensures within { IsPos body }
{
    put_number_32(out, body.version);
    put_life(out, body.root);
    out.add_few(&[body.level]);
    put_truth(out, body.to_parent);
}

fn put_answer(out: &mut FrameBuf, body: AnswerBody)
    requires { length out.old + 5 ≤ MOST_FRAME }
    ensures spelled { out.new ≡ out.old ++ answer_bytes body }
    ensures within { IsCounted body.version }
{
    put_number_32(out, body.version);
    put_truth(out, body.to_parent);
}

fn put_topo(out: &mut FrameBuf, body: &TopoBody)
    requires { length out.old + 22555 ≤ MOST_FRAME }
    ensures spelled { out.new ≡ out.old ++ topo_bytes body.now }
    ensures within { IsTopo body.now }
{
    put_entries(out, body.entries());
    out.add(body.numbers().as_slice());
}

fn put_body(out: &mut FrameBuf, body: &Body)
    requires { length out.old + 22556 ≤ MOST_FRAME }
    ensures spelled { out.new ≡ out.old ++ body_bytes body.now }
    ensures within { IsBody body.now }
{
    match body {
        Body::Pos(body) => {
            out.add_few(&[1]);
            put_pos(out, *body);
        }
        Body::Answer(body) => {
            out.add_few(&[2]);
            put_answer(out, *body);
        }
        Body::Stable { entries } => {
            out.add_few(&[3]);
            put_entries(out, entries);
        }
        Body::Topo(body) => {
            out.add_few(&[4]);
            put_topo(out, body);
        }
    }
}

fn put_carry(out: &mut FrameBuf, head: &CarryHead, body: &Body)
    requires room { length out.old + 22590 ≤ MOST_FRAME }
    requires number { 1 ≤ head.now.k }
    ensures spelled { out.new ≡ out.old ++ carry_bytes (carried head.now body.now) }
    ensures within { IsCarry (carried head.now body.now) }
{
    put_number_64(out, head.epoch);
    put_end(out, head.from);
    put_end(out, head.to);
    put_number_32(out, head.k);
    put_body(out, body);
}

// Sets the buffer to the kind byte.
fn begin(out: &mut FrameBuf, kind: u8)
    ensures { out.new ≡ kind ∷ [] }
{
    out.clear();
    out.add_few(&[kind]);
}

/// What precedes the body in a frame that carries it.
#[derive(Clone, Copy)]
pub struct CarryHead {
    /// The epoch of the session.
    pub epoch: u64,
    /// The end that sends the body.
    pub from: End,
    /// The end that is to accept it.
    pub to: End,
    /// The number of the body in its direction of the session, from 1.
    pub k: u32,
}

/// Sets `out` to the encoding of the frame that carries `body`, without allocating or moving the body.
///
/// The number in `head` must be at least 1.
pub fn encode_carry(head: &CarryHead, body: &Body, out: &mut FrameBuf)
    requires { 1 ≤ head.now.k }
    ensures spelled { out.new ≡ spelling (Carry (carried head.now body.now)) }
    ensures within { IsFrame (Carry (carried head.now body.now)) }
{
    begin(out, 1);
    put_carry(out, head, body);
}

/// Sets `out` to the encoding of `frame`, without allocating.
///
/// Each value of the type is in the ranges of a frame.
pub fn encode(frame: &Frame, out: &mut FrameBuf)
    ensures spelled { out.new ≡ spelling frame.now }
    ensures within { IsFrame frame.now }
{
    match frame {
        Frame::Carry(carry) => {
            let head = CarryHead {
                epoch: carry.epoch,
                from: carry.from,
                to: carry.to,
                k: carry.k,
            };
            encode_carry(&head, &carry.body, out);
        }
        Frame::Ack { epoch, from, to, n } => {
            begin(out, 2);
            put_number_64(out, *epoch);
            put_end(out, *from);
            put_end(out, *to);
            put_number_32(out, *n);
        }
        Frame::Probe { from, nonce } => {
            begin(out, 3);
            put_end(out, *from);
            put_number_64(out, *nonce);
        }
        Frame::Reply { from, to, nonce } => {
            begin(out, 4);
            put_end(out, *from);
            put_end(out, *to);
            put_number_64(out, *nonce);
        }
    }
}
