//! The lines of the plain format.

ghost use Rattle.std.specs.Prelude.{◌≡◌, Some, None, MatchOption};
ghost use Rattle.fabric_topology.specs.Plain.{id_then, plain_switch, plain_host, plain_link};
ghost use Rattle.fabric_topology.specs.Plain.{item, is_silent, plain, ended};

use crate::fact::{Fact, Line, Part, PortTold};
use crate::front::{begins, front_number, number_then};
use common_lines::word::is;
use fabric_words::cut::{after, cut};
use fabric_words::digits::hex;

// The id at the front of a text, up to a space, and what stands after that.
#[tactic(auto, unfolding(crate::specs::Plain::id_then))]
fn id_then(text: &[u8]) -> Option<(u64, &[u8])>
    ensures { MatchOption result (id_then text.now ≡ None)
        (λ r. id_then text.now ≡ Some (r.0, r.1.now)) }
{
    let (id, rest) = cut(text, b' ')?;
    let word = after(id, "0x")?;
    let number = hex(word)?;
    Some((number, rest))
}

// What a switch's line tells, after its first word.
#[tactic(auto, unfolding(crate::specs::Plain::plain_switch))]
fn plain_switch(text: &[u8]) -> Option<Line>
    ensures { result ≡ plain_switch text.now }
{
    let (guid, rest) = id_then(text)?;
    let (ports, rest) = number_then(rest)?;
    let (base, rest) = number_then(rest)?;
    let lmc = front_number(rest)?;
    let fact = Fact::Switch {
        guid,
        ports,
        base,
        lmc,
    };
    Some(Line::of(Part::Plain, fact))
}

// What a host's line tells, after its first word.
#[tactic(auto, unfolding(crate::specs::Plain::plain_host))]
fn plain_host(text: &[u8]) -> Option<Line>
    ensures { result ≡ plain_host text.now }
{
    let (guid, rest) = id_then(text)?;
    let (base, rest) = number_then(rest)?;
    let (lmc, rest) = number_then(rest)?;
    let (switch, rest) = id_then(rest)?;
    let port = front_number(rest)?;
    let host = Fact::Host { guid, base, lmc };
    let there = Fact::HasSwitch { guid: switch };
    let link = Fact::Link {
        one: PortTold::OfHost { guid },
        other: PortTold::OfSwitch { guid: switch, port },
    };
    Some(Line::of_three(Part::Plain, host, there, link))
}

// What a link's line tells, after its first word.
#[tactic(auto, unfolding(crate::specs::Plain::plain_link))]
fn plain_link(text: &[u8]) -> Option<Line>
    ensures { result ≡ plain_link text.now }
{
    let (one, rest) = id_then(text)?;
    let (port, rest) = number_then(rest)?;
    let (other, rest) = id_then(rest)?;
    let far_port = front_number(rest)?;
    let there = Fact::HasSwitch { guid: one };
    let far_there = Fact::HasSwitch { guid: other };
    let link = Fact::Link {
        one: PortTold::OfSwitch { guid: one, port },
        other: PortTold::OfSwitch {
            guid: other,
            port: far_port,
        },
    };
    Some(Line::of_three(Part::Plain, there, far_there, link))
}

// What a line tells by its first word.
#[tactic(auto, unfolding(crate::specs::Plain::item))]
fn item(line: &[u8]) -> Option<Line>
    ensures { result ≡ item line.now }
{
    if let Some(text) = after(line, "switch ") {
        return plain_switch(text);
    }
    if let Some(text) = after(line, "host ") {
        return plain_host(text);
    }
    let text = after(line, "link ")?;
    plain_link(text)
}

/// Reports whether `line` is empty or a comment.
pub fn is_silent(line: &[u8]) -> bool
    ensures { result ≡ is_silent line.now }
{
    line.is_empty() || begins(line, "#")
}

/// Parses a line between the first and the last.
#[tactic(auto, unfolding(crate::specs::Plain::plain))]
pub fn plain(line: &[u8]) -> Option<Line>
    ensures { result ≡ plain line.now }
{
    if is_silent(line) {
        return Some(Line::silent(Part::Plain));
    }
    if is(line, "end") {
        return Some(Line::silent(Part::Ended));
    }
    item(line)
}

/// Parses a line after the last.
#[tactic(auto, unfolding(crate::specs::Plain::ended))]
pub fn ended(line: &[u8]) -> Option<Line>
    ensures { result ≡ ended line.now }
{
    if is_silent(line) {
        return Some(Line::silent(Part::Ended));
    }
    None
}
