//! The lines of `opensm-subnet.lst`.

ghost use Rattle.std.specs.Prelude.{◌≡◌, Some, None, MatchOption};
ghost use Rattle.fabric_topology.specs.Dumped.{hex_then, guid_then, guids, at, told_by, side};
ghost use Rattle.fabric_topology.specs.Dumped.{near_parts, far_parts, near_side, dumped, lmc_line};

use crate::fact::{Fact, Line, Part, PortTold};
use crate::front::begins;
use fabric_words::cut::{after, cut, cut_first, cut_last};
use fabric_words::digits::{guid, hex, number_to};

// The number in hexadecimal digits at the front of a text, up to a space, and what stands after that.
#[tactic(auto, unfolding(crate::specs::Dumped::hex_then))]
fn hex_then(text: &[u8]) -> Option<(u64, &[u8])>
    ensures { MatchOption result (hex_then text.now ≡ None)
        (λ r. hex_then text.now ≡ Some (r.0, r.1.now)) }
{
    let (word, rest) = cut(text, b' ')?;
    let number = hex(word)?;
    Some((number, rest))
}

// The same of a GUID in sixteen digits.
#[tactic(auto, unfolding(crate::specs::Dumped::guid_then))]
fn guid_then(text: &[u8]) -> Option<(u64, &[u8])>
    ensures { MatchOption result (guid_then text.now ≡ None)
        (λ r. guid_then text.now ≡ Some (r.0, r.1.now)) }
{
    let (word, rest) = cut(text, b' ')?;
    let number = guid(word)?;
    Some((number, rest))
}

// The GUIDs of a node and of its port, after ` SystemGUID:`.
#[tactic(auto, unfolding(crate::specs::Dumped::guids))]
fn guids(text: &[u8]) -> Option<(u64, u64)>
    ensures { result ≡ guids text.now }
{
    let (_front, rest) = cut_first(text, " NodeGUID:")?;
    let (node, rest) = guid_then(rest)?;
    let rest = after(rest, "PortGUID:")?;
    let (port, _rest) = guid_then(rest)?;
    Some((node, port))
}

// A LID and the number of a port: `0006 PN:01`.
#[tactic(auto, unfolding(crate::specs::Dumped::at))]
fn at(text: &[u8]) -> Option<(u64, u64)>
    ensures { result ≡ at text.now }
{
    let (base, rest) = hex_then(text)?;
    let word = after(rest, "PN:")?;
    let port = hex(word)?;
    Some((base, port))
}

// What a node of a kind is, and the port of it. The LMC is that of an adapter or router.
#[tactic(auto, unfolding(crate::specs::Dumped::told_by))]
fn told_by(
    lmc: u64,
    kind: &[u8],
    ports: u64,
    guids: (u64, u64),
    at: (u64, u64),
) -> Option<(Fact, PortTold)>
    ensures { result ≡ told_by lmc kind.now ports guids at }
{
    let (node, end) = guids;
    let (base, port) = at;
    if begins(kind, "SW") {
        let fact = Fact::Switch {
            guid: node,
            ports,
            base,
            lmc: 0,
        };
        return Some((fact, PortTold::OfSwitch { guid: node, port }));
    }
    if begins(kind, "CA") || begins(kind, "Rt") {
        let fact = Fact::Host {
            guid: end,
            base,
            lmc,
        };
        return Some((fact, PortTold::OfHost { guid: end }));
    }
    None
}

// What one side of a line tells: of its head, of what stands after ` SystemGUID:`, and of what stands after
// the description.
#[tactic(auto, unfolding(crate::specs::Dumped::side))]
fn side(lmc: u64, head: &[u8], rest: &[u8], numbers: &[u8]) -> Option<(Fact, PortTold)>
    ensures { result ≡ side lmc head.now rest.now numbers.now }
{
    let (kind, word) = cut(head, b' ')?;
    let word = after(word, "Ports:")?;
    let ports = hex(word)?;
    let guids = guids(rest)?;
    let at = at(numbers)?;
    told_by(lmc, kind, ports, guids, at)
}

/// Cuts the first side of a line into its head, what follows ` SystemGUID:`, and what follows the description.
#[tactic(auto, unfolding(crate::specs::Dumped::near_parts))]
pub fn near_parts(text: &[u8]) -> Option<(&[u8], &[u8], &[u8])>
    ensures { MatchOption result (near_parts text.now ≡ None)
        (λ r. near_parts text.now ≡ Some (r.0.now, r.1.now, r.2.now)) }
{
    let (front, numbers) = cut_last(text, "} LID:")?;
    let (head, guids) = cut_first(front, " SystemGUID:")?;
    Some((head, guids, numbers))
}

/// Cuts the second side of a line into its head with all that precedes it, what follows ` SystemGUID:`, and what
/// follows the description.
#[tactic(auto, unfolding(crate::specs::Dumped::far_parts))]
pub fn far_parts(line: &[u8]) -> Option<(&[u8], &[u8], &[u8])>
    ensures { MatchOption result (far_parts line.now ≡ None)
        (λ r. far_parts line.now ≡ Some (r.0.now, r.1.now, r.2.now)) }
{
    let (both, _speed) = cut_last(line, " } PHY=")?;
    let (front, numbers) = cut_last(both, "} LID:")?;
    let (heads, guids) = cut_last(front, " SystemGUID:")?;
    Some((heads, guids, numbers))
}

// What the first side of a line tells.
#[tactic(auto, unfolding(crate::specs::Dumped::near_side))]
fn near_side(lmc: u64, text: &[u8]) -> Option<(Fact, PortTold)>
    ensures { result ≡ near_side lmc text.now }
{
    let (front, guids, numbers) = near_parts(text)?;
    let head = after(front, "{ ")?;
    side(lmc, head, guids, numbers)
}

/// Parses a line of an `opensm-subnet.lst` whose end ports of adapters and routers have the LMC `lmc`.
#[tactic(auto, unfolding(crate::specs::Dumped::dumped))]
pub fn dumped(lmc: u64, line: &[u8]) -> Option<Line>
    ensures { result ≡ dumped lmc line.now }
{
    let (heads, guids, numbers) = far_parts(line)?;
    let (near, head) = cut_last(heads, " } { ")?;
    let one = near_side(lmc, near)?;
    let other = side(lmc, head, guids, numbers)?;
    let link = Fact::Link {
        one: one.1,
        other: other.1,
    };
    Some(Line::of_three(Part::Dumped { lmc }, one.0, other.0, link))
}

/// Parses the line that gives the LMC of all end ports of adapters and routers: `lmc` and a number from 0 to 7.
#[tactic(auto, unfolding(crate::specs::Dumped::lmc_line))]
pub fn lmc_line(line: &[u8]) -> Option<Line>
    ensures { result ≡ lmc_line line.now }
{
    let word = after(line, "lmc ")?;
    let lmc = number_to(word, 7)?;
    Some(Line::silent(Part::Lmc { lmc }))
}
