//! The lines that `ibnetdiscover` prints.

ghost use Rattle.std.specs.Prelude.{◌≡◌, Some, None, MatchOption};
ghost use Rattle.fabric_topology.specs.Discovered.{quoted, in_brackets, in_parentheses};
ghost use Rattle.fabric_topology.specs.Discovered.{switch_id, adapter_id, far_end, far_port, last_lid, own_guid};
ghost use Rattle.fabric_topology.specs.Discovered.{own_lids, port_lids};
ghost use Rattle.fabric_topology.specs.Discovered.{switch_head, adapter_head, switch_port, adapter_port};
ghost use Rattle.fabric_topology.specs.Discovered.{head_line, port_line, discovered};
ghost use Rattle.fabric_topology.specs.Discovered.{is_of_chassis, is_of_ids, is_passed_over};

use crate::fact::{Fact, Line, Part, PortTold};
use crate::front::{begins, front_number, number_then};
use fabric_words::cut::{after, cut, cut_first, cut_last};
use fabric_words::digits::{decimal, guid, hex};

/// Returns the first word in quotes, and what follows it.
#[tactic(auto, unfolding(crate::specs::Discovered::quoted))]
pub fn quoted(text: &[u8]) -> Option<(&[u8], &[u8])>
    ensures { MatchOption result (quoted text.now ≡ None)
        (λ r. quoted text.now ≡ Some (r.0.now, r.1.now)) }
{
    let (_front, rest) = cut(text, b'"')?;
    cut(rest, b'"')
}

// The number in the brackets at the front of a text.
#[tactic(auto, unfolding(crate::specs::Discovered::in_brackets))]
fn in_brackets(text: &[u8]) -> Option<u64>
    ensures { result ≡ in_brackets text.now }
{
    let rest = after(text, "[")?;
    let (word, _rest) = cut(rest, b']')?;
    decimal(word)
}

// The GUID in the first parentheses of a text.
#[tactic(auto, unfolding(crate::specs::Discovered::in_parentheses))]
fn in_parentheses(text: &[u8]) -> Option<u64>
    ensures { result ≡ in_parentheses text.now }
{
    let (_front, rest) = cut(text, b'(')?;
    let (word, _rest) = cut(rest, b')')?;
    hex(word)
}

// The GUID of a switch in its id.
#[tactic(auto, unfolding(crate::specs::Discovered::switch_id))]
fn switch_id(id: &[u8]) -> Option<u64>
    ensures { result ≡ switch_id id.now }
{
    let word = after(id, "S-")?;
    guid(word)
}

// The GUID of an adapter or router in its id.
#[tactic(auto, unfolding(crate::specs::Discovered::adapter_id))]
fn adapter_id(id: &[u8]) -> Option<u64>
    ensures { result ≡ adapter_id id.now }
{
    match after(id, "H-") {
        Some(word) => guid(word),
        None => {
            let word = after(id, "R-")?;
            guid(word)
        }
    }
}

// The port at the far end of a link: that of a switch in brackets after its id, or the end port of an adapter
// or router, whose GUID stands in parentheses after the id.
#[tactic(auto, unfolding(crate::specs::Discovered::far_port))]
fn far_port(id: &[u8], rest: &[u8]) -> Option<PortTold>
    ensures { result ≡ far_port id.now rest.now }
{
    match switch_id(id) {
        Some(guid) => {
            let port = in_brackets(rest)?;
            Some(PortTold::OfSwitch { guid, port })
        }
        None => {
            let _node = adapter_id(id)?;
            let guid = in_parentheses(rest)?;
            Some(PortTold::OfHost { guid })
        }
    }
}

// The same in a line, and what stands after the id.
#[tactic(auto, unfolding(crate::specs::Discovered::far_end))]
fn far_end(line: &[u8]) -> Option<(PortTold, &[u8])>
    ensures { MatchOption result (far_end line.now ≡ None)
        (λ r. far_end line.now ≡ Some (r.0, r.1.now)) }
{
    let (id, rest) = quoted(line)?;
    let port = far_port(id, rest)?;
    Some((port, rest))
}

// The LID after the last ` lid `.
#[tactic(auto, unfolding(crate::specs::Discovered::last_lid))]
fn last_lid(text: &[u8]) -> Option<u64>
    ensures { result ≡ last_lid text.now }
{
    let (_front, rest) = cut_last(text, " lid ")?;
    front_number(rest)
}

// A base LID and an LMC: `6 lmc 0`.
#[tactic(auto, unfolding(crate::specs::Discovered::own_lids))]
fn own_lids(text: &[u8]) -> Option<(u64, u64)>
    ensures { result ≡ own_lids text.now }
{
    let (base, rest) = number_then(text)?;
    let rest = after(rest, "lmc ")?;
    let lmc = front_number(rest)?;
    Some((base, lmc))
}

// What the head of a switch tells, after the word `Switch`.
#[tactic(auto, unfolding(crate::specs::Discovered::switch_head))]
fn switch_head(text: &[u8]) -> Option<Line>
    ensures { result ≡ switch_head text.now }
{
    let (ports, rest) = number_then(text)?;
    let (id, rest) = quoted(rest)?;
    let guid = switch_id(id)?;
    let (_front, numbers) = cut_last(rest, " lid ")?;
    let (base, lmc) = own_lids(numbers)?;
    let fact = Fact::Switch {
        guid,
        ports,
        base,
        lmc,
    };
    Some(Line::of(Part::Switch { guid }, fact))
}

// What the head of an adapter or router tells, after its first word: nothing, but whose section begins.
#[tactic(auto, unfolding(crate::specs::Discovered::adapter_head))]
fn adapter_head(text: &[u8]) -> Option<Line>
    ensures { result ≡ adapter_head text.now }
{
    let (_ports, rest) = number_then(text)?;
    let (id, _rest) = quoted(rest)?;
    let _guid = adapter_id(id)?;
    Some(Line::silent(Part::Adapter))
}

// What the line of a port tells in the section of a switch.
#[tactic(auto, unfolding(crate::specs::Discovered::switch_port))]
fn switch_port(guid: u64, line: &[u8]) -> Option<Line>
    ensures { result ≡ switch_port guid line.now }
{
    let port = in_brackets(line)?;
    let (other, rest) = far_end(line)?;
    let base = last_lid(rest)?;
    let link = Fact::Link {
        one: PortTold::OfSwitch { guid, port },
        other,
    };
    let neighbour = Fact::Neighbour {
        guid: other.guid(),
        base,
    };
    Some(Line::of_two(Part::Switch { guid }, link, neighbour))
}

// The GUID of the port of an adapter or router, which stands before the id of the far end.
#[tactic(auto, unfolding(crate::specs::Discovered::own_guid))]
fn own_guid(line: &[u8]) -> Option<u64>
    ensures { result ≡ own_guid line.now }
{
    let _port = in_brackets(line)?;
    let (front, _rest) = cut(line, b'"')?;
    in_parentheses(front)
}

// The LIDs of that port.
#[tactic(auto, unfolding(crate::specs::Discovered::port_lids))]
fn port_lids(text: &[u8]) -> Option<(u64, u64)>
    ensures { result ≡ port_lids text.now }
{
    let (_front, numbers) = cut_first(text, "# lid ")?;
    own_lids(numbers)
}

// What the line of a port tells in the section of an adapter or router.
#[tactic(auto, unfolding(crate::specs::Discovered::adapter_port))]
fn adapter_port(line: &[u8]) -> Option<Line>
    ensures { result ≡ adapter_port line.now }
{
    let guid = own_guid(line)?;
    let (other, rest) = far_end(line)?;
    let (base, lmc) = port_lids(rest)?;
    let far_base = last_lid(rest)?;
    let host = Fact::Host { guid, base, lmc };
    let link = Fact::Link {
        one: PortTold::OfHost { guid },
        other,
    };
    let neighbour = Fact::Neighbour {
        guid: other.guid(),
        base: far_base,
    };
    Some(Line::of_three(Part::Adapter, host, link, neighbour))
}

// What the line of a head tells.
#[tactic(auto, unfolding(crate::specs::Discovered::head_line))]
fn head_line(line: &[u8]) -> Option<Line>
    ensures { result ≡ head_line line.now }
{
    if let Some(text) = after(line, "Switch\t") {
        return switch_head(text);
    }
    if let Some(text) = after(line, "Ca\t") {
        return adapter_head(text);
    }
    let text = after(line, "Rt\t")?;
    adapter_head(text)
}

// What the line of a port tells: nothing that may stand outside the sections of nodes.
#[tactic(auto, unfolding(crate::specs::Discovered::port_line))]
fn port_line(part: Part, line: &[u8]) -> Option<Line>
    ensures { result ≡ port_line part line.now }
{
    match part {
        Part::Switch { guid } => switch_port(guid, line),
        Part::Adapter => adapter_port(line),
        Part::Start => None,
        Part::Outside => None,
        Part::Lmc { lmc: _ } => None,
        Part::Dumped { lmc: _ } => None,
        Part::Plain => None,
        Part::Ended => None,
    }
}

// Whether a line names a chassis, or says that the nodes of none follow.
fn is_of_chassis(line: &[u8]) -> bool
    ensures { result ≡ is_of_chassis line.now }
{
    begins(line, "Chassis ") || begins(line, "Non-Chassis Nodes")
}

// Whether a line is one of the ids that stand before the head of a node.
fn is_of_ids(line: &[u8]) -> bool
    ensures { result ≡ is_of_ids line.now }
{
    let is_of_vendor = begins(line, "vendid=") || begins(line, "devid=");
    let is_of_switch = begins(line, "sysimgguid=") || begins(line, "switchguid=");
    is_of_vendor || is_of_switch || begins(line, "caguid=") || begins(line, "rtguid=")
}

// Whether a line is passed over: a comment, the name of a chassis, or a line of ids.
#[tactic(auto, unfolding(crate::specs::Discovered::is_passed_over))]
fn is_passed_over(line: &[u8]) -> bool
    ensures { result ≡ is_passed_over line.now }
{
    if begins(line, "#") {
        return true;
    }
    if is_of_chassis(line) {
        return true;
    }
    is_of_ids(line)
}

/// Parses a line of the output of `ibnetdiscover`, at part `part`.
#[tactic(auto, unfolding(crate::specs::Discovered::discovered))]
pub fn discovered(part: Part, line: &[u8]) -> Option<Line>
    ensures { result ≡ discovered part line.now }
{
    if line.is_empty() {
        return Some(Line::silent(Part::Outside));
    }
    if begins(line, "[") {
        return port_line(part, line);
    }
    if is_passed_over(line) {
        return Some(Line::silent(part));
    }
    head_line(line)
}
