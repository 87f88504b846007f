//! The names of nodes, which facts do not contain.

ghost use Rattle.std.specs.Prelude.{◌≡◌, ◌++◌, [], ℕ, List, IfOk, OnOk, nat_eq};
ghost use Rattle.std.specs.Map.{lookup};
ghost use Rattle.std.specs.Option.{option_copied};
ghost use Rattle.fabric_topology.specs.Names.{AreNamesBy, AreNamesOf, braced, far_name, head_name, named};
ghost use Rattle.fabric_topology.specs.Names.{near_braced, near_name, node_told, past, past_four, plain_name};
ghost use Rattle.fabric_topology.specs.Names.{section_name};

use crate::discovered::quoted;
use crate::dumped::{far_parts, near_parts};
use crate::fact::{Fact, Part};
use crate::reader::says;
use common_lines::line::first_line;
use common_values::memory::OutOfMemory;
use common_values::text::Word;
use fabric_words::cut::{after, cut, cut_first, cut_last};
use indexmap::{IndexMap, IndexSet};
use std::alloc::Global;

/// Returns the names that a text gives to the nodes with GUIDs in `guids`: a switch by its GUID, an end port of an
/// adapter or router by the GUID of the port. If several lines name a node, the first counts. A node without a name is
/// left out. A line that is not a line of a topology ends the text.
///
/// # Errors
/// `OutOfMemory`.
pub fn names_of(
    alloc: Global,
    bytes: &[u8],
    guids: &IndexSet<u64>,
) -> Result<IndexMap<u64, Word>, OutOfMemory>
    ensures { IfOk result (λ names. AreNamesOf bytes.now guids.now.keys names.entries) }
{
    let mut names = IndexMap::new(alloc);
    note_names(alloc, &mut names, bytes, guids)?;
    Ok(names)
}

// Notes the names that a text tells of the nodes that are asked for. It is not gone over if there are none.
fn note_names(
    alloc: Global,
    names: &mut IndexMap<u64, Word>,
    bytes: &[u8],
    guids: &IndexSet<u64>,
) -> Result<(), OutOfMemory>
    requires { names.old.entries ≡ [] }
    ensures { OnOk result (AreNamesOf bytes.now guids.now.keys names.new.entries) }
{
    if guids.is_empty() {
        return Ok(());
    }
    let mut part = Part::Start;
    let mut section = None;
    let mut rest = bytes;
    'lines: while let Some((line, after)) = first_line(rest) {
        let Some(said) = says(part, line) else {
            return Ok(());
        };
        part = said.part;
        section = section_name(section, line);
        note(
            alloc,
            names,
            guids,
            node_told(said.first),
            near_name(part, section, line),
        )?;
        note(
            alloc,
            names,
            guids,
            node_told(said.second),
            far_name(part, line),
        )?;
        rest = after;
    }
    Ok(())
}

// Notes the name of a node, if there are both, it is asked for, and no name is noted.
fn note(
    alloc: Global,
    names: &mut IndexMap<u64, Word>,
    guids: &IndexSet<u64>,
    node: Option<u64>,
    name: Option<&[u8]>,
) -> Result<(), OutOfMemory>
    ensures { OnOk result ((told : List (ℕ × List ℕ)) →
        AreNamesBy (λ guid. lookup (nat_eq guid) told) guids.now.keys names.old.entries →
        AreNamesBy (λ guid. lookup (nat_eq guid) (told ++ named node (option_copied name.entry)))
        guids.now.keys names.new.entries) }
{
    let Some(guid) = node else {
        return Ok(());
    };
    let Some(name) = name else {
        return Ok(());
    };
    if guids.contains(&guid) && !names.contains_key(&guid) {
        let word = Word::of(alloc, name)?;
        names.insert(guid, word)?;
    }
    Ok(())
}

// The node that a fact tells of.
fn node_told(fact: Option<Fact>) -> Option<u64>
    ensures { result ≡ node_told fact }
{
    match fact? {
        Fact::Switch {
            guid,
            ports: _,
            base: _,
            lmc: _,
        } => Some(guid),
        Fact::Host {
            guid,
            base: _,
            lmc: _,
        } => Some(guid),
        Fact::Link { one: _, other: _ } => None,
        Fact::Neighbour { guid: _, base: _ } => None,
        Fact::HasSwitch { guid: _ } => None,
    }
}

// The name in a line of the node of its first fact.
#[tactic(auto, unfolding(crate::specs::Names::near_name))]
fn near_name<'a>(part: Part, section: Option<&'a [u8]>, line: &'a [u8]) -> Option<&'a [u8]>
    ensures { option_copied result ≡ near_name part (option_copied section.entry) line.now }
{
    match part {
        Part::Switch { guid: _ } => {
            let text = after(line, "Switch\t")?;
            head_name(text)
        }
        Part::Adapter => section,
        Part::Dumped { lmc: _ } => {
            let (heads, _guids, _numbers) = far_parts(line)?;
            near_braced(heads)
        }
        Part::Plain => plain_name(line),
        Part::Start => None,
        Part::Lmc { lmc: _ } => None,
        Part::Outside => None,
        Part::Ended => None,
    }
}

// The name in a line of the node of its second fact.
#[tactic(auto, unfolding(crate::specs::Names::far_name))]
fn far_name(part: Part, line: &[u8]) -> Option<&[u8]>
    ensures { option_copied result ≡ far_name part line.now }
{
    match part {
        Part::Dumped { lmc: _ } => {
            let (_heads, guids, _numbers) = far_parts(line)?;
            braced(guids)
        }
        Part::Switch { guid: _ } => None,
        Part::Adapter => None,
        Part::Plain => None,
        Part::Start => None,
        Part::Lmc { lmc: _ } => None,
        Part::Outside => None,
        Part::Ended => None,
    }
}

// The description in the head of a node, after its first word.
#[tactic(auto, unfolding(crate::specs::Names::head_name))]
fn head_name(text: &[u8]) -> Option<&[u8]>
    ensures { option_copied result ≡ head_name text.now }
{
    let (_id, rest) = quoted(text)?;
    let (_front, comment) = cut_first(rest, "# \"")?;
    let (name, _rest) = cut_last(comment, "\"")?;
    Some(name)
}

// The description of the adapter or router in whose section a line stands, after what it was before the line.
#[tactic(auto, unfolding(crate::specs::Names::section_name))]
fn section_name<'a>(before: Option<&'a [u8]>, line: &'a [u8]) -> Option<&'a [u8]>
    ensures { option_copied result ≡ section_name (option_copied before.entry) line.now }
{
    if let Some(text) = after(line, "Ca\t") {
        return head_name(text);
    }
    if let Some(text) = after(line, "Rt\t") {
        return head_name(text);
    }
    before
}

// The description in the first side of a line of `opensm-subnet.lst`.
#[tactic(auto, unfolding(crate::specs::Names::near_braced))]
fn near_braced(heads: &[u8]) -> Option<&[u8]>
    ensures { option_copied result ≡ near_braced heads.now }
{
    let (near, _head) = cut_last(heads, " } { ")?;
    let (_front, guids, _numbers) = near_parts(near)?;
    braced(guids)
}

// The description at the end of a side, after its brace.
#[tactic(auto, unfolding(crate::specs::Names::braced))]
fn braced(side: &[u8]) -> Option<&[u8]>
    ensures { option_copied result ≡ braced side.now }
{
    let (_guids, name) = cut_first(side, " {")?;
    Some(name)
}

// What stands after the first space.
#[tactic(auto, unfolding(crate::specs::Names::past))]
fn past(text: &[u8]) -> Option<&[u8]>
    ensures { option_copied result ≡ past text.now }
{
    let (_word, rest) = cut(text, b' ')?;
    Some(rest)
}

// What stands after four words, of which the first begins the text.
fn past_four(text: &[u8]) -> Option<&[u8]>
    ensures { option_copied result ≡ past_four text.now }
{
    let rest = past(text)?;
    let rest = past(rest)?;
    let rest = past(rest)?;
    past(rest)
}

// The name after the last number of a plain line.
#[tactic(auto, unfolding(crate::specs::Names::plain_name))]
fn plain_name(line: &[u8]) -> Option<&[u8]>
    ensures { option_copied result ≡ plain_name line.now }
{
    if let Some(text) = after(line, "switch ") {
        return past_four(text);
    }
    let text = after(line, "host ")?;
    let rest = past_four(text)?;
    past(rest)
}
