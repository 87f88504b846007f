//! Prints what a script's switches should agree on.

ghost use Rattle.std.specs.Prelude.{◌≡◌, ◌≤◌, ◌++◌, List, All, length, map, IfOk, OnOk};
ghost use Rattle.std.specs.List.{zip};
ghost use Rattle.common_lines.specs.Lines.{line_text};
ghost use Rattle.row_text.specs.TableForms.{table_words};
ghost use Rattle.switch_numbering.specs.Numbering.{numbering};
ghost use Rattle.table_build.specs.Routing.{IsRouting};
ghost use Rattle.table_build.specs.Tables.{TableOf};
ghost use Rattle.expect_text.specs.Expect.{AreTables, component_form, expect_text, IsExpectOf, member_form, number_form, Part, part_forms};
ghost use Rattle.row_text.specs.TableForms.{table_text};
ghost use Rattle.row_text.specs.Rows.{table_forms};

use an_base::entry::{Entries, Entry};
use an_base::numbers::Numbers;
use common_lines::spelling::push_line;
use common_values::memory::OutOfMemory;
use itoa::Buffer;
use net_graph::forest::trees;
use net_script::script::Script;
use row_text::decimals::Decimals;
use row_text::piece::Lives;
use row_text::row::push_row_lines;
use std::alloc::Global;
use switch_numbering::numbering::number;
use table_build::routing::Routing;
use table_build::table::Table;
use topo_graph::graph::Graph;

// Appends the line of a member: its level and, below the root, its parent and its port to it.
fn push_member(lives: &Lives, text: &mut Vec<u8>, entry: &Entry) -> Result<(), OutOfMemory>
    ensures { OnOk result
        (text.new.items ≡ text.old.items
        ++ line_text (table_words (member_form lives.now.script.now entry.now))) }
{
    let name = lives.word(entry.life)?;
    let (mut level, mut port) = (Buffer::new(), Buffer::new());
    let level = level.format(entry.position.level).as_bytes();
    if entry.position.level == 0 {
        return push_line(text, &[b"member", &name, b"level", level]);
    }
    let parent = lives.word(entry.position.parent)?;
    let port = port.format(entry.position.port).as_bytes();
    push_line(
        text,
        &[
            b"member", &name, b"level", level, b"parent", &parent, b"port", port,
        ],
    )
}

// Appends the lines of the members.
fn push_members(lives: &Lives, text: &mut Vec<u8>, entries: &[Entry]) -> Result<(), OutOfMemory>
    ensures { OnOk result
        (text.new.items ≡ text.old.items
        ++ table_text (map (member_form lives.now.script.now) entries.now)) }
{
    'members: for entry in entries {
        push_member(lives, text, entry)?;
    }
    Ok(())
}

// Appends the line of a member's number.
fn push_numbered(
    lives: &Lives,
    text: &mut Vec<u8>,
    entry: &Entry,
    number: u8,
) -> Result<(), OutOfMemory>
    ensures { OnOk result (text.new.items ≡ text.old.items
        ++ line_text (table_words (number_form lives.now.script.now (entry.now, number)))) }
{
    let name = lives.word(entry.life)?;
    let mut digits = Buffer::new();
    push_line(text, &[b"number", &name, digits.format(number).as_bytes()])
}

// Appends the lines of the numbers of the members.
fn push_numbers(
    lives: &Lives,
    text: &mut Vec<u8>,
    entries: &[Entry],
    numbers: &[u8],
) -> Result<(), OutOfMemory>
    requires { length numbers.now ≡ length entries.now }
    ensures { OnOk result (text.new.items ≡ text.old.items
        ++ table_text (map (number_form lives.now.script.now) (zip entries.now numbers.now))) }
{
    'numbers: for (i, entry) in entries.iter().enumerate() {
        push_numbered(lives, text, entry, numbers[i])?;
    }
    Ok(())
}

// Appends the lines of the tables of the members, which share this graph, these numbers and this routing.
fn push_shared(
    lives: &Lives,
    text: &mut Vec<u8>,
    decimals: &Decimals,
    graph: &Graph,
    numbers: &Numbers,
    routing: &Routing,
    any: bool,
) -> Result<(), OutOfMemory>
    requires numbers { numbers.now ≡ numbering graph.now }
    requires routing { IsRouting graph.now numbers.now routing.now }
    ensures { OnOk result ((ts : List TableOf)
        × AreTables graph.now any (length graph.now) ts
        × (text.new.items ≡ text.old.items
        ++ table_text (table_forms lives.now.script.now graph.now 0 ts))) }
{
    'members: for x in 0..graph.count() {
        let table = Table::of(lives.alloc, graph, numbers, routing, x, any)?;
        push_row_lines(lives, text, decimals, graph, x, table.as_slice())?;
    }
    Ok(())
}

// Appends the lines of the tables of the members.
fn push_tables(
    lives: &Lives,
    text: &mut Vec<u8>,
    decimals: &Decimals,
    component: &Entries,
    numbers: &Numbers,
    any: bool,
) -> Result<(), OutOfMemory>
    requires { numbers.now ≡ numbering component.now }
    ensures { OnOk result ((ts : List TableOf)
        × AreTables component.now any (length component.now) ts
        × (text.new.items ≡ text.old.items
        ++ table_text (table_forms lives.now.script.now component.now 0 ts))) }
{
    let graph = Graph::of(lives.alloc, component)?;
    let routing = Routing::of(lives.alloc, &graph, numbers)?;
    push_shared(lives, text, decimals, &graph, numbers, &routing, any)
}

// Appends the line of a component.
#[tactic(auto, using(std::proofs::lemmas::List::get_or_default))]
fn push_head(lives: &Lives, text: &mut Vec<u8>, entries: &[Entry]) -> Result<(), OutOfMemory>
    requires some { 1 ≤ length entries.now }
    ensures { OnOk result
        (text.new.items ≡ text.old.items
        ++ line_text (table_words (component_form lives.now.script.now entries.now))) }
{
    let first = &entries[0];
    let root = lives.word(first.position.root)?;
    let mut digits = Buffer::new();
    let count = digits.format(entries.len()).as_bytes();
    push_line(text, &[b"component", &root, b"members", count])
}

// Appends the lines of a component.
fn push_component(
    lives: &Lives,
    text: &mut Vec<u8>,
    decimals: &Decimals,
    component: &Entries,
    any: bool,
) -> Result<(), OutOfMemory>
    ensures { OnOk result ((ts : List TableOf)
        × AreTables component.now any (length component.now) ts
        × (text.new.items ≡ text.old.items
        ++ table_text (part_forms lives.now.script.now (record { entries = component.now; tables = ts })))) }
{
    let entries = component.as_slice();
    let numbers = number(lives.alloc, component)?;
    push_head(lives, text, entries)?;
    push_members(lives, text, entries)?;
    push_numbers(lives, text, entries, numbers.as_slice())?;
    push_tables(lives, text, decimals, component, &numbers, any)
}

// The text of the components.
fn text_of(lives: &Lives, forest: &[Entries], any: bool) -> Result<Vec<u8>, OutOfMemory>
    ensures { IfOk result (λ text. (parts : List Part)
        × (map (λ p. p.entries) parts ≡ forest.now)
        × All (λ p. AreTables p.entries any (length p.entries) p.tables) parts
        × (text.items ≡ expect_text lives.now.script.now parts)) }
{
    let decimals = Decimals::new(lives.alloc)?;
    let mut text = Vec::new(lives.alloc);
    'components: for component in forest {
        push_component(lives, &mut text, &decimals, component, any)?;
    }
    push_line(&mut text, &[b"end"])?;
    Ok(text)
}

/// Returns what the switches of the script's network should agree on, with all links up.
///
/// For each component, in ascending order of its root, the lines are: its root and the number of its
/// members; for each member, in ascending order of life, its level and, below the root, its parent and
/// its port to the parent; the number of each member; for each member and each entry, 0 and the ports
/// with a link, the row with the exits to each other member, in ascending order of number. The last
/// line is `end`. Each line ends in a line feed.
///
/// # Errors
/// `OutOfMemory` if an allocation fails.
pub fn expect(alloc: Global, script: &Script) -> Result<Vec<u8>, OutOfMemory>
    ensures { IfOk result (λ text. IsExpectOf script.now text.items) }
{
    let forest = trees(alloc, script.wiring())?;
    text_of(&Lives { alloc, script }, &forest, script.any_routes())
}
