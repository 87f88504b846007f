//! Prints the broadcasts in a script's network.

ghost use Rattle.std.specs.Prelude.{◌≡◌, ◌++◌, ◌∷◌, List, [], All, codes, length, map, IfOk, OnOk};
ghost use Rattle.std.specs.Fmt.{decimal};
ghost use Rattle.an_base.specs.Values.{EntryOf};
ghost use Rattle.common_lines.specs.Lines.{line_text};
ghost use Rattle.topo_graph.specs.Topology.{IsTree};
ghost use Rattle.broadcast_flood.specs.declared.hop.FloodHop.{FloodHop as FloodHopOf};
ghost use Rattle.flood_text.specs.Floods.{AreFloods, flood_lines, flood_text, FloodPart, From, Goes};
ghost use Rattle.flood_text.specs.Floods.{IsFloodOf, line_words, lines_told, part_lines};

use an_base::entry::Entries;
use an_base::life::Life;
use broadcast_flood::flood::Flood;
use broadcast_flood::hop::FloodHop;
use common_lines::spelling::push_line;
use common_values::memory::OutOfMemory;
use itoa::Buffer;
use net_graph::forest::trees;
use net_script::script::Script;
use row_text::piece::Lives;
use std::alloc::Global;
use topo_graph::graph::Graph;

// Appends the line of a hop.
fn push_hop(lives: &Lives, text: &mut Vec<u8>, hop: &FloodHop) -> Result<(), OutOfMemory>
    ensures { OnOk result (text.new.items
        ≡ text.old.items ++ line_text (line_words lives.now.script.now (Goes hop.now))) }
{
    let name = lives.word(hop.at)?;
    let mut digits = Buffer::new();
    let port = digits.format(hop.port).as_bytes();
    if hop.up {
        return push_line(text, &[b"up", &name, port]);
    }
    push_line(text, &[b"down", &name, port])
}

// Appends the lines of hops.
fn push_hops(lives: &Lives, text: &mut Vec<u8>, hops: &[FloodHop]) -> Result<(), OutOfMemory>
    ensures { OnOk result (text.new.items ≡ text.old.items
        ++ lines_told lives.now.script.now (map Goes hops.now)) }
{
    'hops: for hop in hops {
        push_hop(lives, text, hop)?;
    }
    Ok(())
}

// Appends the line of the sender of a broadcast.
fn push_from(lives: &Lives, text: &mut Vec<u8>, life: Life) -> Result<(), OutOfMemory>
    ensures { OnOk result (text.new.items
        ≡ text.old.items ++ line_text (line_words lives.now.script.now (From life))) }
{
    let name = lives.word(life)?;
    push_line(text, &[b"flood", &name])
}

// Appends the line of the number of members that get a copy.
fn push_copies(text: &mut Vec<u8>, members: usize) -> Result<(), OutOfMemory>
    ensures { OnOk result (text.new.items ≡ text.old.items
        ++ line_text (codes "copies" ∷ decimal members ∷ [])) }
{
    let mut digits = Buffer::new();
    push_line(text, &[b"copies", digits.format(members).as_bytes()])
}

// Appends the lines of the broadcast from a member.
fn push_flood(
    lives: &Lives,
    text: &mut Vec<u8>,
    members: usize,
    from: Life,
    hops: &[FloodHop],
) -> Result<(), OutOfMemory>
    ensures { OnOk result (text.new.items
        ≡ text.old.items ++ lines_told lives.now.script.now (flood_lines members from hops.now)) }
{
    push_from(lives, text, from)?;
    push_hops(lives, text, hops)?;
    push_copies(text, members)
}

// Appends the lines of the broadcasts from the members of a component, where `flood` is made for it.
fn push_broadcasts(
    lives: &Lives,
    text: &mut Vec<u8>,
    component: &Entries,
    flood: &Flood,
) -> Result<(), OutOfMemory>
    requires { flood.now ≡ component.now }
    ensures { OnOk result ((floods : List (List FloodHopOf))
        × AreFloods component.now (length component.now) floods
        × (text.new.items ≡ text.old.items
        ++ lines_told lives.now.script.now (part_lines (record { entries = component.now; floods = floods })))) }
{
    let members = component.len();
    'members: for entry in component.as_slice() {
        let hops = flood.hops(lives.alloc, entry.life)?;
        push_flood(lives, text, members, entry.life, &hops)?;
    }
    Ok(())
}

// Appends the lines of the broadcasts from the members of a component.
fn push_floods(lives: &Lives, text: &mut Vec<u8>, component: &Entries) -> Result<(), OutOfMemory>
    requires { IsTree component.now }
    ensures { OnOk result ((floods : List (List FloodHopOf))
        × AreFloods component.now (length component.now) floods
        × (text.new.items ≡ text.old.items
        ++ lines_told lives.now.script.now (part_lines (record { entries = component.now; floods = floods })))) }
{
    let graph = Graph::of(lives.alloc, component)?;
    let flood = Flood::of(lives.alloc, &graph)?;
    push_broadcasts(lives, text, component, &flood)
}

// The text of the components.
fn text_of(lives: &Lives, forest: &[Entries]) -> Result<Vec<u8>, OutOfMemory>
    requires { All IsTree forest.now }
    ensures { IfOk result (λ text. (parts : List FloodPart)
        × (map (λ p. p.entries) parts ≡ forest.now)
        × All (λ p. AreFloods p.entries (length p.entries) p.floods) parts
        × (text.items ≡ flood_text lives.now.script.now parts)) }
{
    let mut text = Vec::new(lives.alloc);
    'components: for component in forest {
        push_floods(lives, &mut text, component)?;
    }
    push_line(&mut text, &[b"end"])?;
    Ok(text)
}

/// Returns the paths of broadcasts in the script's network, with all links up.
///
/// For each component, in ascending order of root, and each member, in ascending order of life, the
/// lines are: the sender, the hops of its broadcast, and the number of members that get a copy. The last
/// line is `end`. Each line ends in a line feed.
///
/// # Errors
/// `OutOfMemory` if an allocation fails.
pub fn flood(alloc: Global, script: &Script) -> Result<Vec<u8>, OutOfMemory>
    ensures { IfOk result (λ text. IsFloodOf script.now text.items) }
{
    let forest = trees(alloc, script.wiring())?;
    text_of(&Lives { alloc, script }, &forest)
}
