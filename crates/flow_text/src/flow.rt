//! Prints what happens to the packets that a script sends, in channels of finite buffers.

ghost use Rattle.std.specs.Prelude.{◌≡◌, ◌+◌, ◌-◌, ◌++◌, ◌∷◌, ◌<◌, ◌≤◌, ℕ, Bool, List, Option, [], codes, count_by, filter, length};
ghost use Rattle.std.specs.Prelude.{Contains, IfOk, IfSome, OnOk, slice_index_or, vec_capacity, vec_len};
ghost use Rattle.std.specs.Fmt.{decimal};
ghost use Rattle.std.specs.List.{flat_map};
ghost use Rattle.an_base.specs.Values.{EntryOf};
ghost use Rattle.net_graph.specs.Forest.{IsComponent, IsForest};
ghost use Rattle.net_script.specs.Scripts.{IsScript, ScriptOf};
ghost use Rattle.common_lines.specs.Lines.{line_text};
ghost use Rattle.switch_numbering.specs.Numbering.{numbering};
ghost use Rattle.flow_channels.specs.Layout.{LayoutOf};
ghost use Rattle.flow_channels.specs.View.{IsOver};
ghost use Rattle.row_text.specs.Names.{name_of};
ghost use Rattle.flow_text.specs.Flows.{entered_flow, fate_lines, flow_told, flow_words};
ghost use Rattle.flow_text.specs.Flows.{IsFlowOf, is_out, went_line};
ghost use Rattle.flow_text.specs.Flows.FlowLine.{Arrives, Ends, Moves};
ghost use Rattle.flow_text.specs.FlowRuns.{AreNames, HasEntered, IsOwnLayout, IsRanked};
ghost use Rattle.flow_text.specs.FlowRuns.{AreTabled, IsBegun, IsReady, IsToldPart, IsToldRun};
ghost use Rattle.flow_text.specs.Sends.{entering, homes_of, is_entering, is_local, MayAllEnter, numbers_in, sends_of};

use crate::sent::{Home, Sent, count_local, entering, homes_of, is_joined, sends_of};
use an_base::entry::{Entries, Entry};
use an_base::numbers::Numbers;
use an_base::place::Place;
use common_lines::spelling::push_line;
use common_values::memory::OutOfMemory;
use common_values::text::Word;
use flow_channels::exits::ExitTable;
use flow_channels::flow::Flow;
use flow_channels::went::Went;
use itoa::Buffer;
use net_graph::forest::trees;
use net_names::names::Names;
use net_script::script::Script;
use row_text::piece::{push_bytes, push_name};
use std::alloc::Global;
use switch_numbering::numbering::number;
use topo_graph::graph::Graph;

// The graph of a component, the numbers of its members, and the exits (egress ports) of their tables.
#[derive(Drop)]
struct Tabled {
    graph: Graph,
    numbers: Numbers,
    exits: ExitTable,
}

impl Tabled {
    // Computes them for a component.
    fn of(alloc: Global, component: &Entries, any: bool) -> Result<Self, OutOfMemory>
        ensures { IfOk result (λ tabled. AreTabled any component.now tabled.graph tabled.numbers tabled.exits) }
    {
        let graph = Graph::of(alloc, component)?;
        let numbers = number(alloc, component)?;
        let exits = ExitTable::of(alloc, &graph, &numbers, any)?;
        Ok(Tabled {
            graph,
            numbers,
            exits,
        })
    }
}

// Lets the packets enter, in their order.
fn enter_all(flow: &mut Flow, home: &Home, sends: &[Sent])
    requires { (layout : LayoutOf) × IsReady layout sends.now flow.old × MayAllEnter layout.numbers home.now sends.now }
    ensures entered { HasEntered home.now sends.now flow.old flow.new }
    ensures over { (layout : LayoutOf) → IsOver layout flow.old → MayAllEnter layout.numbers home.now sends.now
        → IsOver layout flow.new }
{
    'sends: for sent in sends {
        flow.enter(sent.packet, home.number(sent.from), home.number(sent.to));
    }
}

// A flow that the packets in `sends` have entered.
fn begun(
    alloc: Global,
    graph: &Graph,
    numbers: &Numbers,
    exits: ExitTable,
    home: &Home,
    sends: &[Sent],
    b: u16,
) -> Result<Flow, OutOfMemory>
    ghost layout: { LayoutOf }
    requires own { IsOwnLayout graph.now numbers.now exits b layout }
    requires sends { MayAllEnter numbers.now home.now sends.now }
    requires room { 1 ≤ b }
    ensures { IfOk result (IsBegun layout home.now sends.now) }
{
    let most = sends.len().max(1) as u32;
    let mut flow = Flow::new(alloc, graph, numbers, exits, b, most)?;
    enter_all(&mut flow, home, sends);
    Ok(flow)
}

// A space, and the name of the switch that has a number.
fn spaced_name(
    alloc: Global,
    script: &Script,
    entries: &[Entry],
    numbers: &[u8],
    number: u8,
) -> Result<Vec<u8>, OutOfMemory>
    requires { length numbers.now ≡ length entries.now }
    ensures { IfOk result (λ word. word.items ≡ 32 ∷ name_of script.now entries.now numbers.now number) }
{
    let mut word = Vec::new(alloc);
    word.push(b' ')?;
    push_name(alloc, &mut word, script, entries, numbers, number)?;
    Ok(word)
}

// For each number, a space and the name of the switch that has it; the name is empty if none has it.
fn names_of(
    alloc: Global,
    script: &Script,
    entries: &[Entry],
    numbers: &[u8],
) -> Result<Vec<Word>, OutOfMemory>
    requires { length numbers.now ≡ length entries.now }
    ensures { IfOk result (λ names. AreNames script.now entries.now numbers.now 256 names.items) }
{
    let mut names = Vec::with_capacity(alloc, 256)?;
    'numbers: for number in 0..256u16 {
        let name = spaced_name(alloc, script, entries, numbers, number as u8)?;
        names.push(Word::new(name))?;
    }
    Ok(names)
}

// Appends the end of the line of a move by a port. The caller has reserved eight bytes.
fn push_port(text: &mut Vec<u8>, exit: u8) -> Result<(), OutOfMemory>
    requires { vec_len text.old + 8 ≤ vec_capacity text.old }
    ensures { OnOk result (text.new.items
        ≡ text.old.items ++ 32 ∷ line_text (codes "out" ∷ decimal exit ∷ [])) }
{
    if exit < 10 {
        push_bytes(text, b" out ");
        push_bytes(text, &[b'0' + exit, b'\n']);
        return Ok(());
    }
    if exit < 20 {
        push_bytes(text, b" out ");
        // The second digit: that of `exit - 10`, as `b'0'` is 48.
        push_bytes(text, &[b'1', 38 + exit, b'\n']);
        return Ok(());
    }
    let mut digits = Buffer::new();
    text.push(b' ')?;
    push_line(text, &[b"out", digits.format(exit).as_bytes()])
}

// Reserves `bytes` and 23 more: `move `, a packet of at most ten digits, and eight bytes for an exit.
fn make_room(text: &mut Vec<u8>, bytes: usize) -> Result<(), OutOfMemory>
    ensures items { text.new.items ≡ text.old.items }
    ensures room { OnOk result (vec_len text.new + bytes + 23 ≤ vec_capacity text.new) }
{
    let Some(room) = bytes.checked_add(23) else {
        return Err(OutOfMemory);
    };
    text.reserve(room)?;
    Ok(())
}

// Appends the line of a move out of a switch, whose name follows a space.
fn push_out(text: &mut Vec<u8>, packet: u32, name: &[u8], exit: u8) -> Result<(), OutOfMemory>
    ensures { OnOk result ((switch : List ℕ) → name.now ≡ 32 ∷ switch
        → text.new.items ≡ text.old.items ++ line_text (flow_words (Moves packet switch exit))) }
{
    let mut digits = Buffer::new();
    make_room(text, name.len())?;
    push_bytes(text, b"move ");
    push_bytes(text, digits.format(packet).as_bytes());
    push_bytes(text, name);
    push_port(text, exit)
}

// Appends the line of an arrival at a switch, whose name follows a space.
fn push_arrival(text: &mut Vec<u8>, packet: u32, name: &[u8]) -> Result<(), OutOfMemory>
    ensures { OnOk result ((switch : List ℕ) → name.now ≡ 32 ∷ switch
        → text.new.items ≡ text.old.items ++ line_text (flow_words (Arrives packet switch))) }
{
    let mut digits = Buffer::new();
    make_room(text, name.len())?;
    push_bytes(text, b"arrive ");
    push_bytes(text, digits.format(packet).as_bytes());
    push_bytes(text, name);
    text.push_reserved(b'\n');
    Ok(())
}

// Appends the line of a move. `names` has the names of the switches, by number, each after a space.
fn push_went(text: &mut Vec<u8>, names: &[Word], went: Went) -> Result<(), OutOfMemory>
    requires { length names.now ≡ 256 }
    ensures { OnOk result ((script : ScriptOf) (entries : List EntryOf)
        → AreNames script entries (numbering entries) 256 names.now
        → text.new.items ≡ text.old.items ++ line_text (flow_words (went_line script entries went))) }
{
    match went {
        Went::Out { packet, at, exit } => push_out(
            text,
            packet,
            names[usize::from(at)].as_bytes(),
            exit,
        ),
        Went::Arrived { packet, at } => push_arrival(
            text,
            packet,
            names[usize::from(at)].as_bytes(),
        ),
    }
}

// Reports whether a packet left a switch.
fn is_out(went: Went) -> bool
    ensures { result ≡ is_out went }
{
    matches!(went, Went::Out { .. })
}

// Appends the lines of the turns until no packet is left, and adds the number of moves out of a switch to `out`.
fn push_turns(
    text: &mut Vec<u8>,
    out: &mut usize,
    names: &[Word],
    flow: &mut Flow,
) -> Result<(), OutOfMemory>
    ghost ranks: { List (Option ℕ) }
    requires ranked { IsRanked ranks flow.old }
    requires named { (script : ScriptOf) × (entries : List EntryOf)
        × AreNames script entries (numbering entries) 256 names.now }
    requires few { out.old ≤ length text.old.items }
    ensures told { OnOk result ((layout : LayoutOf) (script : ScriptOf) (entries : List EntryOf)
        → IsOver layout flow.old → AreNames script entries (numbering entries) 256 names.now
        → IsToldRun layout script entries flow.old.flow text.old.items text.new.items out.old out.new) }
    ensures few { OnOk result (out.new ≤ length text.new.items) }
{
    'turns: while let Some(went) = flow.turn() {
        push_went(text, names, went)?;
        *out += usize::from(is_out(went));
    }
    Ok(())
}

// As `push_turns`, for the switches of a component.
fn push_flow(
    alloc: Global,
    text: &mut Vec<u8>,
    out: &mut usize,
    script: &Script,
    graph: &Graph,
    numbers: &Numbers,
    flow: &mut Flow,
) -> Result<(), OutOfMemory>
    ghost ranks: { List (Option ℕ) }
    requires numbered { numbers.now ≡ numbering graph.now }
    requires ranked { IsRanked ranks flow.old }
    requires few { out.old ≤ length text.old.items }
    ensures told { OnOk result ((layout : LayoutOf) → IsOver layout flow.old
        → IsToldRun layout script.now graph.now flow.old.flow text.old.items text.new.items out.old out.new) }
    ensures few { OnOk result (out.new ≤ length text.new.items) }
{
    let entries = graph.entries().as_slice();
    let names = names_of(alloc, script, entries, numbers.as_slice())?;
    push_turns(text, out, &names, flow)
}

// Appends the lines of the moves of packets under these tables, and adds the number of moves out of a switch to
// `out`.
fn push_run(
    alloc: Global,
    text: &mut Vec<u8>,
    out: &mut usize,
    script: &Script,
    tabled: Tabled,
    home: &Home,
    those: &[Sent],
    b: u16,
) -> Result<(), OutOfMemory>
    ghost layout: { LayoutOf }
    requires numbered { tabled.numbers ≡ numbering tabled.graph }
    requires own { IsOwnLayout tabled.graph tabled.numbers tabled.exits b layout }
    requires those { MayAllEnter tabled.numbers home.now those.now }
    requires room { 1 ≤ b }
    requires few { out.old ≤ length text.old.items }
    ensures told { OnOk result (IsToldRun layout script.now tabled.graph (entered_flow home.now those.now)
        text.old.items text.new.items out.old out.new) }
    ensures few { OnOk result (out.new ≤ length text.new.items) }
{
    let Tabled {
        graph,
        numbers,
        exits,
    } = tabled;
    let mut flow = begun(alloc, &graph, &numbers, exits, home, those, b)?;
    push_flow(alloc, text, out, script, &graph, &numbers, &mut flow)
}

// Appends the lines of the moves of the packets that enter a component, and adds the number of moves out of a
// switch to `out`.
fn push_entering(
    alloc: Global,
    text: &mut Vec<u8>,
    out: &mut usize,
    script: &Script,
    component: &Entries,
    home: &Home,
    those: &[Sent],
    b: u16,
) -> Result<(), OutOfMemory>
    requires kept { IsScript script.now }
    requires component { (root : ℕ) × IsComponent script.now.wires root component.now }
    requires home { home.now ≡ numbers_in script.now.wires.switches component.now }
    requires those { those.now ≡ entering home.now (sends_of script.now) }
    requires room { 1 ≤ b }
    requires few { out.old ≤ length text.old.items }
    ensures told { OnOk result
        (IsToldPart script.now b component.now text.old.items text.new.items out.old out.new) }
    ensures few { OnOk result (out.new ≤ length text.new.items) }
{
    if those.is_empty() {
        return Ok(());
    }
    let tabled = Tabled::of(alloc, component, script.any_routes())?;
    push_run(alloc, text, out, script, tabled, home, those, b)
}

// As `push_entering`, for those of `sends` that enter the component.
fn push_part(
    alloc: Global,
    text: &mut Vec<u8>,
    out: &mut usize,
    script: &Script,
    component: &Entries,
    sends: &[Sent],
    b: u16,
) -> Result<(), OutOfMemory>
    requires component { (root : ℕ) × IsComponent script.now.wires root component.now }
    requires sends { (homes : List (List ℕ))
        × Contains homes (numbers_in script.now.wires.switches component.now)
        × (sends.now ≡ filter (is_entering homes) (sends_of script.now)) }
    requires room { 1 ≤ b }
    requires few { out.old ≤ length text.old.items }
    ensures told { OnOk result
        (IsToldPart script.now b component.now text.old.items text.new.items out.old out.new) }
    ensures few { OnOk result (out.new ≤ length text.new.items) }
{
    let switches = script.wiring().switches();
    let home = Home::of(alloc, switches, component)?;
    let those = entering(alloc, &home, sends)?;
    push_entering(alloc, text, out, script, component, &home, &those, b)
}

// The name of the switch at an index.
fn switch_name(names: &Names, switch: Place) -> &[u8]
    ensures { result.now ≡ slice_index_or names.now switch [] }
{
    let place = usize::from(switch);
    if place < names.len() {
        return names.get(place);
    }
    &[]
}

// Appends the line of a packet that enters no component, and returns whether it enters one.
fn push_fate(
    text: &mut Vec<u8>,
    script: &Script,
    homes: &[Home],
    sent: Sent,
) -> Result<bool, OutOfMemory>
    ensures told { OnOk result (text.new.items ≡ text.old.items ++ flow_told (fate_lines script.now homes.now sent)) }
    ensures enters { IfOk result (λ enters. enters ≡ is_entering homes.now sent) }
{
    let mut digits = Buffer::new();
    let packet = digits.format(sent.packet).as_bytes();
    if sent.is_local() {
        let name = switch_name(script.switch_names(), sent.from);
        push_line(text, &[b"local", packet, name])?;
        return Ok(false);
    }
    if is_joined(homes, sent) {
        return Ok(true);
    }
    push_line(text, &[b"unjoined", packet])?;
    Ok(false)
}

// Appends the lines of the packets that enter no component, and returns the others.
fn push_fates(
    alloc: Global,
    text: &mut Vec<u8>,
    script: &Script,
    homes: &[Home],
    sends: &[Sent],
) -> Result<Vec<Sent>, OutOfMemory>
    ensures told { OnOk result (text.new.items
        ≡ text.old.items ++ flow_told (flat_map (fate_lines script.now homes.now) sends.now)) }
    ensures those { IfOk result (λ those. those.items ≡ filter (is_entering homes.now) sends.now) }
{
    let mut those = Vec::with_capacity(alloc, sends.len())?;
    'sends: for sent in sends {
        if push_fate(text, script, homes, *sent)? {
            those.push(*sent)?;
        }
    }
    Ok(those)
}

// Appends the last line: `out` moves left a switch, and `entered` packets entered a component.
fn push_end(
    text: &mut Vec<u8>,
    sends: &[Sent],
    entered: usize,
    out: usize,
) -> Result<(), OutOfMemory>
    requires { count_by is_local sends.now + entered ≤ length sends.now }
    ensures { OnOk result (text.new.items ≡ text.old.items ++ line_text (flow_words (Ends out entered
        (count_by is_local sends.now) (length sends.now - count_by is_local sends.now - entered)))) }
{
    let stay = count_local(sends);
    let nowhere = sends.len() - stay - entered;
    let (mut moves, mut arrived) = (Buffer::new(), Buffer::new());
    let (mut local, mut unjoined) = (Buffer::new(), Buffer::new());
    push_line(
        text,
        &[
            b"end",
            b"moves",
            moves.format(out).as_bytes(),
            b"arrived",
            arrived.format(entered).as_bytes(),
            b"local",
            local.format(stay).as_bytes(),
            b"unjoined",
            unjoined.format(nowhere).as_bytes(),
        ],
    )
}

// An empty text, with 64 bytes reserved for each of up to 10,000 packets, so that it seldom moves while it grows.
fn empty_text(alloc: Global, sends: &[Sent]) -> Result<Vec<u8>, OutOfMemory>
    ensures { IfOk result (λ text. text.items ≡ []) }
{
    Ok(Vec::with_capacity(alloc, sends.len().min(10_000) * 64)?)
}

// The text for these components, numbers of their switches, and packets.
fn text_with(
    alloc: Global,
    script: &Script,
    forest: &[Entries],
    homes: &[Home],
    sends: &[Sent],
    b: u16,
) -> Result<Vec<u8>, OutOfMemory>
    requires kept { IsScript script.now }
    requires trees { IsForest script.now.wires forest.now }
    requires homes { homes.now ≡ homes_of script.now.wires.switches forest.now }
    requires sends { sends.now ≡ sends_of script.now }
    requires room { 1 ≤ b }
    ensures { IfOk result (λ text. IsFlowOf script.now b text.items) }
{
    let mut text = empty_text(alloc, sends)?;
    let those = push_fates(alloc, &mut text, script, homes, sends)?;
    let mut out = 0;
    'components: for component in forest {
        push_part(alloc, &mut text, &mut out, script, component, &those, b)?;
    }
    push_end(&mut text, sends, those.len(), out)?;
    Ok(text)
}

/// Returns what happens to the packets that the script sends, with all links up and `b` packets per channel.
///
/// The lines are: for each packet, in the order of the commands, one line if its hosts are at one switch
/// or in two components; for each component, in ascending order of root, the moves of the packets that
/// enter it, until all have arrived; last the number of moves, and the numbers of packets that entered,
/// were local, and were not joined. Each line ends in a line feed. The caller must pass a `b` of at
/// least 1.
///
/// # Errors
/// `OutOfMemory` if an allocation fails.
pub fn flow(alloc: Global, script: &Script, b: u16) -> Result<Vec<u8>, OutOfMemory>
    requires { 1 ≤ b }
    ensures { IfOk result (λ text. IsFlowOf script.now b text.items) }
{
    let wiring = script.wiring();
    let forest = trees(alloc, wiring)?;
    let sends = sends_of(alloc, script)?;
    let homes = homes_of(alloc, wiring.switches(), &forest)?;
    text_with(alloc, script, &forest, &homes, &sends, b)
}
