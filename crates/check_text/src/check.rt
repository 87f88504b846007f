//! Judges routing tables, and prints the judgement.

ghost use Rattle.std.specs.Prelude.{◌≡◌, ◌≢◌, ◌==◌, ◌++◌, [], ◌∷◌, length, map, filter, ℕ, IfOk, OnOk};
ghost use Rattle.std.specs.List.{list_all, list_any};
ghost use Rattle.an_base.specs.Numbers.{AreNumbers};
ghost use Rattle.net_graph.specs.Forest.{IsComponent, IsForest};
ghost use Rattle.table_script.specs.Tables.{AreTablesOf, IsTables, TablesOf};
ghost use Rattle.dep_check.specs.Tables.{rank_at};
ghost use Rattle.dep_check.specs.declared.refusal.CheckRefusal.TheVariants.{Cycle, IllegalExit, NotJoined};
ghost use Rattle.dep_check.specs.declared.refusal.CheckRefusal.TheVariants as why;
ghost use Rattle.check_text.specs.Check.{channel_text, entry_text, is_row_of, IsJudged, Judges, members_of, number_of, number_ranks, numbers_of, rank_line, rank_lines, ranks_text, refusal_line, renumbered, rows_of};
ghost use Rattle.row_text.specs.Names.{name_of};
ghost use Rattle.check_text.specs.Runs.{AreRuns, IsRun};

use crate::runs::runs_of;
use an_base::entry::{Entries, Entry};
use an_base::numbers::Numbers;
use an_base::row::Row;
use common_values::memory::OutOfMemory;
use common_values::text::push_decimal;
use dep_check::channel::{Channel, Channels};
use dep_check::check::{Ranks, check};
use dep_check::refusal::CheckRefusal;
use net_graph::forest::trees;
use net_graph::wiring::SwitchAt;
use net_script::script::Script;
use row_text::piece::{place_of, push_name};
use std::alloc::{AllocError, Global};
use table_script::tables::Tables;
use topo_graph::graph::Graph;

/// The result of checking the routing tables of a network.
#[derive(Drop)]
pub struct Judgement {
    /// Whether the tables of each component pass.
    pub passed: bool,
    /// The ranks of all channels and `ok`; or the one line of why the first rejected component is rejected.
    pub text: Vec<u8>,
}

// The number of a member, where `numbers` has those of all switches.
fn number_of(switches: &[SwitchAt], numbers: &[u8], entry: &Entry) -> u8
    ensures { result ≡ number_of switches.now numbers.now entry.now }
{
    let place = place_of(switches, entry.life.uid).unwrap_or(0);
    numbers.get(place).copied().unwrap_or(0)
}

// The numbers that the tables give to the members, in their order.
fn numbers_of(
    alloc: Global,
    switches: &[SwitchAt],
    tables: &Tables,
    entries: &[Entry],
) -> Result<Vec<u8>, AllocError>
    ensures numbers { IfOk result (λ numbers. numbers.items ≡ numbers_of switches.now tables.now entries.now) }
    ensures kept { IsTables tables.now }
{
    let given = tables.numbers();
    entries
        .iter()
        .map(|entry| number_of(switches, given, entry))
        .collect(alloc)
}

// Reports whether the switch with identifier `uid` is a member.
fn is_member(entries: &[Entry], uid: u64) -> bool
    ensures { result ≡ list_any (λ e. e.life.uid == uid) entries.now }
{
    entries.iter().any(|e| e.life.uid == uid)
}

// Reports for each switch whether it is a member.
fn members_of(
    alloc: Global,
    switches: &[SwitchAt],
    entries: &[Entry],
) -> Result<Vec<bool>, AllocError>
    ensures { IfOk result (λ members. members.items ≡ members_of switches.now entries.now) }
{
    switches
        .iter()
        .map(|switch| is_member(entries, switch.uid))
        .collect(alloc)
}

// The row, with the number of its switch.
fn renumbered(tables: &Tables, row: &Row) -> Row
    ensures { result ≡ renumbered tables.now row.now }
{
    Row {
        at: tables
            .numbers()
            .get(usize::from(row.at))
            .copied()
            .unwrap_or(0),
        entry: row.entry,
        to: row.to,
        exits: row.exits.copy(),
    }
}

// Appends the rows of a run, with the number of their switch.
fn push_run(rows: &mut Vec<Row>, tables: &Tables, run: &[Row]) -> Result<(), AllocError>
    ensures { OnOk result (rows.new.items ≡ rows.old.items ++ map (renumbered tables.now) run.now) }
{
    'run: for row in run {
        rows.push(renumbered(tables, row))?;
    }
    Ok(())
}

// Reports whether a row belongs to a member, where `members` says of each switch whether it is one.
fn is_row_of(members: &[bool], row: &Row) -> bool
    ensures { result ≡ is_row_of members.now row.now }
{
    members.get(usize::from(row.at)).copied().unwrap_or(false)
}

// The rows of a run that belong to a member: all or none.
fn kept<'a>(members: &[bool], run: &'a [Row]) -> &'a [Row]
    requires { IsRun run.now }
    ensures { result.now ≡ filter (is_row_of members.now) run.now }
{
    let Some(row) = run.first() else {
        return &[];
    };
    if is_row_of(members, row) { run } else { &[] }
}

// The rows of the members, with the switch's number in each, where `runs` are those of all rows. It ignores the
// runs of other switches without reading them.
fn rows_of(
    alloc: Global,
    switches: &[SwitchAt],
    tables: &Tables,
    runs: &[&[Row]],
    entries: &[Entry],
) -> Result<Vec<Row>, AllocError>
    requires { AreRuns tables.now.rows (map (λ run. run.now) runs.now) }
    ensures { IfOk result (λ rows. rows.items ≡ rows_of switches.now tables.now entries.now) }
{
    let members = members_of(alloc, switches, entries)?;
    let mut rows = Vec::new(alloc);
    'runs: for run in runs {
        push_run(&mut rows, tables, kept(&members, run))?;
    }
    Ok(rows)
}

// The result of appending to a text.
type Appended = Result<(), AllocError>;

// What is needed to print the names of the switches of a component.
#[derive(Clone, Copy, Drop)]
struct Naming<'a> {
    alloc: Global,
    script: &'a Script,
    entries: &'a [Entry],
    numbers: &'a [u8],
    ghost count: { length numbers.now ≡ length entries.now },
}

impl Naming<'_> {
    // Appends the name of the switch that has a number.
    fn push(&self, text: &mut Vec<u8>, number: u8) -> Appended
        ensures { OnOk result (text.new.items ≡ text.old.items
            ++ name_of self.now.script.now self.now.entries.now self.now.numbers.now number) }
    {
        push_name(
            self.alloc,
            text,
            self.script,
            self.entries,
            self.numbers,
            number,
        )
    }

    // Appends a channel.
    #[tactic(auto, unfolding(crate::specs::Check::channel_text))]
    fn push_channel(&self, text: &mut Vec<u8>, channel: Channel) -> Appended
        ensures { OnOk result (text.new.items ≡ text.old.items
            ++ channel_text self.now.script.now self.now.entries.now self.now.numbers.now channel) }
    {
        text.extend_from_slice(b" ")?;
        self.push(text, channel.at)?;
        text.extend_from_slice(b":")?;
        push_decimal(self.alloc, text, u64::from(channel.port))
    }

    // Appends the rank of a channel.
    #[tactic(auto, unfolding(crate::specs::Check::rank_line))]
    fn push_rank(&self, text: &mut Vec<u8>, channel: Channel, rank: u16) -> Appended
        ensures { OnOk result (text.new.items ≡ text.old.items
            ++ rank_line self.now.script.now self.now.entries.now self.now.numbers.now channel rank) }
    {
        text.extend_from_slice(b"rank ")?;
        self.push(text, channel.at)?;
        text.extend_from_slice(b" ")?;
        push_decimal(self.alloc, text, u64::from(channel.port))?;
        text.extend_from_slice(b" ")?;
        push_decimal(self.alloc, text, u64::from(rank))?;
        text.extend_from_slice(b"\n")
    }

    // Appends the rank at a port of the switch that has a number, if this is a channel.
    fn push_port(&self, text: &mut Vec<u8>, ranks: &Ranks, channel: Channel) -> Appended
        ensures { OnOk result (text.new.items ≡ text.old.items
            ++ rank_lines self.now.script.now self.now.entries.now self.now.numbers.now channel (rank_at ranks.now channel)) }
    {
        match ranks.rank(channel.at, channel.port) {
            Some(rank) => self.push_rank(text, channel, rank),
            None => Ok(()),
        }
    }

    // Appends the ranks of the channels of the switch that has a number, in ascending order of port.
    fn push_ranks_at(&self, text: &mut Vec<u8>, ranks: &Ranks, number: u8) -> Appended
        ensures { OnOk result (text.new.items ≡ text.old.items
            ++ number_ranks self.now.script.now self.now.entries.now self.now.numbers.now ranks.now number) }
    {
        'ports: for port in 0..13u8 {
            self.push_port(text, ranks, Channel { at: number, port })?;
        }
        Ok(())
    }

    // Appends the ranks of all channels, in ascending order of number.
    #[tactic(auto, unfolding(crate::specs::Check::ranks_text))]
    fn push_ranks(&self, text: &mut Vec<u8>, ranks: &Ranks) -> Appended
        ensures { OnOk result (text.new.items ≡ text.old.items
            ++ ranks_text self.now.script.now self.now.entries.now self.now.numbers.now ranks.now) }
    {
        'numbers: for number in 0..127u8 {
            self.push_ranks_at(text, ranks, number)?;
        }
        Ok(())
    }

    // Appends the line of a cycle.
    #[tactic(auto, unfolding(crate::specs::Check::refusal_line))]
    fn push_cycle(&self, text: &mut Vec<u8>, channels: &Channels) -> Appended
        ensures { OnOk result (text.new.items ≡ text.old.items
            ++ refusal_line self.now.script.now self.now.entries.now self.now.numbers.now (Cycle channels.now)) }
    {
        text.extend_from_slice(b"refused cycle")?;
        'channels: for channel in channels.as_slice() {
            self.push_channel(text, *channel)?;
        }
        text.extend_from_slice(b"\n")
    }

    // Appends the line of a pair that is not joined.
    #[tactic(auto, unfolding(crate::specs::Check::refusal_line))]
    fn push_pair(&self, text: &mut Vec<u8>, from: u8, to: u8, at: u8, entry: u8) -> Appended
        ensures { OnOk result (text.new.items ≡ text.old.items
            ++ refusal_line self.now.script.now self.now.entries.now self.now.numbers.now (NotJoined from to at entry)) }
    {
        text.extend_from_slice(b"refused pair ")?;
        self.push(text, from)?;
        text.extend_from_slice(b" to ")?;
        self.push(text, to)?;
        text.extend_from_slice(b" at ")?;
        self.push_entry(text, at, entry)?;
        text.extend_from_slice(b"\n")?;
        Ok(())
    }

    // Appends the switch and the ingress port of an entry.
    fn push_entry(&self, text: &mut Vec<u8>, at: u8, entry: u8) -> Appended
        ensures { OnOk result (text.new.items ≡ text.old.items
            ++ entry_text self.now.script.now self.now.entries.now self.now.numbers.now at entry) }
    {
        self.push(text, at)?;
        text.extend_from_slice(b" entry ")?;
        push_decimal(self.alloc, text, u64::from(entry))
    }

    // Appends the line of an illegal exit.
    #[tactic(auto, unfolding(crate::specs::Check::refusal_line))]
    fn push_illegal(&self, text: &mut Vec<u8>, at: u8, entry: u8, to: u8, exit: u8) -> Appended
        ensures { OnOk result (text.new.items ≡ text.old.items
            ++ refusal_line self.now.script.now self.now.entries.now self.now.numbers.now (IllegalExit at entry to exit)) }
    {
        text.extend_from_slice(b"refused exit ")?;
        self.push_entry(text, at, entry)?;
        text.extend_from_slice(b" to ")?;
        push_decimal(self.alloc, text, u64::from(to))?;
        text.extend_from_slice(b" by ")?;
        push_decimal(self.alloc, text, u64::from(exit))?;
        text.extend_from_slice(b"\n")?;
        Ok(())
    }

    // Appends the line of why the tables are rejected.
    #[tactic(auto, unfolding(crate::specs::Check::refusal_line))]
    fn push_refusal(&self, text: &mut Vec<u8>, refusal: &CheckRefusal) -> Result<(), OutOfMemory>
        ensures line { OnOk result (text.new.items ≡ text.old.items
            ++ refusal_line self.now.script.now self.now.entries.now self.now.numbers.now refusal.now) }
        ensures told { OnOk result (refusal.now ≢ why.OutOfMemory) }
    {
        match refusal {
            CheckRefusal::Cycle { channels } => self.push_cycle(text, channels)?,
            CheckRefusal::NotJoined {
                from,
                to,
                at,
                entry,
            } => self.push_pair(text, *from, *to, *at, *entry)?,
            CheckRefusal::IllegalExit {
                at,
                entry,
                to,
                exit,
            } => self.push_illegal(text, *at, *entry, *to, *exit)?,
            CheckRefusal::OutOfMemory => return Err(OutOfMemory),
        }
        Ok(())
    }
}

// The numbers that the tables give to the members of a component.
fn component_numbers(
    alloc: Global,
    script: &Script,
    tables: &Tables,
    component: &Entries,
) -> Result<Numbers, AllocError>
    requires tables { AreTablesOf script.now.wires tables.now }
    requires component { (r : ℕ) × IsComponent script.now.wires r component.now }
    ensures { IfOk result (λ numbers. numbers
        ≡ numbers_of script.now.wires.switches tables.now component.now) }
{
    let switches = script.wiring().switches();
    let entries = component.as_slice();
    Ok(Numbers::new(numbers_of(alloc, switches, tables, entries)?))
}

// Judges the rows of a component with these numbers, and returns whether they pass. If they do, it appends their
// ranks; otherwise it replaces the text by the line of why they are rejected.
fn judge_rows(
    alloc: Global,
    text: &mut Vec<u8>,
    script: &Script,
    component: &Entries,
    numbers: &Numbers,
    rows: &[Row],
) -> Result<bool, OutOfMemory>
    requires { length numbers.now ≡ length component.now }
    ensures { (t : TablesOf) → numbers.now ≡ numbers_of script.now.wires.switches t component.now
        → rows.now ≡ rows_of script.now.wires.switches t component.now
        → IfOk result (λ passed. Judges script.now t component.now passed text.old.items text.new.items) }
{
    let graph = Graph::of(alloc, component)?;
    let naming = Naming {
        alloc,
        script,
        entries: component.as_slice(),
        numbers: numbers.as_slice(),
    };
    match check(alloc, &graph, numbers, rows) {
        Ok(ranks) => {
            naming.push_ranks(text, &ranks)?;
            Ok(true)
        }
        Err(refusal) => {
            text.clear();
            naming.push_refusal(text, &refusal)?;
            Ok(false)
        }
    }
}

// Judges the rows of a component.
fn judge_component(
    alloc: Global,
    text: &mut Vec<u8>,
    script: &Script,
    tables: &Tables,
    runs: &[&[Row]],
    component: &Entries,
) -> Result<bool, OutOfMemory>
    requires tables { AreTablesOf script.now.wires tables.now }
    requires runs { AreRuns tables.now.rows (map (λ run. run.now) runs.now) }
    requires component { (r : ℕ) × IsComponent script.now.wires r component.now }
    ensures { IfOk result (λ passed. Judges script.now tables.now component.now passed text.old.items text.new.items) }
{
    let numbers = component_numbers(alloc, script, tables, component)?;
    let switches = script.wiring().switches();
    let rows = rows_of(alloc, switches, tables, runs, component.as_slice())?;
    judge_rows(alloc, text, script, component, &numbers, &rows)
}

// Judges the rows of one component after another into an empty text, until some are rejected. Returns whether all
// pass.
fn judge_all(
    alloc: Global,
    text: &mut Vec<u8>,
    script: &Script,
    tables: &Tables,
    forest: &[Entries],
) -> Result<bool, OutOfMemory>
    requires none { text.old.items ≡ [] }
    requires tables { AreTablesOf script.now.wires tables.now }
    requires forest { IsForest script.now.wires forest.now }
    ensures { IfOk result (λ passed. IsJudged script.now tables.now passed text.new.items) }
{
    let runs = runs_of(alloc, tables.rows())?;
    'components: for component in forest {
        if !judge_component(alloc, text, script, tables, &runs, component)? {
            return Ok(false);
        }
    }
    text.extend_from_slice(b"ok\n")?;
    Ok(true)
}

// Reports whether all rows belong to members.
fn are_rows_of(members: &[bool], rows: &[Row]) -> bool
    ensures { result ≡ list_all (is_row_of members.now) rows.now }
{
    rows.iter().all(|row| is_row_of(members, row))
}

// Reports whether all rows belong to members of a component.
fn has_all(
    alloc: Global,
    switches: &[SwitchAt],
    tables: &Tables,
    entries: &[Entry],
) -> Result<bool, AllocError>
    ensures { IfOk result (λ all. all
        ≡ list_all (is_row_of (members_of switches.now entries.now)) tables.now.rows) }
{
    let members = members_of(alloc, switches, entries)?;
    Ok(are_rows_of(&members, tables.rows()))
}

// Copies of the rows of a component, with the switch's number in each.
fn copied_rows(
    alloc: Global,
    switches: &[SwitchAt],
    tables: &Tables,
    entries: &[Entry],
) -> Result<Vec<Row>, AllocError>
    ensures { IfOk result (λ rows. rows.items ≡ rows_of switches.now tables.now entries.now) }
{
    let runs = runs_of(alloc, tables.rows())?;
    rows_of(alloc, switches, tables, &runs, entries)
}

// The rows of a component, with the switch's number in each. If the component has all rows, none is copied.
fn taken_rows(
    alloc: Global,
    script: &Script,
    tables: Tables,
    component: &Entries,
) -> Result<Vec<Row>, AllocError>
    ensures { IfOk result (λ rows. rows.items ≡ rows_of script.now.wires.switches tables component.now) }
{
    let switches = script.wiring().switches();
    let entries = component.as_slice();
    let all = has_all(alloc, switches, &tables, entries)?;
    if all {
        return Ok(tables.into_numbered());
    }
    copied_rows(alloc, switches, &tables, entries)
}

// Judges the rows of a network of one component into an empty text. Returns whether they pass.
fn judge_only(
    alloc: Global,
    text: &mut Vec<u8>,
    script: &Script,
    tables: Tables,
    component: &Entries,
) -> Result<bool, OutOfMemory>
    requires none { text.old.items ≡ [] }
    requires tables { AreTablesOf script.now.wires tables }
    requires forest { IsForest script.now.wires (component.now ∷ []) }
    ensures { IfOk result (λ passed. IsJudged script.now tables passed text.new.items) }
{
    let numbers = component_numbers(alloc, script, &tables, component)?;
    let rows = taken_rows(alloc, script, tables, component)?;
    if !judge_rows(alloc, text, script, component, &numbers, &rows)? {
        return Ok(false);
    }
    text.extend_from_slice(b"ok\n")?;
    Ok(true)
}

// Judges the tables of a network into an empty text. Returns whether they pass.
fn judge_into(
    alloc: Global,
    text: &mut Vec<u8>,
    script: &Script,
    tables: Tables,
) -> Result<bool, OutOfMemory>
    requires none { text.old.items ≡ [] }
    requires tables { AreTablesOf script.now.wires tables }
    ensures { IfOk result (λ passed. IsJudged script.now tables passed text.new.items) }
{
    let forest = trees(alloc, script.wiring())?;
    if let [component] = forest.as_slice() {
        return judge_only(alloc, text, script, tables, component);
    }
    judge_all(alloc, text, script, &tables, &forest)
}

/// Checks the tables of a network, component by component in ascending order of root.
///
/// If all pass, the text has the rank of each channel of each component, in ascending order of number
/// and then of port, and `ok`. Otherwise it has the one line of why the tables of the first rejected
/// component are rejected. The caller must pass tables that belong to the script's network.
///
/// # Errors
/// `OutOfMemory` if an allocation fails.
pub fn judge(alloc: Global, script: &Script, tables: Tables) -> Result<Judgement, OutOfMemory>
    requires { AreTablesOf script.now.wires tables }
    ensures { IfOk result (λ j. IsJudged script.now tables j.passed j.text.items) }
{
    let mut text = Vec::new(alloc);
    let passed = judge_into(alloc, &mut text, script, tables)?;
    Ok(Judgement { passed, text })
}
