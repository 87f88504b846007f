//! A packet over rows in memory (`flow_channels`).

ghost use Rattle.std.specs.Prelude.{◌≡◌, ◌<◌, ◌∷◌, [], IfOk, List, length};
ghost use Rattle.an_base.specs.Rows.{RowOf};
ghost use Rattle.dep_check.specs.Answer.{Passes};
ghost use Rattle.dep_check.specs.Channels.{LeadsTo, far_at};
ghost use Rattle.common_graph.specs.Cycles.{HasNoCycle};
ghost use Rattle.dep_check.specs.Packets.{AllAreJoined};
ghost use Rattle.flow_channels.specs.Exits.{AreExitsOf};

use crate::sample::{entry, link};
use an_base::entry::Entries;
use an_base::links::Links;
use an_base::numbers::Numbers;
use an_base::row::{Exits, Row};
use dep_check::check::{Ranks, check};
use flow_channels::exits::ExitTable;
use flow_channels::flow::Flow;
use flow_channels::went::Went;
use std::alloc::Global;
use std::process::Abort;
use std::test::Fail;
use topo_graph::graph::Graph;

// Returns the link at port 1 to port 1 of this life.
fn one_link(uid: u64) -> Links
    requires { uid < 100 }
{
    let mut links = Links::new();
    links.push(link(1, uid, 1));
    links
}

// Returns lives 1 and 2 with a link.
fn two(alloc: Global) -> Result<Graph, Fail> {
    let mut entries = Entries::of(alloc, entry(1, 0, 1, 0, one_link(2)))?;
    entries.push(entry(2, 1, 1, 1, one_link(1)))?;
    Ok(Graph::of(alloc, &entries)?)
}

// Returns the numbers of these lives.
fn numbers_of(alloc: Global) -> Result<Numbers, Fail>
    ensures { IfOk result (λ numbers. numbers ≡ 1 ∷ 2 ∷ []) }
{
    let mut items = Vec::new(alloc);
    items.push(1)?;
    items.push(2)?;
    Ok(Numbers::new(items))
}

// Returns the row for packets from one switch to the other, by port 1.
fn row(at: u8, to: u8) -> Row {
    Row {
        at,
        entry: 0,
        to,
        exits: Exits::of_set(2),
    }
}

// Checks rows that pass.
fn pass(alloc: Global, graph: &Graph, numbers: &Numbers, rows: &[Row]) -> Result<Ranks, Fail>
    requires { length numbers.now ≡ length graph.now }
    ensures { IfOk result (Passes graph.now numbers.now rows.now) }
{
    match check(alloc, graph, numbers, rows) {
        Ok(ranks) => Ok(ranks),
        Err(_refusal) => Err("refused".into()),
    }
}

// Returns a flow over the exits of the rows, with space for one packet in each channel, in which a packet entered
// at number 1 for number 2.
fn entered(
    alloc: Global,
    graph: &Graph,
    numbers: &Numbers,
    _rows: &[Row],
    exits: ExitTable,
) -> Result<Flow, Fail>
    ghost own: { List RowOf }
    requires same { length numbers.now ≡ length graph.now }
    requires numbers { numbers.now ≡ 1 ∷ 2 ∷ [] }
    requires exits { AreExitsOf own exits }
    requires no_cycle { HasNoCycle (LeadsTo (far_at graph.now numbers.now) own) }
    requires joined { AllAreJoined (far_at graph.now numbers.now) numbers.now own }
{
    let mut flow = Flow::new(alloc, graph, numbers, exits, 1, 1)?;
    flow.enter(7, 1, 2);
    Ok(flow)
}

// Returns such a flow over rows that pass.
fn over(alloc: Global, graph: &Graph, numbers: &Numbers, rows: &[Row]) -> Result<Flow, Fail>
    requires same { length numbers.now ≡ length graph.now }
    requires numbers { numbers.now ≡ 1 ∷ 2 ∷ [] }
{
    let _ranks = pass(alloc, graph, numbers, rows)?;
    let exits = ExitTable::of_rows(alloc, rows)?;
    entered(alloc, graph, numbers, rows, exits)
}

// Asserts that the packet goes out by port 1, and arrives.
fn arrives(rt: &impl Abort, flow: &mut Flow) {
    let out = flow.turn();
    assert!(rt;
        matches!(
            out,
            Some(Went::Out {
                packet: 7,
                at: 1,
                exit: 1
            })
        )
    );
    let there = flow.turn();
    assert!(rt; matches!(there, Some(Went::Arrived { packet: 7, at: 2 })));
    assert!(rt; flow.turn().is_none());
}

#[test]
fn a_packet_goes_by_the_exits_of_rows(rt: HostRuntime) -> Result<(), Fail> {
    let graph = two(rt.alloc())?;
    let numbers = numbers_of(rt.alloc())?;
    if numbers.len() != graph.entries().len() {
        return Err("numbers".into());
    }
    let rows = [row(2, 1), row(1, 2)];
    arrives(&rt, &mut over(rt.alloc(), &graph, &numbers, &rows)?);
    Ok(())
}
