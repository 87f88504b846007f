//! The exits towards each other member, before they become rows: the ingress ports of a member share them.

ghost use Rattle.std.specs.Prelude.{◌≡◌, ◌≢◌, ◌<◌, ℕ, [], length, slice_index, IfOk, OnOk, MatchOption};
ghost use Rattle.an_base.specs.Numbers.{AreNumbers};
ghost use Rattle.topo_graph.specs.Topology.{IsGraph};
ghost use Rattle.table_build.specs.Bests.{AreBestFrom};
ghost use Rattle.table_build.specs.Routing.{IsRouting};
ghost use Rattle.table_build.specs.Tables.{AreWays, IsWay};

use crate::best::Bests;
use crate::exit::exits;
use crate::routing::Routing;
use an_base::numbers::Numbers;
use an_base::row::Exits;
use common_values::memory::OutOfMemory;
use std::alloc::Global;
use topo_graph::graph::Graph;

/// The exits towards another member: for packets that may leave upward, and for those that may not.
#[derive(Drop)]
pub struct Way {
    /// The number of the other member.
    pub number: u8,
    /// The index of the other member.
    pub place: u8,
    /// The exits for packets that may leave upward.
    pub up: Exits,
    /// The exits for packets that may not leave upward.
    pub down: Exits,
}

// The exits towards the member that has a number, if another one has it.
fn way_to(
    graph: &Graph,
    numbers: &Numbers,
    routing: &Routing,
    bests: &Bests,
    x: u8,
    any: bool,
    number: u8,
) -> Option<Way>
    requires routing { IsRouting graph.now numbers.now routing.now }
    requires bests { AreBestFrom graph.now any x bests.now }
    requires within { x < length graph.now }
    ensures { MatchOption result
        ((y : ℕ) → y < length graph.now → y ≢ x → slice_index numbers.now y ≢ number)
        (λ w. (w.number ≡ number) × IsWay graph.now numbers.now any x w) }
{
    let _count = graph.count();
    let place = routing.place(number)?;
    if place == x {
        return None;
    }
    let up = exits(bests.up(place));
    let down = exits(bests.down(place));
    Some(Way {
        number,
        place,
        up,
        down,
    })
}

// Adds to none the exits towards all other members, by rising number, 1 to 126.
fn push_ways(
    ways: &mut Vec<Way>,
    graph: &Graph,
    numbers: &Numbers,
    routing: &Routing,
    bests: &Bests,
    x: u8,
    any: bool,
) -> Result<(), OutOfMemory>
    requires none { ways.old.items ≡ [] }
    requires numbers { AreNumbers numbers.now }
    requires routing { IsRouting graph.now numbers.now routing.now }
    requires bests { AreBestFrom graph.now any x bests.now }
    requires count { length numbers.now ≡ length graph.now }
    requires within { x < length graph.now }
    ensures { OnOk result (AreWays graph.now numbers.now any x 127 ways.new.items) }
{
    'numbers: for number in 0..127u8 {
        if let Some(way) = way_to(graph, numbers, routing, bests, x, any, number) {
            ways.push(way)?;
        }
    }
    Ok(())
}

/// Returns the exits towards all other members, in ascending order of number.
///
/// The caller must pass the `routing` of `graph` and `numbers`, one number for each entry of the graph,
/// and an index of a member.
///
/// # Errors
/// `OutOfMemory` if an allocation fails.
pub fn ways_of(
    alloc: Global,
    graph: &Graph,
    numbers: &Numbers,
    routing: &Routing,
    x: u8,
    any: bool,
) -> Result<Vec<Way>, OutOfMemory>
    requires routing { IsRouting graph.now numbers.now routing.now }
    requires count { length numbers.now ≡ length graph.now }
    requires within { x < length graph.now }
    ensures ways { IfOk result (λ ways. AreWays graph.now numbers.now any x 127 ways.items) }
    ensures graph { IfOk result (λ _. IsGraph graph.now) }
{
    let count = usize::from(graph.count()).min(numbers.as_slice().len());
    let bests = Bests::from(alloc, graph, routing.links(), routing.order(), x, any)?;
    let mut ways = Vec::with_capacity(alloc, count)?;
    push_ways(&mut ways, graph, numbers, routing, &bests, x, any)?;
    Ok(ways)
}
