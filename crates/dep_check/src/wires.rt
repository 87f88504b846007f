//! The far side of each spot. Here the indices of a graph become the numbers of the rows.

ghost use Rattle.std.specs.Prelude.{◌≡◌, ◌+◌, ◌*◌, ◌<◌, length, IfOk, IfSome, OnOk};
ghost use Rattle.an_base.specs.Numbers.{AreNumbers};
ghost use Rattle.topo_graph.specs.Topology.{IsGraph};
ghost use Rattle.dep_check.specs.Channels.{far_at, place_in};
ghost use Rattle.dep_check.specs.Tables.{AreWires, AreWiresBelow, IsSpot};

use crate::channel::Channel;
use crate::spot::SPOTS;
use an_base::numbers::Numbers;
use common_values::memory::OutOfMemory;
use std::alloc::Global;
use topo_graph::graph::Graph;

// The index of a number.
fn position_of(numbers: &[u8], number: u8) -> Option<usize>
    ensures { result ≡ place_in numbers.now number }
{
    numbers.iter().position(|m| *m == number)
}

/// Returns the index of the switch with the number `number`, if there is one.
pub fn place_in(numbers: &Numbers, number: u8) -> Option<u8>
    ensures place { result ≡ place_in numbers.now number }
    ensures low { IfSome result (λ place. place < length numbers.now) }
    ensures numbers { AreNumbers numbers.now }
{
    let place = position_of(numbers.as_slice(), number)?;
    Some(place as u8)
}

// The number and the port at the far side of a port of the switch at a place, which has the number of the spot.
fn far_from(graph: &Graph, numbers: &Numbers, place: Option<u8>, spot: Channel) -> Option<Channel>
    requires same { length numbers.now ≡ length graph.now }
    requires place { place ≡ place_in numbers.now spot.at }
    ensures far { result ≡ far_at graph.now numbers.now spot }
    ensures spot { IfSome result IsSpot }
{
    let (y, port) = graph.far_place(place?, spot.port)?;
    let at = numbers.as_slice()[usize::from(y)];
    Some(Channel { at, port })
}

// Adds the far sides of the spots of a number.
fn push_wires(
    wires: &mut Vec<Option<Channel>>,
    graph: &Graph,
    numbers: &Numbers,
    at: u8,
) -> Result<(), OutOfMemory>
    requires same { length numbers.now ≡ length graph.now }
    requires at { at < 127 }
    requires below { AreWiresBelow (far_at graph.now numbers.now) (at * 13) wires.old.items }
    ensures { OnOk result (AreWiresBelow (far_at graph.now numbers.now) ((at + 1) * 13) wires.new.items) }
{
    let place = place_in(numbers, at);
    'ports: for port in 0..13u8 {
        let spot = Channel { at, port };
        wires.push(far_from(graph, numbers, place, spot))?;
    }
    Ok(())
}

/// Returns the far side of each spot. The caller must pass one number for each entry of the graph.
///
/// # Errors
/// `OutOfMemory` if an allocation fails.
pub fn wires_of(
    alloc: Global,
    graph: &Graph,
    numbers: &Numbers,
) -> Result<Vec<Option<Channel>>, OutOfMemory>
    requires { length numbers.now ≡ length graph.now }
    ensures { IfOk result (λ wires. AreWires (far_at graph.now numbers.now) wires.items) }
{
    let _count = graph.count();
    let _names = numbers.as_slice();
    let mut wires = Vec::with_capacity(alloc, usize::from(SPOTS))?;
    'members: for at in 0..127u8 {
        push_wires(&mut wires, graph, numbers, at)?;
    }
    Ok(wires)
}
