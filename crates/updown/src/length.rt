//! Lengths to one entry, in two passes: downward routes from the lowest entry up, then legal routes from the top down.

ghost use Rattle.std.specs.Prelude.{◌≡◌, ℕ, Some, None, length, IfOk};
ghost use Rattle.topo_graph.specs.Topology.{IsGraph};
ghost use Rattle.updown.specs.Order.{IsDescent};
ghost use Rattle.updown.specs.Routes.{IsLeast};
ghost use Rattle.updown.specs.Lengths.{AreAtMost, AreDownSoFar, AreLengths, AreUpSoFar, left_of, length_at};
ghost use Rattle.updown.specs.Lengths.{lesser_of, Onward};

use crate::order::{Descent, Height};
use crate::route::is_up_end;
use common_values::memory::OutOfMemory;
use std::alloc::Global;
use std::marker::Model;
use topo_graph::graph::Graph;

// The lesser of two lengths, if there are both.
fn lesser(a: Option<u8>, b: Option<u8>) -> Option<u8>
    ensures { result ≡ lesser_of a b }
{
    match (a, b) {
        (Some(a), Some(b)) => Some(a.min(b)),
        (Some(a), None) => Some(a),
        (None, b) => b,
    }
}

// What is left to go from the far end of a port: by any legal route after an upward link,
// downward alone after a downward one.
fn left_after(graph: &Graph, up: &[Option<u8>], down: &[Option<u8>], x: u8, port: u8) -> Option<u8>
    ensures left { result ≡ left_of graph.now up.now down.now x port }
    ensures graph { IsGraph graph.now }
{
    let (y, _) = graph.far_place(x, port)?;
    let lengths = if is_up_end(graph, y, x) { up } else { down };
    lengths.get(usize::from(y)).copied().flatten()
}

// The least that is left to go after any port of x.
fn least_left(graph: &Graph, up: &[Option<u8>], down: &[Option<u8>], x: u8) -> Option<u8>
    requires { IsGraph graph.now }
    ensures { IsLeast (λ n. (p : ℕ) × (left_of graph.now up.now down.now x p ≡ Some n)) result }
{
    let mut best = None;
    'ports: for port in 0..13u8 {
        best = lesser(best, left_after(graph, up, down, x, port));
    }
    best
}

// The length of a shortest way from x, from what is left to go after its ports. No length in the tables is
// above 250, as `AreUpSoFar` says.
fn length_from(graph: &Graph, up: &[Option<u8>], down: &[Option<u8>], to: u8, x: u8) -> Option<u8>
    requires graph { IsGraph graph.now }
    requires up_most { AreAtMost up.now 250 }
    requires down_most { AreAtMost down.now 250 }
    ensures { IsLeast (Onward graph.now up.now down.now to x) result }
{
    if x == to {
        return Some(0);
    }
    let left = least_left(graph, up, down, x)?;
    Some(left + 1)
}

// So many places without a length.
fn no_lengths(alloc: Global, count: u8) -> Result<Vec<Option<u8>>, OutOfMemory>
    ensures count { IfOk result (λ lengths. length lengths.items ≡ count) }
    ensures none { IfOk result (λ lengths. (x : ℕ) → length_at lengths.items x ≡ None) }
{
    Ok(vec![in alloc; None; usize::from(count)]?)
}

// The least lengths of routes with downward links alone, from the lowest place to the highest.
fn down_lengths(
    alloc: Global,
    graph: &Graph,
    order: &[Height],
    to: u8,
) -> Result<Vec<Option<u8>>, OutOfMemory>
    requires { IsDescent graph.now order.now }
    ensures { IfOk result (λ down. AreDownSoFar graph.now to order.now down.items 0) }
{
    let mut down = no_lengths(alloc, graph.count())?;
    let mut i = order.len();
    'places: while i > 0 {
        i -= 1;
        let x = order[i].place;
        let length = length_from(graph, &[], &down, to, x);
        down[usize::from(x)] = length;
    }
    Ok(down)
}

// The least lengths of legal routes, from the highest place to the lowest.
fn up_lengths(
    alloc: Global,
    graph: &Graph,
    order: &[Height],
    down: &[Option<u8>],
    to: u8,
) -> Result<Vec<Option<u8>>, OutOfMemory>
    requires order { IsDescent graph.now order.now }
    requires down { AreDownSoFar graph.now to order.now down.now 0 }
    ensures { IfOk result (λ up. AreUpSoFar graph.now to order.now up.items (length order.now)) }
{
    let mut up = no_lengths(alloc, graph.count())?;
    'places: for i in 0..order.len() {
        let x = order[i].place;
        let length = length_from(graph, &up, down, to, x);
        up[usize::from(x)] = length;
    }
    Ok(up)
}

/// The lengths of shortest routes from every entry of a graph to one entry: legal routes, and routes
/// with only downward links.
#[derive(Drop)]
pub struct Lengths {
    up: Vec<Option<u8>>,
    down: Vec<Option<u8>>,
}

impl Model for Lengths {
    ghost use Rattle.updown.specs.Lengths.{LengthsOf};

    ghost Value = { LengthsOf };

    ghost view = { λ l. record { up = l.up.items; down = l.down.items } };
}

impl Lengths {
    /// Returns the lengths to the entry at index `to`. The caller must pass the `descent` of `graph`.
    ///
    /// # Errors
    /// `OutOfMemory` if an allocation fails.
    pub fn to(
        alloc: Global,
        graph: &Graph,
        descent: &Descent,
        to: u8,
    ) -> Result<Lengths, OutOfMemory>
        requires { IsDescent graph.now descent.now }
        ensures { IfOk result (λ lengths. AreLengths graph.now to lengths) }
    {
        let order = descent.as_slice();
        let down = down_lengths(alloc, graph, order, to)?;
        let up = up_lengths(alloc, graph, order, &down, to)?;
        Ok(Lengths { up, down })
    }

    /// Returns the lowest length of a legal route from the entry at index `x`, if there is one.
    pub fn up(&self, x: u8) -> Option<u8>
        ensures { result ≡ length_at self.now.up x }
    {
        self.up.get(usize::from(x)).copied().flatten()
    }

    /// Returns the lowest length of a route with only downward links from the entry at index `x`, if
    /// there is one.
    pub fn down(&self, x: u8) -> Option<u8>
        ensures { result ≡ length_at self.now.down x }
    {
        self.down.get(usize::from(x)).copied().flatten()
    }
}
