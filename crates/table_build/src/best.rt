//! Best paths from one member to all others, in three passes along the order of members: one climbs, and two fall.

ghost use Rattle.std.specs.Prelude.{◌≡◌, ◌≢◌, ◌<◌, ◌≤◌, ℕ, List, Bool, None, true, false, length, replicate, IfOk};
ghost use Rattle.an_base.specs.Values.{EntryOf};
ghost use Rattle.topo_graph.specs.Topology.{IsGraph};
ghost use Rattle.updown.specs.Order.{IsDescent, place_at};
ghost use Rattle.table_build.specs.Bests.{AreBestFrom, AreBestTo, best_at, climbing, Goes, IsBest, IsBetter};
ghost use Rattle.table_build.specs.Bests.{IsBetterOf, IsKnown, IsLonger, KnowsFar, Over, OverBelow};
ghost use Rattle.table_build.specs.Links.{AreLinks, AreLinksBelow, link_at};

use crate::link::{Link, Links};
use common_values::memory::OutOfMemory;
use std::alloc::Global;
use std::marker::Model;
use topo_graph::graph::Graph;
use updown::order::Height;

/// The lowest cost of some paths from a member, and the first ports of the paths of that cost.
#[derive(Clone, Copy)]
pub struct Best {
    /// The lowest cost.
    pub cost: u8,
    /// The first ports, a bit for each.
    pub ports: u16,
}

/// The paths to search for. A link costs 1, or 0 if paths of any length are allowed.
#[derive(Clone, Copy)]
pub struct Search {
    /// The index of the member where they begin.
    pub from: u8,
    /// Whether paths of any length are allowed.
    pub any: bool,
    /// Whether they may lead upward.
    pub up: bool,
    /// Whether they may lead downward; after that they lead only downward.
    pub down: bool,
}

// The better of two, or what both have if they cost the same.
fn better(a: Best, b: Best) -> Best
    ensures { IsBetter a b result }
{
    if a.cost < b.cost {
        return a;
    }
    if b.cost < a.cost {
        return b;
    }
    Best {
        cost: a.cost,
        ports: a.ports | b.ports,
    }
}

// The better of two best ways that there may be.
fn better_of(a: Option<Best>, b: Option<Best>) -> Option<Best>
    ensures { IsBetterOf a b result }
{
    match (a, b) {
        (Some(a), Some(b)) => Some(better(a, b)),
        (Some(a), None) => Some(a),
        (None, b) => b,
    }
}

// The best ways to the place z, longer by a link at a port of it.
fn longer(search: Search, z: u8, port: u8, best: Best) -> Best
    requires cost { best.cost ≤ 251 }
    requires port { port ≤ 12 }
    ensures { IsLonger search.any search.from z port best result }
{
    let ports = if z == search.from {
        best.ports | 1 << port
    } else {
        best.ports
    };
    let link = if search.any { 0 } else { 1 };
    Best {
        cost: best.cost + link,
        ports,
    }
}

// The best ways to a place, as a table has them.
fn known_to(bests: &[Option<Best>], z: u8) -> Option<Best>
    ensures { result ≡ best_at bests.now z }
{
    bests.get(usize::from(z)).copied().flatten()
}

// The best ways over a link, from the best ones to its far place.
fn best_by(graph: &Graph, search: Search, bests: &[Option<Best>], link: Link) -> Option<Best>
    requires graph { IsGraph graph.now }
    requires from { search.from < length graph.now }
    requires known { IsKnown graph.now search bests.now link }
    ensures { IsBest search.any (Over graph.now search link) result }
{
    let best = known_to(bests, link.place)?;
    Some(longer(search, link.place, link.by, best))
}

// The best ways whose last link is one of these, which lead to the far places.
fn best_over(graph: &Graph, search: Search, bests: &[Option<Best>], links: &[Link]) -> Option<Best>
    requires graph { IsGraph graph.now }
    requires from { search.from < length graph.now }
    requires known { (k : ℕ) → k < length links.now → IsKnown graph.now search bests.now (link_at links.now k) }
    ensures { IsBest search.any (OverBelow graph.now search links.now (length links.now)) result }
{
    let mut best = None;
    'links: for link in links {
        best = better_of(best, best_by(graph, search, bests, *link));
    }
    best
}

// The way of no link, to the place where it begins.
fn no_link(from: u8, y: u8) -> Option<Best>
    ensures { (entries : List EntryOf) (any : Bool)
        → IsBest any (λ ps. Goes entries false false from ps y) result }
{
    if y == from {
        return Some(Best { cost: 0, ports: 0 });
    }
    None
}

// The best ways to y that lead upward alone.
fn climb_to(
    graph: &Graph,
    links: &Links,
    from: u8,
    any: bool,
    bests: &[Option<Best>],
    y: u8,
) -> Option<Best>
    requires graph { IsGraph graph.now }
    requires links { AreLinksBelow graph.now y 13 links.now }
    requires from { from < length graph.now }
    requires knows { KnowsFar graph.now (climbing from any) true bests.now y }
    ensures { IsBest any (λ ps. Goes graph.now true false from ps y) result }
{
    let search = Search {
        from,
        any,
        up: true,
        down: false,
    };
    let over = best_over(graph, search, bests, &links.lower);
    better_of(no_link(from, y), over)
}

// The best ways to y that lead downward alone, or after links upward.
fn fall_to(
    graph: &Graph,
    links: &Links,
    search: Search,
    climbs: &[Option<Best>],
    bests: &[Option<Best>],
    y: u8,
) -> Option<Best>
    requires graph { IsGraph graph.now }
    requires links { AreLinksBelow graph.now y 13 links.now }
    requires from { search.from < length graph.now }
    requires down { search.down ≡ true }
    requires climbs { search.up ≡ true
        → IsBest search.any (λ ps. Goes graph.now true false search.from ps y) (best_at climbs.now y) }
    requires knows { KnowsFar graph.now search false bests.now y }
    ensures { IsBest search.any (λ ps. Goes graph.now search.up search.down search.from ps y) result }
{
    let over = best_over(graph, search, bests, &links.upper);
    let first = if search.up {
        known_to(climbs, y)
    } else {
        no_link(search.from, y)
    };
    better_of(first, over)
}

// So many places to which no way is known.
fn none_known(alloc: Global, count: u8) -> Result<Vec<Option<Best>>, OutOfMemory>
    ensures { IfOk result (λ bests. bests.items ≡ replicate count None) }
{
    let none: Option<Best> = None;
    Ok(vec![in alloc; none; usize::from(count)]?)
}

// The first position of a place.
fn first_of(order: &[Height], place: u8) -> usize
    ensures within { result ≤ length order.now }
    ensures before { (k : ℕ) → k < result → place_at order.now k ≢ place }
{
    let mut i = 0;
    'places: while i < order.len() && order[i].place != place {
        i += 1;
    }
    i
}

// The position after the last one of a place.
fn behind_last(order: &[Height], place: u8) -> usize
    ensures within { result ≤ length order.now }
    ensures behind { (k : ℕ) → result ≤ k → k < length order.now → place_at order.now k ≢ place }
{
    let mut i = order.len();
    'places: while i > 0 && order[i - 1].place != place {
        i -= 1;
    }
    i
}

// The first position to which ways may lead downward: those that lead downward alone lead to none that is
// higher than the place where they begin.
fn first_below(order: &[Height], search: Search) -> usize
    ensures within { result ≤ length order.now }
    ensures all { search.up ≡ true → result ≡ 0 }
    ensures before { search.up ≡ false → (k : ℕ) → k < result → place_at order.now k ≢ search.from }
{
    if search.up {
        return 0;
    }
    first_of(order, search.from)
}

// The best ways that lead upward alone, from the place where they begin to the highest.
fn climbs_of(
    alloc: Global,
    graph: &Graph,
    links: &[Links],
    order: &[Height],
    from: u8,
    any: bool,
) -> Result<Vec<Option<Best>>, OutOfMemory>
    requires links { AreLinks graph.now (length graph.now) links.now }
    requires order { IsDescent graph.now order.now }
    requires from { from < length graph.now }
    ensures { IfOk result (λ bests. AreBestTo graph.now any true false from bests.items) }
{
    let mut bests = none_known(alloc, graph.count())?;
    let mut i = behind_last(order, from);
    'places: while i > 0 {
        i -= 1;
        let y = order[i].place;
        let best = climb_to(graph, &links[usize::from(y)], from, any, &bests, y);
        bests[usize::from(y)] = best;
    }
    Ok(bests)
}

// The best ways that may lead downward, from the highest place to the lowest (those downward alone from where they
// begin). If they may lead upward first, they go on from those that lead upward alone.
fn falls_of(
    alloc: Global,
    graph: &Graph,
    links: &[Links],
    order: &[Height],
    search: Search,
    climbs: &[Option<Best>],
) -> Result<Vec<Option<Best>>, OutOfMemory>
    requires links { AreLinks graph.now (length graph.now) links.now }
    requires order { IsDescent graph.now order.now }
    requires from { search.from < length graph.now }
    requires down { search.down ≡ true }
    requires climbs { search.up ≡ true → AreBestTo graph.now search.any true false search.from climbs.now }
    ensures { IfOk result (λ bests.
        AreBestTo graph.now search.any search.up true search.from bests.items) }
{
    let mut bests = none_known(alloc, graph.count())?;
    'places: for i in first_below(order, search)..order.len() {
        let y = order[i].place;
        let best = fall_to(graph, &links[usize::from(y)], search, climbs, &bests, y);
        bests[usize::from(y)] = best;
    }
    Ok(bests)
}

/// The best paths from one member to each member: legal paths, and paths with only downward links.
#[derive(Drop)]
pub struct Bests {
    up: Vec<Option<Best>>,
    down: Vec<Option<Best>>,
}

impl Model for Bests {
    ghost use Rattle.table_build.specs.Bests.{BestsOf};

    ghost Value = { BestsOf };

    ghost view = { λ b. record { up = b.up.items; down = b.down.items } };
}

impl Bests {
    /// Returns the best paths from the member at index `from`.
    ///
    /// The caller must pass the `links` and the `order` of `graph`, and an index of a member.
    ///
    /// # Errors
    /// `OutOfMemory` if an allocation fails.
    pub fn from(
        alloc: Global,
        graph: &Graph,
        links: &[Links],
        order: &[Height],
        from: u8,
        any: bool,
    ) -> Result<Bests, OutOfMemory>
        requires links { AreLinks graph.now (length graph.now) links.now }
        requires order { IsDescent graph.now order.now }
        requires from { from < length graph.now }
        ensures { IfOk result (AreBestFrom graph.now any from) }
    {
        let climbs = climbs_of(alloc, graph, links, order, from, any)?;
        let search = Search {
            from,
            any,
            up: true,
            down: true,
        };
        let up = falls_of(alloc, graph, links, order, search, &climbs)?;
        let search = Search {
            up: false,
            ..search
        };
        let down = falls_of(alloc, graph, links, order, search, &[])?;
        Ok(Bests { up, down })
    }

    /// Returns the best legal paths to the member at index `y`, if there are any.
    pub fn up(&self, y: u8) -> Option<Best>
        ensures { result ≡ best_at self.now.up y }
    {
        known_to(&self.up, y)
    }

    /// Returns the best paths with only downward links to the member at index `y`, if there are any.
    pub fn down(&self, y: u8) -> Option<Best>
        ensures { result ≡ best_at self.now.down y }
    {
        known_to(&self.down, y)
    }
}
