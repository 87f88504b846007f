//! The links of each member, separated by which end is up, so that a pass visits only one kind.

ghost use Rattle.std.specs.Prelude.{◌≡◌, ◌+◌, ◌<◌, [], length, IfOk, OnOk};
ghost use Rattle.table_build.specs.Links.{AreLinks, AreLinksBelow};

use common_values::memory::OutOfMemory;
use std::alloc::Global;
use topo_graph::graph::Graph;
use updown::route::is_up_end;

/// The far side of a port of a member.
#[derive(Clone, Copy)]
pub struct Link {
    /// The index of the far member.
    pub place: u8,
    /// The far port.
    pub by: u8,
}

/// The links of a member.
#[derive(Drop)]
pub struct Links {
    /// The links whose up end is the member.
    pub lower: Vec<Link>,
    /// The other links.
    pub upper: Vec<Link>,
}

// Adds the link at a port, if there is one.
fn push_link(links: &mut Links, graph: &Graph, y: u8, port: u8) -> Result<(), OutOfMemory>
    requires within { y < length graph.now }
    requires below { AreLinksBelow graph.now y port links.old }
    ensures { OnOk result (AreLinksBelow graph.now y (port + 1) links.new) }
{
    let Some((place, by)) = graph.far_place(y, port) else {
        return Ok(());
    };
    let link = Link { place, by };
    if is_up_end(graph, y, place) {
        links.lower.push(link)?;
        return Ok(());
    }
    links.upper.push(link)?;
    Ok(())
}

// The links of the member at a place.
fn links_at(alloc: Global, graph: &Graph, y: u8) -> Result<Links, OutOfMemory>
    requires { y < length graph.now }
    ensures { IfOk result (AreLinksBelow graph.now y 13) }
{
    let mut links = Links {
        lower: Vec::new(alloc),
        upper: Vec::new(alloc),
    };
    'ports: for port in 0..13u8 {
        push_link(&mut links, graph, y, port)?;
    }
    Ok(links)
}

// Adds to none the links of all members, by place.
fn push_all(links: &mut Vec<Links>, alloc: Global, graph: &Graph) -> Result<(), OutOfMemory>
    requires { links.old.items ≡ [] }
    ensures { OnOk result (AreLinks graph.now (length graph.now) links.new.items) }
{
    'places: for y in 0..graph.count() {
        links.push(links_at(alloc, graph, y)?)?;
    }
    Ok(())
}

/// Returns the links of all members, in order.
///
/// # Errors
/// `OutOfMemory` if an allocation fails.
pub fn links_of(alloc: Global, graph: &Graph) -> Result<Vec<Links>, OutOfMemory>
    ensures { IfOk result (λ links. AreLinks graph.now (length graph.now) links.items) }
{
    let mut links = Vec::with_capacity(alloc, usize::from(graph.count()))?;
    push_all(&mut links, alloc, graph)?;
    Ok(links)
}
