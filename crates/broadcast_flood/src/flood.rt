//! The hops of broadcasts. The hops downward are the same for all senders, and are computed once.

ghost use Rattle.std.specs.Prelude.{◌≡◌, ◌↔◌, ◌<◌, ◌++◌};
ghost use Rattle.std.specs.Prelude.{Any, length, map, IfOk, IfSome, IsNone, OnOk};
ghost use Rattle.topo_graph.specs.Topology.{IsGraph, IsTree, life_at};
ghost use Rattle.broadcast_flood.specs.Kept.{AreChildren, AreHopsDown};
ghost use Rattle.broadcast_flood.specs.Floods.{AreHopsUp, down_at, IsBroadcast};
ghost use Rattle.broadcast_flood.specs.Tree.{AreChildPortsOf, IsParentPort};

use crate::children::children_of;
use crate::hop::FloodHop;
use an_base::life::Life;
use an_base::row::ExitList;
use common_values::memory::OutOfMemory;
use std::alloc::Global;
use std::marker::Model;
use topo_graph::graph::Graph;
use updown::order::descent_of;

// Adds the hops of a member to its children.
fn push_hops(hops: &mut Vec<FloodHop>, at: Life, ports: &[u8]) -> Result<(), OutOfMemory>
    ensures { OnOk result (hops.new.items ≡ hops.old.items ++ map (down_at at) ports.now) }
{
    'ports: for port in ports {
        hops.push(FloodHop {
            up: false,
            at,
            port: *port,
        })?;
    }
    Ok(())
}

// The hops by every tree link downward, by rising level of who sends, then by life, then by port.
fn hops_down(
    alloc: Global,
    graph: &Graph,
    children: &[ExitList],
) -> Result<Vec<FloodHop>, OutOfMemory>
    requires graph { IsGraph graph.now }
    requires children { AreChildren graph.now (length graph.now) children.now }
    ensures { IfOk result (λ hops. AreHopsDown graph.now hops.items) }
{
    let descent = descent_of(alloc, graph)?;
    let mut hops = Vec::with_capacity(alloc, children.len())?;
    'heights: for height in descent.as_slice() {
        let ports = &children[usize::from(height.place)];
        push_hops(&mut hops, graph.life(height.place), ports.as_slice())?;
    }
    Ok(hops)
}

/// The broadcasts of a topology whose positions are its spanning tree. Contracts see the entries.
#[derive(Drop)]
pub struct Flood<'a> {
    graph: &'a Graph,
    children: Vec<ExitList>,
    downs: Vec<FloodHop>,
}

impl<'a> Model for Flood<'a> {
    ghost use Rattle.std.specs.Prelude.{List};
    ghost use Rattle.an_base.specs.Values.{EntryOf};
    ghost use Rattle.broadcast_flood.specs.Kept.{IsKept};

    ghost Value = { List EntryOf };

    ghost view = { λ f. f.graph.now };

    ghost invariant = { λ f. IsKept f.graph.now f.children.items f.downs.items };
}

impl<'a> Flood<'a> {
    /// Prepares the broadcasts of `graph`.
    ///
    /// The caller must pass a graph whose positions are the tree of shortest walks to the lowest life.
    ///
    /// # Errors
    /// `OutOfMemory` if an allocation fails.
    pub fn of(alloc: Global, graph: &'a Graph) -> Result<Flood<'a>, OutOfMemory>
        requires { IsTree graph.now }
        ensures { IfOk result (λ flood. flood ≡ graph.now) }
    {
        let children = children_of(alloc, graph)?;
        let downs = hops_down(alloc, graph, &children)?;
        Ok(Flood {
            graph,
            children,
            downs,
        })
    }

    /// Returns the port of the parent link of `life`, or `None` if and only if it is the root.
    ///
    /// The caller must pass a member. It does not allocate.
    pub fn parent_port(&self, life: Life) -> Option<u8>
        requires { Any (λ e. e.life ≡ life) self.now }
        ensures none { IsNone result ↔ (life ≡ life_at self.now 0) }
        ensures port { IfSome result (IsParentPort self.now life) }
    {
        let x = self.graph.place(life).unwrap();
        let port = self.graph.position(x).port;
        if port == 0 { None } else { Some(port) }
    }

    /// Returns the ports of the tree links from `life` to its children, in ascending order.
    ///
    /// The caller must pass a member. It does not allocate.
    pub fn child_ports(&self, life: Life) -> &[u8]
        requires { Any (λ e. e.life ≡ life) self.now }
        ensures { AreChildPortsOf self.now life result.now }
    {
        let x = self.graph.place(life).unwrap();
        let ports = &self.children[usize::from(x)];
        ports.as_slice()
    }

    // The hops up from the member at a place to the root, with room for those down.
    fn hops_up(&self, alloc: Global, x: u8) -> Result<Vec<FloodHop>, OutOfMemory>
        requires { x < length self.now }
        ensures { IfOk result (λ hops. AreHopsUp self.now x hops.items) }
    {
        let level = usize::from(self.graph.level(x));
        let mut hops = Vec::with_capacity(alloc, level + self.downs.len())?;
        let mut at = x;
        let mut port = self.graph.position(x).port;
        'ups: while let Some((parent, _)) = self.graph.far_place(at, port) {
            hops.push(FloodHop {
                up: true,
                at: self.graph.life(at),
                port,
            })?;
            at = parent;
            port = self.graph.position(parent).port;
        }
        Ok(hops)
    }

    /// Returns the hops of a broadcast from the member `from`.
    ///
    /// First come the hops up to the root by parent links, then the hops by every tree link downward, in
    /// ascending order of the sender's level, then of its life, then of port. The caller must pass a member.
    ///
    /// # Errors
    /// `OutOfMemory` if an allocation fails.
    pub fn hops(&self, alloc: Global, from: Life) -> Result<Vec<FloodHop>, OutOfMemory>
        requires { Any (λ e. e.life ≡ from) self.now }
        ensures { IfOk result (λ hops. IsBroadcast self.now from hops.items) }
    {
        let x = self.graph.place(from).unwrap();
        let mut hops = self.hops_up(alloc, x)?;
        hops.extend_from_slice(&self.downs)?;
        Ok(hops)
    }
}
