//! The data that the tables of all members share, so that a caller that makes all tables computes it once.

ghost use Rattle.std.specs.Prelude.{◌≡◌, length, IfOk};
ghost use Rattle.an_base.specs.Numbers.{AreNumbers};
ghost use Rattle.table_build.specs.Routing.{ArePlaces, IsRouting, place_at};

use crate::link::{Links, links_of};
use an_base::numbers::Numbers;
use common_values::memory::OutOfMemory;
use std::alloc::Global;
use std::marker::Model;
use topo_graph::graph::Graph;
use updown::order::{Descent, Height, descent_of};

// For each number the place that has it.
fn places_of(numbers: &[u8]) -> [Option<u8>; 127]
    requires { AreNumbers numbers.now }
    ensures { ArePlaces numbers.now (length numbers.now) result }
{
    let mut places = [None; 127];
    'places: for i in 0..numbers.len() {
        places[usize::from(numbers[i])] = Some(i as u8);
    }
    places
}

/// The data that the tables of all members share: the index of each number, the members from the
/// highest to the lowest, and the links of each member.
#[derive(Drop)]
pub struct Routing {
    places: [Option<u8>; 127],
    descent: Descent,
    links: Vec<Links>,
}

impl Model for Routing {
    ghost use Rattle.table_build.specs.Routing.{RoutingOf};

    ghost Value = { RoutingOf };

    ghost view = { λ r. record { places = r.places; order = r.descent; links = r.links.items } };
}

impl Routing {
    /// Computes the shared data of `graph`. The caller must pass one number for each entry of the graph.
    ///
    /// # Errors
    /// `OutOfMemory` if an allocation fails.
    pub fn of(alloc: Global, graph: &Graph, numbers: &Numbers) -> Result<Routing, OutOfMemory>
        requires { length numbers.now ≡ length graph.now }
        ensures { IfOk result (IsRouting graph.now numbers.now) }
    {
        let places = places_of(numbers.as_slice());
        let descent = descent_of(alloc, graph)?;
        let links = links_of(alloc, graph)?;
        Ok(Routing {
            places,
            descent,
            links,
        })
    }

    /// Returns the index of the member with the number `number`, if there is one.
    pub fn place(&self, number: u8) -> Option<u8>
        ensures { result ≡ place_at self.now.places number }
    {
        self.places.get(usize::from(number)).copied().flatten()
    }

    /// Returns the members from the highest to the lowest.
    pub fn order(&self) -> &[Height]
        ensures { result.now ≡ self.now.order }
    {
        self.descent.as_slice()
    }

    /// Returns the links of each member, in order.
    pub fn links(&self) -> &[Links]
        ensures { result.now ≡ self.now.links }
    {
        &self.links
    }
}
