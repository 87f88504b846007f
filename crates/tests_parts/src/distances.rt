//! Distances by legal routes (`updown`).

use crate::sample::{life_of, ring};
use std::process::Abort;
use std::test::Fail;
use updown::distance::Distances;
use updown::reach::distances;

// Asserts the distances of some lives to life 3.
fn are_right(rt: &impl Abort, reach: &Distances) {
    assert!(rt; reach.up(life_of(2)) == Some(2));
    assert!(rt; reach.down(life_of(2)).is_none());
    assert!(rt; reach.up(life_of(4)) == Some(1));
    assert!(rt; reach.down(life_of(1)) == Some(1));
}

#[test]
fn no_upward_link_follows_a_downward_one(rt: HostRuntime) -> Result<(), Fail> {
    let graph = ring(rt.alloc())?;
    match graph.place(life_of(3)) {
        Some(_place) => {
            are_right(&rt, &distances(rt.alloc(), &graph, life_of(3))?);
            Ok(())
        }
        None => Err("place".into()),
    }
}
