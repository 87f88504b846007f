//! Entries and small networks, as tests write them.

ghost use Rattle.std.specs.Prelude.{◌≡◌, ◌<◌, ◌≤◌, [], ◌∷◌, map, IfOk};
ghost use Rattle.an_base.specs.declared.limits.TheConstants.{LAST_PORT, MOST_LEVEL};

use an_base::entry::{Entries, Entry};
use an_base::life::{End, Life};
use an_base::links::{Links, PortLink};
use an_base::position::Position;
use common_values::memory::OutOfMemory;
use std::alloc::Global;
use topo_graph::graph::Graph;

/// Returns the life of the identifier `uid`, below 100, in its first boot.
pub fn life_of(uid: u64) -> Life
    requires { uid < 100 }
    ensures { result ≡ record { uid = uid; boot = 1 } }
{
    Life::new(uid, 1)
}

/// Returns a link from port `port` to port `far`, each 1 to 12, of the life of `uid`, below 100.
pub fn link(port: u8, uid: u64, far: u8) -> PortLink
    requires uid { uid < 100 }
    requires least { 1 ≤ port }
    requires most { port ≤ LAST_PORT }
    requires far_least { 1 ≤ far }
    requires far_most { far ≤ LAST_PORT }
    ensures port { result.port ≡ port }
    ensures peer { result.peer ≡ record { life = record { uid = uid; boot = 1 }; port = far } }
{
    PortLink::new(port, End::new(life_of(uid), far))
}

/// Returns two links, which must be at ports 1 and 2.
pub fn two_links(one: PortLink, two: PortLink) -> Links
    requires one { one.port ≡ 1 }
    requires two { two.port ≡ 2 }
    ensures { result ≡ one ∷ two ∷ [] }
{
    let mut links = Links::new();
    links.push(one);
    links.push(two);
    links
}

/// Returns the entry of the life of `uid` at `level` of the tree of life 1, below `parent` by
/// `port`, with these links.
pub fn entry(uid: u64, level: u8, parent: u64, port: u8, links: Links) -> Entry
    requires uid { uid < 100 }
    requires level { level ≤ MOST_LEVEL }
    requires parent { parent < 100 }
    requires port { port ≤ LAST_PORT }
    ensures life { result.life ≡ record { uid = uid; boot = 1 } }
    ensures level { result.position.level ≡ level }
    ensures parent { result.position.parent ≡ record { uid = parent; boot = 1 } }
    ensures port { result.position.port ≡ port }
    ensures links { result.links ≡ links }
{
    Entry {
        life: life_of(uid),
        position: Position::new(life_of(1), level, life_of(parent), port),
        proposed: 1,
        links,
    }
}

/// Returns a ring of lives 1, 2, 4 and 3, of which 4 is at level 2.
///
/// # Errors
/// `OutOfMemory` if an allocation fails.
pub fn ring(alloc: Global) -> Result<Graph, OutOfMemory>
    ensures { IfOk result (λ graph. map (λ entry. entry.life.uid) graph ≡ 1 ∷ 2 ∷ 3 ∷ 4 ∷ []) }
{
    let first = entry(1, 0, 1, 0, two_links(link(1, 2, 1), link(2, 3, 1)));
    let mut entries = Entries::of(alloc, first)?;
    entries.push(entry(2, 1, 1, 1, two_links(link(1, 1, 1), link(2, 4, 1))))?;
    entries.push(entry(3, 1, 1, 1, two_links(link(1, 1, 2), link(2, 4, 2))))?;
    entries.push(entry(4, 2, 2, 1, two_links(link(1, 2, 2), link(2, 3, 2))))?;
    Graph::of(alloc, &entries)
}
