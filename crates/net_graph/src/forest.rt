//! All components with their trees. Roots come in ascending order, and each removes its component from the rest.

ghost use Rattle.std.specs.Prelude.{◌≡◌, ◌<◌, ℕ, length, IfOk, None, Some};
ghost use Rattle.net_graph.specs.Levels.{level_at};
ghost use Rattle.net_graph.specs.Forest.{IsForest};
ghost use Rattle.net_graph.specs.Forested.{IsWithout};

use crate::level::distances_to;
use crate::next::next_from;
use crate::tree::component_of;
use crate::wiring::Wiring;
use an_base::entry::Entries;
use common_values::memory::OutOfMemory;
use std::alloc::Global;

// A mark for each switch. It stays while the switch is in no component that was found.
fn all_marked(alloc: Global, count: u8) -> Result<Vec<Option<u8>>, OutOfMemory>
    ensures count { IfOk result (λ marks. length marks.items ≡ count) }
    ensures marked { IfOk result (λ marks. (x : ℕ) → x < count → level_at marks.items x ≡ Some 0) }
{
    let mut marks = Vec::new(alloc);
    'marks: for _ in 0..count {
        marks.push(Some(0))?;
    }
    Ok(marks)
}

// Takes the marks of the nodes that have a level.
fn take_out(marks: &mut Vec<Option<u8>>, levels: &[Option<u8>])
    requires { length levels.now ≡ length marks.old.items }
    ensures without { IsWithout marks.old.items marks.new.items levels.now (length levels.now) }
    ensures count { length marks.new.items ≡ length marks.old.items }
{
    'nodes: for x in 0..levels.len() {
        if levels[x].is_some() {
            marks[x] = None;
        }
    }
}

/// Returns the components of the links in ascending order of root, each with the tree of shortest
/// walks to its lowest life.
///
/// Each switch is in one of them, in its first boot, and proposes the number that it had last. A
/// host's port leads nowhere, and the entry of a switch omits links from the switch to itself.
///
/// # Errors
/// `OutOfMemory` if an allocation fails.
pub fn trees(alloc: Global, wiring: &Wiring) -> Result<Vec<Entries>, OutOfMemory>
    ensures { IfOk result (λ forest. IsForest wiring.now forest.items) }
{
    let count = wiring.count();
    let mut marks = all_marked(alloc, count)?;
    let mut forest = Vec::new(alloc);
    let mut from = 0u64;
    'roots: while let Some(root) = next_from(wiring, &marks, from) {
        let levels = distances_to(alloc, wiring, root)?;
        forest.push(component_of(alloc, wiring, &levels, root)?)?;
        take_out(&mut marks, &levels);
        from = wiring.uid(root) + 1;
    }
    Ok(forest)
}
