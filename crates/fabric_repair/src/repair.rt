//! Tables repaired along the best of several orders.

ghost use Rattle.std.specs.Prelude.{◌≡◌, ◌≤◌, ◌*◌, length, IfOk, IfSome};
ghost use Rattle.fabric_model.specs.Fabric.{switch_count};
ghost use Rattle.fabric_tables.specs.Cells.{tables_of};
ghost use Rattle.fabric_repair.specs.Repaired.{AreRepairedOf};

use crate::changes::Changes;
use crate::mending::{Scope, mend};
use crate::roots::{falling, find_root, tree_from};
use crate::task::{Parts, Task};
use crate::weights::{reweigh, weigh};
use crate::wishes::wish;
use crate::writing::{copy_tables, write_tables};
use common_values::memory::OutOfMemory;
use fabric_engine_channels::channels::{Channel, Channels, Turn};
use fabric_engine_channels::order::Order;
use fabric_engine_channels::table::Table;
use fabric_engine_orders::levels::{order_by_height, order_from_root};
use fabric_engine_sorting::effort::Effort;
use fabric_engine_sorting::sorting::{Sorting, Wanted, heaviest};
use fabric_model::fabric::Fabric;
use fabric_model::traffic::Traffic;
use fabric_tables::cells::Cells;
use std::alloc::Global;

// How often an order is made better at most.
const ROUNDS: u32 = 10;

// How often that may bring nothing.
const IDLE: u32 = 3;

// Of so many cells one row may be set at most for it to be made better.
const WORTH: usize = 8;

// How many steps are taken to find better rows, before what is there is taken.
const STEPS: u64 = 1 << 26;

// By which order a search begins.
#[derive(Clone, Copy)]
enum Begin {
    // That from a root.
    Root(u32),
    // That by height.
    Height,
    // That from a root, and the turns of a tree from it are kept.
    Tree(u32),
}

// Where a search for an order begins.
#[derive(Drop)]
struct Start {
    order: Order,
    // Which channels are of a tree whose turns are kept, if they are: then there is a route from each switch to each.
    tree: Option<Table<bool>>,
    // What the turns of the given routes weigh that fall in the order.
    weight: u64,
}

// What is looked for.
#[derive(Clone, Copy)]
struct Search<'a> {
    alloc: Global,
    task: Task<'a>,
    // For how many pairs of a switch and a LID the given routes make each turn, and these turns, the heaviest first.
    weights: &'a Table<u32>,
    wanted: &'a [Wanted],
    // How many rows may be set for an order to be made better.
    worth: usize,
}

// An order, and the rows that are to be set so that routes rise in it.
#[derive(Drop)]
struct Found {
    order: Order,
    changes: Changes,
}

// Adds the turns of a tree from a channel of it.
fn add_turns_after(
    channels: &Channels,
    tree: &Table<bool>,
    channel: Channel,
    sorting: &mut Sorting,
    effort: &mut Effort,
) -> Result<(), OutOfMemory> {
    let back = channels.back(channel);
    'exits: for number in channels.exits(channels.to(channel)) {
        let next = Channel(number);
        if tree.get(next) && next != back {
            let _ = sorting.add(channels, channel, next, effort)?;
        }
    }
    Ok(())
}

// Adds the turns of a tree.
fn add_tree(
    channels: &Channels,
    tree: &Table<bool>,
    sorting: &mut Sorting,
    effort: &mut Effort,
) -> Result<(), OutOfMemory> {
    'channels: for number in 0..channels.count() {
        if tree.get(number) {
            add_turns_after(channels, tree, Channel(number), sorting, effort)?;
        }
    }
    Ok(())
}

impl Search<'_> {
    // An order to which the turns of the tree were added, if they are kept.
    fn sorting(
        self,
        order: &Order,
        start: &Start,
        effort: &mut Effort,
    ) -> Result<Sorting, OutOfMemory> {
        let mut sorting = Sorting::of(self.alloc, self.task.channels, order)?;
        if let Some(tree) = &start.tree {
            add_tree(self.task.channels, tree, &mut sorting, effort)?;
        }
        Ok(sorting)
    }

    // Adds the turns of the given routes, and finds the rows that are to be set.
    fn mend(
        self,
        mut sorting: Sorting,
        scope: Scope<'_>,
        effort: &mut Effort,
    ) -> Result<Option<Found>, OutOfMemory> {
        let Search { alloc, task, .. } = self;
        let _ = sorting.add_all(alloc, task.channels, self.wanted, effort)?;
        let order = sorting.order(alloc)?;
        match mend(alloc, task, &order, scope, effort)? {
            Some(changes) => Ok(Some(Found { order, changes })),
            None => Ok(None),
        }
    }

    // Adds the turns that weigh something and were not added, the heaviest first. Answers which cannot rise.
    fn add_heaviest(
        self,
        sorting: &mut Sorting,
        weights: &Table<u32>,
        effort: &mut Effort,
    ) -> Result<Vec<Turn>, OutOfMemory> {
        let Search { alloc, task, .. } = self;
        let wanted = heaviest(alloc, task.channels, weights, sorting.added())?;
        sorting.add_all(alloc, task.channels, &wanted, effort)
    }

    // Adds the turns with which there would be fewer rows than were found. Notes those that cannot rise.
    fn add_wishes(
        self,
        sorting: &mut Sorting,
        found: &Found,
        refused: &mut Table<bool>,
        effort: &mut Effort,
    ) -> Result<(), OutOfMemory> {
        let Search { alloc, task, .. } = self;
        let wishes = wish(alloc, task, &found.order, &found.changes, refused, effort)?;
        'refused: for turn in &self.add_heaviest(sorting, &wishes, effort)? {
            refused.put(*turn, true);
        }
        Ok(())
    }

    // Adds the turns of the routes that were found. Answers which targets are to be looked at after it.
    fn add_found<'a>(
        self,
        sorting: &mut Sorting,
        found: &'a Found,
        effort: &mut Effort,
    ) -> Result<Scope<'a>, OutOfMemory> {
        let made = reweigh(self.alloc, self.task, self.weights, &found.changes)?;
        let scope = if found.changes.lost() == 0 {
            sorting.add_rising(self.task.channels, &made);
            Scope::Concerned(&found.changes)
        } else {
            Scope::AllInTime
        };
        let _ = self.add_heaviest(sorting, &made, effort)?;
        Ok(scope)
    }

    // Adds the turns of the routes that were found, those with which there would be fewer rows, and those of the given
    // routes, and finds the rows that are to be set.
    fn mend_again(
        self,
        start: &Start,
        found: &Found,
        refused: &mut Table<bool>,
        effort: &mut Effort,
    ) -> Result<Option<Found>, OutOfMemory> {
        let mut sorting = self.sorting(&found.order, start, effort)?;
        let scope = self.add_found(&mut sorting, found, effort)?;
        self.add_wishes(&mut sorting, found, refused, effort)?;
        self.mend(sorting, scope, effort)
    }

    // The rows that are to be set by the best order that is found from a start, if one is found.
    fn search(
        self,
        start: &Start,
        scope: Scope<'_>,
        effort: &mut Effort,
    ) -> Result<Option<Changes>, OutOfMemory> {
        let sorting = self.sorting(&start.order, start, effort)?;
        let mut best = match self.mend(sorting, scope, effort)? {
            Some(found) => found,
            None => return Ok(None),
        };
        let mut refused = Table::filled(self.alloc, self.task.channels.turns(), false)?;
        let mut idle = 0u32;
        'rounds: for _ in 0..ROUNDS {
            let rows = best.changes.rows().len();
            if best.changes.is_empty() || rows > self.worth || idle == IDLE {
                break;
            }
            let Some(found) = self.mend_again(start, &best, &mut refused, effort)? else {
                break;
            };
            if found.changes.is_better(&best.changes) {
                best = found;
            } else {
                idle = idle.wrapping_add(1);
            }
        }
        Ok(Some(best.changes))
    }

    // The order with which a search begins, if there is one.
    fn order(self, begin: Begin) -> Result<Option<Order>, OutOfMemory> {
        let channels = self.task.channels;
        match begin {
            Begin::Height => order_by_height(self.alloc, channels, self.task.demand),
            Begin::Root(root) | Begin::Tree(root) => {
                Ok(Some(order_from_root(self.alloc, channels, root)?))
            }
        }
    }

    // Which channels are of the tree whose turns are kept, if they are.
    fn tree(self, begin: Begin) -> Result<Option<Table<bool>>, OutOfMemory> {
        match begin {
            Begin::Root(_) | Begin::Height => Ok(None),
            Begin::Tree(root) => Ok(Some(tree_from(self.alloc, self.task, root)?)),
        }
    }

    // Where a search begins, if there is an order.
    fn start(self, begin: Begin) -> Result<Option<Start>, OutOfMemory> {
        let tree = self.tree(begin)?;
        match self.order(begin)? {
            Some(order) => Ok(Some(Start {
                weight: falling(self.task, self.weights, &order),
                order,
                tree,
            })),
            None => Ok(None),
        }
    }

    // Searches, and keeps what is found if it is better. Without effort the first search is made, and one that keeps a
    // tree if something is lost.
    fn search_from(
        self,
        start: &Start,
        best: &mut Option<Changes>,
        effort: &mut Effort,
    ) -> Result<(), OutOfMemory> {
        if best.as_ref().is_some_and(Changes::is_empty) {
            return Ok(());
        }
        let is_wanted = match best {
            Some(best) => best.lost() > 0 && start.tree.is_some(),
            None => true,
        };
        let scope = if is_wanted {
            Scope::All
        } else {
            Scope::AllInTime
        };
        let Some(changes) = self.search(start, scope, effort)? else {
            return Ok(());
        };
        let is_better = match best {
            Some(best) => changes.is_better(best),
            None => true,
        };
        if is_better {
            *best = Some(changes);
        }
        Ok(())
    }

    // Where searches begin: from the root in whose order the given routes fall least, from a switch with the most channels,
    // by height, and from that root with a tree. Those come first in whose orders the routes fall least.
    fn starts(self) -> Result<Vec<Start>, OutOfMemory> {
        let root = find_root(self.alloc, self.task, self.weights)?;
        let widest = self.task.channels.widest();
        let begins = [
            Begin::Root(root),
            Begin::Root(widest),
            Begin::Height,
            Begin::Tree(root),
        ];
        let mut starts = Vec::new(self.alloc);
        'begins: for begin in begins {
            if let Some(start) = self.start(begin)? {
                starts.push(start)?;
            }
        }
        starts.sort_by_key(|start| start.weight)?;
        Ok(starts)
    }

    // The rows that are to be set by the best order of all that are tried.
    fn best(self) -> Result<Option<Changes>, OutOfMemory> {
        let mut effort = Effort::of(STEPS);
        let mut best = None;
        'starts: for start in &self.starts()? {
            self.search_from(start, &mut best, &mut effort)?;
        }
        Ok(best)
    }
}

// The rows that are to be set so that nothing is lost, if such are found.
fn find_changes(alloc: Global, task: Task<'_>) -> Result<Option<Changes>, OutOfMemory> {
    let weights = weigh(alloc, task)?;
    let added = Table::empty(alloc, false);
    let wanted = heaviest(alloc, task.channels, &weights, &added)?;
    let switches = task.channels.switches() as usize;
    let cells = switches.wrapping_mul(task.demand.targets().len());
    let search = Search {
        alloc,
        task,
        weights: &weights,
        wanted: &wanted,
        worth: cells / WORTH,
    };
    let best = search.best()?;
    Ok(best.filter(|changes| changes.lost() == 0))
}

// The given tables repaired, if rows are found that are to be set.
fn repair_task(
    alloc: Global,
    fabric: &Fabric,
    cells: &Cells,
    task: Task<'_>,
) -> Result<Option<Cells>, OutOfMemory>
    requires switches { cells.now.switches ≡ switch_count fabric.now }
    requires lids { length fabric.now.owners ≤ 64 * cells.now.blocks }
    requires low { 64 * cells.now.blocks ≤ 0xC000 }
    ensures { IfOk result (λ found. IfSome found (AreRepairedOf fabric.now cells.now)) }
{
    match find_changes(alloc, task)? {
        Some(changes) => Ok(Some(write_tables(alloc, fabric, cells, changes.rows())?)),
        None => Ok(None),
    }
}

/// Tables in which few rows are set otherwise than in given ones, with all ways for the traffic; none if no
/// such tables are found, as in a fabric in parts. Rows are set for LIDs that have an owner; each row for another
/// stays. The same tables are repaired alike each time. The error is out of memory alone.
pub fn repair(
    alloc: Global,
    fabric: &Fabric,
    cells: &Cells,
    traffic: Traffic,
) -> Result<Option<Cells>, OutOfMemory>
    requires switches { cells.now.switches ≡ switch_count fabric.now }
    requires lids { length fabric.now.owners ≤ 64 * cells.now.blocks }
    requires low { 64 * cells.now.blocks ≤ 0xC000 }
    ensures { IfOk result (λ found. IfSome found (AreRepairedOf fabric.now cells.now)) }
{
    let parts = Parts::of(alloc, fabric)?;
    repair_task(alloc, fabric, cells, parts.task(cells, traffic))
}

/// A copy of given tables, in which no row is set. The error is out of memory alone.
pub fn keep(alloc: Global, fabric: &Fabric, cells: &Cells) -> Result<Cells, OutOfMemory>
    requires { cells.now.switches ≡ switch_count fabric.now }
    ensures shape { IfOk result (AreRepairedOf fabric.now cells.now) }
    ensures same { IfOk result (λ made. tables_of made ≡ tables_of cells.now) }
{
    copy_tables(alloc, fabric, cells)
}
