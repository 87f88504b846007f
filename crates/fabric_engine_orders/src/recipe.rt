//! How orders of channels are made.

use crate::first_ports::order_along;
use crate::levels::{order_by_height, order_from_root};
use crate::materials::{Materials, Wanted};
use crate::sift::{Wishes, sift};
use crate::spanning::Tree;
use crate::weights::Weights;
use common_values::memory::OutOfMemory;
use fabric_engine_channels::channels::Channels;
use fabric_engine_channels::demand::Demand;
use fabric_engine_channels::order::Order;
use fabric_engine_channels::table::Table;
use fabric_engine_channels::ways::Rule;
use std::alloc::Global;

/// The form of a spanning tree.
#[derive(Clone, Copy)]
pub enum Shape {
    /// Breadth-first, from a switch with the most channels.
    Wide,
    /// Depth-first, from a switch with the most channels; different numbers give different trees.
    Deep(u64),
}

/// How an order is made.
#[derive(Clone, Copy)]
pub enum Recipe {
    /// Up, away from the leaves, and then down.
    Heights,
    /// As `Heights`, made better.
    BetterHeights,
    /// Along the routes that leave each switch by the first port that they can.
    FirstPorts,
    /// Up to a switch with the most channels, and then down.
    Levels,
    /// Up to a leaf, and then down, if some switch is not a leaf. In an intact fat tree all turns rise that rise by
    /// heights, and there is a route from each switch to every other one.
    LevelsFromLeaf,
    /// Up a spanning tree and then down, made better so that these routes break few turns. The turns of the tree are
    /// kept, so there is a route from each switch to every other one.
    Tree(Shape, Wanted),
    /// Up a spanning tree and then down, made better for routes that are spread. The turns of the tree can be broken.
    FreeTree(Shape),
}

// What orders are made for.
#[derive(Clone, Copy)]
struct Making<'a> {
    alloc: Global,
    channels: &'a Channels,
    demand: &'a Demand,
    materials: &'a Materials,
}

impl Making<'_> {
    // Makes an order better for given routes, and then for those that break fewest of its turns.
    fn improve(
        self,
        wanted: Wanted,
        kept: Option<&Table<bool>>,
        order: &mut Order,
    ) -> Result<(), OutOfMemory> {
        let weights = self.materials.weights(wanted);
        sift(self.alloc, self.channels, Wishes { weights, kept }, order)?;
        self.improve_again(kept, order)
    }

    // Makes it better for the routes that break fewest of its turns.
    fn improve_again(
        self,
        kept: Option<&Table<bool>>,
        order: &mut Order,
    ) -> Result<(), OutOfMemory> {
        let rule = Rule::Fewest(&*order);
        let routes = Weights::shortest(self.alloc, self.channels, self.demand, rule)?;
        if routes.spared == 0 {
            return Ok(());
        }
        let weights = &routes.turns;
        sift(self.alloc, self.channels, Wishes { weights, kept }, order)
    }

    // Up by height and down, if not all switches are leaves, made better.
    fn by_better_heights(self) -> Result<Option<Order>, OutOfMemory> {
        let Some(mut order) = order_by_height(self.alloc, self.channels, self.demand)? else {
            return Ok(None);
        };
        self.improve(Wanted::Spread, None, &mut order)?;
        Ok(Some(order))
    }

    // Up to a leaf and down, if not all switches are leaves.
    fn by_levels_from_leaf(self) -> Result<Option<Order>, OutOfMemory> {
        if self.demand.leaves().len() >= self.channels.switches() as usize {
            return Ok(None);
        }
        let order = order_from_root(self.alloc, self.channels, self.materials.leaf)?;
        Ok(Some(order))
    }

    // A spanning tree.
    fn tree(self, shape: Shape) -> Result<Tree, OutOfMemory> {
        match shape {
            Shape::Wide => Tree::wide(self.alloc, self.channels, self.materials.root),
            Shape::Deep(seed) => Tree::deep(self.alloc, self.channels, self.materials.root, seed),
        }
    }

    // From a spanning tree whose turns are kept.
    fn by_tree(self, shape: Shape, wanted: Wanted) -> Result<Order, OutOfMemory> {
        let tree = self.tree(shape)?;
        let mut order = tree.order(self.alloc, self.channels)?;
        self.improve_along(&tree, wanted, &mut order)?;
        Ok(order)
    }

    // Makes an order better, but for the turns of a spanning tree.
    fn improve_along(
        self,
        tree: &Tree,
        wanted: Wanted,
        order: &mut Order,
    ) -> Result<(), OutOfMemory> {
        let marks = tree.marks(self.alloc, self.channels)?;
        self.improve(wanted, Some(&marks), order)
    }

    // From a spanning tree whose turns may be broken.
    fn by_free_tree(self, shape: Shape) -> Result<Order, OutOfMemory> {
        let tree = self.tree(shape)?;
        let mut order = tree.order(self.alloc, self.channels)?;
        self.improve(Wanted::Spread, None, &mut order)?;
        Ok(order)
    }
}

impl Recipe {
    /// Makes the order, if the recipe gives one for the fabric.
    ///
    /// # Errors
    /// `OutOfMemory`.
    pub fn make(
        self,
        alloc: Global,
        channels: &Channels,
        demand: &Demand,
        materials: &Materials,
    ) -> Result<Option<Order>, OutOfMemory> {
        let making = Making {
            alloc,
            channels,
            demand,
            materials,
        };
        match self {
            Recipe::Heights => order_by_height(alloc, channels, demand),
            Recipe::BetterHeights => making.by_better_heights(),
            Recipe::FirstPorts => {
                order_along(alloc, channels, materials.weights(Wanted::FirstPorts))
            }
            Recipe::Levels => Ok(Some(order_from_root(alloc, channels, materials.root)?)),
            Recipe::LevelsFromLeaf => making.by_levels_from_leaf(),
            Recipe::Tree(shape, wanted) => Ok(Some(making.by_tree(shape, wanted)?)),
            Recipe::FreeTree(shape) => Ok(Some(making.by_free_tree(shape)?)),
        }
    }
}
