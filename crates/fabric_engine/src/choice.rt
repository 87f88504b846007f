//! The best of several sets of tables.

ghost use Rattle.std.specs.Prelude.{IfOk, IfSome};
ghost use Rattle.fabric_engine.specs.Made.{AreTablesFor};

use crate::laying::Laying;
use crate::measures::Measures;
use crate::writing::write_tables;
use common_values::memory::OutOfMemory;
use fabric_engine_channels::channels::Channels;
use fabric_engine_channels::demand::Demand;
use fabric_engine_channels::order::Order;
use fabric_engine_orders::materials::{Materials, Wanted};
use fabric_engine_orders::recipe::{Recipe, Shape};
use fabric_engine_rising::plan::Plan;
use fabric_model::fabric::Fabric;
use fabric_model::traffic::Traffic;
use fabric_tables::cells::Cells;
use std::alloc::Global;

// How many rounds the best orders get.
const ROUNDS: u32 = 3;

// How many they get if exits are taken in turn: whole trees of many levels need them.
const TURNS: u32 = 6;

// Up to how many steps of a round all orders are tried.
const FEWEST: u64 = 1 << 20;

// Up to how many most of them are tried.
const FEW: u64 = 1 << 24;

// Up to how many some are tried.
const SOME: u64 = 1 << 28;

// Up to how many more than one are tried in any case.
const MANY: u64 = 1 << 31;

// What is added to the score of routes that are too long.
const TOO_LONG: u64 = 1 << 40;

// How many orders there are to be tried.
const RECIPES: usize = 48;

// The first of them.
const FIRST: [Recipe; 12] = [
    Recipe::LevelsFromLeaf,
    Recipe::Heights,
    Recipe::FirstPorts,
    Recipe::Tree(Shape::Deep(1), Wanted::FirstPorts),
    Recipe::Tree(Shape::Wide, Wanted::Spread),
    Recipe::Tree(Shape::Deep(0), Wanted::Spread),
    Recipe::BetterHeights,
    Recipe::Tree(Shape::Deep(1), Wanted::Spread),
    Recipe::Tree(Shape::Wide, Wanted::FirstPorts),
    Recipe::FreeTree(Shape::Deep(0)),
    Recipe::FreeTree(Shape::Deep(1)),
    Recipe::Levels,
];

/// Tables that were made, and how good they are.
#[derive(Drop)]
pub struct Made {
    /// The tables.
    pub cells: Cells,
    /// How good they are.
    pub measures: Measures,
}

// Which order is tried at a place: after the first ones those from other trees in depth. Their numbers go on
// from 2: those with 0 and 1 are among the first. So 10 is `FIRST.len()` less 2.
fn recipe_at(place: usize) -> Recipe {
    match FIRST.get(place) {
        Some(recipe) => *recipe,
        None => Recipe::Tree(
            Shape::Deep((place as u64).saturating_sub(10)),
            Wanted::Spread,
        ),
    }
}

// In how many rounds routes are laid, the first among these.
fn rounds(laying: &Laying) -> u32 {
    if laying.is_in_turn() { TURNS } else { ROUNDS }
}

// How much is done to find good tables.
#[derive(Clone, Copy)]
struct Effort {
    // How many orders are tried, if one of them has all ways, and no route that is too long.
    least: usize,
    // How many are tried, if one of them has all ways.
    tried: usize,
    // How many of the best are laid in more rounds.
    finalists: usize,
    // Whether it is enough if no channel has more routes than lead to one LID.
    is_small: bool,
    // How many exits there are: one of each switch for each target.
    exits: u64,
}

impl Effort {
    // The less, the more steps a round takes: it looks at each channel for each switch with end ports, and at each
    // switch for each target. Each row below is `least`, `tried` and `finalists` for up to so many steps.
    fn of(channels: &Channels, demand: &Demand) -> Effort {
        let (leaves, targets) = (demand.leaves().len() as u64, demand.targets().len() as u64);
        let looks = leaves.saturating_mul(u64::from(channels.count()));
        let exits = targets.saturating_mul(u64::from(channels.switches()));
        let steps = looks.saturating_add(exits);
        let (least, tried, finalists) = if steps <= FEWEST {
            (RECIPES, RECIPES, 8)
        } else if steps <= FEW {
            (16, 16, 4)
        } else if steps <= SOME {
            (6, 6, 1)
        } else if steps <= MANY {
            (4, 5, 1)
        } else {
            (1, 5, 1)
        };
        Effort {
            least,
            tried,
            finalists,
            is_small: steps > FEW,
            exits,
        }
    }
}

// Routes along an order that has all ways for the traffic, and how good they are.
#[derive(Drop)]
struct Finalist {
    order: Order,
    laying: Laying,
    score: u64,
}

impl Finalist {
    // Lays the routes in more rounds, and moves single exits, unless they are good.
    fn lay_well(&mut self, alloc: Global, ground: &Ground) -> Result<(), OutOfMemory> {
        if ground.is_enough(self.laying.measures()) {
            return Ok(());
        }
        let plan = ground.plan(&self.order);
        let rounds = rounds(&self.laying);
        self.laying.lay(alloc, plan, 1..rounds)?;
        let measures = self.laying.measures();
        if !ground.is_good(measures) && ground.may_polish(measures) {
            self.laying.polish(plan)?;
        }
        self.score = ground.score(self.laying.measures());
        Ok(())
    }

    // Lays those that the traffic leaves out.
    fn lay_others(&mut self, alloc: Global, ground: &Ground) -> Result<(), OutOfMemory> {
        self.laying.lay_others(alloc, ground.plan(&self.order))
    }
}

// What tables are made for and of.
#[derive(Drop)]
struct Ground {
    channels: Channels,
    demand: Demand,
    traffic: Traffic,
    materials: Materials,
    effort: Effort,
}

impl Ground {
    // What tables of a fabric are made for and of.
    fn of(alloc: Global, fabric: &Fabric, traffic: Traffic) -> Result<Ground, OutOfMemory> {
        let channels = Channels::of(alloc, fabric)?;
        let demand = Demand::of(alloc, fabric)?;
        let materials = Materials::of(alloc, &channels, &demand)?;
        Ok(Ground {
            effort: Effort::of(&channels, &demand),
            channels,
            demand,
            traffic,
            materials,
        })
    }

    // What routes along an order are laid for.
    fn plan<'a>(&'a self, order: &'a Order) -> Plan<'a> {
        Plan {
            channels: &self.channels,
            demand: &self.demand,
            order,
            traffic: self.traffic,
            most: self.most(),
        }
    }

    // The most channels that a route is to have: twice those of the longest shortest one.
    fn most(&self) -> u32 {
        self.materials.least_longest.saturating_mul(2)
    }

    // The less, the better: routes that are too long come last.
    fn score(&self, measures: Measures) -> u64 {
        let score = measures.score();
        if measures.longest > self.most() {
            return score.wrapping_add(TOO_LONG);
        }
        score
    }

    // Whether no routes are shorter.
    fn is_short(&self, measures: Measures) -> bool {
        let least = self.materials.least_mean;
        measures.mean() <= least.saturating_add(least / 1000)
    }

    // Whether no routes can be much better: none are shorter, and the greatest load is at most an eighth above the mean.
    fn is_good(&self, measures: Measures) -> bool {
        let channels = u64::from(self.channels.count());
        let greatest = measures.greatest.saturating_mul(channels);
        let all = measures.hops;
        self.is_short(measures) && greatest <= all.saturating_add(all / 8)
    }

    // Whether single exits may be moved: all ways of all switches together have not too many channels.
    fn may_polish(&self, measures: Measures) -> bool {
        let links = self.effort.exits.saturating_mul(measures.mean() >> 16);
        links <= MANY
    }

    // Whether routes are good enough for a small effort: none are shorter, and no channel has many more than lead to one
    // LID.
    fn is_enough(&self, measures: Measures) -> bool {
        let others = u64::from(self.demand.host_count()).saturating_sub(1);
        let most = others.saturating_add(others / 8);
        self.effort.is_small && self.is_short(measures) && measures.greatest <= most
    }

    // Whether exits that cost the same are taken in turn along the order that a recipe makes: if it leads up in a tree,
    // but not in great fabrics, where one round can be enough.
    fn is_in_turn(&self, recipe: Recipe) -> bool {
        !self.effort.is_small && matches!(recipe, Recipe::LevelsFromLeaf | Recipe::Heights)
    }

    // No routes yet along the order that a recipe makes.
    fn begin(&self, alloc: Global, recipe: Recipe) -> Result<Laying, OutOfMemory> {
        if self.is_in_turn(recipe) {
            Laying::in_turn(alloc, &self.channels, &self.demand)
        } else {
            Laying::new(alloc, &self.channels, &self.demand)
        }
    }

    // Tries an order: its routes in one round, if the traffic has all its ways.
    fn try_order(
        &self,
        alloc: Global,
        order: Order,
        recipe: Recipe,
    ) -> Result<Option<Finalist>, OutOfMemory> {
        let mut laying = self.begin(alloc, recipe)?;
        laying.lay(alloc, self.plan(&order), 0..1)?;
        let measures = laying.measures();
        if !measures.is_complete() {
            return Ok(None);
        }
        let score = self.score(measures);
        Ok(Some(Finalist {
            order,
            laying,
            score,
        }))
    }

    // Tries the order that a recipe makes, if it makes one.
    fn try_recipe(&self, alloc: Global, recipe: Recipe) -> Result<Option<Finalist>, OutOfMemory> {
        match recipe.make(alloc, &self.channels, &self.demand, &self.materials)? {
            Some(order) => self.try_order(alloc, order, recipe),
            None => Ok(None),
        }
    }

    // Whether the best of those that were tried is good.
    fn has_good(&self, finalists: &[Finalist]) -> bool {
        match finalists.first() {
            Some(best) => {
                let measures = best.laying.measures();
                self.is_good(measures) || self.is_enough(measures)
            }
            None => false,
        }
    }

    // Whether enough orders were tried, so many.
    fn has_enough(&self, tried: usize, finalists: &[Finalist]) -> bool {
        match finalists.first() {
            Some(best) => {
                let is_short = best.score < TOO_LONG;
                tried >= self.effort.tried || is_short && tried >= self.effort.least
            }
            None => false,
        }
    }

    // Tries orders, and keeps the best.
    fn try_orders(&self, alloc: Global, finalists: &mut Vec<Finalist>) -> Result<(), OutOfMemory> {
        'recipes: for place in 0..RECIPES {
            if self.has_enough(place, finalists) || self.has_good(finalists) {
                break;
            }
            if let Some(finalist) = self.try_recipe(alloc, recipe_at(place))? {
                finalists.push(finalist)?;
                finalists.sort_by_key(|finalist| finalist.score)?;
                finalists.truncate(self.effort.finalists);
            }
        }
        Ok(())
    }

    // Lays the routes of the best well, and puts first the best of these.
    fn lay_well(&self, alloc: Global, finalists: &mut Vec<Finalist>) -> Result<(), OutOfMemory> {
        'finalists: for finalist in finalists.iter_mut() {
            finalist.lay_well(alloc, self)?;
        }
        finalists.sort_by_key(|finalist| finalist.score)?;
        Ok(())
    }

    // Tables of the best routes.
    fn choose(
        &self,
        alloc: Global,
        fabric: &Fabric,
        finalists: &mut Vec<Finalist>,
    ) -> Result<Option<Made>, OutOfMemory>
        ensures { IfOk result (λ found. IfSome found (λ made. AreTablesFor fabric.now made.cells)) }
    {
        self.try_orders(alloc, finalists)?;
        self.lay_well(alloc, finalists)?;
        match finalists.first_mut() {
            Some(best) => self.made_of(alloc, fabric, best),
            None => Ok(None),
        }
    }

    // The tables of routes, and of those that the traffic leaves out.
    fn made_of(
        &self,
        alloc: Global,
        fabric: &Fabric,
        best: &mut Finalist,
    ) -> Result<Option<Made>, OutOfMemory>
        ensures { IfOk result (λ found. IfSome found (λ made. AreTablesFor fabric.now made.cells)) }
    {
        best.lay_others(alloc, self)?;
        let rows = best.laying.rows();
        let cells = write_tables(alloc, fabric, &self.channels, &self.demand, rows)?;
        let measures = best.laying.measures();
        Ok(Some(Made { cells, measures }))
    }
}

/// Makes tables for all LIDs that have an owner, with all paths for `traffic`, and measures them. Returns `None` if no
/// order that was tried has all paths, for example in a fabric in parts. The same fabric gets the same tables each
/// time.
///
/// # Errors
/// `OutOfMemory`.
pub fn lay_tables(
    alloc: Global,
    fabric: &Fabric,
    traffic: Traffic,
) -> Result<Option<Made>, OutOfMemory>
    ensures { IfOk result (λ found. IfSome found (λ made. AreTablesFor fabric.now made.cells)) }
{
    match Ground::of(alloc, fabric, traffic) {
        Ok(ground) => ground.choose(alloc, fabric, &mut Vec::new(alloc)),
        Err(error) => Err(error),
    }
}
