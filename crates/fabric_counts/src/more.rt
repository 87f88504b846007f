//! Counts with one route more.

ghost use Rattle.std.specs.Prelude.{◌≡◌, ◌<◌, ◌≤◌, ◌+◌, ◌*◌, ◌^◌, ◌↔◌, None, Some, max, IsTrue};
ghost use Rattle.fabric_model.specs.Fabric.{owner_of, start_of, switch_count};
ghost use Rattle.fabric_tables.specs.Cells.{tables_of};
ghost use Rattle.fabric_routes.specs.declared.hop.Outcome.{Outcome};
ghost use Rattle.fabric_routes.specs.declared.hop.Outcome.TheVariants.{Loops, Stops};
ghost use Rattle.fabric_model.specs.declared.traffic.Traffic.{Traffic};
ghost use Rattle.fabric_routes.specs.Routes.{EndsAs, Sends};
ghost use Rattle.fabric_counts.specs.Counts.{AreCountsOf, AreLosses, IsLoss, IsLost, hop_for, sum_of};
ghost use Rattle.fabric_counts.specs.Steps.{IsBefore, IsLesser, IsUpTo, unowned_of};

use crate::counts::{Counts, Loss, Losses, LostRoute};
use crate::lost::lost_at;
use crate::source::unowned_of;
use fabric_model::fabric::Fabric;
use fabric_model::node::EndPort;
use fabric_routes::hop::{Cause, Outcome};
use fabric_tables::cells::Cells;

// Whether a lost route is to be told in place of the one that is: none is, or its LID is the same and its end
// port has a lesser GUID.
fn is_less(fabric: &Fabric, told: Option<LostRoute>, lid: u16, source: EndPort) -> bool
    ensures { IsTrue result ↔ IsLesser fabric.now told lid source }
{
    match told {
        None => true,
        Some(one) => one.lid == lid && fabric.guid(source) < fabric.guid(one.source),
    }
}

impl Loss {
    const NONE: Loss = Loss {
        count: 0,
        least: None,
    };

    // One lost route more, which begins at a switch.
    fn add(&mut self, fabric: &Fabric, cells: &Cells, lid: u16, source: EndPort, start: u32)
        requires same { switch_count fabric.now ≡ cells.now.switches }
        requires few { switch_count fabric.now ≤ 2 ^ 14 }
        requires lid { lid < 64 * cells.now.blocks }
        requires start { start < switch_count fabric.now }
        requires begins { start_of fabric.now source ≡ Some start }
        requires fits { self.old.count < 2 ^ 40 }
        ensures count { self.new.count ≡ self.old.count + 1 }
        ensures loss { (traffic : Traffic) (outcome : Outcome) → IsLost outcome
            → Sends fabric.now (tables_of cells.now) traffic lid source
            → EndsAs (hop_for fabric.now (tables_of cells.now) lid) start outcome
            → IsLoss fabric.now (tables_of cells.now) (IsBefore fabric.now (tables_of cells.now) traffic lid source)
            outcome self.old
            → IsLoss fabric.now (tables_of cells.now) (IsUpTo fabric.now (tables_of cells.now) traffic lid source)
            outcome self.new }
    {
        self.count += 1;
        if !is_less(fabric, self.least, lid, source) {
            return;
        }
        let at = lost_at(fabric, cells, lid as usize, start as usize) as u32;
        self.least = Some(LostRoute { lid, source, at });
    }
}

impl Losses {
    // One route more that stops, by a cause.
    fn add(
        &mut self,
        fabric: &Fabric,
        cells: &Cells,
        lid: u16,
        source: EndPort,
        start: u32,
        cause: Cause,
    )
        requires same { switch_count fabric.now ≡ cells.now.switches }
        requires few { switch_count fabric.now ≤ 2 ^ 14 }
        requires lid { lid < 64 * cells.now.blocks }
        requires start { start < switch_count fabric.now }
        requires begins { start_of fabric.now source ≡ Some start }
        requires fits { sum_of self.old < 2 ^ 40 }
        ensures sum { sum_of self.new ≡ sum_of self.old + 1 }
        ensures losses { (traffic : Traffic) → Sends fabric.now (tables_of cells.now) traffic lid source
            → EndsAs (hop_for fabric.now (tables_of cells.now) lid) start (Stops cause)
            → AreLosses fabric.now (tables_of cells.now) (IsBefore fabric.now (tables_of cells.now) traffic lid source) self.old
            → AreLosses fabric.now (tables_of cells.now) (IsUpTo fabric.now (tables_of cells.now) traffic lid source)
            self.new }
    {
        match cause {
            Cause::Missing => self.missing.add(fabric, cells, lid, source, start),
            Cause::Dead => self.dead.add(fabric, cells, lid, source, start),
            Cause::Wrong => self.wrong.add(fabric, cells, lid, source, start),
        }
    }

    // One more that goes on for ever.
    fn add_loop(&mut self, fabric: &Fabric, cells: &Cells, lid: u16, source: EndPort, start: u32)
        requires same { switch_count fabric.now ≡ cells.now.switches }
        requires few { switch_count fabric.now ≤ 2 ^ 14 }
        requires lid { lid < 64 * cells.now.blocks }
        requires start { start < switch_count fabric.now }
        requires begins { start_of fabric.now source ≡ Some start }
        requires fits { sum_of self.old < 2 ^ 40 }
        ensures sum { sum_of self.new ≡ sum_of self.old + 1 }
        ensures losses { (traffic : Traffic) → Sends fabric.now (tables_of cells.now) traffic lid source
            → EndsAs (hop_for fabric.now (tables_of cells.now) lid) start Loops
            → AreLosses fabric.now (tables_of cells.now) (IsBefore fabric.now (tables_of cells.now) traffic lid source) self.old
            → AreLosses fabric.now (tables_of cells.now) (IsUpTo fabric.now (tables_of cells.now) traffic lid source)
            self.new }
    {
        self.looping.add(fabric, cells, lid, source, start);
    }
}

impl Counts {
    /// The counts of no routes.
    pub fn none() -> Counts
        ensures { result ≡ record {
          routes = 0;
          arrived = 0;
          unowned = 0;
          hops = 0;
          lost = record {
            missing = record { count = 0; least = None };
            dead = record { count = 0; least = None };
            wrong = record { count = 0; least = None };
            looping = record { count = 0; least = None };
          };
        } }
    {
        Counts {
            routes: 0,
            arrived: 0,
            unowned: 0,
            hops: 0,
            lost: Losses {
                missing: Loss::NONE,
                dead: Loss::NONE,
                wrong: Loss::NONE,
                looping: Loss::NONE,
            },
        }
    }

    /// One route more, which begins at a switch and ends so.
    pub fn add(
        &mut self,
        fabric: &Fabric,
        cells: &Cells,
        lid: u16,
        source: EndPort,
        start: u32,
        outcome: Outcome,
    )
        requires same { switch_count fabric.now ≡ cells.now.switches }
        requires few { switch_count fabric.now ≤ 2 ^ 14 }
        requires lid { lid < 64 * cells.now.blocks }
        requires start { start < switch_count fabric.now }
        requires begins { start_of fabric.now source ≡ Some start }
        requires all { self.old.routes ≡ self.old.arrived + sum_of self.old.lost }
        requires unowned { self.old.unowned ≤ self.old.arrived }
        requires fits { self.old.routes < 2 ^ 40 }
        ensures routes { self.new.routes ≡ self.old.routes + 1 }
        ensures unowned { self.new.unowned ≤ self.new.arrived }
        ensures counts { (traffic : Traffic) → Sends fabric.now (tables_of cells.now) traffic lid source
            → EndsAs (hop_for fabric.now (tables_of cells.now) lid) start outcome
            → AreCountsOf fabric.now (tables_of cells.now)
            (IsBefore fabric.now (tables_of cells.now) traffic lid source) self.old
            → AreCountsOf fabric.now (tables_of cells.now)
            (IsUpTo fabric.now (tables_of cells.now) traffic lid source) self.new }
    {
        self.routes += 1;
        match outcome {
            Outcome::Arrives(switches) => {
                self.arrived += 1;
                self.unowned += unowned_of(fabric, lid as usize, 1);
                self.hops = self.hops.max(switches);
            }
            Outcome::Stops(cause) => self.lost.add(fabric, cells, lid, source, start, cause),
            Outcome::Loops => self.lost.add_loop(fabric, cells, lid, source, start),
        }
    }

    /// So many more to a LID that all arrive, the longest of them through so many switches.
    pub fn with_arrived(self, fabric: &Fabric, lid: u16, routes: u64, hops: u32) -> Counts
        requires all { self.arrived ≤ self.routes }
        requires unowned { self.unowned ≤ self.arrived }
        requires fits { self.routes < 2 ^ 40 }
        requires few { routes ≤ 2 ^ 17 }
        ensures { result ≡ record {
          routes = self.routes + routes;
          arrived = self.arrived + routes;
          unowned = self.unowned + unowned_of (owner_of fabric.now lid) routes;
          hops = max self.hops hops;
          lost = self.lost;
        } }
    {
        Counts {
            routes: self.routes + routes,
            arrived: self.arrived + routes,
            unowned: self.unowned + unowned_of(fabric, lid as usize, routes),
            hops: self.hops.max(hops),
            lost: self.lost,
        }
    }
}
