//! How far a network has come, for the report.

ghost use Rattle.std.specs.Prelude.{◌≡◌, ◌++◌, ◌∷◌, [], List, slice_get, IfOk};
ghost use Rattle.an_base.specs.declared.event.Event.{Event};
ghost use Rattle.net_script.specs.Scripts.{IsScript, ScriptOf};
ghost use Rattle.report.specs.Events.{course_after};
ghost use Rattle.report.specs.Retellings.{Comes};

use an_base::event::Event;
use an_base::life::Life;
use an_base::place::Place;
use common_values::memory::OutOfMemory;
use net_script::script::Script;
use std::alloc::Global;
use std::marker::Model;

/// How far a network has come: the present life of each switch, the number of events, and the tick.
#[derive(Drop)]
pub(crate) struct Course {
    lives: Vec<Life>,
    events: u32,
    tick: u32,
}

impl Model for Course {
    ghost use Rattle.report.specs.Events.{CourseOf};

    ghost Value = { CourseOf };

    ghost view = { λ c. record { lives = c.lives.items; events = c.events; tick = c.tick } };
}

impl Course {
    /// Returns the course of a network in which no event has come.
    ///
    /// # Errors
    /// `OutOfMemory` if an allocation fails.
    pub fn begin(alloc: Global, script: &Script) -> Result<Course, OutOfMemory>
        ensures course { IfOk result (λ course. course ≡ course_after script.now []) }
        ensures kept { IsScript script.now }
    {
        let wiring = script.wiring();
        let count = wiring.count();
        let mut lives = Vec::with_capacity(alloc, usize::from(count))?;
        'switches: for s in 0..count {
            lives.push(wiring.life(Place(s)))?;
        }
        Ok(Course {
            lives,
            events: 0,
            tick: 0,
        })
    }

    /// Returns the present life of the switch at `s`, if there is one.
    pub fn life(&self, s: Place) -> Option<Life>
        ensures { result ≡ slice_get self.now.lives s }
    {
        self.lives.get(usize::from(s)).copied()
    }

    /// Returns the number of events.
    pub fn events(&self) -> u32
        ensures { result ≡ self.now.events }
    {
        self.events
    }

    /// Returns the tick.
    pub fn tick(&self) -> u32
        ensures { result ≡ self.now.tick }
    {
        self.tick
    }

    /// Follows a lawful event.
    pub fn follow(&mut self, event: &Event)
        requires { (script : ScriptOf) × (history : List Event) × Comes script history event.now self.old }
        ensures { (script : ScriptOf) (history : List Event) → Comes script history event.now self.old
            → self.new ≡ course_after script (history ++ event.now ∷ []) }
    {
        self.events += 1;
        match *event {
            Event::Tick => self.tick += 1,
            Event::Restart { s } => {
                let life = self.lives[usize::from(s)];
                self.lives[usize::from(s)] = Life::new(life.uid(), life.boot() + 1);
            }
            _ => {}
        }
    }
}
