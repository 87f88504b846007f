//! What a switch is started with in each of its lives.

ghost use Rattle.std.specs.Prelude.{◌≡◌, ◌<◌, length, IfOk};
ghost use Rattle.fabric_book.specs.Nets.{IsStarted, power_of, start_with};

use an_base::life::Life;
use an_base::place::Place;
use common_values::memory::OutOfMemory;
use net_script::script::Script;
use std::alloc::Global;
use std::marker::Model;
use switch_core::switch::Switch;

/// What a switch is started with in each of its lives: the epoch, the short address that it had before, 1 to 126,
/// and whether its tables have all legal routes.
#[derive(Clone, Copy)]
pub struct PowerOn {
    epoch: u64,
    had: u8,
    any: bool,
}

impl Model for PowerOn {
    ghost use Rattle.std.specs.Prelude.{◌≤◌};
    ghost use Rattle.an_base.specs.declared.limits.TheConstants.{MOST_NUMBER};
    ghost use Rattle.fabric_book.specs.Nets.{PowerOf};

    ghost Value = { PowerOf };

    ghost view = { λ p. record { epoch = p.epoch; had = p.had; any = p.any } };

    ghost invariant = { λ p. (1 ≤ p.had) × (p.had ≤ MOST_NUMBER) };

    ghost inverse = { λ v. record { epoch = v.epoch; had = v.had; any = v.any } };
}

impl PowerOn {
    /// Returns what the switch at `s` is started with. The caller must pass a switch of the script.
    pub fn of(script: &Script, s: Place) -> PowerOn
        requires { s < length script.now.wires.switches }
        ensures { result ≡ power_of script.now s }
    {
        PowerOn {
            epoch: script.epoch(),
            had: script.wiring().had(s),
            any: script.any_routes(),
        }
    }

    /// Starts the switch in the life `life`.
    ///
    /// # Errors
    /// `OutOfMemory` if an allocation fails.
    pub fn start(self, alloc: Global, life: Life) -> Result<Switch, OutOfMemory>
        ensures { IfOk result (IsStarted (start_with self life)) }
    {
        Switch::start(alloc, life, self.epoch, self.had, self.any)
    }
}
