//! One switch, with the counts that keep its numbers in range.

ghost use Rattle.std.specs.Prelude.{◌≡◌, ◌+◌, ◌<◌, ◌≤◌, ◌^◌, ℕ, IfOk, OnOk, OnErr, Err, [], false, true, option_copied};
ghost use Rattle.an_base.specs.declared.limits.TheConstants.{LAST_PORT, MOST_NUMBER};
ghost use Rattle.switch_core.specs.Switch.{CameBy, finish_of, note_of, started, started_as, SwitchOf};
ghost use Rattle.switch_core.specs.Stands.{Stands};
ghost use Rattle.switch_core.specs.Kept.{Counts, Handles, IsLoadDue, IsWorking, Loads, StandsFor, Ticks, carried, epoch_of, is_spent, load_due};
ghost use Rattle.switch_core.specs.Sound.{counted};
ghost use Rattle.switch_core.specs.declared.switch.ClockRefusal.TheVariants as refusal;

use crate::control::{Control, PowerOn};
use crate::out::Out;
use an_base::body::TopoBody;
use an_base::life::Life;
use an_base::port::{Note, Sample};
use common_values::memory::OutOfMemory;
use std::alloc::Global;
use std::marker::Model;
use table_build::table::Table;

/// The largest number of clock events and frames that a switch takes in one life, 2^60.
pub const MOST_WORKS: u64 = 1_152_921_504_606_846_976;

/// The largest number of frames with a body that it takes in one epoch, 2^28.
pub const MOST_CARRIED: u32 = 268_435_456;

/// One life of a switch: what it keeps of its history, the number of clock events and frames, and the
/// number of frames with a body in its epoch.
#[derive(Drop)]
pub struct Switch {
    start: PowerOn,
    control: Control,
    works: u64,
    carried: u32,
}

impl Model for Switch {
    ghost use Rattle.std.specs.Prelude.{◌≤◌, ◌-◌};
    ghost use Rattle.switch_core.specs.Stands.{HasState};
    ghost use Rattle.switch_core.specs.Kept.{KeptOf};
    ghost use Rattle.an_base.specs.declared.limits.TheConstants.{MOST_NUMBER};

    ghost Value = { KeptOf };

    ghost view = { λ v. record { start = record { life = v.start.life; epoch = v.start.epoch; had = v.start.had; any = v.start.any }; control = v.control; works = v.works; others = v.works - v.carried } };

    ghost invariant = { λ v. (1 ≤ v.start.had) × (v.start.had ≤ MOST_NUMBER) × (v.carried ≤ v.works) × HasState v.works v.carried v.control };
}

/// A table, and the epoch of its topology.
#[derive(Drop)]
pub struct TableFor {
    /// The epoch.
    pub epoch: u64,
    /// The table.
    pub table: Table,
}

/// The reason why a clock event was not completed.
#[derive(Clone, Copy, Debug, PartialEq, Eq)]
pub enum ClockRefusal {
    /// A change is due, and no epoch is left for it.
    EpochsSpent,
    /// An allocation failed.
    OutOfMemory,
}

// The number of bodies in the new epoch, if `before` came in the old epoch before and `now` came with this event.
fn counted(old_epoch: u64, new_epoch: u64, before: u32, now: u32) -> u32
    requires before { before < 2 ^ 28 }
    requires now { now ≤ 1 }
    ensures { result ≡ counted old_epoch new_epoch before now }
{
    if new_epoch == old_epoch {
        before + now
    } else {
        now
    }
}

impl Switch {
    /// Creates a switch at power-on, in `epoch`, which it has not joined.
    ///
    /// `had` is the number that it had before, 1 to 126. Its tables have all legal routes if `any` holds, and
    /// only the shortest ones otherwise.
    ///
    /// # Errors
    /// `OutOfMemory` if an allocation fails.
    pub fn start(
        alloc: Global,
        life: Life,
        epoch: u64,
        had: u8,
        any: bool,
    ) -> Result<Switch, OutOfMemory>
        requires least { 1 ≤ had }
        requires most { had ≤ MOST_NUMBER }
        ensures start { IfOk result (λ switch. switch.start ≡ record { life = life; epoch = epoch; had = had; any = any }) }
        ensures stands { IfOk result (λ switch. StandsFor switch (started life epoch had any)) }
        ensures works { IfOk result (λ switch. switch.works ≡ 0) }
    {
        let start = PowerOn {
            life,
            epoch,
            had,
            any,
        };
        Ok(Switch {
            control: Control::start(alloc, &start)?,
            start,
            works: 0,
            carried: 0,
        })
    }

    /// Processes bytes that came on `port`, 1 to 12, and sets `out` to the result.
    ///
    /// If they are no frame, nothing changes, and `out` says so. A frame with a body is counted in its
    /// epoch. The switch must not have reached `MOST_WORKS` or `MOST_CARRIED`, nor have its epochs spent.
    ///
    /// # Errors
    /// `OutOfMemory` if an allocation fails. The switch is then reset to its start, no body is counted, and
    /// `out` is empty.
    pub fn handle(&mut self, frame: &[u8], port: u8, out: &mut Out) -> Result<(), OutOfMemory>
        requires least { 1 ≤ port }
        requires most { port ≤ LAST_PORT }
        requires works { self.old.works < 2 ^ 60 }
        requires carried { carried self.old < 2 ^ 28 }
        requires working { IsWorking self.old }
        ensures start { self.new.start ≡ self.old.start }
        ensures works { self.new.works ≡ self.old.works + 1 }
        ensures carried { OnOk result (Counts frame.now (epoch_of self.old) (epoch_of self.new) (carried self.old) (carried self.new)) }
        ensures handled { (s : SwitchOf) → StandsFor self.old s
            → OnOk result (Handles port frame.now s (StandsFor self.new) out.new) }
        ensures working { OnOk result (IsWorking self.new) }
        ensures lost { OnErr result (StandsFor self.new (started_as self.old.start)) }
        ensures uncounted { OnErr result (carried self.new ≡ 0) }
        ensures nothing { OnErr result (out.new ≡ record { frames = []; noframe = false }) }
    {
        out.clear();
        self.works += 1;
        let epoch = self.control.epoch;
        match self.control.handle(frame, port, &mut out.frames) {
            Ok(arrival) => {
                out.noframe = arrival.is_noframe();
                self.carried = counted(epoch, self.control.epoch, self.carried, arrival.bodies());
                Ok(())
            }
            Err(OutOfMemory) => {
                out.clear();
                self.carried = 0;
                self.control.restart(&self.start);
                Err(OutOfMemory)
            }
        }
    }

    /// Processes a clock event at tick `now` with a sample of each port, and sets `out` to the result.
    ///
    /// First the probes go out, in ascending order of port; then the positions of a join, if a change is
    /// due, and otherwise the bodies that are sent again. The switch must not have reached `MOST_WORKS` or
    /// `MOST_CARRIED`, nor have its epochs spent.
    ///
    /// # Errors
    /// - `EpochsSpent` if a change is due and no epoch is left for it. The ports have then changed, but no
    ///   epoch is joined, and no frame goes out.
    /// - `OutOfMemory` if an allocation fails. The switch is then reset to its start, and `out` is empty.
    pub fn clock(
        &mut self,
        now: u64,
        samples: &[Sample; 12],
        out: &mut Out,
    ) -> Result<(), ClockRefusal>
        requires works { self.old.works < 2 ^ 60 }
        requires carried { carried self.old < 2 ^ 28 }
        requires working { IsWorking self.old }
        ensures start { self.new.start ≡ self.old.start }
        ensures works { self.new.works ≡ self.old.works + 1 }
        ensures carried { OnOk result (carried self.new ≡ counted (epoch_of self.old) (epoch_of self.new) (carried self.old) 0) }
        ensures ok { (s : SwitchOf) → StandsFor self.old s
            → OnOk result (Ticks now samples.now s (StandsFor self.new) out.new false) }
        ensures working { OnOk result (IsWorking self.new) }
        ensures spent { (s : SwitchOf) → StandsFor self.old s → result ≡ Err refusal.EpochsSpent
            → Ticks now samples.now s (StandsFor self.new) out.new true }
        ensures none_more { result ≡ Err refusal.EpochsSpent → carried self.new ≡ carried self.old }
        ensures lost { result ≡ Err refusal.OutOfMemory → StandsFor self.new (started_as self.old.start) }
        ensures uncounted { result ≡ Err refusal.OutOfMemory → carried self.new ≡ 0 }
        ensures nothing { result ≡ Err refusal.OutOfMemory → out.new ≡ record { frames = []; noframe = false } }
    {
        out.clear();
        self.works += 1;
        let epoch = self.control.epoch;
        match self.control.clock(now, samples, &mut out.frames) {
            Ok(false) => {
                self.carried = counted(epoch, self.control.epoch, self.carried, 0);
                Ok(())
            }
            Ok(true) => {
                out.clear();
                Err(ClockRefusal::EpochsSpent)
            }
            Err(OutOfMemory) => {
                out.clear();
                self.carried = 0;
                self.control.restart(&self.start);
                Err(ClockRefusal::OutOfMemory)
            }
        }
    }

    /// Returns the table for the topology that the switch has finished with, and its epoch.
    ///
    /// The switch proposes the table's number at its next join. A load must be due.
    ///
    /// # Errors
    /// `OutOfMemory` if an allocation fails. The switch is then unchanged.
    pub fn load(&mut self) -> Result<TableFor, OutOfMemory>
        requires { IsLoadDue self.old }
        ensures start { self.new.start ≡ self.old.start }
        ensures works { self.new.works ≡ self.old.works }
        ensures carried { carried self.new ≡ carried self.old }
        ensures epoch { (s : SwitchOf) → StandsFor self.old s → IfOk result (λ loaded. loaded.epoch ≡ s.epoch) }
        ensures ok { (s : SwitchOf) → StandsFor self.old s
            → IfOk result (λ loaded. Loads s (StandsFor self.new) loaded.table) }
        ensures err { OnErr result (self.new ≡ self.old) }
    {
        let table = self.control.load()?;
        Ok(TableFor {
            epoch: self.control.epoch,
            table,
        })
    }

    /// Returns the topology that the switch has finished with in its current epoch.
    ///
    /// Returns `None` if and only if it has not finished.
    pub fn finish(&self) -> Option<&TopoBody>
        ensures { (s : SwitchOf) → StandsFor self.now s → option_copied result ≡ finish_of s }
    {
        self.control.finish()
    }

    /// Reports whether a load of the table is due.
    pub fn load_due(&self) -> bool
        ensures due { result ≡ load_due self.now }
        ensures stands { (s : SwitchOf) → StandsFor self.now s → result ≡ s.load_due }
    {
        self.control.load_due
    }

    /// Reports whether a clock event has returned that the epochs are spent.
    pub fn is_spent(&self) -> bool
        ensures spent { result ≡ is_spent self.now }
        ensures stands { (s : SwitchOf) → StandsFor self.now s → result ≡ s.spent }
    {
        self.control.spent
    }

    /// Returns the number of clock events and frames that came.
    pub fn works(&self) -> u64
        ensures { result ≡ self.now.works }
    {
        self.works
    }

    /// Returns the number of frames with a body that came in the current epoch.
    pub fn carried(&self) -> u32
        ensures { result ≡ carried self.now }
    {
        self.carried
    }

    /// Sets `note` to what the switch shows of itself.
    pub fn show(&self, note: &mut Note)
        ensures { (s : SwitchOf) → StandsFor self.now s → note.new ≡ note_of s }
    {
        self.control.show(note);
    }

    /// Updates `note` from what the switch showed before something came on `port`, 1 to 12, to what it shows
    /// now. Only this port is read.
    pub fn show_port(&self, port: u8, note: &mut Note)
        requires least { 1 ≤ port }
        requires most { port ≤ LAST_PORT }
        ensures { (before s : SwitchOf) → StandsFor self.now s → note.old ≡ note_of before
            → CameBy port before s → note.new ≡ note_of s }
    {
        self.control.show_port(port, note);
    }

    /// Returns what the switch shows of itself.
    pub fn note(&self) -> Note
        ensures { (s : SwitchOf) → StandsFor self.now s → result ≡ note_of s }
    {
        self.control.note()
    }
}
