//! What a handle holds: a switch, its last outgoing frames, and the table that it loaded last.

ghost use Rattle.std.specs.Prelude.{◌≡◌, ◌+◌, ◌≤◌, ◌<◌, ◌^◌, [], length, slice_get, option_copied, is_some, IfOk, MatchResult, None, true, false};
ghost use Rattle.an_base.specs.declared.limits.TheConstants.{LAST_PORT};
ghost use Rattle.switch_core.specs.Kept.{IsWorking, carried};
ghost use Rattle.switch_c.specs.Calls.{Clocks, HandsOut, HasNoRoom, IsStarted, IsTold, Loads, TakesFrame, has_port, is_in_range, is_over, is_port, sample_of, samples_of};
ghost use Rattle.switch_c.specs.Shows.{AsksMember, AsksPort, AsksRow, Shows};
ghost use Rattle.switch_c.specs.declared.status.Status.TheVariants as status;

use crate::shown::{FrameShown, MemberShown, PortShown, RowShown, Shown};
use crate::status::Status;
use an_base::life::Life;
use an_base::limits::{LAST_PORT, MOST_NUMBER, PORTS};
use an_base::port::Sample;
use common_values::memory::OutOfMemory;
use std::alloc::Global;
use switch_core::out::{FrameOut, Out};
use switch_core::switch::{ClockRefusal, MOST_CARRIED, MOST_WORKS, Switch, TableFor};

// The lowest number that is not an identifier.
const UID_END: u64 = 1 << 48;

/// A switch, its last outgoing frames with the number of those delivered, the table that it loaded last, and
/// whether its life is over because memory ran out for a clock or a frame.
#[derive(Drop)]
pub struct Instance {
    /// The switch.
    pub switch: Switch,
    /// The result of the last clock or frame.
    pub out: Out,
    /// The number of its frames that were delivered.
    pub given: usize,
    /// The table that was loaded last.
    pub loaded: Option<TableFor>,
    /// Whether memory ran out for a clock or a frame.
    pub lost: bool,
}

// Reports whether a set has a port below 16: bit `p` of a set says that it has port `p`.
fn has_port(set: u16, port: u8) -> bool
    requires { port ≤ LAST_PORT }
    ensures { result ≡ has_port set port }
{
    (set >> port) % 2 == 1
}

// Returns what the hardware says of a port, given the set of ports with a link and the set of ports to hosts.
fn sample_of(up: u16, hosts: u16, port: u8) -> Sample
    requires { port ≤ LAST_PORT }
    ensures { result ≡ sample_of up hosts port }
{
    if !has_port(up, port) {
        return Sample::Down;
    }
    if has_port(hosts, port) {
        return Sample::Host;
    }
    Sample::Switch
}

// Returns what the hardware says of the twelve ports.
fn samples_of(up: u16, hosts: u16) -> [Sample; PORTS]
    ensures { result ≡ samples_of up hosts }
{
    [
        sample_of(up, hosts, 1),
        sample_of(up, hosts, 2),
        sample_of(up, hosts, 3),
        sample_of(up, hosts, 4),
        sample_of(up, hosts, 5),
        sample_of(up, hosts, 6),
        sample_of(up, hosts, 7),
        sample_of(up, hosts, 8),
        sample_of(up, hosts, 9),
        sample_of(up, hosts, 10),
        sample_of(up, hosts, 11),
        sample_of(up, hosts, 12),
    ]
}

// Reports whether a port is one of 1 to 12.
fn is_port(port: u8) -> bool
    ensures { result ≡ is_port port }
{
    0 < port && port <= LAST_PORT
}

// Reports whether a switch can be started with these numbers.
fn is_in_range(uid: u64, boot: u32, had: u8) -> bool
    ensures { result ≡ is_in_range uid boot had }
{
    uid < UID_END && 0 < boot && 0 < had && had <= MOST_NUMBER
}

// Copies a frame, and reports whether its bytes fit. If they do not, only its length is set.
fn tell(frame: &FrameOut, shown: &mut FrameShown, bytes: &mut [u8]) -> bool
    ensures room { length bytes.old < length frame.now.bytes → (result ≡ false) × HasNoRoom frame.now shown.old shown.new bytes.old bytes.new }
    ensures done { length frame.now.bytes ≤ length bytes.old → (result ≡ true) × IsTold frame.now shown.new bytes.old bytes.new }
{
    let from = frame.bytes();
    shown.length = from.len();
    if from.len() > bytes.len() {
        return false;
    }
    shown.port = frame.port();
    bytes[..from.len()].copy_from_slice(from);
    true
}

impl Instance {
    // Creates a switch at power-on, without outgoing frames and without a table.
    fn of(alloc: Global, switch: Switch) -> Instance
        ensures switch { result.switch ≡ switch }
        ensures out { result.out ≡ record { frames = []; noframe = false } }
        ensures given { result.given ≡ 0 }
        ensures loaded { result.loaded ≡ None }
        ensures lost { result.lost ≡ false }
    {
        Instance {
            switch,
            out: Out::new(alloc),
            given: 0,
            loaded: None,
            lost: false,
        }
    }

    // Creates a switch at power-on on the heap. The numbers must be in their ranges.
    fn started(
        alloc: Global,
        life: Life,
        epoch: u64,
        had: u8,
        any: bool,
    ) -> Result<Box<Instance>, OutOfMemory>
        requires least { 1 ≤ had }
        requires most { had ≤ 126 }
        ensures { IfOk result (λ instance. IsStarted life epoch had any instance.value) }
    {
        let switch = Switch::start(alloc, life, epoch, had, any)?;
        Ok(Box::new(alloc, Instance::of(alloc, switch))?)
    }

    /// Creates a switch at power-on on the heap.
    ///
    /// # Errors
    /// `Argument` if a number is out of its range: `uid` is below 2^48, `boot` is at least 1, and `had` is 1 to
    /// 126; otherwise `OutOfMemory` if an allocation fails.
    pub fn boxed(
        alloc: Global,
        uid: u64,
        boot: u32,
        epoch: u64,
        had: u8,
        any: bool,
    ) -> Result<Box<Instance>, Status>
        ensures range { is_in_range uid boot had ≡ false → result ≡ Err status.Argument }
        ensures started { is_in_range uid boot had ≡ true
            → MatchResult result (λ instance. IsStarted (record { uid = uid; boot = boot }) epoch had any instance.value) (λ why. why ≡ status.OutOfMemory) }
    {
        if !is_in_range(uid, boot, had) {
            return Err(Status::Argument);
        }
        match Instance::started(alloc, Life::new(uid, boot), epoch, had, any) {
            Ok(instance) => Ok(instance),
            Err(OutOfMemory) => Err(Status::OutOfMemory),
        }
    }

    // Reports whether the switch takes no more clocks and frames.
    fn is_over(&self) -> bool
        ensures over { result ≡ is_over self.now }
        ensures lost { result ≡ false → self.now.lost ≡ false }
        ensures works { result ≡ false → self.now.switch.works < 2 ^ 60 }
        ensures carried { result ≡ false → carried self.now.switch < 2 ^ 28 }
        ensures working { result ≡ false → IsWorking self.now.switch }
    {
        let is_full = self.switch.works() >= MOST_WORKS || self.switch.carried() >= MOST_CARRIED;
        self.lost || is_full || self.switch.is_spent()
    }

    /// Passes a clock event at the tick `now` to the switch, as in `switch_core`: bit `p` of `up` says that port
    /// `p` has a link, and bit `p` of `hosts` that a host is at its other end.
    pub fn clock(&mut self, now: u64, up: u16, hosts: u16) -> Status
        ensures { Clocks now up hosts self.old self.new result }
    {
        if self.is_over() {
            return Status::Over;
        }
        self.given = 0;
        match self
            .switch
            .clock(now, &samples_of(up, hosts), &mut self.out)
        {
            Ok(()) => Status::Done,
            Err(ClockRefusal::EpochsSpent) => Status::Spent,
            Err(ClockRefusal::OutOfMemory) => {
                self.lost = true;
                Status::OutOfMemory
            }
        }
    }

    /// Passes `bytes`, which came by `port`, to the switch, as in `switch_core`. Returns `Argument` if `port` is
    /// not 1 to 12.
    pub fn frame(&mut self, port: u8, bytes: &[u8]) -> Status
        ensures { TakesFrame port bytes.now self.old self.new result }
    {
        if !is_port(port) {
            return Status::Argument;
        }
        if self.is_over() {
            return Status::Over;
        }
        self.given = 0;
        match self.switch.handle(bytes, port, &mut self.out) {
            Ok(()) => Status::Done,
            Err(OutOfMemory) => {
                self.lost = true;
                Status::OutOfMemory
            }
        }
    }

    // Returns the next frame to deliver.
    fn waiting(&self) -> Option<&FrameOut>
        ensures frame { option_copied result ≡ slice_get self.now.out.frames self.now.given }
        ensures few { is_some result ≡ true → self.now.given + 1 < 2 ^ 64 }
    {
        self.out.frames.as_slice().get(self.given)
    }

    /// Copies the next outgoing frame into `bytes`, and its port and length into `shown`.
    ///
    /// Returns `NoMore` if there is none, and `Room` if `bytes` is too short; then only the length is set.
    pub fn next(&mut self, shown: &mut FrameShown, bytes: &mut [u8]) -> Status
        ensures { HandsOut (shown.old, bytes.old) (shown.new, bytes.new) self.old self.new result }
    {
        let Some(frame) = self.waiting() else {
            return Status::NoMore;
        };
        if !tell(frame, shown, bytes) {
            return Status::Room;
        }
        self.given += 1;
        Status::Done
    }

    /// Loads the table that is due, as in `switch_core`. Returns `NotDue` if none is due.
    pub fn load(&mut self) -> Status
        ensures { Loads self.old self.new result }
    {
        if !self.switch.load_due() {
            return Status::NotDue;
        }
        match self.switch.load() {
            Ok(loaded) => {
                self.loaded = Some(loaded);
                Status::Done
            }
            Err(OutOfMemory) => Status::OutOfMemory,
        }
    }

    /// Writes what the switch shows of itself into `shown`.
    pub fn show(&self, shown: &mut Shown) -> Status
        ensures { Shows shown.new self.now result }
    {
        *shown = Shown::of(self);
        Status::Done
    }

    /// Writes what the switch takes the other end of `port` to be into `shown`. Returns `Argument` if `port` is not
    /// 1 to 12.
    pub fn port(&self, port: u8, shown: &mut PortShown) -> Status
        ensures { AsksPort port shown.old shown.new self.now result }
    {
        if !is_port(port) {
            return Status::Argument;
        }
        *shown = PortShown::of(self.switch.note().ports.get(port));
        Status::Done
    }

    /// Writes the row at the index `place` of the table that was loaded last into `shown`. Returns `NoMore` if
    /// there is none.
    pub fn row(&self, place: usize, shown: &mut RowShown) -> Status
        ensures { AsksRow place shown.old shown.new self.now result }
    {
        let Some(loaded) = &self.loaded else {
            return Status::NoMore;
        };
        let Some(row) = loaded.table.as_slice().get(place) else {
            return Status::NoMore;
        };
        *shown = RowShown::of(row);
        Status::Done
    }

    /// Writes the member at the index `place` of what the switch has finished with into `shown`. Returns `NoMore`
    /// if there is none.
    pub fn member(&self, place: usize, shown: &mut MemberShown) -> Status
        ensures { AsksMember place shown.old shown.new self.now result }
    {
        let Some(topo) = self.switch.finish() else {
            return Status::NoMore;
        };
        let Some(entry) = topo.entries().as_slice().get(place) else {
            return Status::NoMore;
        };
        *shown = MemberShown::of(entry.life, topo.numbers().as_slice()[place]);
        Status::Done
    }
}
