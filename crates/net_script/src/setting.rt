//! The settings of a script that are numbers.

ghost use Rattle.std.specs.Prelude.{◌≡◌};
ghost use Rattle.net_script.specs.Settings.{least_of, most_of, has_come, with_come};

/// A setting that is a number.
#[derive(Clone, Copy, PartialEq, Eq)]
pub enum Setting {
    /// The highest tick.
    Ticks,
    /// The maximum number of events.
    Events,
    /// The number of blocks, of 64 bytes each.
    Blocks,
    /// The epoch at power-on.
    Epoch,
    /// The number of events after which a tick may come.
    Pace,
}

impl Setting {
    // The least number that it may have.
    pub(crate) fn least(self) -> u64
        ensures { result ≡ least_of self }
    {
        match self {
            Setting::Ticks | Setting::Epoch => 0,
            Setting::Events => 2,
            Setting::Blocks | Setting::Pace => 1,
        }
    }

    // The greatest number that it may have.
    pub(crate) fn most(self) -> u64
        ensures { result ≡ most_of self }
    {
        match self {
            Setting::Ticks | Setting::Pace => 1_000_000,
            Setting::Events => 16_000_000,
            Setting::Blocks => 1_048_576,
            Setting::Epoch => u64::MAX,
        }
    }
}

/// The highest tick of a run, unless a line sets it.
pub const DEFAULT_TICKS: u32 = 4_096;

/// The maximum number of events of a run, unless a line sets it.
pub const DEFAULT_EVENTS: u32 = 2_000_000;

/// The number of blocks of a run, unless a line sets it.
pub const DEFAULT_BLOCKS: u32 = 65_536;

/// The limits of a run.
#[derive(Clone, Copy, PartialEq, Eq)]
pub struct Limits {
    /// The highest tick, 0 to 1,000,000.
    pub ticks: u32,
    /// The maximum number of events, 2 to 16,000,000.
    pub events: u32,
    /// The number of blocks, of 64 bytes each, 1 to 1,048,576.
    pub blocks: u32,
}

/// The settings whose lines were read.
#[derive(Clone, Copy, PartialEq, Eq)]
pub struct Came {
    /// `limit ticks`.
    pub ticks: bool,
    /// `limit events`.
    pub events: bool,
    /// `limit blocks`.
    pub blocks: bool,
    /// `epoch`.
    pub epoch: bool,
    /// `pace`.
    pub pace: bool,
    /// `routes any`.
    pub routes: bool,
}

impl Came {
    // Whether this setting had its line.
    pub(crate) fn has(self, setting: Setting) -> bool
        ensures { result ≡ has_come self setting }
    {
        match setting {
            Setting::Ticks => self.ticks,
            Setting::Events => self.events,
            Setting::Blocks => self.blocks,
            Setting::Epoch => self.epoch,
            Setting::Pace => self.pace,
        }
    }

    // The same after the line of this setting.
    pub(crate) fn with(self, setting: Setting) -> Came
        ensures { result ≡ with_come self setting }
    {
        let mut came = self;
        match setting {
            Setting::Ticks => came.ticks = true,
            Setting::Events => came.events = true,
            Setting::Blocks => came.blocks = true,
            Setting::Epoch => came.epoch = true,
            Setting::Pace => came.pace = true,
        }
        came
    }
}
