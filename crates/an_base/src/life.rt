//! Lives, and the ends of links. A switch that restarts begins a new life, with a new boot number.

ghost use Rattle.std.specs.Prelude.{◌≡◌, ◌≤◌, ◌<◌, ◌^◌};
ghost use Rattle.an_base.specs.declared.limits.TheConstants.{LAST_PORT};

use std::marker::Model;

/// A life of a switch. Lives are ordered by identifier, then by boot.
#[derive(Clone, Copy, Debug, PartialEq, Eq, PartialOrd, Ord)]
pub struct Life {
    /// The identifier of the switch, below 2^48.
    pub uid: u64,
    /// The boot number, from 1.
    pub boot: u32,
}

impl Model for Life {
    ghost use Rattle.std.specs.Prelude.{◌<◌, ◌^◌};
    ghost use Rattle.an_base.specs.Values.{LifeId, IsCounted};

    ghost Value = { LifeId };

    ghost view = { λ l. record { uid = l.uid; boot = l.boot } };

    ghost invariant = { λ l. (l.uid < 2 ^ 48) × IsCounted l.boot };

    ghost inverse = { λ v. record { uid = v.uid; boot = v.boot } };
}

impl Life {
    /// Creates a life. The caller must pass a `uid` below 2^48 and a `boot` of at least 1.
    pub const fn new(uid: u64, boot: u32) -> Self
        requires uid { uid < 2 ^ 48 }
        requires boot { 1 ≤ boot }
        ensures { result ≡ record { uid = uid; boot = boot } }
    {
        Life { uid, boot }
    }

    /// Returns the identifier of the switch, below 2^48.
    pub fn uid(self) -> u64
        ensures uid { result ≡ self.uid }
        ensures most { self.uid < 2 ^ 48 }
    {
        self.uid
    }

    /// Returns the boot number, from 1.
    pub fn boot(self) -> u32
        ensures boot { result ≡ self.boot }
        ensures least { 1 ≤ self.boot }
    {
        self.boot
    }
}

/// One end of a link: a life and one of its external ports, 1 to 12.
#[derive(Clone, Copy, PartialEq, Eq, PartialOrd, Ord)]
pub struct End {
    /// The life of this end.
    pub life: Life,
    /// Its port, 1 to 12.
    pub port: u8,
}

impl Model for End {
    ghost use Rattle.an_base.specs.Values.{EndId, IsWithin};
    ghost use Rattle.an_base.specs.declared.limits.TheConstants.{LAST_PORT};

    ghost Value = { EndId };

    ghost view = { λ e. record { life = e.life; port = e.port } };

    ghost invariant = { λ e. IsWithin 1 LAST_PORT e.port };

    ghost inverse = { λ v. record { life = v.life; port = v.port } };
}

impl End {
    /// Creates the end at `port` of `life`. The caller must pass a port from 1 to 12.
    pub fn new(life: Life, port: u8) -> Self
        requires least { 1 ≤ port }
        requires most { port ≤ LAST_PORT }
        ensures { result ≡ record { life = life; port = port } }
    {
        End { life, port }
    }

    /// Returns the life at this end.
    pub fn life(self) -> Life
        ensures { result ≡ self.life }
    {
        self.life
    }

    /// Returns the port at this end, 1 to 12.
    pub fn port(self) -> u8
        ensures port { result ≡ self.port }
        ensures least { 1 ≤ self.port }
        ensures most { self.port ≤ LAST_PORT }
    {
        self.port
    }
}
