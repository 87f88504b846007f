//! The parts of a fabric.

/// The LIDs of an end port, which are consecutive.
#[derive(Clone, Copy, PartialEq, Eq)]
pub struct LidRange {
    /// The base LID; 0 if there are no LIDs.
    pub base: u16,
    /// The LMC: there are 2 to the power `lmc` LIDs.
    pub lmc: u8,
}

/// A switch.
#[derive(Clone, Copy, PartialEq, Eq)]
pub struct Switch {
    /// The number of ports next to port 0: they are 1 to this number.
    pub ports: u8,
    /// The LIDs of its port 0.
    pub lids: LidRange,
}

/// An end port, by its index among those of its kind, from 0.
#[derive(Clone, Copy)]
pub enum EndPort {
    /// The end port of an adapter or router.
    Host(u32),
    /// Port 0 of a switch.
    Switch(u32),
}

/// A port of a switch.
#[derive(Clone, Copy)]
pub struct Spot {
    /// The index of the switch.
    pub switch: u32,
    /// The port.
    pub port: u8,
}

/// Where a port of a switch leads.
#[derive(Clone, Copy)]
pub enum Side {
    /// Nowhere.
    Bare,
    /// To the switch at this index, and this port of it.
    To(u32, u8),
    /// To the end port, of an adapter or router, at this index.
    End(u32),
}

/// Why a switch or an end port is rejected.
#[derive(Clone, Copy)]
pub enum NodeFault {
    /// Its GUID was given before, with another kind, ports or LIDs.
    Differs,
    /// One of its LIDs is above 0xBFFF, or its LMC is above 7.
    LidsTooHigh,
    /// One of its LIDs has another owner.
    LidTaken,
    /// It would have more than 254 ports.
    TooManyPorts,
    /// There are already 16,384 switches, or 65,535 end ports of adapters and routers.
    TooMany,
}

/// Why a link is rejected.
#[derive(Clone, Copy)]
pub enum LinkFault {
    /// One of its ports is 0 or above the number of ports of its switch.
    NoPort,
    /// One of its ports is cabled otherwise.
    Differs,
}
