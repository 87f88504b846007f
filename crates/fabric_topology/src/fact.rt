//! What lines say of a fabric.

ghost use Rattle.std.specs.Prelude.{◌≡◌};
ghost use Rattle.fabric_topology.specs.Facts.{guid_of, silent, telling, telling_two, telling_three};

/// A port at an end of a link.
#[derive(Clone, Copy)]
pub enum PortTold {
    /// A port of the switch with this GUID.
    OfSwitch { guid: u64, port: u64 },
    /// The end port with this GUID, of an adapter or router.
    OfHost { guid: u64 },
}

/// What a line says. Numbers are those of the text, in whatever range.
#[derive(Clone, Copy)]
pub enum Fact {
    /// A switch, its number of ports, and the LIDs of its port 0: 2 to the power LMC, from the base on. A base of 0 or
    /// 65535 means that there are none.
    Switch {
        guid: u64,
        ports: u64,
        base: u64,
        lmc: u64,
    },
    /// An end port of an adapter or router, and its LIDs.
    Host {
        guid: u64,
        base: u64,
        lmc: u64,
    },
    /// A link between two ports.
    Link {
        one: PortTold,
        other: PortTold,
    },
    /// The base LID of an end port or switch, as its neighbour gives it.
    Neighbour {
        guid: u64,
        base: u64,
    },
    /// The text has a switch with this GUID, because a plain line names it.
    HasSwitch {
        guid: u64,
    },
}

/// The meaning of one line.
#[derive(Clone, Copy)]
pub struct Line {
    /// The part of the text after this line, which decides what kind of line can follow.
    pub part: Part,
    /// The first fact, if there is one.
    pub first: Option<Fact>,
    /// The second fact.
    pub second: Option<Fact>,
    /// The third and last fact.
    pub third: Option<Fact>,
}

/// The part of a text in which a line is.
#[derive(Clone, Copy)]
pub enum Part {
    /// Before every line that says something.
    Start,
    /// In the output of `ibnetdiscover`, outside the section of a node.
    Outside,
    /// In the output of `ibnetdiscover`, in the section of the switch with this GUID.
    Switch { guid: u64 },
    /// In the output of `ibnetdiscover`, in the section of an adapter or router.
    Adapter,
    /// In an `opensm-subnet.lst`, before its first link, after a line that gives the LMC.
    Lmc { lmc: u64 },
    /// In an `opensm-subnet.lst`, whose end ports of adapters and routers have this LMC.
    Dumped { lmc: u64 },
    /// In a plain text, after its first line.
    Plain,
    /// After the last line of a plain text.
    Ended,
}

impl PortTold {
    /// Returns the GUID of the switch or end port.
    pub fn guid(self) -> u64
        ensures { result ≡ guid_of self }
    {
        match self {
            PortTold::OfSwitch { guid, port: _ } => guid,
            PortTold::OfHost { guid } => guid,
        }
    }
}

impl Line {
    /// Returns a line without facts.
    pub fn silent(part: Part) -> Line
        ensures { result ≡ silent part }
    {
        Line {
            part,
            first: None,
            second: None,
            third: None,
        }
    }

    /// Returns a line with one fact.
    pub fn of(part: Part, fact: Fact) -> Line
        ensures { result ≡ telling part fact }
    {
        Line {
            part,
            first: Some(fact),
            second: None,
            third: None,
        }
    }

    /// Returns a line with two facts.
    pub fn of_two(part: Part, first: Fact, second: Fact) -> Line
        ensures { result ≡ telling_two part first second }
    {
        Line {
            part,
            first: Some(first),
            second: Some(second),
            third: None,
        }
    }

    /// Returns a line with three facts.
    pub fn of_three(part: Part, first: Fact, second: Fact, third: Fact) -> Line
        ensures { result ≡ telling_three part first second third }
    {
        Line {
            part,
            first: Some(first),
            second: Some(second),
            third: Some(third),
        }
    }
}
