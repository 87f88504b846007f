//! Why a text is not a topology of a fabric.

ghost use Rattle.std.specs.Prelude.{◌≡◌};
ghost use Rattle.fabric_read_topology.specs.Causes.{cause_text};

use fabric_model::node::{LinkFault, NodeFault};
use fabric_topology::cause::TopologyCause;

/// The error in a line.
#[derive(Clone, Copy)]
pub enum FabricCause {
    /// It is not a line of a topology at its part of the text.
    Text(TopologyCause),
    /// A number of ports is above 254, the number of a port above 255, an LMC above 7, or a LID above 0xBFFF.
    Range,
    /// A node of it is rejected.
    Node(NodeFault),
    /// A link of it is rejected.
    Link(LinkFault),
    /// A neighbour gives a node another LID than the node's own line does.
    LidDiffers,
    /// A plain text does not have a switch that the line names.
    UnknownSwitch,
}

impl FabricCause {
    /// Returns the words for the reason.
    pub fn text(self) -> &'static str
        ensures { result.now ≡ cause_text self }
    {
        match self {
            FabricCause::Text(TopologyCause::LineTooLong) => "line too long",
            FabricCause::Text(TopologyCause::UnknownLine) => "unknown line",
            FabricCause::Text(TopologyCause::NoEnd) => "no end",
            FabricCause::Range => "number range",
            FabricCause::Node(NodeFault::Differs) => "node differs",
            FabricCause::Node(NodeFault::LidsTooHigh) => "lid range",
            FabricCause::Node(NodeFault::LidTaken) => "lid taken",
            FabricCause::Node(NodeFault::TooManyPorts) => "too many ports",
            FabricCause::Node(NodeFault::TooMany) => "too many nodes",
            FabricCause::Link(LinkFault::NoPort) => "no such port",
            FabricCause::Link(LinkFault::Differs) => "link differs",
            FabricCause::LidDiffers => "lid differs",
            FabricCause::UnknownSwitch => "unknown switch",
        }
    }
}
