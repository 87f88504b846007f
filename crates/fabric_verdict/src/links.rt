//! How many links and channels a fabric has.

ghost use Rattle.std.specs.Prelude.{◌≡◌, ◌<◌, ◌≤◌, ◌^◌, ◌⊎◌, ◌↔◌, ℕ, IsTrue};
ghost use Rattle.fabric_model.specs.Fabric.{switch_count};
ghost use Rattle.fabric_routes.specs.Found.{IsChannel};
ghost use Rattle.fabric_routes.specs.Counting.{IsCountOf};
ghost use Rattle.fabric_verdict.specs.Count.{IsChannelCount, IsFirstOf, IsLinkAt, IsLinkCount};
ghost use Rattle.fabric_verdict.specs.Steps.{IsOutOf};

use fabric_model::fabric::Fabric;
use fabric_model::node::Side;

/// The links between the switches of a fabric.
#[derive(Clone, Copy)]
pub struct Links {
    /// The number of links. A port that is linked to itself counts as one.
    pub links: u64,
    /// The number of channels, that is, of ports that lead to a switch.
    pub channels: u64,
}

// Whether a port leads to a switch.
fn leads_on(side: Side) -> bool
    ensures { IsTrue result ↔ ((to entry : ℕ) × (side ≡ Side.To to entry)) }
{
    match side {
        Side::Bare => false,
        Side::To(_, _) => true,
        Side::End(_) => false,
    }
}

// Whether a port leads to a port of a switch, and to none before it.
fn is_first(switch: usize, port: u8, side: Side) -> bool
    ensures { IsTrue result ↔ ((to entry : ℕ) × (side ≡ Side.To to entry) × IsFirstOf switch port to entry) }
{
    match side {
        Side::Bare => false,
        Side::To(to, entry) => switch < to as usize || (switch == to as usize && port <= entry),
        Side::End(_) => false,
    }
}

// Those of which a port of a switch is the first, and the channels out of this switch.
fn links_of(fabric: &Fabric, switch: usize) -> Links
    requires { switch < switch_count fabric.now }
    ensures links { IsCountOf (IsOutOf (IsLinkAt fabric.now) switch) result.links }
    ensures few_links { result.links < 255 }
    ensures channels { IsCountOf (IsOutOf (IsChannel fabric.now) switch) result.channels }
    ensures few_channels { result.channels < 255 }
{
    let mut links = 0u64;
    let mut channels = 0u64;
    'ports: for number in 0..fabric.most() {
        let port = number as u8 + 1;
        let side = fabric.side(switch, port);
        links += u64::from(is_first(switch, port, side));
        channels += u64::from(leads_on(side));
    }
    Links { links, channels }
}

/// Counts the links between the switches of `fabric`, and the channels, which are below 2^22.
pub fn count_links(fabric: &Fabric) -> Links
    ensures links { IsLinkCount fabric.now result.links }
    ensures channels { IsChannelCount fabric.now result.channels }
    ensures few { result.channels < 2 ^ 22 }
{
    let mut links = 0u64;
    let mut channels = 0u64;
    'switches: for switch in 0..fabric.switches() {
        let own = links_of(fabric, switch);
        links += own.links;
        channels += own.channels;
    }
    Links { links, channels }
}
