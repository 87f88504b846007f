//! The head of a node's part, in a text of lanes or service levels.

ghost use Rattle.std.specs.Prelude.{◌≡◌};
ghost use Rattle.fabric_words.specs.Heads.{head_guid, node_head};

use crate::cut::after;
use crate::digits::guid;

/// The node whose part begins.
#[derive(Clone, Copy)]
pub enum NodeHead {
    /// The switch with this GUID.
    Switch(u64),
    /// The end port with this GUID, of an adapter or router.
    Adapter(u64),
}

/// Parses the head of a part: the kind of the node, the GUID of the port in 16 digits after `0x`, and `, base LID `.
/// Anything can follow.
#[tactic(auto, unfolding(crate::specs::Heads::node_head))]
pub fn node_head(line: &[u8]) -> Option<NodeHead>
    ensures { result ≡ node_head line.now }
{
    if let Some(guid) = head_guid(line, "Switch 0x") {
        return Some(NodeHead::Switch(guid));
    }
    if let Some(guid) = head_guid(line, "Channel Adapter 0x") {
        return Some(NodeHead::Adapter(guid));
    }
    let guid = head_guid(line, "Router 0x")?;
    Some(NodeHead::Adapter(guid))
}

// The GUID in a head with this front.
#[tactic(auto, unfolding(crate::specs::Heads::head_guid))]
fn head_guid(line: &[u8], front: &str) -> Option<u64>
    ensures { result ≡ head_guid front.now line.now }
{
    let rest = after(line, front)?;
    if rest.len() < 16 {
        return None;
    }
    let _tail = after(&rest[16..], ", base LID ")?;
    guid(&rest[..16])
}
