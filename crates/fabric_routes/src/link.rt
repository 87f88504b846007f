//! Which ports lead to switches, as bits, because a wave needs to know it at each hop.

ghost use Rattle.std.specs.Prelude.{◌≡◌, ◌<◌, ◌≤◌, ◌+◌, ◌*◌, ◌/◌, ◌%◌, ◌^◌, ◌↔◌, ℕ, length, IfOk, IfSome, IsTrue, MatchOption};
ghost use Rattle.std.specs.Int.{bit_at};
ghost use Rattle.fabric_tables.specs.Cells.{tables_of};
ghost use Rattle.fabric_model.specs.Fabric.{side_of, switch_count};
ghost use Rattle.fabric_routes.specs.Links.{AreLinks, IsLinksWord, IsTo};
ghost use Rattle.fabric_routes.specs.Routes.{hop};
ghost use Rattle.fabric_routes.specs.declared.hop.Hop.TheVariants.{On};

use crate::word::{has_bit, with_bit};
use common_values::memory::OutOfMemory;
use fabric_model::fabric::Fabric;
use fabric_model::node::Side;
use fabric_tables::cells::Cells;
use std::alloc::Global;

// Whether a port leads to a switch.
fn is_to(side: Side) -> bool
    ensures { IsTrue result ↔ IsTo side }
{
    match side {
        Side::Bare => false,
        Side::To(_, _) => true,
        Side::End(_) => false,
    }
}

// Which of 64 ports of a switch lead to switches.
fn links_word(fabric: &Fabric, place: usize) -> u64
    requires { place / 4 < switch_count fabric.now }
    ensures { IsLinksWord fabric.now place result }
{
    let switch = place / 4;
    let first = 64 * (place % 4);
    let mut word = 0u64;
    'bits: for bit in 0..64usize {
        if is_to(fabric.side(switch, (first + bit) as u8)) {
            word = with_bit(word, bit);
        }
    }
    word
}

/// Returns which ports lead to switches: a bit for each port, four words for each switch, so that they fit in a cache.
///
/// # Errors
/// `OutOfMemory`.
pub fn find_links(alloc: Global, fabric: &Fabric) -> Result<Vec<u64>, OutOfMemory>
    ensures { IfOk result (λ links. AreLinks fabric.now links.items) }
{
    let count = fabric.switches() * 4;
    let mut links = vec![in alloc; 0u64; count]?;
    'places: for place in 0..count {
        links[place] = links_word(fabric, place);
    }
    Ok(links)
}

/// Reports whether `port` of `switch` leads to a switch. The caller must pass the links of this fabric, and one of its
/// switches.
#[inline]
pub fn is_link(fabric: &Fabric, links: &[u64], switch: usize, port: u8) -> bool
    requires links { AreLinks fabric.now links.now }
    requires switch { switch < switch_count fabric.now }
    ensures { IsTrue result ↔ IsTo (side_of fabric.now switch port) }
{
    let port = usize::from(port);
    has_bit(links[switch * 4 + port / 64], port % 64)
}

/// Returns the port through which `switch` forwards packets for LID 64 · `block` + `bit` to another switch, or `None`
/// if it does not. The caller must pass the links of this fabric, and keep all three numbers in range.
#[inline]
pub fn port_on(
    fabric: &Fabric,
    links: &[u64],
    cells: &Cells,
    switch: usize,
    block: usize,
    bit: usize,
) -> Option<u8>
    requires links { AreLinks fabric.now links.now }
    requires same { switch_count fabric.now ≡ cells.now.switches }
    requires switch { switch < switch_count fabric.now }
    requires block { block < cells.now.blocks }
    requires bit { bit < 64 }
    ensures hop { MatchOption result
        ((port next : ℕ) → hop fabric.now (tables_of cells.now) switch (64 * block + bit) ≡ On port next → ⊥)
        (λ port. (next : ℕ) × (hop fabric.now (tables_of cells.now) switch (64 * block + bit) ≡ On port next)) }
    ensures low { IfSome result (λ port. (0 < port) × (port ≤ fabric.now.most)) }
{
    let Some(port) = cells.port(switch, block, bit) else {
        return None;
    };
    if !is_link(fabric, links, switch, port) {
        return None;
    }
    Some(port)
}
