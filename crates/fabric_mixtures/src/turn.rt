//! By what a channel may be followed by another one.

ghost use Rattle.std.specs.Prelude.{◌≡◌, ◌<◌, ◌↔◌, ℕ, IfSome, IsTrue, MatchOption};
ghost use Rattle.fabric_tables.specs.Cells.{tables_of};
ghost use Rattle.fabric_model.specs.Fabric.{switch_count};
ghost use Rattle.fabric_routes.specs.declared.hop.Hop.TheVariants.{On};
ghost use Rattle.fabric_routes.specs.Found.{channel_of};
ghost use Rattle.fabric_mixtures.specs.Mixtures.{MayBeFollowed, MayTakeBoth};
ghost use Rattle.fabric_mixtures.specs.Steps.{by_of};
ghost use Rattle.fabric_mixtures.specs.Verdict.{IsLeastTurn, IsTurn};

use crate::look::{hop_for, lids_of};
use fabric_model::fabric::Fabric;
use fabric_model::node::Spot;
use fabric_routes::hop::Hop;
use fabric_tables::cells::Cells;

/// By which of two tables something is so.
#[derive(Clone, Copy)]
pub enum By {
    /// The old ones alone.
    Old,
    /// The new ones alone.
    New,
    /// Both.
    Both,
}

/// By what a channel may be followed by another one.
#[derive(Clone, Copy)]
pub struct Turn {
    /// The least LID for which it may be.
    pub lid: u16,
    /// By which tables the channel is taken for this LID.
    pub by: By,
    /// By which the other one is.
    pub next_by: By,
}

// By which tables something is so, if by any.
fn by_of(old: bool, new: bool) -> Option<By>
    ensures { result ≡ by_of old new }
{
    match (old, new) {
        (true, true) => Some(By::Both),
        (true, false) => Some(By::Old),
        (false, true) => Some(By::New),
        (false, false) => None,
    }
}

// Whether a hop goes out of a port to a switch.
fn goes_to(hop: Hop, port: u8, next: u32) -> bool
    ensures { IsTrue result ↔ (hop ≡ On port next) }
{
    match hop {
        Hop::On(by, to) => by == port && to == next,
        Hop::Arrive => false,
        Hop::Stop(_) => false,
    }
}

// Whether it goes out of a port to any switch.
fn goes_by(hop: Hop, port: u8) -> bool
    ensures { IsTrue result ↔ ((next : ℕ) × (hop ≡ On port next)) }
{
    match hop {
        Hop::On(by, _) => by == port,
        Hop::Arrive => false,
        Hop::Stop(_) => false,
    }
}

// By which tables a switch sends what goes to a LID out of a port to the switch of another one, and that out of a port
// of its own.
fn turn_at(
    fabric: &Fabric,
    old: &Cells,
    new: &Cells,
    lid: u16,
    channel: Spot,
    next: Spot,
) -> Option<Turn>
    requires same { switch_count fabric.now ≡ old.now.switches }
    requires same_new { switch_count fabric.now ≡ new.now.switches }
    requires channel { channel.switch < switch_count fabric.now }
    requires next { next.switch < switch_count fabric.now }
    ensures turn { MatchOption result
        (MayTakeBoth fabric.now (tables_of old.now) (tables_of new.now) lid (channel_of channel) (channel_of next) → ⊥)
        (IsTurn fabric.now (tables_of old.now) (tables_of new.now) (channel_of channel) (channel_of next)) }
    ensures lid { IfSome result (λ turn. turn.lid ≡ lid) }
{
    let at = usize::from(lid);
    let from = channel.switch as usize;
    let by = by_of(
        goes_to(hop_for(fabric, old, from, at), channel.port, next.switch),
        goes_to(hop_for(fabric, new, from, at), channel.port, next.switch),
    )?;
    let to = next.switch as usize;
    let next_by = by_of(
        goes_by(hop_for(fabric, old, to, at), next.port),
        goes_by(hop_for(fabric, new, to, at), next.port),
    )?;
    Some(Turn { lid, by, next_by })
}

/// The least LID for which a channel may be followed by another one, and by which tables. There is none if it
/// may not be.
pub fn find_turn(
    fabric: &Fabric,
    old: &Cells,
    new: &Cells,
    channel: Spot,
    next: Spot,
) -> Option<Turn>
    requires same { switch_count fabric.now ≡ old.now.switches }
    requires same_new { switch_count fabric.now ≡ new.now.switches }
    requires channel { channel.switch < switch_count fabric.now }
    requires next { next.switch < switch_count fabric.now }
    ensures { MatchOption result
        (MayBeFollowed fabric.now (tables_of old.now) (tables_of new.now) (channel_of channel) (channel_of next) → ⊥)
        (IsLeastTurn fabric.now (tables_of old.now) (tables_of new.now) (channel_of channel) (channel_of next)) }
{
    'lids: for lid in 0..lids_of(old, new) {
        if let Some(turn) = turn_at(fabric, old, new, lid as u16, channel, next) {
            return Some(turn);
        }
    }
    None
}
