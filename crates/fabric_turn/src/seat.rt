//! A caller's side of a turnstile: its number and those that it can give. What it has seen exists only in
//! contracts.

ghost use Rattle.std.specs.Prelude.{◌≡◌};
ghost use Rattle.fabric_turn.specs.declared.view.View.{View};
ghost use Rattle.fabric_turn.specs.Calls.{IsAtRest};
ghost use Rattle.fabric_turn.specs.Turnstiles.{TurnstileId};

use crate::order::Views;
use crate::staged::Staged;
use std::marker::Model;

/// A caller's seat at a turnstile. Contracts see it as a pair: the name of its turnstile, which `turnstile_id`
/// gives, and what the seat knows, a `View`.
///
/// A seat can be moved to another thread. A seat that is dropped keeps its numbers, so its turnstile can no longer
/// be closed.
#[derive(Drop)]
pub struct Seat<B: Staged> {
    pub(crate) place: atomic_table::Seat<B, Views<B>>,
    pub(crate) number: u32,
    pub(crate) next: u32,
    pub(crate) callers: u32,
}

impl<B: Staged> Model for Seat<B> {
    ghost Value = { TurnstileId × View B.Entry B.Start };

    ghost view = { λ s. (s.place.table_id, s.place.me.0) };

    ghost invariant = { λ s. IsAtRest s.place.me × (s.number ≡ s.place.me.0.number)
        × (s.next ≡ s.place.me.0.next) × (s.callers ≡ s.place.me.0.callers) };
}
