//! The capacity of a channel for `flow B`.

ghost use Rattle.std.specs.Prelude.{◌≤◌};

/// The number of packets that a channel holds.
#[derive(Clone, Copy, Drop)]
pub struct Room {
    /// At least 1.
    pub packets: u16,
    ghost least: { 1 ≤ packets },
}
