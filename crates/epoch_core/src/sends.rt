//! The bodies that a core sends. Sessions number them and make frames of them.

use an_base::body::Body;
use common_values::items::Items;
use std::marker::Model;

/// A body that goes out on a port.
#[derive(Drop)]
pub struct Outgoing {
    /// The own port, 1 to 12.
    pub port: u8,
    /// The body.
    pub body: Body,
}

impl Model for Outgoing {
    ghost use Rattle.epoch_core.specs.Log.{OnPort};

    ghost Value = { OnPort };

    ghost view = { λ s. record { port = s.port; body = s.body } };
}

/// The bodies to be sent, in order.
pub type Sends = Items<Outgoing>;
