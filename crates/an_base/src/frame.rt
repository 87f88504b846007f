//! The frames on a wire: numbered bodies of sessions, their acknowledgements, and probes with their replies.

ghost use Rattle.std.specs.Prelude.{◌≡◌, ◌≤◌};

use crate::body::Body;
use crate::life::End;
use std::marker::Model;

/// A frame that carries a body, with its session and its number there.
#[derive(Drop)]
pub struct CarryFrame {
    /// The epoch of the session.
    pub epoch: u64,
    /// The end that sent it.
    pub from: End,
    /// The end that it is sent to.
    pub to: End,
    /// The number of the body in its direction of the session, from 1.
    pub k: u32,
    /// The body.
    pub body: Body,
}

impl Model for CarryFrame {
    ghost use Rattle.an_base.specs.Values.{IsCounted};
    ghost use Rattle.an_base.specs.Frames.{CarryOf};

    ghost Value = { CarryOf };

    ghost view = { λ f. record { epoch = f.epoch; from = f.from; to = f.to; number = f.k; body = f.body } };

    ghost invariant = { λ f. IsCounted f.k };
}

impl CarryFrame {
    /// Creates the frame. The caller must pass a `k` of at least 1.
    pub fn new(epoch: u64, from: End, to: End, k: u32, body: Body) -> Self
        requires { 1 ≤ k }
        ensures { result ≡ record { epoch = epoch; from = from; to = to; number = k; body = body } }
    {
        CarryFrame {
            epoch,
            from,
            to,
            k,
            body,
        }
    }
}

/// A frame between two switches.
#[derive(Drop)]
pub enum Frame {
    /// A body of a session.
    Carry(CarryFrame),
    /// An acknowledgement of all bodies of a session up to a number.
    Ack {
        /// The epoch of the session.
        epoch: u64,
        /// The end that accepted them.
        from: End,
        /// The end that sent them.
        to: End,
        /// The number of the last body accepted; 0 if there is none.
        n: u32,
    },
    /// A question: which end is at the other side of the link?
    Probe {
        /// The end that asks.
        from: End,
        /// A number that identifies the reply.
        nonce: u64,
    },
    /// The reply to a probe: this end is at the other side.
    Reply {
        /// The end that replies.
        from: End,
        /// The end that asked.
        to: End,
        /// The number of the probe.
        nonce: u64,
    },
}
