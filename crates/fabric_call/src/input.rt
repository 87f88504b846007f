//! The topology that a call reads.

ghost use Rattle.std.specs.Prelude.{◌≡◌, IfErr, IfOk};
ghost use Rattle.fabric_topology.specs.Unset.{unset_of};
ghost use Rattle.fabric_call.specs.Answer.{GaveFabric, IsNoFabric, unread_as};

use crate::status::Status;
use common_call::input::{Unread, read_input};
use fabric_model::fabric::Fabric;
use fabric_read_topology::read::read_fabric;
use outside::source::Source;
use std::alloc::Global;

/// The most bytes of a topology.
pub const TOPOLOGY_LIMIT: usize = 1 << 28;

/// A topology.
#[derive(Drop)]
pub struct Topology {
    /// Its text.
    pub text: Vec<u8>,
    /// The fabric of which it is the text.
    pub fabric: Fabric,
    /// How many switches and end ports of it say that their base LID is 65535, and own none.
    pub unset: usize,
    ghost counted: { unset ≡ unset_of text.items },
}

impl From<Unread> for Status {
    ghost from_gives = { λ why result. result ≡ unread_as why };

    fn from(why: Unread) -> Self {
        match why {
            Unread::Fault => Status::ReadFault,
            Unread::TooLong { line } => Status::TopologyTooLong { line },
            Unread::OutOfMemory => Status::OutOfMemory,
        }
    }
}

/// Reads a source to its end, as the text of a fabric; or says why there is none.
pub fn read_topology<S: Source>(alloc: Global, source: &mut S) -> Result<Topology, Status>
    ensures found { IfOk result (λ topology.
        GaveFabric (S.seen source.old) (S.seen source.new) topology.text.items topology.fabric) }
    ensures none { IfErr result (IsNoFabric (S.seen source.old) (S.seen source.new)) }
{
    let text = read_input(alloc, source, TOPOLOGY_LIMIT)?;
    match read_fabric(alloc, &text) {
        Ok(told) => Ok(Topology {
            text,
            fabric: told.fabric,
            unset: told.unset,
        }),
        Err(refusal) => Err(Status::from(refusal)),
    }
}
