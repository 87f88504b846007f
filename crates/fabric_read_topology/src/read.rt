//! The reader of fabrics.

ghost use Rattle.std.specs.Prelude.{◌≡◌, ◌<◌, ◌-◌, ◌^◌, length, IfErr, IfOk};
ghost use Rattle.common_lines.specs.Stops.{IsRefusalBy};
ghost use Rattle.fabric_topology.specs.Unset.{unset_of};
ghost use Rattle.fabric_read_topology.specs.Fabrics.{HasNodes, IsFabricText, IsFault, no_nodes};
ghost use Rattle.fabric_read_topology.specs.Facts.{AddsNode, IsFaultyNode};
ghost use Rattle.fabric_read_topology.specs.Lines.{IsFaultFrom, IsTextFrom};

use crate::lines::{FabricRefusal, read_lines};
use crate::nodes::ToldNodes;
use fabric_model::fabric::Fabric;
use std::alloc::Global;

/// The meaning of the text of a fabric.
#[derive(Drop)]
pub struct ToldFabric {
    /// The fabric.
    pub fabric: Fabric,
    /// The number of its switches and end ports that have the base LID 65535. They own no LID: their links are up, and
    /// no subnet manager has given them one.
    pub unset: usize,
}

/// Parses a topology, in linear time except for sorting the nodes (by design, not proved). The caller must pass fewer
/// than 2^32 - 1 bytes.
///
/// # Errors
/// The first line of `bytes` with an error, and its first reason; or `OutOfMemory`, which says nothing about `bytes`.
pub fn read_fabric(alloc: Global, bytes: &[u8]) -> Result<ToldFabric, FabricRefusal>
    requires few { length bytes.now < 2 ^ 32 - 1 }
    ensures text { IfOk result (λ told. IsFabricText bytes.now told.fabric) }
    ensures unset { IfOk result (λ told. told.unset ≡ unset_of bytes.now) }
    ensures fault { IfErr result (IsRefusalBy (IsFault bytes.now)) }
{
    let mut told = bare_fabric(alloc, bytes)?;
    match read_lines(&mut told.fabric, bytes) {
        Ok(()) => Ok(told),
        Err(refusal) => Err(refusal),
    }
}

// The fabric of the nodes that the bytes tell of, which is not cabled.
fn bare_fabric(alloc: Global, bytes: &[u8]) -> Result<ToldFabric, FabricRefusal>
    requires few { length bytes.now < 2 ^ 32 - 1 }
    ensures nodes { IfOk result (λ told. HasNodes bytes.now told.fabric) }
    ensures unset { IfOk result (λ told. told.unset ≡ unset_of bytes.now) }
    ensures fault { IfErr result (IsRefusalBy (IsFaultFrom AddsNode IsFaultyNode no_nodes bytes.now)) }
{
    let told = told_nodes(alloc, bytes)?;
    let unset = told.unset.len();
    Ok(ToldFabric {
        fabric: Fabric::of(alloc, told.nodes)?,
        unset,
    })
}

// The nodes that the bytes tell of.
fn told_nodes(alloc: Global, bytes: &[u8]) -> Result<ToldNodes, FabricRefusal>
    requires few { length bytes.now < 2 ^ 32 - 1 }
    ensures nodes { IfOk result (λ told. IsTextFrom AddsNode no_nodes bytes.now told.nodes) }
    ensures unset { IfOk result (λ told. length told.unset.keys ≡ unset_of bytes.now) }
    ensures fault { IfErr result (IsRefusalBy (IsFaultFrom AddsNode IsFaultyNode no_nodes bytes.now)) }
{
    let mut told = ToldNodes::new(alloc)?;
    match read_lines(&mut told, bytes) {
        Ok(()) => Ok(told),
        Err(refusal) => Err(refusal),
    }
}
