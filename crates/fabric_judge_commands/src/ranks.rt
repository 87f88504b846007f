//! The ranks of channels, as the output has them.

ghost use Rattle.std.specs.Prelude.{◌≡◌, ◌++◌, ◌<◌, ◌*◌, ◌/◌, ◌^◌, ℕ, Some, IfOk, OnOk, slice_get};
ghost use Rattle.fabric_model.specs.declared.node.EndPort.TheVariants.{Switch};
ghost use Rattle.fabric_model.specs.Fabric.{IsFabric, guid_of, switch_count};
ghost use Rattle.fabric_routes.specs.Found.{channel_of};
ghost use Rattle.fabric_verdict.specs.Verdict.{rank_in, spot_at};
ghost use Rattle.fabric_judge_commands.specs.Certified.{AreSmall, rank_at, rank_of, ranks_of, risen_of};

use crate::steps::step_of;
use common_values::memory::OutOfMemory;
use fabric_model::fabric::Fabric;
use fabric_model::node::{EndPort, Side, Spot};
use fabric_print::ranks::{Rank, Risen};
use fabric_verdict::judge::spot_of;
use fabric_verdict::verdict::LoopChannel;
use fabric_verdict::verify::Rise;
use std::alloc::Global;

/// Returns the ranks of the channels, by switch and then by port.
///
/// # Errors
/// `OutOfMemory`.
pub fn ranks_of(alloc: Global, fabric: &Fabric, ranks: &[u32]) -> Result<Vec<Rank>, OutOfMemory>
    ensures told { IfOk result (λ told. told.items ≡ ranks_of fabric.now ranks.now) }
    ensures small { IfOk result (λ _. AreSmall fabric.now ranks.now) }
    ensures fabric { IfOk result (λ _. IsFabric fabric.now) }
{
    let mut told = Vec::new(alloc);
    'places: for place in 0..fabric.switches() * fabric.most() {
        push_rank(&mut told, fabric, ranks, place)?;
    }
    Ok(told)
}

// Appends the rank of the channel at a place, if the port there leads to a switch.
fn push_rank(
    told: &mut Vec<Rank>,
    fabric: &Fabric,
    ranks: &[u32],
    place: usize,
) -> Result<(), OutOfMemory>
    requires { place < switch_count fabric.now * fabric.now.most }
    ensures told { OnOk result (told.new.items ≡ told.old.items
        ++ rank_at fabric.now ranks.now (spot_at fabric.now.most place)) }
    ensures small { OnOk result ((rank : ℕ) →
        rank_in fabric.now ranks.now (channel_of (spot_at fabric.now.most place)) ≡ Some rank →
        (guid_of fabric.now (Switch (place / fabric.now.most)) < 2 ^ 64) × (rank < 2 ^ 32)) }
{
    let Some(rank) = rank_in(fabric, ranks, place) else {
        return Ok(());
    };
    let spot = spot_of(fabric.most(), place as u32);
    told.push(rank_of(fabric, spot, rank))?;
    Ok(())
}

// The rank that a list has for the channel at a place, if the port there leads to a switch.
fn rank_in(fabric: &Fabric, ranks: &[u32], place: usize) -> Option<u32>
    requires { place < switch_count fabric.now * fabric.now.most }
    ensures { result ≡ rank_in fabric.now ranks.now (channel_of (spot_at fabric.now.most place)) }
{
    match fabric.side_at(place) {
        Side::To(_, _) => listed(ranks, place),
        Side::Bare | Side::End(_) => None,
    }
}

// What a list has at a place.
fn listed(ranks: &[u32], place: usize) -> Option<u32>
    ensures { result ≡ slice_get ranks.now place }
{
    ranks.get(place).copied()
}

// The rank of the channel out of a port.
fn rank_of(fabric: &Fabric, spot: Spot, rank: u32) -> Rank
    ensures rank { result ≡ rank_of fabric.now spot rank }
    ensures small { guid_of fabric.now (Switch spot.switch) < 2 ^ 64 }
{
    Rank {
        guid: fabric.guid(EndPort::Switch(spot.switch)),
        port: spot.port,
        rank,
    }
}

/// Returns a dependency along which ranks do not fall, as the output has it.
pub fn risen_of(fabric: &Fabric, rise: Rise) -> Risen
    ensures { result ≡ risen_of fabric.now rise }
{
    let channel = rise.channel;
    let witness = rise.witness;
    Risen {
        step: step_of(fabric, LoopChannel { channel, witness }),
        own: rank_of(fabric, channel, rise.rank),
        next: rank_of(fabric, rise.next, rise.next_rank),
    }
}
