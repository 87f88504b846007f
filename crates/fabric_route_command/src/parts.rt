//! Which switches links join, by labels: switches of one part have one label.

ghost use Rattle.std.specs.Prelude.{◌≡◌, ◌<◌, ◌+◌, IfOk, length};
ghost use Rattle.fabric_model.specs.Fabric.{IsFabric, switch_count};
ghost use Rattle.fabric_route_command.specs.Parts.{AreLabels, AreLabelsBefore, AreRenamed};

use common_values::memory::OutOfMemory;
use fabric_model::fabric::Fabric;
use fabric_model::node::Side;
use std::alloc::Global;

/// A label for each switch: two switches have one label exactly if links join them.
pub fn labels_of(alloc: Global, fabric: &Fabric) -> Result<Vec<u32>, OutOfMemory>
    ensures labels { IfOk result (λ labels. AreLabels fabric.now labels.items) }
    ensures fabric { IfOk result (λ _. IsFabric fabric.now) }
{
    let mut labels = own_labels(alloc, fabric)?;
    'switches: for switch in 0..fabric.switches() {
        join_switch(fabric, &mut labels, switch);
    }
    Ok(labels)
}

// For each switch a label of its own.
fn own_labels(alloc: Global, fabric: &Fabric) -> Result<Vec<u32>, OutOfMemory>
    ensures { IfOk result (λ labels. AreLabelsBefore fabric.now 0 0 labels.items) }
{
    let mut labels = Vec::with_capacity(alloc, fabric.switches())?;
    'switches: for switch in 0..fabric.switches() {
        labels.push(switch as u32)?;
    }
    Ok(labels)
}

// Gives one label to a switch and those to which its ports lead.
fn join_switch(fabric: &Fabric, labels: &mut [u32], switch: usize)
    requires switch { switch < switch_count fabric.now }
    requires labels { AreLabelsBefore fabric.now switch 0 labels.old }
    ensures { AreLabelsBefore fabric.now (switch + 1) 0 labels.new }
{
    'ports: for place in 0..fabric.most() {
        join_port(fabric, labels, switch, place as u8 + 1);
    }
}

// Gives one label to a switch and the one to which a port of it leads, if it leads to one.
fn join_port(fabric: &Fabric, labels: &mut [u32], switch: usize, port: u8)
    requires switch { switch < switch_count fabric.now }
    requires labels { AreLabelsBefore fabric.now switch port labels.old }
    ensures { AreLabelsBefore fabric.now switch (port + 1) labels.new }
{
    if let Side::To(next, _) = fabric.side(switch, port) {
        let from = labels[next as usize];
        let to = labels[switch];
        rename(labels, from, to);
    }
}

// Puts one label in the place of another.
fn rename(labels: &mut [u32], from: u32, to: u32)
    ensures { AreRenamed from to labels.old labels.new }
{
    if from == to {
        return;
    }
    'labels: for place in 0..labels.len() {
        if labels[place] == from {
            labels[place] = to;
        }
    }
}
