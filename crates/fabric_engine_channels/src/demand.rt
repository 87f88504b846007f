//! Where routes begin and where they lead.

ghost use Rattle.std.specs.Prelude.{◌<◌};

use crate::table::{Table, narrow};
use common_values::memory::OutOfMemory;
use fabric_model::fabric::Fabric;
use fabric_model::node::EndPort;
use std::alloc::Global;

/// A LID that has an owner, and where the owner is.
#[derive(Clone, Copy)]
pub struct Target {
    /// The LID.
    pub lid: u16,
    /// The switch to which the owner is cabled, or the switch that is the owner.
    pub switch: u32,
    /// The port to which the owner is cabled; 0 if the owner is the switch.
    pub port: u8,
}

impl Target {
    /// Reports whether the owner is an adapter or router.
    #[inline]
    pub fn is_host(self) -> bool {
        self.port != 0
    }
}

// The targets at a switch: they stand one after another.
#[derive(Clone, Copy)]
struct Group {
    first: u32,
    count: u32,
}

// No targets.
const NO_GROUP: Group = Group { first: 0, count: 0 };

/// The end ports at each switch, and the targets, switch by switch. An end port that is not cabled does not count.
#[derive(Drop)]
pub struct Demand {
    hosts: Table<u32>,
    count: u32,
    leaves: Vec<u32>,
    targets: Vec<Target>,
    groups: Table<Group>,
}

// How many end ports of adapters and routers are cabled to each switch.
fn count_hosts(alloc: Global, fabric: &Fabric, switches: u32) -> Result<Table<u32>, OutOfMemory> {
    let mut hosts = Table::filled(alloc, switches, 0u32)?;
    'ends: for end in 0..fabric.ends() {
        if let Some(spot) = fabric.cable_of(end) {
            hosts.add(spot.switch, 1);
        }
    }
    Ok(hosts)
}

// How many there are together.
fn sum(hosts: &Table<u32>) -> u32 {
    let mut sum = 0u32;
    'switches: for switch in 0..hosts.count() {
        sum = sum.wrapping_add(hosts.get(switch));
    }
    sum
}

// The switches that have some.
fn find_leaves(alloc: Global, hosts: &Table<u32>) -> Result<Vec<u32>, OutOfMemory> {
    let mut leaves = Vec::new(alloc);
    'switches: for switch in 0..hosts.count() {
        if hosts.get(switch) > 0 {
            leaves.push(switch)?;
        }
    }
    Ok(leaves)
}

// The target that a LID is, if it is one.
fn target_of(fabric: &Fabric, lid: u16) -> Option<Target> {
    match fabric.owner(usize::from(lid))? {
        EndPort::Host(end) => {
            let spot = fabric.cable_of(end as usize)?;
            Some(Target {
                lid,
                switch: spot.switch,
                port: spot.port,
            })
        }
        EndPort::Switch(switch) => Some(Target {
            lid,
            switch,
            port: 0,
        }),
    }
}

// The targets, switch by switch, and those at a switch by rising LID.
fn find_targets(alloc: Global, fabric: &Fabric) -> Result<Vec<Target>, OutOfMemory> {
    let mut targets = Vec::new(alloc);
    'lids: for lid in 0..fabric.lids() {
        if let Some(target) = target_of(fabric, lid as u16) {
            targets.push(target)?;
        }
    }
    targets.sort_by_key(|target| target.switch)?;
    Ok(targets)
}

// Where the targets at each switch stand.
fn find_groups(
    alloc: Global,
    targets: &[Target],
    switches: u32,
) -> Result<Table<Group>, OutOfMemory> {
    let mut groups = Table::filled(alloc, switches, NO_GROUP)?;
    'targets: for (place, target) in targets.iter().enumerate() {
        let group = groups.get(target.switch);
        let first = if group.count == 0 {
            narrow(place)
        } else {
            group.first
        };
        let count = group.count.wrapping_add(1);
        groups.put(target.switch, Group { first, count });
    }
    Ok(groups)
}

impl Demand {
    /// Returns the end ports and targets of `fabric`.
    ///
    /// # Errors
    /// `OutOfMemory`.
    pub fn of(alloc: Global, fabric: &Fabric) -> Result<Demand, OutOfMemory> {
        let switches = narrow(fabric.switches());
        let hosts = count_hosts(alloc, fabric, switches)?;
        let leaves = find_leaves(alloc, &hosts)?;
        let targets = find_targets(alloc, fabric)?;
        let groups = find_groups(alloc, &targets, switches)?;
        Ok(Demand {
            count: sum(&hosts),
            hosts,
            leaves,
            targets,
            groups,
        })
    }

    /// Returns the number of end ports of adapters and routers that are cabled to `switch`.
    #[inline]
    pub fn hosts(&self, switch: u32) -> u32 {
        self.hosts.get(switch)
    }

    /// Returns the number of end ports of adapters and routers that are cabled.
    pub fn host_count(&self) -> u32 {
        self.count
    }

    /// Returns the switches to which end ports of adapters and routers are cabled.
    pub fn leaves(&self) -> &[u32] {
        &self.leaves
    }

    /// Returns all targets.
    pub fn targets(&self) -> &[Target] {
        &self.targets
    }

    /// Returns the index, among all targets, of the first target at `switch`.
    pub fn first_at(&self, switch: u32) -> u32 {
        self.groups.get(switch).first
    }

    /// Returns the targets at `switch`.
    pub fn targets_at(&self, switch: u32) -> &[Target] {
        let group = self.groups.get(switch);
        let first = group.first as usize;
        let end = first.saturating_add(group.count as usize);
        self.targets.get(first..end).unwrap_or(&[])
    }

    /// Returns the number of LIDs that the adapters and routers at `switch` own.
    pub fn host_lids(&self, switch: u32) -> u32 {
        let targets = self.targets_at(switch);
        narrow(targets.iter().filter(|target| target.is_host()).count())
    }
}
