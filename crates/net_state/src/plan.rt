//! The part of a fabric that no event changes.

ghost use Rattle.std.specs.Prelude.{◌≡◌, ◌<◌, length, slice_index_or, IfOk};
ghost use Rattle.net_graph.specs.Wires.{uid_of};
ghost use Rattle.net_script.specs.Scripts.{IsScript};
ghost use Rattle.net_state.specs.Fabric.{no_host};

use crate::host::host_at;
use an_base::place::Place;
use common_values::memory::OutOfMemory;
use net_graph::wiring::{HostOn, LinkAt, SwitchAt};
use net_script::command::Command;
use net_script::script::Script;
use net_script::setting::Limits;
use std::alloc::Global;
use std::marker::Model;
use std::snapshot::Snapshot;

/// The part of the script that a run reads. It is a copy, because threads share the journal store that has
/// the fabric, so the fabric borrows nothing.
#[derive(Drop)]
pub struct Plan {
    script: Snapshot<Script>,
    switches: Vec<SwitchAt>,
    links: Vec<LinkAt>,
    hosts: Vec<HostOn>,
    commands: Vec<Command>,
    epoch: u64,
    pace: Option<u32>,
    limits: Limits,
}

impl Model for Plan {
    ghost use Rattle.net_script.specs.Scripts.{ScriptOf};
    ghost use Rattle.net_state.specs.Kept.{IsPlanOf};

    ghost Value = { ScriptOf };

    ghost view = { λ p. p.script.value };

    ghost invariant = { λ p. IsPlanOf p.script.value p.switches.items p.links.items p.hosts.items
        p.commands.items p.epoch p.pace p.limits };
}

impl Plan {
    /// Copies the part of `script` that a run reads.
    ///
    /// # Errors
    /// `OutOfMemory` if an allocation fails.
    pub fn of(alloc: Global, script: &Script) -> Result<Self, OutOfMemory>
        ensures { IfOk result (λ plan. plan ≡ script.now) }
    {
        let wiring = script.wiring();
        Ok(Plan {
            script: Snapshot::of(script),
            switches: Vec::from_slice(alloc, wiring.switches())?,
            links: Vec::from_slice(alloc, wiring.links())?,
            hosts: Vec::from_slice(alloc, wiring.hosts())?,
            commands: Vec::from_slice(alloc, script.commands())?,
            epoch: script.epoch(),
            pace: script.pace(),
            limits: script.limits(),
        })
    }

    /// Returns the number of switches, 0 to 126.
    pub fn count(&self) -> u8
        ensures count { result ≡ length self.now.wires.switches }
        ensures kept { IsScript self.now }
    {
        self.switches.len() as u8
    }

    /// Returns the identifier of switch `s`, which must exist.
    pub fn uid(&self, s: Place) -> u64
        requires { s < length self.now.wires.switches }
        ensures { result ≡ uid_of self.now.wires.switches s }
    {
        self.switches[usize::from(s)].uid
    }

    /// Returns the links of switch ports.
    pub fn links(&self) -> &[LinkAt]
        ensures links { result.now ≡ self.now.wires.links }
        ensures kept { IsScript self.now }
    {
        &self.links
    }

    /// Returns the hosts, by index.
    pub fn hosts(&self) -> &[HostOn]
        ensures hosts { result.now ≡ self.now.wires.hosts }
        ensures kept { IsScript self.now }
    {
        &self.hosts
    }

    /// Returns the host at index `host`, or no host if there is none.
    pub fn host(&self, host: u16) -> HostOn
        ensures { result ≡ slice_index_or self.now.wires.hosts host no_host }
    {
        host_at(&self.hosts, host)
    }

    /// Returns the commands, in the order of their times.
    pub fn commands(&self) -> &[Command]
        ensures commands { result.now ≡ self.now.commands }
        ensures kept { IsScript self.now }
    {
        &self.commands
    }

    /// Returns the epoch at power-on.
    pub fn epoch(&self) -> u64
        ensures { result ≡ self.now.epoch }
    {
        self.epoch
    }

    /// Returns the number of events after which a tick can come, if the script sets one.
    pub fn pace(&self) -> Option<u32>
        ensures { result ≡ self.now.pace }
    {
        self.pace
    }

    /// Returns the limits of a run.
    pub fn limits(&self) -> Limits
        ensures limits { result ≡ self.now.limits }
        ensures kept { IsScript self.now }
    {
        self.limits
    }
}
