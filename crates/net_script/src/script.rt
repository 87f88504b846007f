//! The parts of a network, and the commands to it.

ghost use Rattle.std.specs.Prelude.{◌≡◌, ◌<◌, ◌≤◌, true, length, OnOk, OnErr, IfSome};
ghost use Rattle.an_base.specs.declared.limits.TheConstants.{MOST_SWITCHES};
ghost use Rattle.net_script.specs.Settings.{least_of, most_of};
ghost use Rattle.net_script.specs.Scripts.{IsScript, CanAddSwitch, CanAddLink, CanAddHost, CanAddCommand, empty_script, restarts_of, lives_of, with_switch, with_link, with_host, with_command, with_setting};
ghost use Rattle.net_names.specs.Names.{place_of};

use crate::command::{Command, is_restart};
use crate::setting::{DEFAULT_BLOCKS, DEFAULT_EVENTS, DEFAULT_TICKS, Limits, Setting};
use an_base::event::Event;
use an_base::place::Place;
use common_values::memory::OutOfMemory;
use common_values::text::Word;
use net_graph::wiring::{HostOn, LinkAt, SwitchAt, Wiring};
use net_names::names::Names;
use std::alloc::Global;
use std::marker::Model;

/// A script: switches and hosts with their names, the links between their ports, commands in
/// order of time, and settings.
#[derive(Drop)]
pub struct Script {
    wiring: Wiring,
    switch_names: Names,
    names_of_hosts: Names,
    commands: Vec<Command>,
    epoch: u64,
    pace: Option<u32>,
    limits: Limits,
    any_routes: bool,
}

impl Model for Script {
    ghost use Rattle.net_script.specs.Scripts.{ScriptOf, IsScript};

    ghost Value = { ScriptOf };

    ghost view = { λ s. record {
      wires = s.wiring;
      switch_names = s.switch_names;
      names_of_hosts = s.names_of_hosts;
      commands = s.commands.items;
      epoch = s.epoch;
      pace = s.pace;
      limits = s.limits;
      any_routes = s.any_routes;
    } };

    ghost invariant = { λ s. IsScript
        (record {
          wires = s.wiring;
          switch_names = s.switch_names;
          names_of_hosts = s.names_of_hosts;
          commands = s.commands.items;
          epoch = s.epoch;
          pace = s.pace;
          limits = s.limits;
          any_routes = s.any_routes;
        }) };
}

impl Script {
    /// Creates a script without switches, hosts and commands, and with default settings.
    pub fn new(alloc: Global) -> Self
        ensures { result ≡ empty_script }
    {
        Script {
            wiring: Wiring::new(alloc),
            switch_names: Names::new(alloc),
            names_of_hosts: Names::new(alloc),
            commands: Vec::new(alloc),
            epoch: 0,
            pace: None,
            limits: Limits {
                ticks: DEFAULT_TICKS,
                events: DEFAULT_EVENTS,
                blocks: DEFAULT_BLOCKS,
            },
            any_routes: false,
        }
    }

    /// Returns the switches, the links between their ports, and the hosts.
    pub fn wiring(&self) -> &Wiring
        ensures wires { result.now ≡ self.now.wires }
        ensures kept { IsScript self.now }
    {
        &self.wiring
    }

    /// Returns the names of the switches, in the order of the wiring.
    pub fn switch_names(&self) -> &Names
        ensures names { result.now ≡ self.now.switch_names }
        ensures kept { IsScript self.now }
    {
        &self.switch_names
    }

    /// Returns the names of the hosts, in the order of the wiring.
    pub fn names_of_hosts(&self) -> &Names
        ensures names { result.now ≡ self.now.names_of_hosts }
        ensures kept { IsScript self.now }
    {
        &self.names_of_hosts
    }

    /// Returns the index of the switch called `name`, if there is one.
    pub fn place_of_switch(&self, name: &[u8]) -> Option<Place>
        ensures place { result ≡ place_of self.now.switch_names name.now }
        ensures range { IfSome result (λ s. s < length self.now.wires.switches) }
        ensures kept { IsScript self.now }
    {
        let place = self.switch_names.place(name)?;
        Some(Place(place as u8))
    }

    /// Returns the index of the host called `name`, if there is one.
    pub fn place_of_host(&self, name: &[u8]) -> Option<u16>
        ensures place { result ≡ place_of self.now.names_of_hosts name.now }
        ensures range { IfSome result (λ h. h < length self.now.wires.hosts) }
        ensures kept { IsScript self.now }
    {
        let place = self.names_of_hosts.place(name)?;
        Some(place as u16)
    }

    /// Returns the commands in order of time.
    pub fn commands(&self) -> &[Command]
        ensures all { result.now ≡ self.now.commands }
        ensures kept { IsScript self.now }
    {
        &self.commands
    }

    /// Returns the epoch at power-on, 0 if the text gives none.
    pub fn epoch(&self) -> u64
        ensures { result ≡ self.now.epoch }
    {
        self.epoch
    }

    /// Returns the number of events, 1 to 1,000,000, after which a tick may come, if the text gives one.
    pub fn pace(&self) -> Option<u32>
        ensures pace { result ≡ self.now.pace }
        ensures kept { IsScript self.now }
    {
        self.pace
    }

    /// Returns the limits of a run.
    pub fn limits(&self) -> Limits
        ensures limits { result ≡ self.now.limits }
        ensures kept { IsScript self.now }
    {
        self.limits
    }

    /// Reports whether packets may take all legal routes, not only the shortest ones.
    pub fn any_routes(&self) -> bool
        ensures { result ≡ self.now.any_routes }
    {
        self.any_routes
    }

    /// Returns the number of lives of the switches, 0 to 126: one for each switch and each restart.
    pub fn lives(&self) -> usize
        ensures lives { result ≡ lives_of self.now }
        ensures most { result ≤ MOST_SWITCHES }
    {
        self.wiring().switches().len() + restarts(&self.commands)
    }

    /// Adds `switch`, called `name`, at the next index.
    ///
    /// The caller must pass a switch that the script can get (`CanAddSwitch`).
    ///
    /// # Errors
    /// `OutOfMemory` if an allocation fails. The script is then unchanged.
    pub fn add_switch(&mut self, name: Word, switch: SwitchAt) -> Result<(), OutOfMemory>
        requires can { CanAddSwitch self.old name switch }
        ensures ok { OnOk result (self.new ≡ with_switch self.old name switch) }
        ensures err { OnErr result (self.new ≡ self.old) }
    {
        self.switch_names.push(name)?;
        match self.wiring.add_switch(switch) {
            Ok(()) => Ok(()),
            Err(error) => {
                self.switch_names.pop();
                Err(error)
            }
        }
    }

    /// Adds `link`. The caller must pass a link between two different unused ports (`CanAddLink`).
    ///
    /// # Errors
    /// `OutOfMemory` if the allocation fails. The script is then unchanged.
    pub fn add_link(&mut self, link: LinkAt) -> Result<(), OutOfMemory>
        requires can { CanAddLink self.old link }
        ensures ok { OnOk result (self.new ≡ with_link self.old link) }
        ensures err { OnErr result (self.new ≡ self.old) }
    {
        self.wiring.add_link(link)?;
        Ok(())
    }

    /// Adds `host`, called `name`, at the next index.
    ///
    /// The caller must pass a host that the script can get (`CanAddHost`).
    ///
    /// # Errors
    /// `OutOfMemory` if an allocation fails. The script is then unchanged.
    pub fn add_host(&mut self, name: Word, host: HostOn) -> Result<(), OutOfMemory>
        requires can { CanAddHost self.old name host }
        ensures ok { OnOk result (self.new ≡ with_host self.old name host) }
        ensures err { OnErr result (self.new ≡ self.old) }
    {
        self.names_of_hosts.push(name)?;
        match self.wiring.add_host(host) {
            Ok(()) => Ok(()),
            Err(error) => {
                self.names_of_hosts.pop();
                Err(error)
            }
        }
    }

    /// Adds the command with `event`, due at the tick `time`, after the others.
    ///
    /// The caller must pass a command that the script can get (`CanAddCommand`).
    ///
    /// # Errors
    /// `OutOfMemory` if the allocation fails. The script is then unchanged.
    pub fn add_command(&mut self, time: u32, event: Event) -> Result<(), OutOfMemory>
        requires can { CanAddCommand self.old (record { time = time; event = event }) }
        ensures ok { OnOk result (self.new ≡ with_command self.old (record { time = time; event = event })) }
        ensures err { OnErr result (self.new ≡ self.old) }
    {
        self.commands.push(Command { time, event })?;
        Ok(())
    }

    /// Sets `setting` to `number`. The caller must pass a number in the range of the setting.
    pub fn set(&mut self, setting: Setting, number: u64)
        requires least { least_of setting ≤ number }
        requires most { number ≤ most_of setting }
        ensures { self.new ≡ with_setting self.old setting number }
    {
        match setting {
            Setting::Ticks => self.limits.ticks = number as u32,
            Setting::Events => self.limits.events = number as u32,
            Setting::Blocks => self.limits.blocks = number as u32,
            Setting::Epoch => self.epoch = number,
            Setting::Pace => self.pace = Some(number as u32),
        }
    }

    /// Allows packets to take all legal routes.
    pub fn set_any_routes(&mut self)
        ensures { self.new ≡ record self.old { any_routes = true } }
    {
        self.any_routes = true;
    }
}

// How many commands are restarts.
#[tactic(auto, unfolding(crate::specs::Scripts::restarts_of))]
fn restarts(commands: &[Command]) -> usize
    ensures { result ≡ restarts_of commands.now }
{
    commands.iter().filter(|c| is_restart(c.event)).count()
}
