//! The packets that a script sends, and the components that they enter.

ghost use Rattle.std.specs.Prelude.{◌≡◌, ◌==◌, IfOk, count_by, position, slice_get, unwrap_or};
ghost use Rattle.std.specs.Option.{option_map};
ghost use Rattle.switch_numbering.specs.Numbering.{numbering};
ghost use Rattle.flow_text.specs.Sends.{entering, has_both, homes_of, is_joined, is_local, number_at, number_in};
ghost use Rattle.flow_text.specs.Sends.{number_of, numbers_in, sends_of};

use an_base::entry::{Entries, Entry};
use an_base::event::Event;
use an_base::numbers::Numbers;
use an_base::place::Place;
use common_values::memory::OutOfMemory;
use net_graph::wiring::{HostOn, SwitchAt};
use net_script::script::Script;
use std::alloc::Global;
use std::marker::Model;
use switch_numbering::numbering::number;

/// A packet that a script sends.
#[derive(Clone, Copy)]
pub struct Sent {
    /// The packet's position among those that the script sends, from 1.
    pub packet: u32,
    /// The switch of the host that sends it.
    pub from: Place,
    /// The switch of the host that it goes to.
    pub to: Place,
}

impl Sent {
    /// Reports whether both hosts are at one switch.
    pub fn is_local(&self) -> bool
        ensures { result ≡ is_local self.now }
    {
        self.from == self.to
    }
}

// The switch of a host.
fn switch_of(hosts: &[HostOn], host: u16) -> Place
    ensures { result ≡ unwrap_or (option_map (λ on. on.s) (slice_get hosts.now host)) 0 }
{
    hosts.get(usize::from(host)).map_or(Place(0), |on| on.s)
}

/// Returns the packets that the script sends, in order.
///
/// # Errors
/// `OutOfMemory` if an allocation fails.
pub fn sends_of(alloc: Global, script: &Script) -> Result<Vec<Sent>, OutOfMemory>
    ensures { IfOk result (λ sends. sends.items ≡ sends_of script.now) }
{
    let hosts = script.wiring().hosts();
    let mut sends = Vec::with_capacity(alloc, script.commands().len())?;
    'commands: for command in script.commands() {
        if let Event::Send { host, to } = command.event {
            sends.push(Sent {
                packet: sends.len() as u32 + 1,
                from: switch_of(hosts, host),
                to: switch_of(hosts, to),
            })?;
        }
    }
    Ok(sends)
}

/// The numbers of all switches in a component, by the switch's index; 0 for those outside it.
///
/// Contracts see them as a list.
#[derive(Drop)]
pub struct Home {
    numbers: Vec<u8>,
}

impl Model for Home {
    ghost use Rattle.std.specs.Prelude.{List, ℕ};

    ghost Value = { List ℕ };

    ghost view = { λ h. h.numbers.items };
}

// The index of the entry of the switch with identifier `uid`.
fn place_in(entries: &[Entry], uid: u64) -> Option<usize>
    ensures { result ≡ position (λ entry. entry.life.uid == uid) entries.now }
{
    entries.iter().position(|entry| entry.life.uid == uid)
}

// The number at an index, 0 if there is none.
fn number_of(numbers: &[u8], place: Option<usize>) -> u8
    ensures { result ≡ number_of numbers.now place }
{
    match place {
        Some(place) => numbers.get(place).copied().unwrap_or(0),
        None => 0,
    }
}

// The number of a switch in a component, where `named` has the numbers of its members.
fn number_in(component: &Entries, named: &Numbers, switch: SwitchAt) -> u8
    requires { named.now ≡ numbering component.now }
    ensures { result ≡ number_in component.now switch }
{
    number_of(named.as_slice(), place_in(component.as_slice(), switch.uid))
}

impl Home {
    /// Returns the numbers of all switches in `component`.
    ///
    /// # Errors
    /// `OutOfMemory` if an allocation fails.
    pub fn of(
        alloc: Global,
        switches: &[SwitchAt],
        component: &Entries,
    ) -> Result<Self, OutOfMemory>
        ensures { IfOk result (λ home. home ≡ numbers_in switches.now component.now) }
    {
        let named = number(alloc, component)?;
        let numbers = switches
            .iter()
            .map(|switch| number_in(component, &named, *switch))
            .collect(alloc)?;
        Ok(Home { numbers })
    }

    /// Returns the number of `switch`, 0 if the component does not have it.
    pub fn number(&self, switch: Place) -> u8
        ensures { result ≡ number_at self.now switch }
    {
        self.numbers.get(usize::from(switch)).copied().unwrap_or(0)
    }

    /// Reports whether the component has both switches of the packet.
    pub fn has_both(&self, sent: Sent) -> bool
        ensures { result ≡ has_both self.now sent }
    {
        self.number(sent.from) != 0 && self.number(sent.to) != 0
    }
}

/// Returns the numbers of all switches in each component.
///
/// # Errors
/// `OutOfMemory` if an allocation fails.
pub fn homes_of(
    alloc: Global,
    switches: &[SwitchAt],
    forest: &[Entries],
) -> Result<Vec<Home>, OutOfMemory>
    ensures { IfOk result (λ homes. homes.items ≡ homes_of switches.now forest.now) }
{
    let mut homes = Vec::with_capacity(alloc, forest.len())?;
    'components: for component in forest {
        homes.push(Home::of(alloc, switches, component)?)?;
    }
    Ok(homes)
}

/// Reports whether some component has both switches of the packet.
pub fn is_joined(homes: &[Home], sent: Sent) -> bool
    ensures { result ≡ is_joined homes.now sent }
{
    homes.iter().any(|home| home.has_both(sent))
}

/// Returns the number of packets whose hosts are at one switch.
pub fn count_local(sends: &[Sent]) -> usize
    ensures { result ≡ count_by is_local sends.now }
{
    sends.iter().filter(|sent| sent.is_local()).count()
}

/// Returns the packets that enter the component of `home`.
///
/// # Errors
/// `OutOfMemory` if an allocation fails.
pub fn entering(alloc: Global, home: &Home, sends: &[Sent]) -> Result<Vec<Sent>, OutOfMemory>
    ensures { IfOk result (λ those. those.items ≡ entering home.now sends.now) }
{
    let mut those = Vec::with_capacity(alloc, sends.len())?;
    'sends: for sent in sends {
        if !sent.is_local() && home.has_both(*sent) {
            those.push(*sent)?;
        }
    }
    Ok(those)
}
