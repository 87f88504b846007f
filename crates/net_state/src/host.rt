//! The hosts of a script, by index.

ghost use Rattle.std.specs.Prelude.{◌≡◌, slice_index_or};
ghost use Rattle.net_state.specs.Fabric.{no_host};

use an_base::place::Place;
use an_base::port::Port;
use net_graph::wiring::HostOn;

// No host.
const NO_HOST: HostOn = HostOn {
    uid: 0,
    s: Place(0),
    port: Port(0),
};

/// Returns the host at index `host`, or no host: identifier 0, at port 0 of switch 0.
pub fn host_at(hosts: &[HostOn], host: u16) -> HostOn
    ensures { result ≡ slice_index_or hosts.now host no_host }
{
    match hosts.get(usize::from(host)) {
        Some(found) => *found,
        None => NO_HOST,
    }
}
