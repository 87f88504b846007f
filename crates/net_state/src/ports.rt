//! How a fabric reads ports: the hardware's samples, the states that switches show, and the ports that have frames.

ghost use Rattle.std.specs.Prelude.{◌≡◌, ◌&&◌, ◌≤◌, nat_lt, map, find};
ghost use Rattle.port_monitor.specs.Histories.{externals};
ghost use Rattle.wire_set.specs.WireState.{has_frame_on, place, side_at};
ghost use Rattle.net_state.specs.Fabric.{is_external, sample_of, switch_behind};
ghost use Rattle.net_state.specs.PortStates.{is_dead, is_good, is_host, is_loop};

use an_base::limits::LAST_PORT;
use an_base::place::Place;
use an_base::port::{Port, PortState, Sample};
use net_graph::wiring::Far;
use wire_set::side::Side;
use wire_set::wires::WireSet;

/// Reports whether the state is that of a port behind which nothing answers.
pub fn is_dead(state: PortState) -> bool
    ensures { result ≡ is_dead state }
{
    matches!(state, PortState::Dead)
}

/// Reports whether the state is that of a port with a host.
pub fn is_host(state: PortState) -> bool
    ensures { result ≡ is_host state }
{
    matches!(state, PortState::Host)
}

/// Reports whether the state is that of a port cabled to its own switch.
pub fn is_loop(state: PortState) -> bool
    ensures { result ≡ is_loop state }
{
    matches!(state, PortState::Loop)
}

/// Reports whether the state is that of a good port: another switch is there, and knows of it.
pub fn is_good(state: PortState) -> bool
    ensures { result ≡ is_good state }
{
    matches!(state, PortState::Good)
}

/// Reports whether the port is an external one.
pub fn is_external(port: Port) -> bool
    ensures { result ≡ is_external port }
{
    1 <= port.as_u8() && port.as_u8() <= LAST_PORT
}

/// Returns the switch and port at the far end of a link of two switch ports.
pub fn switch_behind(far: Option<Far>) -> Option<(Place, Port)>
    ensures { result ≡ switch_behind far }
{
    match &far {
        Some(Far::Switch { s, port }) => Some((*s, *port)),
        _ => None,
    }
}

/// Returns what the hardware says of a port.
pub fn sample_of(side: Side) -> Sample
    ensures { result ≡ sample_of side }
{
    if !side.is_up {
        return Sample::Down;
    }
    match side.far {
        None => Sample::Down,
        Some(Far::Switch { s: _, port: _ }) => Sample::Switch,
        Some(Far::HostAt { host: _ }) => Sample::Host,
    }
}

/// Returns what the hardware says of the ports of switch `s`, in ascending order of port.
pub fn samples(wires: &WireSet, s: Place) -> [Sample; 12]
    ensures { result ≡ map (λ port. sample_of (side_at wires.now (place s port))) externals }
{
    let mut samples = [Sample::Down; 12];
    'ports: for port in 1..LAST_PORT + 1 {
        samples[usize::from(port - 1)] = sample_of(wires.side(s, Port(port)));
    }
    samples
}

// Reports whether `port` is above `last` and has a frame.
fn is_next(wires: &WireSet, s: Place, last: Port, port: Port) -> bool
    ensures { result ≡ (nat_lt last port && has_frame_on wires.now (place s port)) }
{
    last < port && wires.has_frame(s, port)
}

/// Returns the lowest port above `last` that has a frame.
pub fn port_above(wires: &WireSet, s: Place, last: Port) -> Option<Port>
    ensures { result ≡ find (λ port. nat_lt last port && has_frame_on wires.now (place s port)) externals }
{
    'ports: for port in last.as_u8().min(LAST_PORT) + 1..LAST_PORT + 1 {
        if is_next(wires, s, last, Port(port)) {
            return Some(Port(port));
        }
    }
    None
}
