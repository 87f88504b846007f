//! The lines that report what a switch does.

ghost use Rattle.std.specs.Prelude.{◌≡◌, ◌==◌, ◌++◌, not, OnOk};
ghost use Rattle.std.specs.List.{flat_map};
ghost use Rattle.port_monitor.specs.Histories.{externals};
ghost use Rattle.switch_core.specs.Switch.{SwitchOf, finish_of};
ghost use Rattle.switch_core.specs.Kept.{StandsFor};
ghost use Rattle.net_state.specs.PortStates.{state_code};
ghost use Rattle.net_state.specs.declared.line.Line.TheVariants as line;
ghost use Rattle.net_world.specs.Lines.{finish_line, port_line};
ghost use Rattle.fabric_book.specs.Told.{line_if, noise_lines};

use crate::lines::Lines;
use an_base::limits::LAST_PORT;
use an_base::place::Place;
use an_base::port::{Note, Port, PortState, PortView};
use common_values::memory::OutOfMemory;
use net_state::hand::Hand;
use net_state::line::Line;
use switch_core::switch::Switch;

// Reports whether two states are equal.
fn is_same_state(one: PortState, other: PortState) -> bool
    ensures { result ≡ (state_code one == state_code other) }
{
    one == other
}

/// Adds a line if the state of a port changed.
pub(crate) fn tell_port(
    s: Place,
    port: Port,
    old: PortView,
    new: PortView,
    lines: &mut Lines,
) -> Result<(), OutOfMemory>
    ensures { OnOk result (lines.new ≡ lines.old
        ++ line_if (not (state_code old.state == state_code new.state)) (line.Port s port new.state new.peer)) }
{
    if is_same_state(old.state, new.state) {
        return Ok(());
    }
    lines.push(Line::Port {
        s,
        port,
        state: new.state,
        peer: new.peer,
    })
}

/// Adds a line for each port whose state changed, in ascending order of port.
pub(crate) fn tell_ports(
    s: Place,
    before: &Note,
    after: &Note,
    lines: &mut Lines,
) -> Result<(), OutOfMemory>
    ensures { OnOk result (lines.new ≡ lines.old ++ flat_map (port_line s before.now after.now) externals) }
{
    'ports: for port in 1..=LAST_PORT {
        let old = before.ports.get(port);
        let new = after.ports.get(port);
        tell_port(s, Port(port), old, new, lines)?;
    }
    Ok(())
}

/// Adds a line if what came in is no frame.
pub(crate) fn tell_noise(
    s: Place,
    hand: Hand,
    noframe: bool,
    lines: &mut Lines,
) -> Result<(), OutOfMemory>
    ensures { OnOk result (lines.new ≡ lines.old ++ noise_lines s hand noframe) }
{
    match hand {
        Hand::Frame { port } => lines.push_if(
            noframe,
            Line::NoFrame {
                s,
                port: Port(port),
            },
        ),
        Hand::Empty | Hand::Clock { now: _, samples: _ } => Ok(()),
    }
}

/// Adds a line if a switch has finished its epoch.
pub(crate) fn tell_finish(
    s: Place,
    epoch: u64,
    switch: &Switch,
    lines: &mut Lines,
) -> Result<(), OutOfMemory>
    ensures { (x : SwitchOf) → StandsFor switch.now x
        → OnOk result (lines.new ≡ lines.old ++ finish_line s epoch (finish_of x)) }
{
    match switch.finish() {
        None => Ok(()),
        Some(topo) => {
            let entries = topo.entries().as_slice();
            let first = &entries[0];
            lines.push(Line::Finish {
                s,
                epoch,
                root: first.position.root,
                members: entries.len() as u8,
            })
        }
    }
}
