//! The lines that report lost frames, and packets.

ghost use Rattle.std.specs.Prelude.{◌≡◌, option_to_list};
ghost use Rattle.net_state.specs.Lines.{copy_line, hop_line, loss_line, sent_line};

use crate::line::Line;
use an_base::place::Place;
use an_base::port::Port;
use host_traffic::hop::{DropCause, Hop};
use wire_set::side::Put;

/// Returns the line that reports the loss of a frame put on the wire out of a port, if it was lost.
pub fn loss_line(s: Place, port: Port, put: Put) -> Option<Line>
    ensures { option_to_list result ≡ loss_line s port put }
{
    match put {
        Put::Kept => None,
        Put::Lost { cause } => Some(Line::Lost { s, port, cause }),
    }
}

/// Returns the line that reports the loss of a copy of a frame that was taken, if it was lost.
///
/// The line names the end that sent the frame.
pub fn copy_line(far: Option<(Place, Port)>, copied: Option<Put>) -> Option<Line>
    ensures { option_to_list result ≡ copy_line far copied }
{
    let (s, port) = far?;
    loss_line(s, port, copied?)
}

/// Returns the line that reports a packet that a host sent, with its address or the reason why it has none.
pub fn sent_line(packet: u32, host: u16, to: u16, address: Result<u16, DropCause>) -> Line
    ensures { result ≡ sent_line packet host to address }
{
    match address {
        Ok(address) => Line::Packet {
            packet,
            host,
            to,
            address,
        },
        Err(cause) => Line::Unsent {
            packet,
            host,
            to,
            cause,
        },
    }
}

/// Returns the line that reports a hop of a packet at switch `s`, where it came in on port `entry` and a
/// table of `epoch` is in use.
pub fn hop_line(packet: u32, s: Place, epoch: u64, entry: Port, hop: Hop) -> Line
    ensures { result ≡ hop_line packet s epoch entry hop }
{
    let (exit, host) = match hop {
        Hop::Went { exit } => (exit, None),
        Hop::Delivered { exit, host } => (exit, Some(host)),
        Hop::Dropped { cause } => return Line::Fell { packet, s, cause },
    };
    Line::Moved {
        packet,
        s,
        epoch,
        entry,
        exit,
        host,
    }
}
