//! The text that reports what a switch does.

use an_base::life::{End, Life};
use an_base::port::{Note, PortState};
use an_base::row::{Exits, Row};
use std::alloc::{AllocError, Global};
use switch_core::out::Out;
use switch_core::switch::{Switch, TableFor};

// Returns the word for a state.
fn state(state: PortState) -> &'static str {
    match state {
        PortState::Dead => "dead",
        PortState::Checking => "checking",
        PortState::Host => "host",
        PortState::Who => "who",
        PortState::Loop => "loop",
        PortState::Good => "good",
    }
}

// Adds a life.
fn push_life(text: &mut String, life: Life) -> Result<(), AllocError> {
    let (uid, boot) = (life.uid(), life.boot());
    write!(text, "{uid}.{boot}")
}

// Adds the end at the other side of a port.
fn push_peer(text: &mut String, peer: End) -> Result<(), AllocError> {
    text.push_str("=")?;
    push_life(text, peer.life())?;
    let port = peer.port();
    write!(text, ":{port}")
}

/// Adds a line for each outgoing frame, and one if what came in is not a frame.
///
/// # Errors
/// A failed allocation. Which text there is then is unspecified.
pub fn push_out(alloc: Global, text: &mut String, out: &Out) -> Result<(), AllocError> {
    for frame in out.frames.as_slice() {
        let bytes = hex::encode(alloc, frame.bytes())?;
        let port = frame.port();
        writeln!(text, "out {port} {bytes}")?;
    }
    if out.noframe {
        text.push_str("noframe\n")?;
    }
    Ok(())
}

// Adds the ports that are not dead.
fn push_ports(text: &mut String, note: &Note) -> Result<(), AllocError> {
    for (place, view) in note.ports.as_slice().iter().enumerate() {
        if view.state == PortState::Dead {
            continue;
        }
        let (port, word) = (place.saturating_add(1), state(view.state));
        write!(text, " {port}:{word}")?;
        if let Some(peer) = view.peer {
            push_peer(text, peer)?;
        }
    }
    Ok(())
}

// Adds what a switch shows of itself.
fn push_shown(text: &mut String, note: &Note) -> Result<(), AllocError> {
    let epoch = note.epoch;
    write!(text, "note {epoch}")?;
    push_ports(text, note)?;
    if note.load_due {
        text.push_str(" due")?;
    }
    if note.unacked {
        text.push_str(" unacked")?;
    }
    Ok(())
}

/// Adds the line of what a switch shows of itself.
///
/// # Errors
/// A failed allocation. Which text there is then is unspecified.
pub fn push_note(text: &mut String, switch: &Switch) -> Result<(), AllocError> {
    push_shown(text, &switch.note())?;
    if let Some(topo) = switch.finish() {
        let members = topo.entries().len();
        write!(text, " finished {members}")?;
    }
    text.push_str("\n")
}

// Adds the exits of a row, or a dash if there are none.
fn push_exits(text: &mut String, exits: &Exits) -> Result<(), AllocError> {
    let mut mark = ":";
    let ports = exits.list();
    for exit in ports.as_slice() {
        write!(text, "{mark}{exit}")?;
        mark = "/";
    }
    if exits.is_empty() {
        text.push_str(":-")?;
    }
    Ok(())
}

// Adds the rows, with a line for each entry.
fn push_rows(text: &mut String, rows: &[Row]) -> Result<(), AllocError> {
    let mut entry = None;
    for row in rows {
        if entry != Some(row.entry) {
            if entry.is_some() {
                text.push_str("\n")?;
            }
            entry = Some(row.entry);
            let at = row.entry;
            write!(text, "row {at}")?;
        }
        let to = row.to;
        write!(text, " {to}")?;
        push_exits(text, &row.exits)?;
    }
    if entry.is_some() {
        text.push_str("\n")?;
    }
    Ok(())
}

// Adds the line of the members with their numbers.
fn push_members(text: &mut String, switch: &Switch) -> Result<(), AllocError> {
    let Some(topo) = switch.finish() else {
        return Ok(());
    };
    text.push_str("members")?;
    let entries = topo.entries().as_slice();
    for (entry, number) in entries.iter().zip(topo.numbers().as_slice()) {
        text.push_str(" ")?;
        push_life(text, entry.life)?;
        write!(text, "={number}")?;
    }
    text.push_str("\n")
}

/// Adds the lines of a table that was loaded.
///
/// # Errors
/// A failed allocation. Which text there is then is unspecified.
pub fn push_table(text: &mut String, switch: &Switch, loaded: &TableFor) -> Result<(), AllocError> {
    let (epoch, number) = (loaded.epoch, loaded.table.number());
    writeln!(text, "loaded {epoch} {number}")?;
    push_rows(text, loaded.table.as_slice())?;
    push_members(text, switch)
}
