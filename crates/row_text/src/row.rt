//! Appends the rows of a routing table to a text.

ghost use Rattle.std.specs.Prelude.{◌≡◌, ◌+◌, ◌*◌, ◌<◌, ◌≤◌, ◌++◌, length, OnOk, vec_len, vec_capacity};
ghost use Rattle.std.specs.List.{flat_map};
ghost use Rattle.common_lines.specs.Lines.{line_text};
ghost use Rattle.row_text.specs.TableForms.{table_words};
ghost use Rattle.row_text.specs.Rows.{exits_text, slashed, row_form, member_rows, rows_at};
ghost use Rattle.row_text.specs.Pieces.{spaced_pair};
ghost use Rattle.row_text.specs.TableForms.{table_text};

use crate::decimals::Decimals;
use crate::piece::{Lives, push_life};
use an_base::life::Life;
use an_base::row::Row;
use net_script::script::Script;
use std::alloc::{AllocError, Global};
use table_build::exit::is_entry;
use topo_graph::graph::Graph;

// Appends ports, each after a slash. The caller has reserved four bytes for each.
fn push_ports(text: &mut Vec<u8>, decimals: &Decimals, ports: &[u8])
    requires { vec_len text.old + 4 * length ports.now ≤ vec_capacity text.old }
    ensures { text.new.items ≡ text.old.items ++ flat_map slashed ports.now }
{
    'ports: for port in ports {
        text.push_reserved(b'/');
        decimals.push_reserved(text, *port);
    }
}

// Appends exits (egress ports) joined by slashes, or a dash if there are none. The caller has reserved four bytes
// for each, and one more.
#[tactic(auto, unfolding(crate::specs::Rows::exits_text))]
fn push_exits(text: &mut Vec<u8>, decimals: &Decimals, exits: &[u8])
    requires { vec_len text.old + 4 * length exits.now + 1 ≤ vec_capacity text.old }
    ensures { text.new.items ≡ text.old.items ++ exits_text exits.now }
{
    match exits.split_first() {
        None => text.push_reserved(b'-'),
        Some((first, others)) => {
            decimals.push_reserved(text, *first);
            push_ports(text, decimals, others);
        }
    }
}

// Appends a row after a space: the number of the target switch, a colon and the exits.
#[tactic(auto, unfolding(crate::specs::Pieces::spaced_pair))]
fn push_row(text: &mut Vec<u8>, decimals: &Decimals, row: &Row) -> Result<(), AllocError>
    ensures { OnOk result (text.new.items ≡ text.old.items ++ spaced_pair row.now) }
{
    let list = row.exits.list();
    let exits = list.as_slice();
    text.reserve(6 + 4 * exits.len())?;
    text.push_reserved(b' ');
    decimals.push_reserved(text, row.to);
    text.push_reserved(b':');
    push_exits(text, decimals, exits);
    Ok(())
}

// Appends the rows of one entry (an ingress port, or 0).
fn push_rows(
    text: &mut Vec<u8>,
    decimals: &Decimals,
    rows: &[Row],
    entry: u8,
) -> Result<(), AllocError>
    ensures { OnOk result (text.new.items ≡ text.old.items ++ flat_map spaced_pair (rows_at rows.now entry)) }
{
    'rows: for row in rows {
        if row.entry == entry {
            push_row(text, decimals, row)?;
        }
    }
    Ok(())
}

/// Appends the line for `entry` of the switch of `life`: those of `rows` that have this entry.
///
/// # Errors
/// `AllocError` if an allocation fails; `text` is then unspecified.
pub fn push_row_line(
    alloc: Global,
    text: &mut Vec<u8>,
    script: &Script,
    decimals: &Decimals,
    life: Life,
    rows: &[Row],
    entry: u8,
) -> Result<(), AllocError>
    ensures { OnOk result (text.new.items ≡ text.old.items
        ++ line_text (table_words (row_form script.now life rows.now entry))) }
{
    text.extend_from_slice(b"row ")?;
    push_life(alloc, text, script, life)?;
    text.extend_from_slice(b" ")?;
    decimals.push(text, entry)?;
    push_rows(text, decimals, rows, entry)?;
    text.extend_from_slice(b"\n")?;
    Ok(())
}

/// Appends the table of member `x` of `graph`: a line for each entry, 0 and the ports with a link.
///
/// A line has the rows of the entry, each with a target's number and the exits towards it. The caller
/// must pass an `x` below the number of members.
///
/// # Errors
/// `AllocError` if an allocation fails; `text` is then unspecified.
pub fn push_row_lines(
    lives: &Lives,
    text: &mut Vec<u8>,
    decimals: &Decimals,
    graph: &Graph,
    x: u8,
    rows: &[Row],
) -> Result<(), AllocError>
    requires { x < length graph.now }
    ensures { OnOk result (text.new.items ≡ text.old.items
        ++ table_text (member_rows lives.now.script.now graph.now x rows.now)) }
{
    let life = graph.life(x);
    'entries: for entry in 0..13u8 {
        if is_entry(graph, x, entry) {
            push_row_line(lives.alloc, text, lives.script, decimals, life, rows, entry)?;
        }
    }
    Ok(())
}
