//! How a call of `route` ends that read a fabric, and the line that it tells.

ghost use Rattle.std.specs.Prelude.{◌≡◌, IfOk, map};
ghost use Rattle.common_lines.specs.Lines.{line_text};
ghost use Rattle.fabric_route_command.specs.Routed.{apart_words, code_of, measure_words, none_words};

use crate::measured::Measured;
use common_lines::spelling::{decimal, push_line};
use common_values::memory::OutOfMemory;
use fabric_print_tables::printer::guid_word;
use std::alloc::Global;

/// How a call ends that read a fabric.
#[derive(Clone, Copy)]
pub enum End {
    /// Tables were made that pass.
    Routed,
    /// Some end port is not joined to a LID to which it sends.
    NotJoined,
    /// All are joined, but no tables were found.
    NoTables,
}

impl End {
    /// The number with which the program ends.
    pub fn code(self) -> u8
        ensures { result ≡ code_of self }
    {
        match self {
            End::Routed => 0,
            End::NotJoined => 7,
            End::NoTables => 6,
        }
    }
}

/// The line that says how good tables are.
pub fn measure_line(alloc: Global, of: Measured) -> Result<Vec<u8>, OutOfMemory>
    ensures { IfOk result (λ line. line.items ≡ line_text (measure_words of)) }
{
    let routes = decimal(alloc, of.routes)?;
    let hops = decimal(alloc, of.hops)?;
    let longest = decimal(alloc, u64::from(of.longest))?;
    let greatest = decimal(alloc, of.greatest)?;
    line_of(
        alloc,
        &[
            b"fabric:",
            b"routes",
            &routes,
            b"hops",
            &hops,
            b"longest",
            &longest,
            b"greatest",
            &greatest,
        ],
    )
}

/// The line that says that no links join an end port to a LID.
pub fn apart_line(alloc: Global, guid: u64, lid: u16) -> Result<Vec<u8>, OutOfMemory>
    ensures { IfOk result (λ line. line.items ≡ line_text (apart_words guid lid)) }
{
    let guid = guid_word(alloc, guid)?;
    let lid = decimal(alloc, u64::from(lid))?;
    line_of(
        alloc,
        &[
            b"fabric:", b"no", b"links", b"join", &guid, b"to", b"lid", &lid,
        ],
    )
}

/// The line that says that no tables were found.
pub fn none_line(alloc: Global) -> Result<Vec<u8>, OutOfMemory>
    ensures { IfOk result (λ line. line.items ≡ line_text none_words) }
{
    line_of(alloc, &[b"fabric:", b"no", b"tables", b"found"])
}

// A line of words.
fn line_of(alloc: Global, words: &[&[u8]]) -> Result<Vec<u8>, OutOfMemory>
    ensures { IfOk result (λ line. line.items ≡ line_text (map (λ word. word.now) words.now)) }
{
    let mut line = Vec::new(alloc);
    push_line(&mut line, words)?;
    Ok(line)
}
