//! How the run of a script ends.

ghost use Rattle.std.specs.Prelude.{◌≡◌, ◌++◌, count_by, length, IfOk, OnOk};
ghost use Rattle.net_gen.specs.Summary.{IsComment, IsSummary, counted, end_word, is_delivery, is_drop, line_on};

use common_values::memory::OutOfMemory;
use common_values::text::push_decimal;
use fabric_book::solo::{ToldRun, solo};
use net_script::script::Script;
use net_state::ending::Ending;
use net_state::line::Line;
use std::alloc::Global;

// Reports whether a line says that a packet was delivered.
fn is_delivery(line: &Line) -> bool
    ensures { result ≡ is_delivery line.now }
{
    matches!(line, Line::Moved { host: Some(_), .. })
}

// Reports whether a line says that a packet was dropped.
fn is_drop(line: &Line) -> bool
    ensures { result ≡ is_drop line.now }
{
    matches!(line, Line::Unsent { .. } | Line::Fell { .. })
}

// Returns the number of packets that these lines report as delivered.
fn count_deliveries(lines: &[Line]) -> usize
    ensures { result ≡ count_by is_delivery lines.now }
{
    lines.iter().filter(|line| is_delivery(line)).count()
}

// Returns the number of packets that these lines report as dropped.
fn count_drops(lines: &[Line]) -> usize
    ensures { result ≡ count_by is_drop lines.now }
{
    lines.iter().filter(|line| is_drop(line)).count()
}

// Returns the word for an end.
fn end_word(end: &Ending) -> &'static [u8]
    ensures { result.now ≡ end_word end.now }
{
    match end {
        Ending::Settled => b"settled",
        Ending::Unsettled => b"unsettled",
        Ending::Full => b"full",
        Ending::Spent(_life) => b"spent",
    }
}

// Appends a word and a number, each after a space.
fn push_count(
    alloc: Global,
    text: &mut Vec<u8>,
    word: &[u8],
    number: u64,
) -> Result<(), OutOfMemory>
    ensures { OnOk result (text.new.items ≡ text.old.items ++ counted word.now number) }
{
    text.push(b' ')?;
    text.extend_from_slice(word)?;
    text.push(b' ')?;
    push_decimal(alloc, text, number)?;
    Ok(())
}

// The number of packets that were delivered, the number that were dropped, and the tick at the end.
#[derive(Clone, Copy)]
struct Tally {
    delivered: usize,
    dropped: usize,
    tick: u32,
}

// Appends the line about a run with this many events and these counts.
fn push_line(
    alloc: Global,
    text: &mut Vec<u8>,
    end: &Ending,
    events: usize,
    tally: Tally,
) -> Result<(), OutOfMemory>
    ensures line { OnOk result (text.new.items ≡ text.old.items
        ++ line_on end.now tally.tick events tally.delivered tally.dropped) }
    ensures comment { OnOk result
        (IsComment (line_on end.now tally.tick events tally.delivered tally.dropped)) }
{
    text.extend_from_slice(b"# ")?;
    text.extend_from_slice(end_word(end))?;
    push_count(alloc, text, b"tick", u64::from(tally.tick))?;
    push_count(alloc, text, b"events", events as u64)?;
    push_count(alloc, text, b"delivered", tally.delivered as u64)?;
    push_count(alloc, text, b"dropped", tally.dropped as u64)?;
    text.push(b'\n')?;
    Ok(())
}

// Returns the line about a run, given the lines that report the events of its driver.
fn line_of_run(alloc: Global, all: &ToldRun) -> Result<Vec<u8>, OutOfMemory>
    ensures line { IfOk result (λ text. text.items ≡ line_on all.now.run.end all.now.tick
        (length all.now.run.journal) (count_by is_delivery all.now.told) (count_by is_drop all.now.told)) }
    ensures comment { IfOk result (λ text. IsComment text.items) }
{
    let lines = all.told.as_slice();
    let tally = Tally {
        delivered: count_deliveries(lines),
        dropped: count_drops(lines),
        tick: all.tick,
    };
    let mut text = Vec::new(alloc);
    push_line(alloc, &mut text, &all.run.end, all.run.journal.len(), tally)?;
    Ok(text)
}

/// Returns one line, as a comment, that reports how the run of `script` on one thread ends: the end, its tick, the
/// number of events, of packets delivered, and of packets dropped.
///
/// # Errors
/// `OutOfMemory` if an allocation fails.
pub fn summary(alloc: Global, script: &Script) -> Result<Vec<u8>, OutOfMemory>
    ensures summary { IfOk result (λ text. IsSummary script.now text.items) }
    ensures comment { IfOk result (λ text. IsComment text.items) }
{
    let all = solo(alloc, script)?;
    line_of_run(alloc, &all)
}
