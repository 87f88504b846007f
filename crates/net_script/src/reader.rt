//! The reader of scripts.

ghost use Rattle.std.specs.Prelude.{◌≡◌, ◌<◌, ◌-◌, ◌^◌, [], ◌∷◌, length, map, IfOk, IfErr, OnOk};
ghost use Rattle.net_script.specs.declared.draft.Part.TheVariants.{Header};
ghost use Rattle.net_script.specs.Drafts.{start};
ghost use Rattle.net_script.specs.Texts.{IsText, Adds, IsFaulty, AddsWords, IsFaultyWords};
ghost use Rattle.common_lines.specs.Stops.{IsStep};
ghost use Rattle.net_script.specs.Steps.{IsRefusal};

use crate::cause::ScriptCause;
use crate::draft::{Draft, Part};
use crate::form::{ScriptStop, read_form};
use crate::script::Script;
use common_lines::line::{MOST_LINE, are_line_bytes, first_line, words};
use common_lines::stop::{Refusal, Stop};
use common_lines::word::is;
use std::alloc::Global;

/// The reason why bytes were not read as a script: the first line with an error and its first error, or
/// out of memory.
pub type ReadRefusal = Refusal<ScriptCause>;

/// Parses the text of a script.
///
/// By design, not proved, the time is linear in the bytes, except for looking up names and identifiers, and it
/// allocates only for the script and the words of one line. The caller must pass fewer than 2^32 - 1 bytes.
///
/// # Errors
/// The first error in `bytes`, or `OutOfMemory`, which says nothing about `bytes`.
pub fn read(alloc: Global, bytes: &[u8]) -> Result<Script, ReadRefusal>
    requires few { length bytes.now < 2 ^ 32 - 1 }
    ensures text { IfOk result (IsText bytes.now) }
    ensures fault { IfErr result (IsRefusal bytes.now) }
{
    let mut draft = Draft::new(alloc);
    read_all(&mut draft, alloc, bytes)?;
    Ok(draft.script)
}

// Adds what all lines of a text say to what no lines say.
fn read_all(draft: &mut Draft, alloc: Global, bytes: &[u8]) -> Result<(), ReadRefusal>
    requires few { length bytes.now < 2 ^ 32 - 1 }
    requires none { draft.old ≡ start }
    ensures text { OnOk result (IsText bytes.now draft.new.script) }
    ensures fault { IfErr result (IsRefusal bytes.now) }
{
    let mut rest = bytes;
    let mut line = 1u32;
    'lines: while let Some((first, after)) = first_line(rest) {
        if let Err(stop) = read_line(draft, alloc, first) {
            return Err(stop.at(line));
        }
        line += 1;
        rest = after;
    }
    if draft.part != Part::After {
        return Err(Refusal::Fault {
            line,
            cause: ScriptCause::NoEnd,
        });
    }
    Ok(())
}

/// Adds what `line`, without its line ending, says after the lines before it.
///
/// A blank line, or a line with only a comment, adds nothing.
///
/// # Errors
/// `Fault` with the first error of the line, or `OutOfMemory`, which says nothing about the line. The contract
/// then says nothing about `draft`.
pub fn read_line(draft: &mut Draft, alloc: Global, line: &[u8]) -> Result<(), ScriptStop>
    ensures { IsStep result (Adds draft.old line.now draft.new) (IsFaulty draft.old line.now) }
{
    if line.len() > MOST_LINE {
        return Err(Stop::Fault(ScriptCause::LineTooLong));
    }
    if !are_line_bytes(line) {
        return Err(Stop::Fault(ScriptCause::NotAscii));
    }
    let words = words(alloc, line)?;
    if words.is_empty() {
        return Ok(());
    }
    read_words(draft, alloc, &words)
}

// Adds what the words of a line say, of which there are some.
fn read_words(draft: &mut Draft, alloc: Global, words: &[&[u8]]) -> Result<(), ScriptStop>
    ensures { IsStep result
        (AddsWords draft.old.part draft.old (map (λ w. w.now) words.now) draft.new)
        (IsFaultyWords draft.old.part draft.old (map (λ w. w.now) words.now)) }
{
    match draft.part {
        Part::Header => read_header(draft, words),
        Part::Items => read_form(draft, alloc, words),
        Part::After => Err(Stop::Fault(ScriptCause::AfterEnd)),
    }
}

fn read_header(draft: &mut Draft, words: &[&[u8]]) -> Result<(), ScriptStop>
    ensures { IsStep result
        (AddsWords Header draft.old (map (λ w. w.now) words.now) draft.new)
        (IsFaultyWords Header draft.old (map (λ w. w.now) words.now)) }
{
    match words {
        [a, b] => read_first(draft, a, b),
        _ => Err(Stop::Fault(ScriptCause::BadHeader)),
    }
}

// Begins a text by the words of its first line.
fn read_first(draft: &mut Draft, a: &[u8], b: &[u8]) -> Result<(), ScriptStop>
    ensures { IsStep result
        (AddsWords Header draft.old (a.now ∷ b.now ∷ []) draft.new)
        (IsFaultyWords Header draft.old (a.now ∷ b.now ∷ [])) }
{
    if is(a, "autonet") && is(b, "1") {
        draft.part = Part::Items;
        return Ok(());
    }
    Err(Stop::Fault(ScriptCause::BadHeader))
}
