//! The reader of the lines that a source gives.

ghost use Rattle.std.specs.Prelude.{◌≡◌, ◌+◌, ◌<◌, ◌≤◌, ◌^◌, ◌-◌, None, IfOk, IfErr, OnOk, length};
ghost use Rattle.std.specs.Prelude.{take, drop, position};
ghost use Rattle.std.specs.Str.Lines.{strip_carriage_return};
ghost use Rattle.outside.specs.Told.{Ends, IsNoLess, OnlyFailed};
ghost use Rattle.outside.specs.Answers.{IfPart, OnEnd, OnFailed};
ghost use Rattle.fabric_read_lines.specs.declared.reader.TextRefusal.TheVariants as refusal;
ghost use Rattle.fabric_read_lines.specs.Texts.{GaveText, IsRefusedBy};
ghost use Rattle.fabric_read_lines.specs.Pieces.{is_feed, refused, GavePiece, IsFinished, IsUnfinished};
ghost use Rattle.fabric_read_lines.specs.Pieces.{IsFirstFaulty, IsFirstTaken, IsLastRead, IsReadOn, IsStoppedLast, IsStoppedOn};

use crate::takes::TakesLines;
use common_lines::line::first_of;
use common_lines::stop::Stop;
use common_values::memory::OutOfMemory;
use fabric_model::fabric::Fabric;
use fabric_words::text_cause::TextCause;
use outside::source::{Got, Source};
use std::alloc::Global;

/// The highest number of bytes of a line, without its line end.
pub const MOST_LINE: usize = 4096;

/// The highest number of bytes of a text.
pub const MOST_BYTES: u64 = 1 << 62;

// How many bytes are held at once: those of a piece, and before them the front of a line.
const HELD: usize = 65_536;

/// Why a text is rejected.
#[derive(Clone, Copy)]
pub enum TextRefusal<Cause> {
    /// The bytes are not a text of this kind.
    Fault {
        /// The first line with an error, from 1.
        line: u64,
        /// The first reason in that line.
        cause: Cause,
    },
    /// A read failed.
    ReadFault,
    /// Memory ran out. It says nothing about the bytes.
    OutOfMemory,
}

impl<Cause> From<OutOfMemory> for TextRefusal<Cause> {
    ghost from_gives = { λ _ r. r ≡ refusal.OutOfMemory };

    fn from(_error: OutOfMemory) -> TextRefusal<Cause> {
        TextRefusal::OutOfMemory
    }
}

// The refusal of a text that was stopped at this line.
fn refused<Cause>(line: u64, stop: Stop<Cause>) -> TextRefusal<Cause>
    ensures { result ≡ refused line stop }
{
    match stop {
        Stop::Fault(cause) => TextRefusal::Fault { line, cause },
        Stop::OutOfMemory => TextRefusal::OutOfMemory,
    }
}

/// Passes each line that `source` gives, up to its end, to `told`, in linear time (by design, not proved). The caller
/// must pass a `told` that is fit for `fabric` and has counted no line.
///
/// # Errors
/// `Fault` with the line of the first error and its reason, which can be that the text has too many bytes; `ReadFault`
/// if a read failed; `OutOfMemory`, which says nothing about the bytes.
pub fn read_text<S: Source, Cause: TextCause, T: TakesLines<Cause>>(
    told: &mut T,
    alloc: Global,
    source: &mut S,
    fabric: &Fabric,
) -> Result<(), TextRefusal<Cause>>
    requires fit { T.is_fit fabric.now told.old }
    requires none { T.count told.old ≡ 0 }
    ensures text { OnOk result (GaveText (T.adds fabric.now) T.is_ended (S.seen source.old) (S.seen source.new)
        told.old told.new) }
    ensures fit { OnOk result (T.is_fit fabric.now told.new) }
    ensures refused { IfErr result (IsRefusedBy (T.adds fabric.now) (T.is_faulty fabric.now) T.is_ended
        Cause.no_end Cause.too_many (S.seen source.old) (S.seen source.new) told.old) }
    ensures kept { IsNoLess (S.seen source.old) (S.seen source.new) }
{
    let mut held = buffer(alloc)?;
    read_pieces(told, alloc, source, fabric, &mut held)
}

// Memory for the bytes that are held.
fn buffer(alloc: Global) -> Result<Vec<u8>, OutOfMemory>
    ensures { IfOk result (λ held. length held.items ≡ 65536) }
{
    Ok(vec![in alloc; 0u8; HELD]?)
}

// Takes the lines of all pieces.
fn read_pieces<S: Source, Cause: TextCause, T: TakesLines<Cause>>(
    told: &mut T,
    alloc: Global,
    source: &mut S,
    fabric: &Fabric,
    held: &mut [u8],
) -> Result<(), TextRefusal<Cause>>
    requires held { length held.old ≡ 65536 }
    requires fit { T.is_fit fabric.now told.old }
    requires none { T.count told.old ≡ 0 }
    ensures text { OnOk result (GaveText (T.adds fabric.now) T.is_ended (S.seen source.old) (S.seen source.new)
        told.old told.new) }
    ensures fit { OnOk result (T.is_fit fabric.now told.new) }
    ensures refused { IfErr result (IsRefusedBy (T.adds fabric.now) (T.is_faulty fabric.now) T.is_ended
        Cause.no_end Cause.too_many (S.seen source.old) (S.seen source.new) told.old) }
    ensures kept { IsNoLess (S.seen source.old) (S.seen source.new) }
{
    let mut line = 1;
    let mut count = 0;
    let mut left = MOST_BYTES;
    'pieces: loop {
        match read_piece(source, held, count) {
            Got::End => return finish(told, alloc, fabric, &held[..count], line),
            Got::Failed => return Err(TextRefusal::ReadFault),
            Got::Part(more) => {
                if more as u64 > left {
                    return Err(TextRefusal::Fault {
                        line,
                        cause: Cause::too_many(),
                    });
                }
                left -= more as u64;
                count = match read_held(told, &mut line, alloc, fabric, held, count + more) {
                    Ok(count) => count,
                    Err(stop) => return Err(refused(line, stop)),
                };
            }
        }
    }
}

// Reads a piece, and puts it after the first bytes that are held.
fn read_piece<S: Source>(source: &mut S, held: &mut [u8], count: usize) -> Got
    requires { count < length held.old }
    ensures part { IfPart result
        (GavePiece (S.seen source.old) (S.seen source.new) held.old held.new count) }
    ensures front { take count held.new ≡ take count held.old }
    ensures end { OnEnd result (Ends (S.seen source.old) (S.seen source.new)) }
    ensures failed { OnFailed result (OnlyFailed (S.seen source.old) (S.seen source.new)) }
    ensures kept { IsNoLess (S.seen source.old) (S.seen source.new) }
{
    source.read(&mut held[count..])
}

// Takes the whole lines among the first bytes that are held, and moves what is left to their place: the
// answer is how many bytes that are.
fn read_held<Cause: TextCause, T: TakesLines<Cause>>(
    told: &mut T,
    line: &mut u64,
    alloc: Global,
    fabric: &Fabric,
    held: &mut [u8],
    count: usize,
) -> Result<usize, Stop<Cause>>
    requires fit { T.is_fit fabric.now told.old }
    requires counted { T.count told.old < line.old }
    requires few { line.old + count < 2 ^ 64 - 1 }
    requires count { count ≤ length held.old }
    ensures read { IfOk result (λ rest. IsReadOn (T.adds fabric.now) (take count held.old) told.old line.old
        told.new line.new (take rest held.new)) }
    ensures short { IfOk result (λ rest. (rest ≤ 4097) × (rest ≤ length held.new)) }
    ensures fit { OnOk result (T.is_fit fabric.now told.new) }
    ensures counted { OnOk result (T.count told.new < line.new) }
    ensures stopped { IfErr result (IsStoppedOn (T.adds fabric.now) (T.is_faulty fabric.now) T.is_ended
        Cause.no_end (take count held.old) told.old line.old line.new) }
{
    let from = read_lines(told, line, alloc, fabric, &held[..count])?;
    if count - from > MOST_LINE + 1 {
        return Err(Stop::Fault(Cause::too_long()));
    }
    held.copy_within(from..count, 0);
    Ok(count - from)
}

// Takes the whole lines of the bytes. The answer is how many bytes these lines have.
#[inline(never)]
fn read_lines<Cause: TextCause, T: TakesLines<Cause>>(
    told: &mut T,
    line: &mut u64,
    alloc: Global,
    fabric: &Fabric,
    bytes: &[u8],
) -> Result<usize, Stop<Cause>>
    requires fit { T.is_fit fabric.now told.old }
    requires counted { T.count told.old < line.old }
    requires few { line.old + length bytes.now < 2 ^ 64 - 1 }
    ensures read { IfOk result (λ from. IsReadOn (T.adds fabric.now) bytes.now told.old line.old told.new line.new
        (drop from bytes.now)) }
    ensures within { IfOk result (λ from. from ≤ length bytes.now) }
    ensures fit { OnOk result (T.is_fit fabric.now told.new) }
    ensures counted { OnOk result (T.count told.new < line.new) }
    ensures stopped { IfErr result (IsStoppedOn (T.adds fabric.now) (T.is_faulty fabric.now) T.is_ended
        Cause.no_end bytes.now told.old line.old line.new) }
{
    let mut from = 0;
    'lines: while let Some(end) = take_first(told, alloc, fabric, &bytes[from..])? {
        from += end + 1;
        *line += 1;
    }
    Ok(from)
}

// Takes the first line, if a line feed ends it: the answer is where.
#[inline]
fn take_first<Cause: TextCause, T: TakesLines<Cause>>(
    told: &mut T,
    alloc: Global,
    fabric: &Fabric,
    bytes: &[u8],
) -> Result<Option<usize>, Stop<Cause>>
    requires fit { T.is_fit fabric.now told.old }
    requires few { T.count told.old < 2 ^ 64 - 1 }
    ensures taken { IfOk result (IsFirstTaken (T.adds fabric.now) bytes.now told.old told.new) }
    ensures faulty { IfErr result (IsFirstFaulty (T.is_faulty fabric.now) bytes.now told.old) }
    ensures fit { OnOk result (T.is_fit fabric.now told.new) }
    ensures count { OnOk result (T.count told.new ≤ T.count told.old + 1) }
{
    if let Some(end) = told.take_in_place(fabric, bytes)? {
        return Ok(Some(end));
    }
    let Some(end) = first_of(bytes, b'\n') else {
        return Ok(None);
    };
    told.take(alloc, fabric, without_return(&bytes[..end]))?;
    Ok(Some(end))
}

// The bytes without the one carriage return at their end, if they have one.
fn without_return(bytes: &[u8]) -> &[u8]
    ensures { result.now ≡ strip_carriage_return bytes.now }
{
    match bytes {
        [front @ .., b'\r'] => front,
        _ => bytes,
    }
}

// Takes the last line, which no line feed ends, if there is one, and asks whether the text may end there.
fn finish<Cause: TextCause, T: TakesLines<Cause>>(
    told: &mut T,
    alloc: Global,
    fabric: &Fabric,
    rest: &[u8],
    line: u64,
) -> Result<(), TextRefusal<Cause>>
    requires fit { T.is_fit fabric.now told.old }
    requires counted { T.count told.old < line }
    requires few { line < 2 ^ 64 - 1 }
    requires cut { position is_feed rest.now ≡ None }
    ensures text { OnOk result (IsFinished (T.adds fabric.now) T.is_ended rest.now told.old line told.new) }
    ensures fit { OnOk result (T.is_fit fabric.now told.new) }
    ensures refused { IfErr result (IsUnfinished (T.adds fabric.now) (T.is_faulty fabric.now) T.is_ended
        Cause.no_end rest.now told.old line) }
{
    let mut next = line;
    if let Err(stop) = read_last(told, &mut next, alloc, fabric, rest) {
        return Err(refused(line, stop));
    }
    if !told.may_end() {
        return Err(TextRefusal::Fault {
            line: next,
            cause: Cause::no_end(),
        });
    }
    Ok(())
}

// Takes the last line, if there is one.
fn read_last<Cause: TextCause, T: TakesLines<Cause>>(
    told: &mut T,
    line: &mut u64,
    alloc: Global,
    fabric: &Fabric,
    rest: &[u8],
) -> Result<(), Stop<Cause>>
    requires fit { T.is_fit fabric.now told.old }
    requires counted { T.count told.old < line.old }
    requires few { line.old < 2 ^ 64 - 1 }
    requires cut { position is_feed rest.now ≡ None }
    ensures read { OnOk result (IsLastRead (T.adds fabric.now) rest.now told.old line.old told.new line.new) }
    ensures fit { OnOk result (T.is_fit fabric.now told.new) }
    ensures stopped { IfErr result (IsStoppedLast (T.adds fabric.now) (T.is_faulty fabric.now) T.is_ended
        Cause.no_end rest.now told.old line.old) }
{
    if rest.is_empty() {
        return Ok(());
    }
    told.take(alloc, fabric, rest)?;
    *line += 1;
    Ok(())
}
