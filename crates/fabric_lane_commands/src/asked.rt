//! With which service levels end ports send, as a call asks.

ghost use Rattle.std.specs.Prelude.{◌≡◌, ◌⊎◌, IfErr, IfOk};
ghost use Rattle.outside.specs.Told.{Seen};
ghost use Rattle.fabric_lane_tables.specs.InUse.{HasRoomFor, levels_in_use};
ghost use Rattle.fabric_lane_tables.specs.Levels.{levels_of};
ghost use Rattle.fabric_call.specs.declared.status.Status.TheVariants.{OutOfMemory as Wanting};
ghost use Rattle.fabric_print_lanes.specs.declared.answer.LevelsAsked.TheVariants.{File};
ghost use Rattle.fabric_lane_commands.specs.Asked.{AreGivenFor, AreLevelsFor, AreLevelsRefused, HasLowLevels, IsAskedBy, IsOneOfSixteen};
ghost use Rattle.fabric_lane_commands.specs.Asked.{levels_refused};

use common_lines::word::{is, number_between};
use common_values::text::Word;
use fabric_call::status::Status;
use fabric_lane_tables::in_use::{UsedLevels, given_by, in_use};
use fabric_lane_tables::levels::Levels;
use fabric_model::fabric::Fabric;
use fabric_print_lanes::answer::{Asked, LevelsAsked};
use fabric_read_lanes::level_reader::read_levels;
use fabric_read_lines::reader::TextRefusal;
use fabric_words::lane_cause::LaneCause;
use outside::source::Source;
use std::alloc::Global;

/// The levels that a word asks for: all sixteen if it is `any`, one if it is a number of 0 to 15, else those of the file
/// that it names.
pub fn asked_by(word: &Word) -> LevelsAsked
    ensures asked { IsAskedBy word.now result }
    ensures low { IsOneOfSixteen result }
{
    let word = word.as_bytes();
    if is(word, "any") {
        return LevelsAsked::Any;
    }
    match number_between(word, 0, 15) {
        Some(level) => LevelsAsked::Same(level as u8),
        None => LevelsAsked::File,
    }
}

// The status of levels that are refused.
fn levels_refused(refusal: TextRefusal<LaneCause>) -> Status
    ensures { result ≡ levels_refused refusal }
{
    match refusal {
        TextRefusal::Fault { line, cause } => Status::LevelsRefused { line, cause },
        TextRefusal::ReadFault => Status::ReadFault,
        TextRefusal::OutOfMemory => Status::OutOfMemory,
    }
}

// The levels that are given, by those that a source tells.
fn read_told<P: Source>(
    alloc: Global,
    source: &mut P,
    fabric: &Fabric,
    asked: Asked,
) -> Result<Levels, Status>
    requires low { HasLowLevels asked }
    requires file { asked.levels ≡ File }
    ensures given { IfOk result (λ given.
        AreGivenFor fabric.now asked (P.seen source.old) (P.seen source.new) (levels_of given)) }
    ensures room { IfOk result (HasRoomFor fabric.now) }
    ensures refused { IfErr result (λ status. (status ≡ Wanting)
        ⊎ AreLevelsRefused fabric.now asked.levels (P.seen source.old) (P.seen source.new) status) }
{
    match read_levels(alloc, source, fabric) {
        Ok(told) => Ok(given_by(told, asked.silent)),
        Err(refusal) => Err(levels_refused(refusal)),
    }
}

// The levels that are given: those of the source, which is read to its end, or else one or all sixteen for each end port and
// LID, and the source is left alone.
fn read_given<P: Source>(
    alloc: Global,
    source: &mut P,
    fabric: &Fabric,
    asked: Asked,
) -> Result<Levels, Status>
    requires { HasLowLevels asked }
    ensures given { IfOk result (λ given.
        AreGivenFor fabric.now asked (P.seen source.old) (P.seen source.new) (levels_of given)) }
    ensures room { IfOk result (HasRoomFor fabric.now) }
    ensures refused { IfErr result (λ status. (status ≡ Wanting)
        ⊎ AreLevelsRefused fabric.now asked.levels (P.seen source.old) (P.seen source.new) status) }
{
    match asked.levels {
        LevelsAsked::File => read_told(alloc, source, fabric, asked),
        LevelsAsked::Same(level) => Ok(Levels::Same(1u16 << level)),
        LevelsAsked::Any => Ok(Levels::Same(u16::MAX)),
    }
}

/// The levels of a call: those of the source, which is read to its end, or else one or all sixteen for each end port and LID,
/// and the source is left alone. A pair that was told none is given that of silent pairs, if there is one; and if replies
/// count, their levels are in use, too.
pub fn read_asked<P: Source>(
    alloc: Global,
    source: &mut P,
    fabric: &Fabric,
    asked: Asked,
) -> Result<UsedLevels, Status>
    requires { HasLowLevels asked }
    ensures levels { IfOk result (λ levels. AreLevelsFor fabric.now asked (P.seen source.old) (P.seen source.new)
        (levels_of levels.given) (levels_in_use levels)) }
    ensures refused { IfErr result (λ status. (status ≡ Wanting)
        ⊎ AreLevelsRefused fabric.now asked.levels (P.seen source.old) (P.seen source.new) status) }
{
    let given = read_given(alloc, source, fabric, asked)?;
    Ok(in_use(alloc, fabric, given, asked.replies)?)
}
