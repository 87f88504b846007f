//! The lines of a text, and the trait that takes their facts.

ghost use Rattle.std.specs.Prelude.{◌<◌, ◌-◌, ◌^◌, length, IfErr, OnOk};
ghost use Rattle.common_lines.specs.Stops.{IsStep, IsRefusalBy};
ghost use Rattle.fabric_topology.specs.declared.fact.Fact.{Fact};
ghost use Rattle.fabric_read_topology.specs.declared.cause.FabricCause.{FabricCause};
ghost use Rattle.fabric_read_topology.specs.Lines.{AddsFacts, AddsLine, AddsSome, HasFaultyFact, IsFaultFrom};
ghost use Rattle.fabric_read_topology.specs.Lines.{IsFaultyLine, IsFaultySome, IsTextFrom};

use crate::cause::FabricCause;
use common_lines::line::first_line;
use common_lines::stop::{Refusal, Stop};
use fabric_topology::cause::TopologyCause;
use fabric_topology::fact::{Fact, Line, Part};
use fabric_topology::reader::{MOST_LINE, may_end, says};

/// Why bytes are not the text of a fabric: the first line with an error and its first reason, or out of memory.
pub type FabricRefusal = Refusal<FabricCause>;

/// A reader that takes the facts of a text, one by one.
pub(crate) trait Takes {
    /// A fact is valid after those taken so far, and leads to this state.
    ghost adds: { Self → Fact → Self → Type 0 };

    /// A fact is invalid there, and this is the first reason.
    ghost is_faulty: { Self → Fact → FabricCause → Type 0 };

    /// Takes a fact.
    ///
    /// # Errors
    /// The first reason for which the fact is invalid, or out of memory.
    fn take(&mut self, fact: Fact) -> Result<(), Stop<FabricCause>>
        ensures { IsStep result (adds self.old fact self.new) (is_faulty self.old fact) };
}

/// Takes the facts of all lines of a text. The caller must pass fewer than 2^32 - 1 bytes.
///
/// # Errors
/// The first line with an error and its first reason, or out of memory.
pub(crate) fn read_lines<T: Takes>(told: &mut T, bytes: &[u8]) -> Result<(), FabricRefusal>
    requires { length bytes.now < 2 ^ 32 - 1 }
    ensures text { OnOk result (IsTextFrom T.adds told.old bytes.now told.new) }
    ensures fault { IfErr result (IsRefusalBy (IsFaultFrom T.adds T.is_faulty told.old bytes.now)) }
{
    let mut part = Part::Start;
    let mut rest = bytes;
    let mut line = 1u32;
    'lines: while let Some((first, after)) = first_line(rest) {
        if let Err(stop) = read_line(told, &mut part, first) {
            return Err(stop.at(line));
        }
        line += 1;
        rest = after;
    }
    if !may_end(part) {
        return Err(Refusal::Fault {
            line,
            cause: FabricCause::Text(TopologyCause::NoEnd),
        });
    }
    Ok(())
}

// Takes the facts of one line, without its end.
fn read_line<T: Takes>(told: &mut T, part: &mut Part, line: &[u8]) -> Result<(), Stop<FabricCause>>
    ensures { IsStep result (AddsLine T.adds (part.old, told.old) line.now (part.new, told.new))
        (IsFaultyLine T.adds T.is_faulty (part.old, told.old) line.now) }
{
    if line.len() > MOST_LINE {
        return Err(Stop::Fault(FabricCause::Text(TopologyCause::LineTooLong)));
    }
    let Some(said) = says(*part, line) else {
        return Err(Stop::Fault(FabricCause::Text(TopologyCause::UnknownLine)));
    };
    *part = said.part;
    take_all(told, said)
}

// Takes the facts that a line says.
fn take_all<T: Takes>(told: &mut T, said: Line) -> Result<(), Stop<FabricCause>>
    ensures { IsStep result (AddsFacts T.adds told.old said told.new)
        (HasFaultyFact T.adds T.is_faulty told.old said) }
{
    take_some(told, said.first)?;
    take_some(told, said.second)?;
    take_some(told, said.third)
}

// Takes a fact, if there is one.
fn take_some<T: Takes>(told: &mut T, fact: Option<Fact>) -> Result<(), Stop<FabricCause>>
    ensures { IsStep result (AddsSome T.adds told.old fact told.new)
        (IsFaultySome T.adds T.is_faulty told.old fact) }
{
    match fact {
        Some(fact) => told.take(fact),
        None => Ok(()),
    }
}
