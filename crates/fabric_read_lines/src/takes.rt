//! The trait of values that take the lines of a text.

ghost use Rattle.std.specs.Prelude.{◌≡◌, ◌+◌, ◌-◌, ◌<◌, ◌≤◌, ◌^◌, ◌↔◌, ℕ, List, IfOk, IfErr, IsTrue, OnOk, length};
ghost use Rattle.common_lines.specs.Stops.{IsStep};
ghost use Rattle.fabric_model.specs.Fabric.{FabricOf};
ghost use Rattle.fabric_read_lines.specs.Pieces.{IsFirstFaulty, IsTakenInPlace};

use common_lines::stop::Stop;
use fabric_model::fabric::Fabric;
use fabric_words::text_cause::TextCause;
use std::alloc::Global;

/// A value that takes the lines of a text about a fabric, one by one.
pub trait TakesLines<Cause: TextCause> {
    /// The value is ready to take a line.
    ghost is_fit: { FabricOf → Self → Type 0 };

    /// The number of lines that it counted.
    ghost count: { Self → ℕ };

    /// A line is valid after those taken so far, and leads to this state.
    ghost adds: { FabricOf → Self → List ℕ → Self → Type 0 };

    /// A line is invalid there, and this is the first reason.
    ghost is_faulty: { FabricOf → Self → List ℕ → Cause → Type 0 };

    /// The text can end there.
    ghost is_ended: { Self → Type 0 };

    /// Takes a line, without its line end. The caller must pass a value that is fit and has counted fewer than 2^64 - 1
    /// lines.
    ///
    /// # Errors
    /// The first reason for which the line is invalid, or out of memory.
    fn take(&mut self, alloc: Global, fabric: &Fabric, line: &[u8]) -> Result<(), Stop<Cause>>
        requires fit { is_fit fabric.now self.old }
        requires few { count self.old < 2 ^ 64 - 1 }
        ensures step { IsStep result (adds fabric.now self.old line.now self.new)
            (is_faulty fabric.now self.old line.now) }
        ensures fit { OnOk result (is_fit fabric.now self.new) }
        ensures count { OnOk result (count self.new ≤ count self.old + 1) };

    /// Takes the first line of `bytes`, if it recognises that line before its end is searched for, and returns the
    /// index of the line feed that ends it. Returns `None` if it took nothing. The caller must pass a value that is fit
    /// and has counted fewer than 2^64 - 1 lines.
    ///
    /// # Errors
    /// The first reason for which the line is invalid, or out of memory.
    fn take_in_place(&mut self, fabric: &Fabric, bytes: &[u8]) -> Result<Option<usize>, Stop<Cause>>
        requires fit { is_fit fabric.now self.old }
        requires few { count self.old < 2 ^ 64 - 1 }
        ensures taken { IfOk result (IsTakenInPlace (adds fabric.now) bytes.now self.old self.new) }
        ensures faulty { IfErr result (IsFirstFaulty (is_faulty fabric.now) bytes.now self.old) }
        ensures fit { OnOk result (is_fit fabric.now self.new) }
        ensures count { OnOk result (count self.new ≤ count self.old + 1) }
    {
        Ok(None)
    }

    /// Reports whether the text can end here.
    fn may_end(&self) -> bool
        ensures { IsTrue result ↔ is_ended self.now };

    /// A line of more than 4,096 bytes is invalid for that reason.
    ghost long: { (fabric : FabricOf) (told : Self) (line : List ℕ) → 4096 < length line
        → is_faulty fabric told line Cause.too_long };
}
