//! The reader of ranks.

ghost use Rattle.std.specs.Prelude.{◌≡◌, ◌<◌, ◌-◌, ◌^◌, length, IfErr, IfOk, OnOk};
ghost use Rattle.common_lines.specs.Chains.{LeadsBy};
ghost use Rattle.common_lines.specs.Lines.{lines_of};
ghost use Rattle.common_lines.specs.Stops.{IsRefusalBy};
ghost use Rattle.fabric_read_ranks.specs.Ranks.{AddsTo, HasBegun, IsRanksFault, IsRanksText, none_told};
ghost use Rattle.fabric_read_ranks.specs.Readings.{told_of};

use crate::reading::Reading;
use common_lines::line::first_line;
use common_lines::stop::Refusal;
use fabric_model::fabric::Fabric;
use fabric_words::ranks_cause::RanksCause;
use std::alloc::Global;

/// Why bytes are not the text of ranks: the first line with an error and its first reason, or out of memory.
pub type RanksRefusal = Refusal<RanksCause>;

/// Parses ranks, by the numbers of channels: the rank of the channel out of port p of switch s is at index s times the
/// most ports of a switch, plus p - 1; it is 0 if the text gives none. The caller must pass fewer than 2^32 - 1 bytes.
///
/// # Errors
/// The first line of `bytes` with an error, and its first reason; or `OutOfMemory`, which says nothing about `bytes`.
pub fn read_ranks(alloc: Global, fabric: &Fabric, bytes: &[u8]) -> Result<Vec<u32>, RanksRefusal>
    requires few { length bytes.now < 2 ^ 32 - 1 }
    ensures text { IfOk result (λ ranks. IsRanksText fabric.now bytes.now ranks.items) }
    ensures fault { IfErr result (IsRefusalBy (IsRanksFault fabric.now bytes.now)) }
{
    let mut reading = Reading::new(alloc, fabric)?;
    read_lines(&mut reading, alloc, fabric, bytes)?;
    Ok(reading.ranks(alloc)?)
}

// Adds what all lines of the bytes say to what no lines say.
fn read_lines(
    reading: &mut Reading,
    alloc: Global,
    fabric: &Fabric,
    bytes: &[u8],
) -> Result<(), RanksRefusal>
    requires few { length bytes.now < 2 ^ 32 - 1 }
    requires none { told_of reading.old ≡ none_told fabric.now }
    ensures good { OnOk result
        (LeadsBy (AddsTo fabric.now) (none_told fabric.now) (lines_of bytes.now) (told_of reading.new)) }
    ensures begun { OnOk result (HasBegun (told_of reading.new)) }
    ensures fault { IfErr result (IsRefusalBy (IsRanksFault fabric.now bytes.now)) }
{
    let mut rest = bytes;
    let mut line = 1u32;
    'lines: while let Some((first, after)) = first_line(rest) {
        if let Err(stop) = reading.add_line(alloc, fabric, first) {
            return Err(stop.at(line));
        }
        line += 1;
        rest = after;
    }
    if !reading.has_begun() {
        return Err(Refusal::Fault {
            line,
            cause: RanksCause::NoHead,
        });
    }
    Ok(())
}
