//! A journal with its report, and the status of its end.

ghost use Rattle.std.specs.Prelude.{◌≡◌, ◌≤◌, length, IfErr, IfOk};
ghost use Rattle.replay.specs.Replays.{IfIllegal, IsNoReplay, IsRefusal};
ghost use Rattle.autonet_call.specs.Answer.{IsEnding, input_limit};
ghost use Rattle.commands.specs.Reported.{IsReported, IsReportedText, status_of_end};

use autonet_call::command::Given;
use autonet_call::status::Status;
use common_values::memory::OutOfMemory;
use net_script::script::Script;
use net_state::ending::Ending;
use replay::refusal::ReplayRefusal;
use report::reporter::{Report, life_name, reported_text};
use std::alloc::Global;

// Returns the status of a journal with this end, at this tick.
fn status_of(alloc: Global, script: &Script, end: Ending, tick: u32) -> Result<Status, OutOfMemory>
    ensures status { IfOk result (λ status. status ≡ status_of_end script.now tick end) }
    ensures ends { IfOk result IsEnding }
{
    Ok(match end {
        Ending::Settled => Status::Ok,
        Ending::Unsettled => Status::Unsettled { tick },
        Ending::Full => Status::JournalFull,
        Ending::Spent(life) => Status::EpochsSpent {
            name: life_name(alloc, script, life)?,
        },
    })
}

/// Returns a report with the status of the end of its journal.
///
/// # Errors
/// `OutOfMemory` if an allocation fails.
pub fn given(alloc: Global, script: &Script, report: Report) -> Result<Given, OutOfMemory>
    ensures status { IfOk result (λ given. given.status ≡ status_of_end script.now report.tick report.end) }
    ensures ends { IfOk result (λ given. IsEnding given.status) }
    ensures text { IfOk result (λ given. given.text.items ≡ report.text.items) }
{
    let status = status_of(alloc, script, report.end, report.tick)?;
    Ok(Given {
        status,
        text: report.text,
    })
}

/// Returns the report of the legal journal with whose text `bytes` begins, with the status of its end. The caller
/// must pass at most 2^28 bytes.
///
/// # Errors
/// `Illegal` with the first error of a text that is not a journal, or why the journal is not legal; or
/// `OutOfMemory`, which says nothing about `bytes`.
pub fn told_text(alloc: Global, script: &Script, bytes: &[u8]) -> Result<Given, ReplayRefusal>
    requires few { length bytes.now ≤ input_limit }
    ensures reported { IfOk result (λ given.
        IsReportedText script.now bytes.now given.status given.text.items) }
    ensures ends { IfOk result (λ given. IsEnding given.status) }
    ensures refused { IfErr result (λ why. IfIllegal why (IsNoReplay script.now bytes.now)) }
{
    let report = reported_text(alloc, script, bytes)?;
    Ok(given(alloc, script, report)?)
}
