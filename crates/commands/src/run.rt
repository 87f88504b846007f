//! The command `run`. It is not a `Command`, because the calls of a `Command` start no threads.

ghost use Rattle.std.specs.Prelude.{◌≡◌, ◌⊎◌, ◌≤◌, All, length, IfErr, IfOk};
ghost use Rattle.journal.specs.Events.{CanSpell, journal_text};
ghost use Rattle.net_script.specs.Scripts.{IsScript};
ghost use Rattle.common_call.specs.Inputs.{IsInput};
ghost use Rattle.autonet_call.specs.declared.status.Status.TheVariants as ended;
ghost use Rattle.autonet_call.specs.Answer.{streams, IsCause, IsEnding, IsStop, input_limit};
ghost use Rattle.commands.specs.Reported.{IsReported};
ghost use Rattle.commands.specs.Run.{IsRun, IsToldRun, gives_run};
ghost use Rattle.autonet_call.specs.Scripted.{refuses_script};
ghost use Rattle.commands.specs.Words.{IsRunAnswer};

use crate::reported::given as given_of;
use autonet_call::command::Given;
use autonet_call::input::INPUT_LIMIT;
use autonet_call::status::{Status, finish};
use common_call::input::read_input;
use common_values::memory::OutOfMemory;
use journal::printer::print;
use net_script::reader::read;
use net_script::script::Script;
use outside::all::write_all;
use outside::sink::Sink;
use outside::source::Source;
use report::retelling::retold;
use std::alloc::Global;
use std::sync::Wait;
use std::thread::{Threads, join};
use switch_threads::{Gate, Told};

// Returns the report of a run, with the status of its end.
fn report_of(alloc: Global, script: &Script, told: &Told) -> Result<Given, OutOfMemory>
    requires { IsToldRun script.now told.now }
    ensures reported { IfOk result (λ given.
        IsReported script.now told.now.run.journal given.status given.text.items) }
    ensures ends { IfOk result (λ given. IsEnding given.status) }
{
    let journal = &told.run.journal;
    let report = retold(alloc, script, journal, told.run.end, &told.accounts)?;
    given_of(alloc, script, report)
}

// Returns the text of the journal of a run and, after it, its report, with the status of its end. The two are made
// in parallel.
fn printed<R: Threads + Sync>(
    rt: &R,
    alloc: Global,
    script: &Script,
    told: &Told,
) -> Result<Given, OutOfMemory>
    requires kept { IsScript script.now }
    requires told { IsToldRun script.now told.now }
    ensures run { IfOk result (λ given. IsRun script.now given.status given.text.items) }
    ensures ends { IfOk result (λ given. IsEnding given.status) }
{
    let (text, report) = join(
        rt,
        || -> Result<Vec<u8>, OutOfMemory>
            requires { All (CanSpell script.now) told.now.run.journal }
            ensures { IfOk result (λ text. text.items ≡ journal_text script.entry.now told.entry.now.run.journal) }
        { print(alloc, script, &told.run.journal) },
        || -> Result<Given, OutOfMemory>
            requires { IsToldRun script.now told.now }
            ensures { IfOk result (λ given.
                IsReported script.entry.now told.entry.now.run.journal given.status given.text.items
                × IsEnding given.status) }
        { report_of(alloc, script, told) },
    );
    let mut text = text?;
    let report = report?;
    text.extend_from_slice(&report.text)?;
    Ok(Given {
        status: report.status,
        text,
    })
}

// Runs the network of a script, and returns the text and the status of the run.
fn ran<R: Threads + Wait + Sync, G: Gate>(
    rt: &R,
    gate: &G,
    alloc: Global,
    script: Script,
) -> Result<Given, OutOfMemory>
    requires { IsScript script }
    ensures run { IfOk result (λ given. IsRun script given.status given.text.items) }
    ensures ends { IfOk result (λ given. IsEnding given.status) }
{
    let told = switch_threads::run(rt, alloc, &script, gate)?;
    printed(rt, alloc, &script, &told)
}

// Runs the network of the script whose text is `bytes`, and returns the text and the status of the run, or the
// status that says why there is none.
#[tactic(auto, using(net_script::proofs::ScriptKept::text_kept))]
fn given<R: Threads + Wait + Sync, G: Gate>(
    rt: &R,
    gate: &G,
    alloc: Global,
    bytes: &[u8],
) -> Result<Given, Status>
    requires { length bytes.now ≤ input_limit }
    ensures given { IfOk result (λ given. gives_run bytes.now given.status given.text.items) }
    ensures ends { IfOk result (λ given. IsEnding given.status) }
    ensures stopped { IfErr result (λ status.
        refuses_script bytes.now status ⊎ (status ≡ ended.OutOfMemory)) }
{
    let script = read(alloc, bytes)?;
    Ok(ran(rt, gate, alloc, script)?)
}

// Runs the network of the script in the source, and returns the text and the status of the run, or why there is
// none.
fn found<R: Threads + Wait + Sync, G: Gate, S: Source>(
    rt: &R,
    gate: &G,
    alloc: Global,
    source: &mut S,
) -> Result<Given, Status>
    ensures given { IfOk result (λ given. IsInput input_limit
        (λ bytes. gives_run bytes given.status given.text.items)
        (S.seen source.old) (S.seen source.new)) }
    ensures ends { IfOk result (λ given. IsEnding given.status) }
    ensures stopped { IfErr result (IsStop input_limit refuses_script
        (S.seen source.old) (S.seen source.new)) }
{
    let bytes = read_input(alloc, source, INPUT_LIMIT)?;
    given(rt, gate, alloc, &bytes)
}

// Writes the text to `out`, and returns the status, or why there is no text.
fn status_of<R: Threads + Wait + Sync, G: Gate, S: Source, O: Sink>(
    rt: &R,
    gate: &G,
    alloc: Global,
    source: &mut S,
    out: &mut O,
) -> Status
    ensures { IsCause input_limit gives_run refuses_script
        (S.seen source.old) (S.seen source.new) (O.seen out.old) (O.seen out.new) result }
{
    let given = match found(rt, gate, alloc, source) {
        Ok(given) => given,
        Err(status) => return status,
    };
    match write_all(out, &given.text) {
        Ok(()) => given.status,
        Err(_fault) => Status::WriteFault,
    }
}

/// Runs `run`: reads a script from `source`, runs its network with a worker for each switch, and writes the journal
/// of the run, and after it its report, to `out`. `gate` is called around each turn of a worker. Up to four workers
/// have a thread each, and so do more if workers can wait for one another at the gate; otherwise two threads have
/// half of the workers each. Returns the number of a status, whose line goes to `err`. The call can run for ever,
/// as `switch_threads::run` can.
///
/// If `source` fails or has more bytes than the limit, if it has no script, or if memory runs out, `out` is
/// unchanged. No thread is started before the whole script is read.
pub fn autonet_run<R: Threads + Wait + Sync, G: Gate, S: Source, O: Sink, E: Sink>(
    rt: &R,
    gate: &G,
    alloc: Global,
    source: &mut S,
    out: &mut O,
    err: &mut E,
) -> u8
    ensures { IsRunAnswer
        (streams (S.seen source.old) (O.seen out.old) (E.seen err.old))
        (streams (S.seen source.new) (O.seen out.new) (E.seen err.new)) result }
{
    let status = status_of(rt, gate, alloc, source, out);
    finish(err, status)
}
