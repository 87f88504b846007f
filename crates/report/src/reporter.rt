//! The report of a journal.

ghost use Rattle.std.specs.Prelude.{◌≡◌, ◌<◌, ◌-◌, ◌^◌, length, IfErr, IfOk, OnOk, Err};
ghost use Rattle.net_world.specs.World.{world_after};
ghost use Rattle.net_settling.specs.Claims.{HoldsAndSettles};
ghost use Rattle.outside.specs.Told.{Failed, Gains, GainsFront, IsNoLess};
ghost use Rattle.replay.specs.Replays.{IfIllegal, IsNoReplay, IsRefusal};
ghost use Rattle.replay.specs.declared.refusal.ReplayRefusal.TheVariants as refusal;
ghost use Rattle.report.specs.Events.{HasLegalEnd, IsReport, IsReportOf, report_text};
ghost use Rattle.row_text.specs.Names.{life_text};
ghost use Rattle.report.specs.declared.reporter.ReportStop.TheVariants as stop;

use crate::listener::{tell, tell_journal};
use crate::telling::{Telling, first_line};
use an_base::event::Journal;
use an_base::life::Life;
use common_values::memory::OutOfMemory;
use common_values::text::Word;
use net_script::script::Script;
use net_state::ending::Ending;
use outside::all::{WriteFault, write_all};
use outside::sink::Sink;
use replay::refusal::ReplayRefusal;
use row_text::piece::life_word;
use std::alloc::Global;

/// Why a report was not written.
#[derive(Clone, Copy, Debug, PartialEq, Eq)]
pub enum ReportStop {
    /// The sink failed. It has a prefix of the report.
    WriteFault,
    /// An allocation failed. The sink has a prefix of the report.
    OutOfMemory,
}

impl From<OutOfMemory> for ReportStop {
    ghost from_gives = { λ _ result. result ≡ stop.OutOfMemory };

    fn from(_value: OutOfMemory) -> Self {
        ReportStop::OutOfMemory
    }
}

impl From<WriteFault> for ReportStop {
    ghost from_gives = { λ _ result. result ≡ stop.WriteFault };

    fn from(_value: WriteFault) -> Self {
        ReportStop::WriteFault
    }
}

/// A report, and what the journal came to.
#[derive(Drop)]
pub struct Report {
    /// The text.
    pub text: Vec<u8>,
    /// The end.
    pub end: Ending,
    /// The tick at the end.
    pub tick: u32,
}

/// Returns the report of a legal journal.
///
/// # Errors
/// `Illegal` with the line of the first event that is not lawful, or with the last line if the journal comes to no
/// end; or `OutOfMemory`, which says nothing about the journal.
pub fn reported(alloc: Global, script: &Script, journal: &Journal) -> Result<Report, ReplayRefusal>
    ensures report { IfOk result (λ report. IsReport script.now journal.now report.end report.text.items) }
    ensures tick { IfOk result (λ report. report.tick ≡ (world_after script.now journal.now).fabric.tick) }
    ensures refused { IfErr result (IsRefusal script.now journal.now) }
{
    let mut telling = Telling::begin(alloc, script)?;
    let mut text = first_line(alloc)?;
    let end = tell_journal(alloc, script, journal, &mut telling, &mut text)?;
    Ok(Report {
        end,
        tick: telling.course().tick(),
        text,
    })
}

/// Returns the report of the legal journal with whose text `bytes` begins. Its events are made as they are read.
/// The caller must pass fewer than 2^32 - 1 bytes.
///
/// # Errors
/// `Illegal` with the first error of a text that is not a journal, or why the journal is not legal; or
/// `OutOfMemory`, which says nothing about `bytes`.
pub fn reported_text(alloc: Global, script: &Script, bytes: &[u8]) -> Result<Report, ReplayRefusal>
    requires few { length bytes.now < 2 ^ 32 - 1 }
    ensures report { IfOk result (λ report.
        IsReportOf script.now bytes.now report.end report.tick report.text.items) }
    ensures refused { IfErr result (λ why. IfIllegal why (IsNoReplay script.now bytes.now)) }
{
    let mut telling = Telling::begin(alloc, script)?;
    let mut text = first_line(alloc)?;
    let end = tell(alloc, script, bytes, &mut telling, &mut text)?;
    Ok(Report {
        end,
        tick: telling.course().tick(),
        text,
    })
}

// Returns why a report stops at a legal journal, which is rejected only if memory runs out.
fn stop_of(why: ReplayRefusal) -> ReportStop
    requires { why ≡ refusal.OutOfMemory }
    ensures { result ≡ stop.OutOfMemory }
{
    match why {
        ReplayRefusal::Illegal { .. } => unreachable!(),
        ReplayRefusal::OutOfMemory => ReportStop::OutOfMemory,
    }
}

/// Writes the report of `journal`, which must be legal. All that is claimed of a history holds of it.
///
/// # Errors
/// `WriteFault` if `sink` failed, or `OutOfMemory`; `sink` then has a prefix of the report.
pub fn write<K: Sink>(
    alloc: Global,
    script: &Script,
    journal: &Journal,
    sink: &mut K,
) -> Result<(), ReportStop>
    requires legal { HasLegalEnd script.now journal.now }
    ensures claims { OnOk result (HoldsAndSettles script.now journal.now) }
    ensures all { OnOk result (Gains (K.seen sink.old) (K.seen sink.new)
        (report_text script.now journal.now)) }
    ensures front { GainsFront (K.seen sink.old) (K.seen sink.new) (report_text script.now journal.now) }
    ensures fault { result ≡ Err stop.WriteFault → Failed (K.seen sink.old) (K.seen sink.new) }
    ensures kept { IsNoLess (K.seen sink.old) (K.seen sink.new) }
{
    match reported(alloc, script, journal) {
        Ok(report) => {
            write_all(sink, &report.text)?;
            Ok(())
        }
        Err(why) => Err(stop_of(why)),
    }
}

/// Returns the printed name of `life`.
///
/// # Errors
/// `OutOfMemory` if an allocation fails.
pub fn life_name(alloc: Global, script: &Script, life: Life) -> Result<Word, OutOfMemory>
    ensures { IfOk result (λ name. name ≡ life_text script.now life) }
{
    Ok(Word::new(life_word(alloc, script, life)?))
}
