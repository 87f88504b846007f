//! The report of a journal, as far as a sink takes it, and its replay without a report.

ghost use Rattle.report.specs.Events.{HasLegalEnd};

use an_base::event::{Event, Journal};
use an_base::place::Place;
use net_script::reader::read;
use net_script::script::Script;
use net_state::ending::Ending;
use outside::memory::MemorySink;
use replay::world::replay;
use report::reporter::{reported, write};
use std::alloc::Global;
use std::process::Abort;
use std::test::Fail;

const ALONE: &[u8] = b"autonet 1\nlimit events 100\nlimit blocks 1\nswitch A 000000000001\nend\n";

const REPORT: &[u8] = b"report 1\n2 A join 1\n2 A finish 1 root A members 1\n\
    3 A load 1 number 1\nrow A 0\nend settled tick 0 events 3\n";

// Returns a script with one switch.
fn alone(alloc: Global) -> Result<Script, Fail> {
    match read(alloc, ALONE) {
        Ok(script) => Ok(script),
        Err(_refusal) => Err("no script".into()),
    }
}

// Returns the events of its history.
fn history(alloc: Global) -> Result<Journal, Fail> {
    let mut journal = Journal::new(alloc);
    for event in [
        Event::Clock { s: Place(0) },
        Event::Handle { s: Place(0) },
        Event::Load { s: Place(0) },
    ] {
        journal.push(event)?;
    }
    Ok(journal)
}

// Asserts that the report is written as far as a sink with this much space takes it.
fn is_written<R: Abort + AllocGlobal>(
    rt: &R,
    script: &Script,
    journal: &Journal,
    room: usize,
) -> Result<(), Fail>
    requires { HasLegalEnd script.now journal.now }
{
    let mut sink = MemorySink::new(rt.alloc(), room, Vec::new(rt.alloc()))?;
    let is_whole = write(rt.alloc(), script, journal, &mut sink).is_ok();
    assert_eq!(rt; is_whole, room == REPORT.len());
    assert_eq!(rt; sink.bytes(), REPORT.get(..room).unwrap_or(REPORT));
    Ok(())
}

// Asserts that the report is that of the journal, and is so written to sinks with space for all and
// for less.
fn is_reported<R: Abort + AllocGlobal>(
    rt: &R,
    script: &Script,
    journal: &Journal,
) -> Result<(), Fail> {
    match reported(rt.alloc(), script, journal) {
        Ok(report) => {
            assert_eq!(rt; report.text.as_slice(), REPORT);
            is_written(rt, script, journal, REPORT.len())?;
            is_written(rt, script, journal, 30)
        }
        Err(_refusal) => Err("no report".into()),
    }
}

#[test]
fn a_report_is_written_as_far_as_the_sink_takes_it(rt: HostRuntime) -> Result<(), Fail> {
    let script = alone(rt.alloc())?;
    is_reported(&rt, &script, &history(rt.alloc())?)
}

#[test]
fn a_journal_is_replayed_to_its_end(rt: HostRuntime) -> Result<(), Fail> {
    let script = alone(rt.alloc())?;
    let end = match replay(rt.alloc(), &script, &history(rt.alloc())?) {
        Ok(world) => Some(world.end()),
        Err(_refusal) => None,
    };
    assert!(rt; matches!(end, Some(Ending::Settled)));
    Ok(())
}
