//! Calls over streams in memory: however much one read gives, and where a stream fails.

use crate::calls::{Streams, answer};
use std::alloc::Global;
use std::process::Abort;
use std::sync::Wait;
use std::test::Fail;
use std::thread::Threads;
use switch_threads::Open;

const TWO_EXPECTED: &[u8] =
    b"component A members 2\nmember A level 0\nmember B level 1 parent A port 1\nnumber A 1\nnumber B 2\nrow A 0 2:1\nrow A 1 2:1\nrow B 0 1:1\nrow B 1 1:-\nend\n";

const USAGE: &[u8] =
    b"usage: autonet expect, run, replay, check, flow B, flood, names or gen SEED N\n";

// Asserts the status of a call with one argument, and what `out` and `err` have then.
fn is_answered<R: Threads + Wait + Sync + Abort>(
    rt: &R,
    alloc: Global,
    word: &[u8],
    streams: &mut Streams,
    status: u8,
    out: &[u8],
    err: &[u8],
) -> Result<(), Fail> {
    assert_eq!(rt; answer(rt, alloc, &Open, &[word], streams)?, status);
    assert_eq!(rt; streams.out.bytes(), out);
    assert_eq!(rt; streams.err.bytes(), err);
    Ok(())
}

#[test]
fn an_answer_is_the_same_however_much_one_read_gives(rt: HostRuntime) -> Result<(), Fail> {
    for cut in [1, 7, 1000] {
        let mut streams = Streams::new(rt.alloc(), cut, &[], 1_000, 1_000)?;
        is_answered(
            &rt,
            rt.alloc(),
            b"expect",
            &mut streams,
            0,
            TWO_EXPECTED,
            b"",
        )?;
    }
    Ok(())
}

#[test]
fn a_read_that_fails_at_any_place_is_told(rt: HostRuntime) -> Result<(), Fail> {
    for failing in 1..9u32 {
        let mut streams = Streams::new(rt.alloc(), 10, &[failing], 1_000, 1_000)?;
        is_answered(
            &rt,
            rt.alloc(),
            b"expect",
            &mut streams,
            4,
            b"",
            b"autonet: read fault\n",
        )?;
    }
    Ok(())
}

#[test]
fn a_write_that_fails_at_any_place_is_told(rt: HostRuntime) -> Result<(), Fail> {
    for room in [0, 1, 30, 140] {
        let mut streams = Streams::new(rt.alloc(), 100, &[], room, 1_000)?;
        let front = TWO_EXPECTED.get(..room).unwrap_or(TWO_EXPECTED);
        is_answered(
            &rt,
            rt.alloc(),
            b"expect",
            &mut streams,
            5,
            front,
            b"autonet: write fault\n",
        )?;
    }
    Ok(())
}

#[test]
fn a_line_that_err_does_not_take_is_a_write_fault(rt: HostRuntime) -> Result<(), Fail> {
    for room in [0, 5] {
        let mut streams = Streams::new(rt.alloc(), 100, &[], 1_000, room)?;
        let front = USAGE.get(..room).unwrap_or(USAGE);
        is_answered(&rt, rt.alloc(), b"walk", &mut streams, 5, b"", front)?;
    }
    Ok(())
}
